// Laws of the definitions, each as the contract of a function that does nothing.

ghost use Rattle.std.specs.Prelude.{◌≡◌, None, Some};
ghost use Rattle.fm_audit.specs.Example.{branching, branching_far, freeing, freeing_read, freeing_uncleared, nothing_read, popping};
ghost use Rattle.fm_audit.specs.ReadBack.{WovenIsRead};
ghost use Rattle.fm_audit.specs.Reading.{read};

/// Small methods, gone over by hand: an array that is popped with its holder, the same where the holder
/// isn't null again after it was freed, which is nothing that may be inserted, and a branch that is widened.
pub fn law_example()
    ensures freed { read 13 1 popping freeing ≡ Some freeing_read }
    ensures uncleared { read 13 1 popping freeing_uncleared ≡ None }
    ensures same { read 13 1 popping popping ≡ Some nothing_read }
    ensures widened { read 13 1 branching branching_far ≡ Some nothing_read }
{}

/// New code that is woven by insertions is read as these insertions, however its branches are widened, as
/// long as no site has two holders.
pub fn law_woven_is_read()
    ensures { WovenIsRead }
{}
