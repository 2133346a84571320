// Laws of the definitions, each as the contract of a function that does nothing.

ghost use Rattle.fm_rewrite.specs.Alike.{ClassesArePlannedAlike, MembersArePlannedAlike};
ghost use Rattle.fm_rewrite.specs.Plans.{FullPlansMayBeWoven, ProgramsHaveOldItems};

/// The codes of a program of class files that may be analysed are made of items that can be laid out
/// again.
pub fn law_old_items()
    ensures { ProgramsHaveOldItems }
{}

/// Where a site is held, a method may be woven by the plan of all that can be inserted: there are
/// locals for its holders and a word of stack, and fewer items result than may be laid out.
pub fn law_full_plans()
    ensures { FullPlansMayBeWoven }
{}

/// What is planned for the methods of class files by the facts of their program is what the definitions
/// insert by them, unless one is too long already while no branch is widened.
pub fn law_alike()
    ensures members { MembersArePlannedAlike }
    ensures classes { ClassesArePlannedAlike }
{}
