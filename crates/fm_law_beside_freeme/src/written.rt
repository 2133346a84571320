// Laws of the definitions, each as the contract of a function that does nothing.

ghost use Rattle.fm_law_beside_freeme.specs.Lengths.{AcceptedHaveLengthsAlone};
ghost use Rattle.fm_law_beside_freeme.specs.Written.{WrittenHaveLengthsAlone};

use fm_law_retyped::law_typed;

/// Files that hold class files with a spelling and of the profile, which link and are typed, are
/// refused only for their number or for their lengths, as far as their contents decide.
pub fn law_lengths()
    ensures { AcceptedHaveLengthsAlone }
{}

/// So are files that hold the classes written, unless in one of the methods given a local holds a copy of a
/// held object while its constructor is called, and a handler's range ends right behind that call.
pub fn law_written()
    ensures { WrittenHaveLengthsAlone }
{
    // By this law.
    law_typed();
}
