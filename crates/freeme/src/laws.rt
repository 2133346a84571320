// What is proved of the classes that are written, as the contract of one function that does nothing.

ghost use Rattle.fm_law_beside_freeme.specs.Lengths.{AcceptedHaveLengthsAlone};
ghost use Rattle.fm_law_beside_freeme.specs.Written.{WrittenHaveLengthsAlone};
ghost use Rattle.fm_law_chains.specs.Chains.{ChainedClassesDoTheSame, ChainedClassesFreeAll};
ghost use Rattle.fm_law_headline.specs.Headline.{ClassesDoTheSame, NarrowedClassesDoTheSame};
ghost use Rattle.fm_law_headline.specs.Taken.{CheckedAreTaken};
ghost use Rattle.fm_law_relinked.specs.Again.{ChainedClassesLink, SafeClassesLink};
ghost use Rattle.fm_law_retyped.specs.Retyped.{ChainedClassesAreTyped, SafeClassesAreTyped};

use fm_law_beside_freeme::{law_lengths, law_written};
use fm_law_chains::law_chains;
use fm_law_headline::{law_headline, law_rapid, law_taken};
use fm_law_relinked::law_links;
use fm_law_retyped::{law_chained_typed, law_typed};

/// Classes that are written link, their methods are typed, and files that hold them are taken, without chains and
/// with them. Where what was read is taken they do what it does, also by a narrowed program; and with chains all
/// is freed that a site in a loop gave.
pub fn law_written_classes()
    ensures links { SafeClassesLink }
    ensures typed { SafeClassesAreTyped }
    ensures files { WrittenHaveLengthsAlone }
    ensures chains_link { ChainedClassesLink }
    ensures chains_typed { ChainedClassesAreTyped }
    ensures accepted { AcceptedHaveLengthsAlone }
    ensures taken { CheckedAreTaken }
    ensures same { ClassesDoTheSame }
    ensures narrow { NarrowedClassesDoTheSame }
    ensures chains_same { ChainedClassesDoTheSame }
    ensures chains_all { ChainedClassesFreeAll }
{
    // By these laws.
    law_links();
    law_typed();
    law_chained_typed();
    law_written();
    law_lengths();
    law_taken();
    law_headline();
    law_rapid();
    law_chains();
}
