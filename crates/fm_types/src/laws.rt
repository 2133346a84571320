// Laws of the definitions, each as the contract of a function that does nothing.

ghost use Rattle.std.specs.Prelude.{◌≡◌, ◌+◌};
ghost use Rattle.fm_base.specs.declared.kinds.Base.TheVariants as base;
ghost use Rattle.fm_types.specs.Example.{array, joined, main_number, of_number, program_with, typed_code, untyped_code};
ghost use Rattle.fm_types.specs.Laws.{FitsIsReflexive, FitsIsTransitive, JoinIsLeast, RowsKeepLongs, RowsKeepOrder};
ghost use Rattle.fm_types.specs.Typed.{Typed};
ghost use Rattle.fm_types.specs.declared.slots.Slot.TheVariants as slot;
ghost use Rattle.fm_world.specs.BuiltIns.{built_in_classes};
ghost use Rattle.fm_world.specs.Descriptors.{of_class};

/// What fits what is an order over the classes of a linked program.
pub fn law_fits()
    ensures reflexive { FitsIsReflexive }
    ensures transitive { FitsIsTransitive }
{}

/// The join of two types is the least type that both fit; of several such the one that names no
/// interface.
pub fn law_join()
    ensures { JoinIsLeast }
{}

/// Each row of the instructions keeps the order of states: one that fits another one meets each row that
/// the other meets, and is left with what fits. No row splits a long.
pub fn law_rows()
    ensures order { RowsKeepOrder }
    ensures longs { RowsKeepLongs }
{}

/// Two methods that are written out by hand: one makes an object and keeps it, with a handler around,
/// and is typed; the other one loads a reference as an int, and isn't.
pub fn law_example()
    ensures typed { Typed (program_with typed_code) main_number }
    ensures untyped { ¬ Typed (program_with untyped_code) main_number }
{}

/// Joins in a program whose classes are given by their numbers: of two exceptions with the
/// superclass `RuntimeException`; of arrays of a class and of its superclass; of two interfaces,
/// and of one with itself; of arrays that aren't level; of null and a type; of different kinds.
pub fn law_join_examples()
    ensures related { joined (of_number 13) (of_number 18) ≡ of_number 11 }
    ensures level { joined (array 1 (of_class (built_in_classes + 2))) (array 1 (of_class (built_in_classes + 1)))
        ≡ array 1 (of_class (built_in_classes + 1)) }
    ensures interfaces { joined (of_number 26) (of_number 27) ≡ of_number 0 }
    ensures same_interface { joined (of_number 26) (of_number 26) ≡ of_number 26 }
    ensures unlike { joined (array 1 base.Int) (array 2 (of_class 1)) ≡ of_number 0 }
    ensures deep { joined (array 2 base.Int) (array 3 (of_class 1)) ≡ array 1 (of_class 0) }
    ensures null { joined slot.Null (of_number 26) ≡ of_number 26 }
    ensures kinds { joined slot.Int slot.Null ≡ slot.Top }
{}
