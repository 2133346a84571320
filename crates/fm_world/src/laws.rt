// Laws of the definitions, each as the contract of a function that does nothing.

ghost use Rattle.std.specs.Prelude.{◌≡◌, ◌+◌, ◌<◌, ℕ, List, Result, true, false, [], ◌∷◌, codes, drop, length, nat_eq, Some, slice_get};
ghost use Rattle.std.specs.List.{filter_map, flat_map, list_all, list_any, range_with_len};
ghost use Rattle.std.specs.Option.{option_map};
ghost use Rattle.fm_code.specs.declared.class_file.ClassDef.{ClassDef};
ghost use Rattle.fm_world.specs.Acyclic.{IsAcyclic};
ghost use Rattle.fm_world.specs.BuiltIns.{builder_row, built_in, built_in_classes, built_in_methods, built_in_rows, free_me_row, string_row, throwable_row};
ghost use Rattle.fm_world.specs.Numbers.{type_number, type_of_class, types_of};
ghost use Rattle.fm_world.specs.declared.built_in_methods.TheConstants.{BUILDER_ROW, BUILT_IN_METHODS, FREE_ME_ROW, STRING_ROW, THROWABLE_ROW};
ghost use Rattle.fm_world.specs.declared.built_ins.TheConstants.{BUILT_IN_CLASSES};
ghost use Rattle.fm_world.specs.declared.declarations.DeclaredClass.{DeclaredClass};
ghost use Rattle.fm_world.specs.inner.Tables.{IsLinear};
ghost use Rattle.fm_world.specs.Rows.{hidden_kinds, row_of};
ghost use Rattle.fm_world.specs.Causes.{BuiltIn, Duplicate, BadParent, MissingClass, MissingField, NotImplemented, NoMain, Refusal};
ghost use Rattle.fm_world.specs.Chains.{is_sub, chain_of, distinct, listed_interfaces, superinterfaces_of};
ghost use Rattle.fm_world.specs.Descriptors.{class_number};
ghost use Rattle.fm_world.specs.Example.{array_types, call_of_k, call_of_to_string, call_on_array, called_in_packages, castable, not_castable, example, example_main, example_upper, first_method, main_uses, refusal, with_completion, with_cycle, with_free_me, with_interfaces, with_packages, with_private, with_static_field};
ghost use Rattle.fm_world.specs.Linking.{refusals, IsLinked};
ghost use Rattle.fm_world.specs.Lookups.{constructor_path, select, special_target};
ghost use Rattle.fm_world.specs.Members.{kinds_of, methods_of, size_of, slot_of};
ghost use Rattle.fm_world.specs.Programs.{Program, classes_of, program_of, targets};

/// Facts of the built-in classes: how many there are, with how many methods, and where the rows of
/// some begin, as the code has it; the rows are numbered without a gap in the order in which they
/// first occur; the row of `FreeMe.free`; the constructor of the last throwable has the row of that of
/// `Throwable`; an object of a throwable has one hidden field, which leads to a text.
pub fn law_built_in()
    ensures classes { length built_in ≡ built_in_classes }
    ensures methods { length (methods_of built_in) ≡ built_in_methods }
    ensures counted_classes { BUILT_IN_CLASSES ≡ built_in_classes }
    ensures counted { BUILT_IN_METHODS ≡ built_in_methods }
    ensures begin { STRING_ROW ∷ BUILDER_ROW ∷ THROWABLE_ROW ∷ FREE_ME_ROW ∷ []
        ≡ string_row ∷ builder_row ∷ throwable_row ∷ free_me_row ∷ [] }
    ensures rows { distinct nat_eq (filter_map (λ m. m.method.row) (methods_of built_in))
        ≡ range_with_len 0 built_in_rows }
    ensures free { row_of (codes "FreeMe") (codes "free") (codes "(Ljava/lang/Object;)V")
        ≡ Some free_me_row }
    ensures throwable { row_of (codes "java/lang/Throwable") (codes "<init>") (codes "()V")
        ≡ Some throwable_row }
    ensures last_throwable { row_of (codes "java/lang/CloneNotSupportedException")
        (codes "<init>") (codes "()V") ≡ Some throwable_row }
    ensures hidden { option_map (kinds_of built_in)
        (class_number built_in (codes "java/lang/NullPointerException")) ≡ Some hidden_kinds }
{}

/// The definitions at interfaces and at private methods: superinterfaces come in listed order, each
/// once; an abstract method of one is missed; a private method isn't selected for another one, but for
/// itself, and a special call finds it; a method for a package is overridden in it, and in another one
/// below a public method that overrides it. And at files with the names of built-in classes: one that
/// completes StringBuilder is right above it, whose objects have its methods, and whose name leads to
/// its constructors; FreeMe has no such file.
pub fn law_lookup_examples()
    ensures interfaces { superinterfaces_of (classes_of with_interfaces) (built_in_classes + 2)
        ≡ (built_in_classes + 1) ∷ 26 ∷ built_in_classes ∷ [] }
    ensures not_implemented { slice_get (refusals with_interfaces (codes "C")) 0
        ≡ Some (refusal NotImplemented (codes "J.m()V") (codes "C")) }
    ensures passed_over { select (classes_of with_private) (built_in_classes + 2) built_in_methods
        ≡ Some built_in_methods }
    ensures itself { select (classes_of with_private) (built_in_classes + 2) (built_in_methods + 1)
        ≡ Some (built_in_methods + 1) }
    ensures special { special_target (classes_of with_private) (built_in_classes + 2)
        (Some built_in_classes) built_in_methods ≡ built_in_methods + 1 }
    ensures packages { filter_map (λ class. select (classes_of with_packages) class
        built_in_methods) (range_with_len built_in_classes 5) ≡ called_in_packages }
    ensures completed { chain_of (classes_of with_completion) 2 ≡ 2 ∷ built_in_classes ∷ 0 ∷ [] }
    ensures added { select (classes_of with_completion) 2 built_in_methods ≡ Some built_in_methods }
    ensures constructors { constructor_path (classes_of with_completion) 2 ≡ 2 ∷ built_in_classes ∷ [] }
    ensures accepted { refusals with_completion (codes "M")
        ≡ refusal NoMain (codes "M") (codes "M") ∷ [] }
    ensures refused { slice_get (refusals with_free_me (codes "M")) 0 ≡ Some (refusal BuiltIn
        (codes "FreeMe") (codes "FreeMe")) }
{}

/// The definitions at three classes that are written out by hand, M, A and B below A: nothing of them
/// is refused, and names, numbers and targets are as a reader counts them.
pub fn law_example()
    ensures accepted { refusals example (codes "M") ≡ [] }
    ensures uses { slice_get (program_of example (codes "M")).uses built_in_classes ≡ Some main_uses }
    ensures types { drop (built_in_classes + 3) (program_of example (codes "M")).outline.types
        ≡ array_types }
    ensures texts { (program_of example (codes "M")).outline.texts ≡ codes "hi" ∷ [] }
    ensures main { (program_of example (codes "M")).outline.main ≡ built_in_methods }
    ensures chain { chain_of (classes_of example) (built_in_classes + 2)
        ≡ (built_in_classes + 2) ∷ (built_in_classes + 1) ∷ 0 ∷ [] }
    ensures size { size_of (classes_of example) (built_in_classes + 2) ≡ 2 }
    ensures slot { slot_of (classes_of example) 4 ≡ 1 }
    ensures selected { select (classes_of example) (built_in_classes + 2) (built_in_methods + 2)
        ≡ Some (built_in_methods + 4) }
    ensures targets { targets (program_of example (codes "M")) call_of_k
        ≡ (built_in_methods + 2) ∷ (built_in_methods + 4) ∷ [] }
    ensures of_object { targets (program_of example (codes "M")) call_of_to_string
        ≡ 3 ∷ (first_method 1 + 5) ∷ (first_method 2 + 7) ∷ (first_method 3 + 7) ∷ (first_method 7 + 3) ∷ [] }
    ensures of_array { targets (program_of example (codes "M")) call_on_array ≡ 3 ∷ [] }
{}

/// What can be cast to what, among classes, interfaces and arrays.
pub fn law_cast_examples()
    ensures castable { list_all (λ pair. is_sub built_in pair.0 pair.1) castable ≡ true }
    ensures not_castable { list_any (λ pair. is_sub built_in pair.0 pair.1) not_castable
        ≡ false }
{}

/// Neighbours of these classes are refused: each with its cause, the name and the class in whose file
/// the name is.
pub fn law_refused_examples()
    ensures duplicate { slice_get (refusals (example_main ∷ example) (codes "M")) 0
        ≡ Some (refusal Duplicate (codes "M") (codes "M")) }
    ensures missing_class { slice_get
        (refusals (example_main ∷ example_upper ∷ []) (codes "M")) 0
        ≡ Some (refusal MissingClass (codes "B") (codes "M")) }
    ensures cycle { slice_get (refusals with_cycle (codes "M")) 0
        ≡ Some (refusal BadParent (codes "B") (codes "A")) }
    ensures static_field { slice_get (refusals with_static_field (codes "M")) 0
        ≡ Some (refusal MissingField (codes "B.x") (codes "M")) }
    ensures no_main { refusals example (codes "A")
        ≡ refusal NoMain (codes "A") (codes "A") ∷ [] }
{}

/// Where no chain leads into a cycle, a class's superclasses are its superclass and the superclasses
/// of that one, and its superinterfaces are each listed interface with its own ones. So both can be
/// computed from the uppermost classes down.
pub fn law_acyclic()
    ensures superclasses { (classes : List DeclaredClass) → IsAcyclic classes → IsLinear classes }
    ensures interfaces { (classes : List DeclaredClass) → IsAcyclic classes → (class : ℕ)
        → class < length classes → superinterfaces_of classes class ≡ distinct nat_eq
        (flat_map (λ i. i ∷ superinterfaces_of classes i) (listed_interfaces classes class)) }
{}

/// Linking has one result: a program, or one refusal.
pub fn law_one_answer()
    ensures { (given : List ClassDef) (main : List ℕ) (a b : Result Program Refusal)
        → IsLinked given main a → IsLinked given main b → a ≡ b }
{}

/// The type of a class has the number of the class, whatever is used.
pub fn law_class_types()
    ensures { (classes : List DeclaredClass) (given : List ClassDef) (class : ℕ)
        → class < length classes
        → type_number (types_of classes given) (type_of_class class) ≡ Some class }
{}
