// Laws of the definitions, each as the contract of a function that does nothing.

ghost use Rattle.std.specs.Prelude.{◌≡◌, ℕ, ◌+◌, ◌≤◌, List, [], ◌++◌, length, map, take};
ghost use Rattle.std.specs.List.{range_with_len};
ghost use Rattle.byteorder.specs.Endian.{big_number, big_bytes};
ghost use Rattle.fm_code.specs.Fits.{AreBytes};
ghost use Rattle.fm_code.specs.Example.{example_bytes, example_record, short_length_bytes, wrong_tag_bytes, longer_bytes};
ghost use Rattle.fm_code.specs.CompiledExample.{compiled_bytes, compiled_record};
ghost use Rattle.fm_code.specs.InstructionTable.{Row, rows};
ghost use Rattle.fm_code.specs.Profile.{IsFirstOverLimit, IsFirstUnsupported, IsSupported, IsWithinLimits, Profile};
ghost use Rattle.fm_code.specs.Spells.{Spells};
ghost use Rattle.fm_code.specs.SpellsCode.{SpellsCode};
ghost use Rattle.fm_code.specs.declared.class_file.ClassDef.{ClassDef};
ghost use Rattle.fm_code.specs.declared.profile.OverLimit.{OverLimit};
ghost use Rattle.fm_code.specs.declared.profile.Unsupported.{Unsupported};
ghost use Rattle.fm_code.specs.declared.opcodes.TheConstants.{JSR_W};
ghost use Rattle.fm_code.specs.declared.code_array.Item.{Item};

/// The bytes of the number that n bytes make, the highest first, are those n bytes.
pub fn law_number_bytes()
    ensures { (n : ℕ) (bytes : List ℕ) → n ≤ length bytes → AreBytes bytes
        → big_bytes n (big_number n bytes) ≡ take n bytes }
{}

/// The bytes of a class file determine its record: no two records have one spelling. (That a record
/// determines its bytes is immediate, since the bytes are a function of the record.)
pub fn law_one_record()
    ensures { (bytes : List ℕ) (c d : ClassDef) → Spells bytes c → Spells bytes d → c ≡ d }
{}

/// No class file is the beginning of another: nothing follows the last attribute.
pub fn law_nothing_follows()
    ensures { (bytes rest : List ℕ) (c d : ClassDef)
        → Spells bytes c → Spells (bytes ++ rest) d → rest ≡ [] }
{}

/// The bytes of a code array determine its items: they are cut into instructions in one way, and
/// each target is determined by its offset.
pub fn law_one_code()
    ensures { (bytes : List ℕ) (xs ys : List Item)
        → SpellsCode bytes xs → SpellsCode bytes ys → xs ≡ ys }
{}

/// The instruction table has a row for each opcode up to the last one, in their order. So the number
/// of a row is its opcode.
pub fn law_opcodes()
    ensures { map (λ (row : Row). row.0) rows ≡ range_with_len 0 (JSR_W + 1) }
{}

/// The definitions at a class file that is written out by hand: its bytes spell its record, and
/// three byte strings that differ from it in one place spell no record at all.
pub fn law_example()
    ensures size { length example_bytes ≡ 119 }
    ensures spelled { Spells example_bytes example_record }
    ensures short_length { (c : ClassDef) → ¬ (Spells short_length_bytes c) }
    ensures wrong_tag { (c : ClassDef) → ¬ (Spells wrong_tag_bytes c) }
    ensures longer { (c : ClassDef) → ¬ (Spells longer_bytes c) }
{}

/// The definitions at a class file that a compiler wrote: its bytes spell its record, which is
/// accepted. It has a field with a value, a long in the pool, an exception table, a switch with
/// padding, a wide form, tables of lines and of variables, and an attribute that is kept as it is.
pub fn law_compiled_example()
    ensures size { length compiled_bytes ≡ 506 }
    ensures spelled { Spells compiled_bytes compiled_record }
    ensures accepted { Profile compiled_record }
{}

/// A count that is first above its limit is one, and there is none within the limits; a place that
/// is first unsupported is one, and there is none in a class that is supported.
pub fn law_first_refusals()
    ensures over_limit { (c : ClassDef) (over : OverLimit) → IsFirstOverLimit c over → ¬ IsWithinLimits c }
    ensures one_over_limit { (c : ClassDef) (a b : OverLimit)
        → IsFirstOverLimit c a → IsFirstOverLimit c b → a ≡ b }
    ensures unsupported { (c : ClassDef) (u : Unsupported) → IsFirstUnsupported c u → ¬ IsSupported c }
    ensures one_unsupported { (c : ClassDef) (a b : Unsupported)
        → IsFirstUnsupported c a → IsFirstUnsupported c b → a ≡ b }
{}
