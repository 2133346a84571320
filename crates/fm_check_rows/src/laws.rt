// A law of the definitions, as the contract of a function that does nothing.

ghost use Rattle.std.specs.Prelude.{ℕ, List};
ghost use Rattle.fm_code.specs.declared.class_file.ClassDef.{ClassDef};
ghost use Rattle.fm_check_rows.specs.Members.{UsesNameMembers};
ghost use Rattle.fm_world.specs.Programs.{program_of};

/// Of each program that class files make, all uses name members that are there: rows may be asked of it.
pub fn law_uses()
    ensures { (given : List ClassDef) (main : List ℕ) → UsesNameMembers (program_of given main) }
{}
