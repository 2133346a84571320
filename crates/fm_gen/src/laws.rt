// What holds of each made class.

ghost use Rattle.std.specs.Prelude.{◌≤◌, ℕ, length};
ghost use Rattle.fm_base.specs.declared.limits.TheConstants.{MAX_FILE_BYTES};
ghost use Rattle.fm_code.specs.ClassBytes.{class_bytes};
ghost use Rattle.fm_code.specs.Profile.{Profile};
ghost use Rattle.fm_code.specs.Spells.{Spells};
ghost use Rattle.fm_gen.specs.Made.{made};

/// Its bytes spell it, it is accepted, and it is no longer than a file may be.
pub fn law_made()
    ensures spelled { (n : ℕ) → n ≤ 100 → Spells (class_bytes (made n)) (made n) }
    ensures accepted { (n : ℕ) → n ≤ 100 → Profile (made n) }
    ensures short { (n : ℕ) → n ≤ 100 → length (class_bytes (made n)) ≤ MAX_FILE_BYTES }
{}
