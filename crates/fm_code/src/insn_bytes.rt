// The bytes of an instruction, which lie in place where they are few.

ghost use Rattle.std.specs.Prelude.{◌≡◌, ◌==◌, IfOk};
ghost use Rattle.std.specs.Cmp.{partial_equiv_from_equiv};
ghost use Rattle.std.specs.Cmp.Lexicographic.{pointwise, nat_list_eq_equiv};

use fm_base::NoMemory;
use std::alloc::Global;
use std::marker::Model;
use std::ops::DerefSlice;

/// The most bytes that an instruction has that is no switch: an iinc after wide.
const MAX_PLAIN_BYTES: usize = 6;

/// The bytes that spell an instruction. Contracts see the list of the bytes.
#[derive(Debug, Drop)]
pub struct InsnBytes {
    kept: StoredBytes,
}

// Few bytes in front of others that don't count, or many of them in a box.
#[derive(Debug, Drop)]
enum StoredBytes {
    Few([u8; MAX_PLAIN_BYTES], u8),
    Many(Box<Vec<u8>>),
}

impl Model for InsnBytes {
    ghost use Rattle.std.specs.Prelude.{ℕ, List};

    ghost Value = { List ℕ };

    ghost use Rattle.fm_code.specs.InsnBytes.{stored_bytes};

    ghost view = { λ b. stored_bytes b.kept };

    ghost use Rattle.fm_code.specs.InsnBytes.{AreStored};

    ghost invariant = { λ b. AreStored b.kept };
}

impl InsnBytes {
    /// These bytes. Takes memory only where they are more than an instruction has that is no switch.
    pub fn from_slice(alloc: Global, bytes: &[u8]) -> Result<InsnBytes, NoMemory>
        ensures { IfOk result (λ b. b ≡ bytes.now) }
    {
        if bytes.len() > MAX_PLAIN_BYTES {
            let many = Box::new(alloc, Vec::from_slice(alloc, bytes)?)?;
            return Ok(InsnBytes {
                kept: StoredBytes::Many(many),
            });
        }
        let mut few = [0; MAX_PLAIN_BYTES];
        few[..bytes.len()].copy_from_slice(bytes);
        Ok(InsnBytes {
            kept: StoredBytes::Few(few, bytes.len() as u8),
        })
    }

    /// The bytes as a slice.
    pub fn as_slice(&self) -> &[u8]
        ensures { result.now ≡ self.now }
    {
        match &self.kept {
            StoredBytes::Few(few, count) => &few[..usize::from(*count)],
            StoredBytes::Many(many) => many.as_slice(),
        }
    }

    /// Equal bytes.
    pub fn copy(&self, alloc: Global) -> Result<InsnBytes, NoMemory>
        ensures { IfOk result (λ b. b ≡ self.now) }
    {
        InsnBytes::from_slice(alloc, self)
    }
}

impl PartialEq for InsnBytes {
    ghost eq = { pointwise ◌==◌ };

    ghost laws = { partial_equiv_from_equiv nat_list_eq_equiv };

    fn eq(&self, other: &InsnBytes) -> bool {
        self.as_slice() == other.as_slice()
    }
}

impl Eq for InsnBytes {
    ghost laws = { nat_list_eq_equiv };
}

impl DerefSlice for InsnBytes {
    type Elem = u8;

    ghost deref_gives = { λ kept bytes. bytes ≡ kept };

    fn deref(&self) -> &[u8] {
        self.as_slice()
    }
}
