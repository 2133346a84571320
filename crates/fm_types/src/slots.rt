// What a local variable or a word of the operand stack holds, as far as it is known before a run
// (JVMS 4.10.2.2).

ghost use Rattle.std.specs.Prelude.{◌≡◌};
ghost use Rattle.fm_types.specs.States.{local_at};

use fm_base::TypeRef;

/// What a local variable or a word of the operand stack holds.
#[derive(Clone, Copy, Debug, PartialEq, Eq, PartialOrd, Ord, Hash)]
pub enum Slot {
    /// Anything; the second half of a long too.
    Top,
    Int,
    /// The first half of a long.
    Long,
    Null,
    /// Null, or an object whose constructor was called, of this type or one that fits it.
    Ref(TypeRef),
    /// The object that the `new` of this item made, before its constructor returns.
    Uninit(u32),
    /// The object of a constructor, before a constructor that it calls returns.
    UninitThis,
}

/// The slot of this number; `Top` past the last one.
pub fn slot_in(slots: &[Slot], number: usize) -> Slot
    ensures { result ≡ local_at slots.now number }
{
    match slots.get(number) {
        Some(slot) => *slot,
        None => Slot::Top,
    }
}
