// What callers have proved, for the compiler, which knows of no proof.

ghost use Rattle.std.specs.Prelude.{IsTrue};

/// Takes what holds for granted, so that the compiler leaves out tests of it that come before or after. It learns it
/// from a write to an element that an empty array doesn't have, where it would not hold. Takes no memory.
#[inline(always)]
pub fn known(holds: bool)
    requires { IsTrue holds }
{
    if !holds {
        let nothing: [&mut u8; 0] = [];
        *nothing[0] = 0;
    }
}
