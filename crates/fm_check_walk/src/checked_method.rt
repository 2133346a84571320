// The method that is checked.

ghost use Rattle.std.specs.Prelude.{◌≡◌, ◌<◌, IfOk, length};
ghost use Rattle.std.specs.List.{flat_map};
ghost use Rattle.fm_types.specs.Named.{parameters_of};
ghost use Rattle.fm_types.specs.States.{local_slots};
ghost use Rattle.fm_world.specs.Members.{methods_of};

use fm_base::{MethodId, NoMemory};
use fm_check_rows::words_of;
use fm_code::Code;
use fm_types::Slot;
use fm_world::Program;
use std::alloc::Global;

/// A method of a program, with its code.
#[derive(Clone, Copy)]
pub struct CheckedMethod<'a> {
    /// The program whose method it is.
    pub program: &'a Program,
    /// Its number there.
    pub number: MethodId,
    /// Its code.
    pub code: &'a Code,
}

/// The words of the parameters.
#[tactic(auto, unfolding(fm_world::specs::Programs::method_info))]
pub fn parameter_slots(
    alloc: Global,
    program: &Program,
    method: MethodId,
) -> Result<Vec<Slot>, NoMemory>
    requires { method.0 < length (methods_of program.now.outline.classes) }
    ensures { IfOk result (λ slots. slots.items
        ≡ flat_map local_slots (parameters_of program.now.outline method.0)) }
{
    words_of(alloc, program.method(method).params.as_slice())
}
