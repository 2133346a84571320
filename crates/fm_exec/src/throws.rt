// The row of athrow (JVMS 6.5.athrow).

ghost use Rattle.std.specs.Prelude.{OnOk};
ghost use Rattle.fm_exec.specs.Steps.{seen, Steps};
ghost use Rattle.fm_frames.specs.JumpRows.{throw_effect};
ghost use Rattle.fm_frames.specs.inner.Doings.{CanStep};

use fm_base::{NoMemory, TypeId};
use fm_cells::Memory;
use fm_frames::{Look, Machine, NULL_POINTER_EXCEPTION, THROWABLE, type_numbered};
use fm_types::fits_type;
use fm_world::{Program, type_of_class};

/// athrow.
pub fn throw<M: Memory>(machine: &mut Machine<M>, program: &Program) -> Result<(), NoMemory>
    requires { CanStep program.now machine.old }
    ensures { OnOk result (Steps program.now M.choose machine.old machine.new
        (throw_effect program.now.outline (seen program.now machine.old))) }
{
    match machine.look(0) {
        Look::Other => {
            machine.stuck(program);
            Ok(())
        }
        Look::Null => machine.throw_new(program, NULL_POINTER_EXCEPTION),
        Look::Gone(cell) => {
            machine.fault(program, cell);
            Ok(())
        }
        Look::Object(cell, head) => {
            let t = type_numbered(program, TypeId(head.class));
            let fits = fits_type(program, t, type_of_class(THROWABLE));
            if fits {
                return machine.throw(program, cell, t);
            }
            machine.fault(program, cell);
            Ok(())
        }
    }
}
