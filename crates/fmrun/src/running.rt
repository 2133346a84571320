// The run of the classes that were read.

ghost use Rattle.std.specs.List.{AllByRecursion};
ghost use Rattle.std.specs.Prelude.{◌≤◌, length};
ghost use Rattle.fm_base.specs.declared.limits.TheConstants.{MAX_ARGUMENTS, MAX_CLASS_FILES};
ghost use Rattle.fm_code.specs.Profile.{Profile};
ghost use Rattle.fm_load.specs.Taking.{ClassIsSpelled};
ghost use Rattle.fm_run_job.specs.Runs.{AreWithin};
ghost use Rattle.fm_law_sound.specs.Making.{ArgumentsFit};
ghost use Rattle.fm_cli.specs.Encoding.{modified};
ghost use Rattle.fmrun.specs.inner.Running.{ComesOfClasses};

use crate::outcome::JobFail;
use fm_base::Units;
use fm_code::ClassDef;
use fm_files::Sink;
use fm_law_linked::{law_can_run, law_linked_no_fault};
use fm_load::program_of;
use fm_run_job::{Budgets, RunReport, run_program};
use std::alloc::Global;

/// Runs the program of classes with a main class of this name, where they make one of typed
/// methods, and returns the report of its run; it ends in a fault only where a method calls FreeMe.
/// The classes are dropped once they are linked.
pub fn run_classes<'a, O: Sink>(
    alloc: Global,
    classes: Vec<ClassDef>,
    main: &str,
    budgets: Budgets,
    arguments: &[Units],
    input: &[u8],
    out: &mut O,
) -> Result<RunReport, JobFail<'a>>
    requires spelled { AllByRecursion ClassIsSpelled classes.items }
    requires accepted { AllByRecursion Profile classes.items }
    requires few_files { length classes.items ≤ MAX_CLASS_FILES }
    requires within { AreWithin budgets }
    requires few { length arguments.now ≤ MAX_ARGUMENTS }
    requires given { ArgumentsFit arguments.now }
    ensures { ComesOfClasses classes.items (modified main.now) budgets arguments.now input.now
        (O.output out.old) (O.output out.new) result }
{
    let program = program_of(alloc, classes, main)?;
    // For their clauses: the machine can run the program, and it never ends in a fault.
    law_can_run();
    law_linked_no_fault();
    let reported = run_program(alloc, &program, budgets, arguments, input, out)?;
    Ok(reported)
}
