// The program by which the dead objects of classes are found.

ghost use Rattle.std.specs.Prelude.{IfOk};
ghost use Rattle.std.specs.List.{AllByRecursion};
ghost use Rattle.fm_cli.specs.Encoding.{modified};
ghost use Rattle.fm_code.specs.Profile.{Profile};
ghost use Rattle.fm_load.specs.Taking.{ClassIsSpelled};
ghost use Rattle.fm_rapid.specs.Opening.{HasOpening};
ghost use Rattle.fm_summ_shapes.specs.Analysed.{AreAnalysable};
ghost use Rattle.freeme.specs.Jobs.{IsAnalysed};
ghost use Rattle.freeme.specs.inner.Parts.{ComesOfJudging};

use crate::refusal::FreeRefusal;
use fm_base::NoMemory;
use fm_code::ClassDef;
use fm_load::judge_program;
use fm_rapid::reach;
use fm_world::Program;
use std::alloc::Global;

/// The program of classes that link, whose methods are typed, as it is analysed.
pub fn judged_program<'a>(
    alloc: Global,
    classes: &[ClassDef],
    main: &str,
    rapid: bool,
) -> Result<Program, FreeRefusal<'a>>
    requires spelled { AllByRecursion ClassIsSpelled classes.now }
    requires accepted { AllByRecursion Profile classes.now }
    ensures { ComesOfJudging rapid classes.now (modified main.now) result }
{
    let judged = judge_program(alloc, classes, main)?;
    Ok(analysed(alloc, judged, rapid)?)
}

// The program as it is analysed: with `rapid` it is narrowed to the classes of which reachable code makes
// objects, so that its virtual calls lead only to what these select. Its calls share the targets that they
// have in common.
fn analysed(alloc: Global, program: Program, rapid: bool) -> Result<Program, NoMemory>
    requires analysable { AreAnalysable program }
    requires opening { HasOpening program.outline }
    ensures { IfOk result (IsAnalysed rapid program) }
{
    if !rapid {
        return program.with_targets(alloc);
    }
    let reached = reach(alloc, &program)?;
    program.narrowed(reached.into_made()).with_targets(alloc)
}
