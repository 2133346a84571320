// The program that the classes of a job make.

ghost use Rattle.std.specs.List.{AllByRecursion};
ghost use Rattle.fm_cli.specs.Encoding.{modified};
ghost use Rattle.fm_load.specs.inner.Linking.{ComesOfLinks};
ghost use Rattle.fm_load.specs.Taking.{ClassIsSpelled};

use crate::refusal::JobRefusal;
use fm_base::NoMemory;
use fm_cli::modified;
use fm_code::ClassDef;
use fm_link::link;
use fm_link_refusals::LinkFail;
use fm_world::Program;
use std::alloc::Global;

/// The program of classes with a main class of this name; where they make none, they are refused.
pub fn link_classes<'a>(
    alloc: Global,
    classes: &[ClassDef],
    main: &str,
) -> Result<Program, JobRefusal<'a>>
    requires { AllByRecursion ClassIsSpelled classes.now }
    ensures { ComesOfLinks classes.now (modified main.now) result }
{
    let name = modified(alloc, main)?;
    match link(alloc, classes, name.as_slice()) {
        Ok(program) => Ok(program),
        Err(LinkFail::NoMemory) => Err(JobRefusal::from(NoMemory)),
        Err(fail) => Err(JobRefusal::Link(fail)),
    }
}
