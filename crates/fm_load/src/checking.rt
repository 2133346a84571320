// Whether the classes of a job make a program of typed methods.

ghost use Rattle.std.specs.Prelude.{◌≡◌, ◌<◌, IfOk, length};
ghost use Rattle.std.specs.List.{AllByRecursion};
ghost use Rattle.fm_code.specs.Profile.{IsWithinLimits};
ghost use Rattle.fm_cli.specs.Encoding.{modified};
ghost use Rattle.fm_check_program.specs.Untyped.{AreCheckable};
ghost use Rattle.fm_world.specs.Causes.{declared_name, method_text};
ghost use Rattle.fm_world.specs.Members.{methods_of};
ghost use Rattle.fm_load.specs.inner.Checking.{ComesOfCheck};
ghost use Rattle.fm_load.specs.Judging.{ComesOfProgram};
ghost use Rattle.fm_load.specs.Taking.{ClassIsSpelled};

use crate::linking::link_classes;
use crate::refusal::JobRefusal;
use fm_base::characters::DOT;
use fm_base::{MethodId, Name, NoMemory};
use fm_check_program::first_untyped;
use fm_check_rows::class_of_method;
use fm_code::ClassDef;
use fm_world::Program;
use std::alloc::Global;

/// The program of classes with a main class of this name. They are refused where they make none, and
/// where a method of it isn't typed.
pub fn judge_program<'a>(
    alloc: Global,
    classes: &[ClassDef],
    main: &str,
) -> Result<Program, JobRefusal<'a>>
    requires spelled { AllByRecursion ClassIsSpelled classes.now }
    requires within { AllByRecursion IsWithinLimits classes.now }
    ensures { ComesOfProgram classes.now (modified main.now) result }
{
    let program = link_classes(alloc, classes, main)?;
    refuse_untyped(alloc, &program)?;
    Ok(program)
}

/// The program of classes with a main class of this name, as `judge_program` gives it. The classes are dropped
/// before the methods are checked, so both don't take memory at once.
pub fn program_of<'a>(
    alloc: Global,
    classes: Vec<ClassDef>,
    main: &str,
) -> Result<Program, JobRefusal<'a>>
    requires spelled { AllByRecursion ClassIsSpelled classes.items }
    requires within { AllByRecursion IsWithinLimits classes.items }
    ensures { ComesOfProgram classes.items (modified main.now) result }
{
    let program = link_classes(alloc, classes.as_slice(), main)?;
    drop(classes);
    refuse_untyped(alloc, &program)?;
    Ok(program)
}

// Refuses a program for its first method that isn't typed.
fn refuse_untyped<'a>(alloc: Global, program: &Program) -> Result<(), JobRefusal<'a>>
    requires { AreCheckable program.now }
    ensures { ComesOfCheck program.now result }
{
    match first_untyped(alloc, program)? {
        Some(method) => Err(JobRefusal::Check(method_text(alloc, program, method)?)),
        None => Ok(()),
    }
}

/// The name of a method, with its class and its descriptor.
#[tactic(auto, unfolding(fm_world::specs::Programs::class_info, fm_world::specs::Programs::method_info))]
pub fn method_text(alloc: Global, program: &Program, method: MethodId) -> Result<Name, NoMemory>
    requires { method.0 < length (methods_of program.now.outline.classes) }
    ensures { IfOk result (λ text. text
        ≡ method_text (declared_name program.now.outline.classes method.0)) }
{
    let info = program.method(method);
    let class = program.class(class_of_method(program, method));
    let mut text = Vec::from_slice(alloc, class.name.as_slice())?;
    text.push(DOT)?;
    text.extend_from_slice(info.name.as_slice())?;
    text.extend_from_slice(info.descriptor.as_slice())?;
    Ok(Name::new(text))
}
