// The classes of a program with what frees their dead objects, how they are written, and the lines that
// report them.

ghost use Rattle.std.specs.Prelude.{◌≡◌, ◌<◌, IfOk, length, string_bytes};
ghost use Rattle.std.specs.List.{AllByRecursion};
ghost use Rattle.fm_law_spelled.specs.Changed.{IsShort};
ghost use Rattle.fm_rewrite.specs.Rewritten.{AreJudged};
ghost use Rattle.fm_world.specs.Programs.{class_info};
ghost use Rattle.freeme.specs.Rewriting.{ComesOfRewritingBy};
ghost use Rattle.freeme.specs.Writing.{HasName, class_line, class_lines};
ghost use Rattle.freeme.specs.inner.Freeing.{ComesOfFreeing, IsNamed, IsThere};
ghost use Rattle.freeme.specs.inner.Parts.{ComesOfWriting};
ghost use Rattle.freeme.specs.inner.Writing.{KeepsReads};

use crate::refusal::FreeRefusal;
use crate::writing::{class_text, write_classes};
use fm_base::{ClassId, Name, NoMemory};
use fm_code::ClassDef;
use fm_files::Files;
use fm_load::method_text;
use fm_rewrite::{Count, RewriteFail, Rewritten, rewrite, rewrite_chains};
use fm_world::Program;
use std::alloc::Global;

/// Writes the classes of a program into a folder with what frees their dead objects, and returns the lines
/// that report them.
pub fn write_freed<'a, F: Files>(
    alloc: Global,
    folder: &str,
    program: &Program,
    classes: &[ClassDef],
    chains: bool,
    files: &mut F,
) -> Result<String, FreeRefusal<'a>>
    requires judged { AreJudged classes.now program.now }
    requires short { AllByRecursion IsShort classes.now }
    ensures keeps { KeepsReads (F.disk files.old) (F.disk files.new) }
    ensures comes { ComesOfWriting chains program.now classes.now folder.now
        (F.disk files.old) (F.disk files.new) result }
{
    let made = freed_classes(alloc, program, classes, chains)?;
    let written: &[ClassDef] = &made.classes;
    let counts: &[Count] = &made.counts;
    let lines = class_lines(alloc, written, counts)?;
    write_classes(alloc, folder, written, files)?;
    Ok(lines)
}

// The classes of a program, each held site with a holder that is freed at all its places, where it
// may hold something and its class isn't busy, and what is reported of each; with `chains` the holder of a
// site in a loop holds all that the site gave. Where there is a cause against it, they are refused for the
// first one.
fn freed_classes<'a>(
    alloc: Global,
    program: &Program,
    classes: &[ClassDef],
    chains: bool,
) -> Result<Rewritten, FreeRefusal<'a>>
    requires { AreJudged classes.now program.now }
    ensures { ComesOfFreeing chains program.now classes.now result }
{
    match rewritten(alloc, program, classes, chains) {
        Ok(made) => Ok(made),
        Err(fail) => {
            let name = cause_name(alloc, program, fail)?;
            Err(FreeRefusal::Rewrite(fail, name))
        }
    }
}

// The classes written again, with chains or without.
fn rewritten(
    alloc: Global,
    program: &Program,
    classes: &[ClassDef],
    chains: bool,
) -> Result<Rewritten, RewriteFail>
    requires { AreJudged classes.now program.now }
    ensures { ComesOfRewritingBy chains program.now classes.now result }
{
    if chains {
        rewrite_chains(alloc, program, classes)
    } else {
        rewrite(alloc, program, classes)
    }
}

// The name of the method or the class that a cause names; want of memory names none.
fn cause_name(alloc: Global, program: &Program, fail: RewriteFail) -> Result<Name, NoMemory>
    requires { IsThere program.now.outline fail }
    ensures { IfOk result (λ name. IsNamed program.now.outline fail name) }
{
    match fail {
        RewriteFail::CallsFree(method, _) => method_text(alloc, program, method),
        RewriteFail::PoolFull(class, _) => class_name(alloc, program, class),
        RewriteFail::MethodTooLong(method, _) => method_text(alloc, program, method),
        RewriteFail::NoMemory => Err(NoMemory),
    }
}

/// The name of a class of the program.
#[tactic(auto, unfolding(fm_world::specs::Programs::class_info))]
pub fn class_name(alloc: Global, program: &Program, class: ClassId) -> Result<Name, NoMemory>
    requires { class.0 < length program.now.outline.classes }
    ensures { IfOk result (λ name. name ≡ (class_info program.now.outline class.0).name) }
{
    let info = program.class(class);
    Ok(Name::new(Vec::from_slice(alloc, info.name.as_slice())?))
}

// The lines of classes that are written, each with its line end.
fn class_lines(alloc: Global, classes: &[ClassDef], counts: &[Count]) -> Result<String, NoMemory>
    requires named { AllByRecursion HasName classes.now }
    requires one_each { length counts.now ≡ length classes.now }
    ensures { IfOk result (λ lines. string_bytes lines ≡ class_lines classes.now counts.now) }
{
    let mut lines = String::new(alloc);
    for place in 0..classes.len() {
        let line = class_line(alloc, &classes[place], counts[place])?;
        lines.push_str(line.as_str())?;
    }
    Ok(lines)
}

// The line of a class that is written.
fn class_line(alloc: Global, class: &ClassDef, count: Count) -> Result<String, NoMemory>
    requires { HasName class.now }
    ensures { IfOk result (λ line. string_bytes line ≡ class_line class.now count) }
{
    let name = class_text(alloc, class)?;
    let Count { sites, frees } = count;
    Ok(format!(in alloc; "{name}: {sites} sites, {frees} frees\n")?)
}
