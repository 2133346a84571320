// The classes that are given: those of files, or one that is made.

ghost use Rattle.std.specs.Prelude.{◌≡◌, ◌≤◌, [], ◌∷◌, ◌++◌, IfOk, IfSome, length, map};
ghost use Rattle.fm_base.specs.declared.limits.TheConstants.{MAX_CLASS_FILES};
ghost use Rattle.fm_gen.specs.Made.{made};
ghost use Rattle.fm_load.specs.Reading.{ReadsAll};
ghost use Rattle.fm_load.specs.inner.Giving.{ComesOfGiving};

use crate::reading::read_classes;
use crate::refusal::JobRefusal;
use fm_base::NoMemory;
use fm_code::ClassDef;
use fm_files::Files;
use fm_gen::made;
use std::alloc::Global;

/// The classes of the files in their order, where each is taken, or the class that is made of a number.
pub fn given_classes<'a, F: Files>(
    alloc: Global,
    names: &[&'a str],
    number: Option<u32>,
    files: &mut F,
) -> Result<Vec<ClassDef>, JobRefusal<'a>>
    requires few { length names.now ≤ MAX_CLASS_FILES }
    requires alone { IfSome number (λ n. (1 ≤ n) × (n ≤ 100)) }
    ensures within { ReadsAll (map (λ n. n.now) names.now) (F.disk files.old) (F.disk files.new) }
    ensures comes { ComesOfGiving (map (λ n. n.now) names.now) number
        (F.disk files.old) (F.disk files.new) result }
{
    let classes = read_classes(alloc, names, files)?;
    match number {
        Some(number) => Ok(with_made(alloc, classes, number)?),
        None => Ok(classes),
    }
}

// The classes with the one that is made of a number behind them.
fn with_made(alloc: Global, classes: Vec<ClassDef>, number: u32) -> Result<Vec<ClassDef>, NoMemory>
    requires at_least { 1 ≤ number }
    requires at_most { number ≤ 100 }
    ensures { IfOk result (λ all. all.items ≡ classes.items ++ made number ∷ []) }
{
    let mut all = classes;
    all.push(made(alloc, number)?)?;
    Ok(all)
}
