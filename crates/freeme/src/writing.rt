// The classes of a job, written one after the other.

ghost use Rattle.std.specs.Prelude.{◌≡◌, IfOk, map, string_bytes};
ghost use Rattle.std.specs.List.{AllByRecursion};
ghost use Rattle.freeme.specs.Writing.{HasName, class_text, written_name};
ghost use Rattle.freeme.specs.inner.Writing.{AreApart, ComesOfClass, ComesOfClasses, KeepsReads};
ghost use Rattle.fm_load.specs.Taking.{ClassIsSpelled};

use fm_base::NoMemory;
use fm_cli::printed;
use fm_code::ClassDef;
use fm_files::{Files, WriteFail};
use fm_load::JobRefusal;
use fm_write::write_class;
use std::alloc::Global;

/// The name of a class as text.
pub fn class_text(alloc: Global, class: &ClassDef) -> Result<String, NoMemory>
    requires { HasName class.now }
    ensures { IfOk result (λ text. string_bytes text ≡ class_text class.now) }
{
    let name = class.pool.class_name(class.this_class).unwrap();
    printed(alloc, name)
}

// The name of the file of a class, DIR/NAME.class.
fn written_name(alloc: Global, folder: &str, class: &ClassDef) -> Result<String, NoMemory>
    requires { HasName class.now }
    ensures { IfOk result (λ name. string_bytes name ≡ written_name folder.now class.now) }
{
    let name = class_text(alloc, class)?;
    Ok(format!(in alloc; "{folder}/{name}.class")?)
}

/// The names of the files of classes, in their order.
pub fn written_names(
    alloc: Global,
    folder: &str,
    classes: &[ClassDef],
) -> Result<Vec<String>, NoMemory>
    requires { AllByRecursion HasName classes.now }
    ensures { IfOk result (λ names. map string_bytes names.items
        ≡ map (written_name folder.now) classes.now) }
{
    let mut names = Vec::new(alloc);
    for class in classes {
        names.push(written_name(alloc, folder, class)?)?;
    }
    Ok(names)
}

/// Writes each class to its file in the folder, in their order.
pub fn write_classes<'a, F: Files>(
    alloc: Global,
    folder: &str,
    classes: &[ClassDef],
    files: &mut F,
) -> Result<(), JobRefusal<'a>>
    requires spelled { AllByRecursion ClassIsSpelled classes.now }
    requires apart { AreApart classes.now }
    ensures keeps { KeepsReads (F.disk files.old) (F.disk files.new) }
    ensures comes { ComesOfClasses folder.now classes.now
        (F.disk files.old) (F.disk files.new) result }
{
    for class in classes {
        write_one(alloc, folder, class, files)?;
    }
    Ok(())
}

// Writes one class.
fn write_one<'a, F: Files>(
    alloc: Global,
    folder: &str,
    class: &ClassDef,
    files: &mut F,
) -> Result<(), JobRefusal<'a>>
    requires { ClassIsSpelled class.now }
    ensures keeps { KeepsReads (F.disk files.old) (F.disk files.new) }
    ensures comes { ComesOfClass folder.now class.now (F.disk files.old) (F.disk files.new) result }
{
    let name = written_name(alloc, folder, class)?;
    let bytes = write_class(alloc, class)?;
    match files.write(alloc, name.as_str(), &bytes) {
        Ok(()) => Ok(()),
        Err(WriteFail::Failed) => Err(JobRefusal::Write(name)),
        Err(WriteFail::NoMemory) => Err(JobRefusal::from(NoMemory)),
    }
}
