// Class files that are linked, or refused.

mod causes;
mod classes;
mod completing;
mod large;
mod members;
mod packages;

ghost use Rattle.std.specs.Prelude.{IfOk, OnOk};
ghost use Rattle.std.specs.List.{AllByRecursion};
ghost use Rattle.fm_code.specs.Spells.{HasSpelling};

use fm_code::ClassDef;
use fm_link::{LinkFail, link};
use fm_read::read_class;
use fm_test_classes::ClassSample;
use fm_world::Program;
use std::alloc::Global;
use std::test::Fail;

// The program of the classes of these samples, or why there is none.
fn linked_program(
    alloc: Global,
    samples: &[ClassSample],
) -> Result<Result<Program, LinkFail>, Fail> {
    let classes = classes_of(alloc, samples)?;
    Ok(link(alloc, classes.as_slice(), b"M"))
}

// The classes of these samples.
fn classes_of(alloc: Global, samples: &[ClassSample]) -> Result<Vec<ClassDef>, Fail>
    ensures { IfOk result (λ classes. AllByRecursion HasSpelling classes.items) }
{
    let mut classes = Vec::new(alloc);
    for sample in samples {
        add_class(alloc, &mut classes, sample)?;
    }
    Ok(classes)
}

// Puts the class of a sample behind the others.
fn add_class(alloc: Global, classes: &mut Vec<ClassDef>, sample: &ClassSample) -> Result<(), Fail>
    requires { AllByRecursion HasSpelling classes.old.items }
    ensures { OnOk result (AllByRecursion HasSpelling classes.new.items) }
{
    let bytes = sample.bytes(alloc)?;
    add_read(alloc, classes, bytes.as_slice())
}

// Puts the class of a file behind the others.
fn add_read(alloc: Global, classes: &mut Vec<ClassDef>, file: &[u8]) -> Result<(), Fail>
    requires { AllByRecursion HasSpelling classes.old.items }
    ensures { OnOk result (AllByRecursion HasSpelling classes.new.items) }
{
    let class = read_class(alloc, file)?;
    classes.push(class)?;
    Ok(())
}
