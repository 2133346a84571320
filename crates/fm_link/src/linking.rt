// Class files are made into a program.

ghost use Rattle.std.specs.Prelude.{◌≡◌, IfOk};
ghost use Rattle.std.specs.List.{AllByRecursion};
ghost use Rattle.fm_code.specs.Spells.{HasSpelling};
ghost use Rattle.fm_link.specs.inner.Judged.{later_refusals, AreReady};
ghost use Rattle.fm_link.specs.inner.Made.{AreTablesOf};
ghost use Rattle.fm_link_refusals.specs.Refused.{Refuses};
ghost use Rattle.fm_link_refusals.specs.inner.GivenClasses.{given_in};
ghost use Rattle.fm_world.specs.Linking.{refusals};
ghost use Rattle.fm_world.specs.Programs.{program_of};

use crate::linked::{judged_main, linked_classes};
use crate::ready::{Numbered, Ready, numbered_files};
use fm_code::ClassDef;
use fm_link_members::Members;
use fm_link_names::types_by_text;
use fm_link_program::{ProgramTables, tables_of};
use fm_link_refusals::LinkFail;
use fm_world::Program;
use std::alloc::Global;

/// The program of class files, or the first cause for which they make none; `main` is the name of the
/// main class in modified UTF-8.
pub fn link(alloc: Global, given: &[ClassDef], main: &[u8]) -> Result<Program, LinkFail>
    requires { AllByRecursion HasSpelling given.now }
    ensures refuses { Refuses (refusals given.now main.now) result }
    ensures program { IfOk result (λ program. program ≡ program_of given.now main.now) }
{
    let Numbered {
        texts,
        files,
        classes,
        fields,
        methods,
        constructor,
    } = numbered_files(alloc, given)?;
    let ready = Ready {
        texts: &texts,
        files: files.as_slice(),
        classes: classes.as_slice(),
        constructor,
    };
    let tables = link_classes(alloc, ready, fields, methods, main)?;
    Ok(tables.into_program(classes))
}

// The tables of classes whose names differ.
fn link_classes(
    alloc: Global,
    ready: Ready,
    fields: Members,
    methods: Members,
    main: &[u8],
) -> Result<ProgramTables, LinkFail>
    requires { AreReady ready fields methods }
    ensures refuses { Refuses (later_refusals (given_in ready.entry.files.now) main.now) result }
    ensures tables { IfOk result (AreTablesOf (given_in ready.entry.files.now) main.now) }
{
    let linked = linked_classes(alloc, ready, fields, methods)?;
    let linking = linked.linking(ready.texts);
    let found = judged_main(alloc, linking, ready.files, main)?;
    let texts = ready.texts.texts.as_slice();
    let numbers = &linked.numbers;
    let named = types_by_text(alloc, numbers, texts)?;
    let by_text = named.as_slice();
    let tables = tables_of(alloc, numbers, linking, by_text, ready.files, found)?;
    Ok(tables)
}
