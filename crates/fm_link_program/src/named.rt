// The types and the texts of a program by number, and what the indices of its classes are resolved to.

ghost use Rattle.std.specs.Prelude.{◌≡◌, IfOk, map};
ghost use Rattle.std.specs.List.{AllByRecursion};
ghost use Rattle.fm_code.specs.Spells.{HasSpelling};
ghost use Rattle.fm_link_names.specs.inner.ClassNumbering.{NumbersClasses};
ghost use Rattle.fm_link_names.specs.inner.DescriptorTypes.{type_of_name};
ghost use Rattle.fm_link_names.specs.inner.Files.{AreFiles};
ghost use Rattle.fm_link_names.specs.inner.Numbering.{texts_in};
ghost use Rattle.fm_link_refusals.specs.inner.GivenClasses.{given_in, AreNumbered};
ghost use Rattle.fm_link_refusals.specs.inner.Linking.{IsLinking};
ghost use Rattle.fm_link_program.specs.inner.Named.{IsNamed};
ghost use Rattle.fm_world.specs.Programs.{classes_of};

use crate::arguments::argument_array;
use crate::uses::{Resolving, uses_of};
use fm_base::{NoMemory, Seq, TypeRef};
use fm_link_names::{ClassNumbers, GivenFile};
use fm_link_records::{Literals, Types, made_types, named_texts, named_types};
use fm_link_refusals::Linking;
use fm_world::Use;
use std::alloc::Global;

/// The types, the texts, and for each class what its indices are resolved to.
#[derive(Drop)]
pub struct Named {
    pub types: Types,
    pub literals: Literals,
    pub uses: Vec<Seq<Use>>,
}

/// What the files name, by number. `by_text` has the type that each text names.
pub fn named_of(
    alloc: Global,
    numbers: &ClassNumbers,
    linking: Linking,
    by_text: &[Option<TypeRef>],
    files: &[GivenFile],
) -> Result<Named, NoMemory>
    requires linked { IsLinking (classes_of (given_in files.now)) linking }
    requires named { NumbersClasses (classes_of (given_in files.now)) numbers.now.numbers }
    requires types { by_text.now
        ≡ map (type_of_name (classes_of (given_in files.now))) (texts_in linking.texts.now) }
    requires files { AreFiles (texts_in linking.texts.now) (given_in files.now) files.now }
    requires numbered { AreNumbered (texts_in linking.texts.now) files.now }
    requires spelled { AllByRecursion HasSpelling (given_in files.now) }
    ensures { IfOk result (IsNamed (given_in files.now)) }
{
    let texts = linking.texts.texts.as_slice();
    let classes = linking.hierarchy.classes;
    let used = named_types(alloc, by_text, files)?;
    let arrays = made_types(alloc, argument_array(numbers), by_text, files)?;
    let types = Types::of(alloc, classes.len(), used.as_slice(), arrays.as_slice())?;
    let spelled = named_texts(alloc, files)?;
    let literals = Literals::of(alloc, texts, spelled.as_slice())?;
    let resolving = Resolving {
        linking,
        by_text,
        types: &types,
        literals: &literals,
    };
    let uses = uses_of(alloc, resolving, files)?;
    Ok(Named {
        types,
        literals,
        uses,
    })
}
