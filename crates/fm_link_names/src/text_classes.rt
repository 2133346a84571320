// The classes that texts name.

ghost use Rattle.std.specs.Prelude.{◌≡◌, List, map, IfOk};
ghost use Rattle.fm_link_names.specs.inner.ClassNumbering.{NumbersClasses};
ghost use Rattle.fm_link_names.specs.inner.Numbering.{lent};
ghost use Rattle.fm_world.specs.Descriptors.{class_number};

use crate::class_numbers::ClassNumbers;
use fm_base::NoMemory;
use fm_world::DeclaredClass;
use std::alloc::Global;

/// The numbers of the classes that have these texts as their names.
/// `NoMemory` where memory runs out.
pub fn classes_by_text(
    alloc: Global,
    numbers: &ClassNumbers,
    texts: &[&[u8]],
) -> Result<Vec<Option<u32>>, NoMemory>
    ensures { IfOk result (λ found. (classes : List DeclaredClass) →
        NumbersClasses classes numbers.now.numbers →
        found.items ≡ map (class_number classes) (lent texts.now)) }
{
    let mut found = Vec::with_capacity(alloc, texts.len())?;
    for text in texts {
        found.push(numbers.number(*text))?;
    }
    Ok(found)
}
