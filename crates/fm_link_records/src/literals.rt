// The texts of a program by number, in the order in which they are met.

ghost use Rattle.std.specs.Prelude.{◌≡◌, ◌<◌, ℕ, IfOk, OnOk, length, replicate, slice_index, None};
ghost use Rattle.std.specs.List.{slice_index_or};
ghost use Rattle.std.specs.Str.{bytes_eq};
ghost use Rattle.fm_world.specs.Numbers.{text_number};
ghost use Rattle.fm_link_records.specs.inner.TextNumbers.{literals_by, units_at, with_text, AreApart, AreNumbered, IsModified};
ghost use Rattle.fm_link_names.specs.inner.Numbering.{lent};

use fm_base::{NoMemory, Units};
use fm_link_names::number_of;
use std::alloc::Global;

/// The texts of a program by number, and the number of each text of a pool that is one.
#[derive(Drop)]
pub struct Literals {
    pub units: Vec<Units>,
    pub by_text: Vec<Option<u32>>,
}

impl Literals {
    /// The texts of these numbers, in the order in which they occur, each once.
    pub fn of(alloc: Global, texts: &[&[u8]], named: &[u32]) -> Result<Literals, NoMemory>
        requires apart { AreApart (lent texts.now) }
        requires modified { (k : ℕ) → k < length named.now
            → IsModified (lent texts.now) (slice_index named.now k) }
        ensures units { IfOk result
            (λ found. found.units.items ≡ literals_by (lent texts.entry.now) named.now) }
        ensures numbers { IfOk result
            (λ found. AreNumbered (lent texts.entry.now) found.units.items found.by_text.items) }
    {
        let mut literals = Literals {
            units: Vec::new(alloc),
            by_text: no_numbers(alloc, texts.len())?,
        };
        for number in named {
            literals.add(alloc, texts, *number)?;
        }
        Ok(literals)
    }

    // Gives a text a number, unless it has one.
    fn add(&mut self, alloc: Global, texts: &[&[u8]], text: u32) -> Result<(), NoMemory>
        requires apart { AreApart (lent texts.now) }
        requires modified { IsModified (lent texts.now) text }
        requires numbers { AreNumbered (lent texts.now) self.old.units.items self.old.by_text.items }
        ensures units { OnOk result
            (self.new.units.items ≡ with_text (lent texts.entry.now) self.old.units.items text) }
        ensures numbers { OnOk result
            (AreNumbered (lent texts.entry.now) self.new.units.items self.new.by_text.items) }
    {
        if self.number(text).is_none() {
            let number = number_of(self.units.len())?;
            self.units
                .push(Units::from_modified_utf8(alloc, texts[text as usize])?)?;
            self.by_text[text as usize] = Some(number);
        }
        Ok(())
    }

    /// The number of a text of a pool, if it has one.
    pub fn number(&self, text: u32) -> Option<u32>
        ensures { result ≡ slice_index_or self.now.by_text.items text None }
    {
        match self.by_text.get(text as usize) {
            Some(number) => *number,
            None => None,
        }
    }
}

// As many places without a number.
fn no_numbers(alloc: Global, count: usize) -> Result<Vec<Option<u32>>, NoMemory>
    ensures { IfOk result (λ numbers. numbers.items ≡ replicate count None) }
{
    let mut numbers = Vec::with_capacity(alloc, count)?;
    for _ in 0..count {
        numbers.push(None)?;
    }
    Ok(numbers)
}
