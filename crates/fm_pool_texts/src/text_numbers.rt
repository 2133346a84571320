// The texts of a pool distinguished by numbers, and fields and methods by the numbers of their
// names and of their descriptors.
//
// Equal texts get equal numbers first, so that a text is compared with few others, and not once for each
// pair of members that names it.

ghost use Rattle.std.specs.Prelude.{◌≡◌, ◌↔◌, IfOk, IsTrue, slice_index};
ghost use Rattle.fm_pool_texts.specs.TextNumbers.{AreKeysDistinct, NumbersTexts};

use fm_base::NoMemory;
use fm_code::{Entry, Member};
use std::alloc::Global;
use std::collections::{BTreeMap, BTreeSet};
use std::marker::Model;

/// For each index of a pool the number of its text: equal texts have equal numbers, and different texts
/// different ones. The number is 0 where no text is. Contracts see the list of these numbers.
#[derive(Debug, Drop)]
pub struct TextNumbers {
    numbers: Vec<usize>,
}

impl Model for TextNumbers {
    ghost use Rattle.std.specs.Prelude.{ℕ, List};

    ghost Value = { List ℕ };

    ghost view = { λ texts. texts.numbers.items };
}

impl TextNumbers {
    /// The numbers of the texts of a pool with these entries. Takes memory for a number of each entry.
    pub fn of(alloc: Global, entries: &[Entry]) -> Result<TextNumbers, NoMemory>
        ensures { IfOk result (NumbersTexts entries.now) }
    {
        let mut known = BTreeMap::new(alloc);
        let mut numbers = Vec::new(alloc);
        for entry in entries {
            let number = match entry {
                Entry::Utf8(name) => {
                    let text = name.as_slice();
                    match known.get(text) {
                        Some(number) => *number,
                        None => {
                            let fresh = numbers.len() + 1;
                            known.insert(text, fresh)?;
                            fresh
                        }
                    }
                }
                _ => 0,
            };
            numbers.push(number)?;
        }
        Ok(TextNumbers { numbers })
    }

    /// The number at an index, or 0 after the last. Takes no memory.
    pub fn number_at(&self, index: u16) -> usize
        ensures { result ≡ slice_index self.now index }
    {
        match self.numbers.get(usize::from(index)) {
            Some(number) => *number,
            None => 0,
        }
    }

    /// Whether no two members have the numbers of their names and of their descriptors in common. Takes
    /// memory for a pair of numbers of each member.
    pub fn are_distinct(&self, alloc: Global, members: &[Member]) -> Result<bool, NoMemory>
        ensures { IfOk result (λ distinct. IsTrue distinct
            ↔ AreKeysDistinct self.now members.now) }
    {
        let mut seen = BTreeSet::new(alloc);
        for member in members {
            let key = (
                self.number_at(member.name),
                self.number_at(member.descriptor),
            );
            if !seen.insert(key)? {
                return Ok(false);
            }
        }
        Ok(true)
    }
}
