// The texts of all pools and of the built-in classes by number, each text once.
//
// Members, classes and descriptors go by these numbers, so that no text is compared once for each
// entry that names it. A text is numbered when it is first seen.

ghost use Rattle.std.specs.Prelude.{
  ◌≡◌,
  ℕ,
  [],
  IfOk,
  Some,
  None,
  position,
  slice_get,
};
ghost use Rattle.std.specs.List.{slice_index_or};
ghost use Rattle.std.specs.Str.{bytes_eq};
ghost use Rattle.indexmap.specs.IndexSet.{hasher_of};
ghost use Rattle.fm_code.specs.ConstantPool.{utf8_at};
ghost use Rattle.fm_link_names.specs.inner.Numbering.{
  entry_text,
  texts_in,
  text_of,
  AreTexts,
  Extends,
  IsNumberOf,
};

use fm_base::NoMemory;
use fm_code::Entry;
use fm_world::NameKey;
use indexmap::IndexSet;
use std::alloc::Global;

/// Texts by number, and numbers by text. The number of a text is its index in the set.
#[derive(Drop)]
pub struct Texts<'a> {
    pub texts: IndexSet<&'a [u8], NameKey>,
}

impl<'a> Texts<'a> {
    /// No texts. They are going to be hashed by this key.
    pub fn new(alloc: Global, key: NameKey) -> Texts<'a>
        ensures are { AreTexts result }
        ensures none { texts_in result ≡ [] }
    {
        Texts {
            texts: IndexSet::with_hasher(alloc, key),
        }
    }

    /// The key by which texts are hashed.
    pub fn key(&self) -> NameKey
        ensures { result ≡ hasher_of self.now.texts }
    {
        *self.texts.hasher()
    }

    /// The number of a text, which is new where the text is. `NoMemory` where memory runs out, or
    /// where as many texts have numbers as there are numbers of 32 bits.
    pub fn add(&mut self, text: &'a [u8]) -> Result<u32, NoMemory>
        requires { AreTexts self.old }
        ensures are { AreTexts self.new }
        ensures extends { Extends (texts_in self.old) (texts_in self.new) }
        ensures number { IfOk result (λ n. slice_get (texts_in self.new) n ≡ Some text.entry.now) }
    {
        if self.texts.len() > u32::MAX as usize {
            return Err(NoMemory);
        }
        let (index, _) = self.texts.insert_full(text)?;
        Ok(index as u32)
    }

    /// The number of a text that has one.
    pub fn number(&self, text: &[u8]) -> Option<u32>
        requires { AreTexts self.now }
        ensures { result ≡ position (bytes_eq text.now) (texts_in self.now) }
    {
        match self.texts.get_index_of(text) {
            Some(index) => Some(index as u32),
            None => None,
        }
    }

    /// The text of a number; a number that none has stands for the empty text.
    pub fn text(&self, number: u32) -> &'a [u8]
        ensures { result.now ≡ text_of (texts_in self.now) number }
    {
        match self.texts.get_index(number as usize) {
            Some(text) => *text,
            None => &[],
        }
    }

    /// The numbers of a pool's texts by index, which may be new; none where no text is.
    /// `NoMemory` where memory runs out.
    pub fn add_pool(
        &mut self,
        alloc: Global,
        entries: &'a [Entry],
    ) -> Result<Vec<Option<u32>>, NoMemory>
        requires { AreTexts self.old }
        ensures are { AreTexts self.new }
        ensures extends { Extends (texts_in self.old) (texts_in self.new) }
        ensures numbers { IfOk result (λ numbers. (index : ℕ) →
            IsNumberOf (texts_in self.new) (utf8_at entries.entry.now index)
            (slice_index_or numbers.items index None)) }
    {
        let mut numbers = Vec::with_capacity(alloc, entries.len())?;
        for entry in entries {
            numbers.push(self.add_entry(entry)?)?;
        }
        Ok(numbers)
    }

    // The number of the text that an entry is, if it is one.
    fn add_entry(&mut self, entry: &'a Entry) -> Result<Option<u32>, NoMemory>
        requires { AreTexts self.old }
        ensures are { AreTexts self.new }
        ensures extends { Extends (texts_in self.old) (texts_in self.new) }
        ensures number { IfOk result
            (λ n. IsNumberOf (texts_in self.new) (entry_text entry.entry.now) n) }
    {
        match entry {
            Entry::Utf8(text) => Ok(Some(self.add(text.as_slice())?)),
            _ => Ok(None),
        }
    }
}
