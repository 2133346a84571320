// A pool's entries with the facts of its texts, and what these say of an index. No call here looks
// at a text or takes memory.

ghost use Rattle.std.specs.Prelude.{◌↔◌, IsSome, IsTrue};
ghost use Rattle.fm_code.specs.ConstantPool.{class_name_at, named_and_typed_at, utf8_at};
ghost use Rattle.fm_pool_texts.specs.Facts.{AreFacts, AreFactsAt};
ghost use Rattle.fm_pool.specs.inner.Rules.{ArePairFacts, descriptor_named};

use fm_code::Entry;
use fm_pool_texts::TextFacts;

/// A pool's entries, with the facts of its texts by their indices.
#[derive(Clone, Copy, Debug)]
pub(crate) struct KnownEntries<'a> {
    pub entries: &'a [Entry],
    pub facts: &'a [Option<TextFacts>],
}

impl KnownEntries<'_> {
    /// The facts of the text at an index.
    pub fn facts_at(self, index: u16) -> Option<TextFacts>
        requires { AreFacts self.entries.now self.facts.now }
        ensures { AreFactsAt (utf8_at self.entry.entries.now index) result }
    {
        *self.facts.get(usize::from(index))?
    }

    /// Whether a text is at an index.
    pub fn has_text(self, index: u16) -> bool
        requires { AreFacts self.entries.now self.facts.now }
        ensures { IsTrue result ↔ IsSome (utf8_at self.entry.entries.now index) }
    {
        self.facts_at(index).is_some()
    }

    /// The facts of the name of the class at an index.
    pub fn class_at(self, index: u16) -> Option<TextFacts>
        requires { AreFacts self.entries.now self.facts.now }
        ensures { AreFactsAt (class_name_at self.entry.entries.now index) result }
    {
        match self.entries.get(usize::from(index))? {
            Entry::Class(name) => self.facts_at(*name),
            _ => None,
        }
    }

    /// Whether a class with a name is at an index.
    pub fn has_class(self, index: u16) -> bool
        requires { AreFacts self.entries.now self.facts.now }
        ensures { IsTrue result ↔ IsSome (class_name_at self.entry.entries.now index) }
    {
        self.class_at(index).is_some()
    }

    /// The facts of the name and of the descriptor at an index.
    pub fn pair_at(self, index: u16) -> Option<(TextFacts, TextFacts)>
        requires { AreFacts self.entries.now self.facts.now }
        ensures { ArePairFacts (named_and_typed_at self.entry.entries.now index) result }
    {
        match self.entries.get(usize::from(index))? {
            Entry::NameAndType(name, descriptor) => Some((
                self.facts_at(*name)?,
                self.facts_at(*descriptor)?,
            )),
            _ => None,
        }
    }

    /// The facts of the descriptor of the member that the index of a class and that of a name with its
    /// descriptor name.
    pub fn descriptor_named(self, class: u16, member: u16) -> Option<TextFacts>
        requires { AreFacts self.entries.now self.facts.now }
        ensures { AreFactsAt (descriptor_named self.entry.entries.now class member) result }
    {
        if !self.has_class(class) {
            return None;
        }
        let (_, descriptor) = self.pair_at(member)?;
        Some(descriptor)
    }
}
