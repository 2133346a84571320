// A pool with what is known of its texts, each of which is judged once.

ghost use Rattle.std.specs.Prelude.{◌≡◌, ◌↔◌, true, IfOk, IsSome, IsSomeAnd, IsTrue, Some};
ghost use Rattle.fm_code.specs.ConstantPool.{class_name_at, field_ref_at, interface_method_ref_at, method_ref_at, utf8_at};
ghost use Rattle.fm_code.specs.Members.{ReturnsNothing};
ghost use Rattle.fm_code.specs.Names.{is_binary_name, is_method_name, is_unqualified, IsFieldDescriptor, IsMethodDescriptor};
ghost use Rattle.fm_code.specs.Operands.{TakesWords};
ghost use Rattle.fm_pool_texts.specs.Facts.{AreFacts};

use crate::known_entries::KnownEntries;
use fm_base::NoMemory;
use fm_code::{Entry, Pool};
use fm_pool_texts::{TextFacts, facts_of_entries};
use std::alloc::Global;
use std::marker::Model;

/// A pool with what is known of its texts. Contracts see the pool. Its calls but `of` take no memory,
/// and constant time but for `has_this_text`.
#[derive(Drop)]
pub struct KnownPool {
    pool: Pool,
    facts: Vec<Option<TextFacts>>,
}

impl Model for KnownPool {
    ghost use Rattle.fm_code.specs.declared.constant_pool.Pool.{Pool as PoolRecord};

    ghost Value = { PoolRecord };

    ghost use Rattle.fm_pool_texts.specs.Facts.{AreFacts};

    ghost view = { λ known. known.pool };

    ghost invariant = { λ known. AreFacts known.pool.entries known.facts.items };
}

impl KnownPool {
    /// The pool with what is known of its texts.
    pub fn of(alloc: Global, pool: Pool) -> Result<KnownPool, NoMemory>
        ensures { IfOk result (λ known. known ≡ pool) }
    {
        let facts = facts_of_entries(alloc, pool.entries.as_slice())?;
        Ok(KnownPool { pool, facts })
    }

    /// The pool itself.
    pub fn pool(&self) -> &Pool
        ensures { result.now ≡ self.now }
    {
        &self.pool
    }

    /// The pool, with what is known of it forgotten.
    pub fn into_pool(self) -> Pool
        ensures { result ≡ self }
    {
        self.pool
    }

    // The entries with what is known of the texts.
    fn known(&self) -> KnownEntries<'_>
        ensures entries { result.entries.now ≡ self.now.entries }
        ensures facts { AreFacts result.entries.now result.facts.now }
    {
        KnownEntries {
            entries: self.pool.entries.as_slice(),
            facts: self.facts.as_slice(),
        }
    }

    /// Whether a text is at an index.
    pub fn has_text(&self, index: u16) -> bool
        ensures { IsTrue result ↔ IsSome (utf8_at self.now.entries index) }
    {
        self.known().has_text(index)
    }

    /// Whether this very text is at an index.
    pub fn has_this_text(&self, index: u16, text: &[u8]) -> bool
        ensures { IsTrue result ↔ (utf8_at self.now.entries index ≡ Some text.now) }
    {
        self.pool.has_text(index, text)
    }

    /// Whether a class with a name is at an index.
    pub fn has_class(&self, index: u16) -> bool
        ensures { IsTrue result ↔ IsSome (class_name_at self.now.entries index) }
    {
        self.known().has_class(index)
    }

    /// Whether a class that is no array is at an index.
    pub fn has_binary_class(&self, index: u16) -> bool
        ensures { IsTrue result
            ↔ IsSomeAnd (class_name_at self.now.entries index) (λ name. is_binary_name name ≡ true) }
    {
        match self.known().class_at(index) {
            Some(name) => name.is_binary_name,
            None => false,
        }
    }

    /// Whether the entry of a field is at an index.
    pub fn has_field(&self, index: u16) -> bool
        ensures { IsTrue result ↔ IsSome (field_ref_at self.now.entries index) }
    {
        match self.pool.entry(index) {
            Some(Entry::Field(class, member)) => self
                .known()
                .descriptor_named(*class, *member)
                .is_some(),
            _ => false,
        }
    }

    /// Whether the entry of a method of a class is at an index.
    pub fn has_method(&self, index: u16) -> bool
        ensures { IsTrue result ↔ IsSome (method_ref_at self.now.entries index) }
    {
        match self.pool.entry(index) {
            Some(Entry::Method(class, member)) => self
                .known()
                .descriptor_named(*class, *member)
                .is_some(),
            _ => false,
        }
    }

    /// Whether the entry of a method of an interface is at an index.
    pub fn names_interface_method(&self, index: u16) -> bool
        ensures { IsTrue result ↔ IsSome (interface_method_ref_at self.now.entries index) }
    {
        match self.pool.entry(index) {
            Some(Entry::InterfaceMethod(class, member)) => self
                .known()
                .descriptor_named(*class, *member)
                .is_some(),
            _ => false,
        }
    }

    /// Whether the entry of a method of an interface is at an index, and its arguments take `words`
    /// words with the receiver's (JVMS 6.5.invokeinterface).
    pub fn has_interface_method(&self, index: u16, words: u8) -> bool
        ensures { IsTrue result
            ↔ IsSomeAnd (interface_method_ref_at self.now.entries index) (λ m. TakesWords words m.descriptor) }
    {
        let Some(Entry::InterfaceMethod(class, member)) = self.pool.entry(index) else {
            return false;
        };
        match self.known().descriptor_named(*class, *member) {
            Some(descriptor) => descriptor.takes_words(words),
            None => false,
        }
    }

    /// Whether the text at an index is a name without parts, as that of a field (JVMS 4.2.2).
    pub fn has_unqualified_name(&self, index: u16) -> bool
        ensures { IsTrue result
            ↔ IsSomeAnd (utf8_at self.now.entries index) (λ name. is_unqualified name ≡ true) }
    {
        match self.known().facts_at(index) {
            Some(name) => name.is_unqualified,
            None => false,
        }
    }

    /// Whether the text at an index is the name of a method (JVMS 4.2.2).
    pub fn has_method_name(&self, index: u16) -> bool
        ensures { IsTrue result
            ↔ IsSomeAnd (utf8_at self.now.entries index) (λ name. is_method_name name ≡ true) }
    {
        match self.known().facts_at(index) {
            Some(name) => name.is_method_name,
            None => false,
        }
    }

    /// Whether the text at an index is the descriptor of a field (JVMS 4.3.2).
    pub fn has_field_descriptor(&self, index: u16) -> bool
        ensures { IsTrue result ↔ IsSomeAnd (utf8_at self.now.entries index) IsFieldDescriptor }
    {
        match self.known().facts_at(index) {
            Some(descriptor) => descriptor.is_field_descriptor,
            None => false,
        }
    }

    /// Whether the text at an index is the descriptor of a method whose arguments take at most 255 words
    /// with `receiver_words` for the receiver (JVMS 4.3.3).
    pub fn has_method_descriptor(&self, index: u16, receiver_words: u32) -> bool
        ensures { IsTrue result
            ↔ IsSomeAnd (utf8_at self.now.entries index) (IsMethodDescriptor receiver_words) }
    {
        match self.known().facts_at(index) {
            Some(descriptor) => descriptor.is_method_descriptor(receiver_words),
            None => false,
        }
    }

    /// Whether the text at an index is the descriptor of a method that returns nothing.
    pub fn has_descriptor_of_nothing(&self, index: u16) -> bool
        ensures { IsTrue result ↔ IsSomeAnd (utf8_at self.now.entries index) ReturnsNothing }
    {
        match self.known().facts_at(index) {
            Some(descriptor) => descriptor.returns_nothing(),
            None => false,
        }
    }
}
