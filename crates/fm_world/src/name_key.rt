// The keys by which names and types are hashed.
//
// Class files are written by anybody, and names or types can be chosen that meet in one place under a
// hash that is known beforehand. So the hash begins with a digest of the names themselves, or of the
// types: whoever changes one of them changes the hash of all.

ghost use Rattle.std.specs.Prelude.{◌≡◌, ◌++◌, ℕ, List};
ghost use Rattle.std.specs.List.{flat_map};
ghost use Rattle.sha2.specs.Hashers.{Holds256};
ghost use Rattle.fm_world.specs.inner.NameKeys.{base_number, framed_text, key_of, key_of_types, type_bytes};

use fm_base::{Base, TypeRef};
use fm_code::{ClassDef, Entry};
use sha2::{Digest, Sha256};
use std::hash::{BuildHasher, DefaultHasher, Hasher};

/// Makes the hashers of names, or of types. Each has taken the digest of all of them.
#[derive(Clone, Copy)]
pub struct NameKey {
    initial: DefaultHasher,
}

impl NameKey {
    /// The key of the names in these class files: the digest is that of all their texts.
    pub fn of(given: &[ClassDef]) -> NameKey
        ensures { result ≡ key_of given.now }
    {
        let mut digest = Sha256::new();
        for class in given {
            add_texts(&mut digest, class.pool.entries.as_slice());
        }
        let mut initial = DefaultHasher::new();
        initial.write(&digest.finalize());
        NameKey { initial }
    }

    /// The key of these types: those of a number of classes, those that are named, and those that are
    /// made, in this order.
    pub fn of_types(classes: usize, named: &[TypeRef], made: &[TypeRef]) -> NameKey
        ensures { result ≡ key_of_types classes named.now made.now }
    {
        let mut digest = Sha256::new();
        digest.update(&classes.to_le_bytes());
        digest.update(&named.len().to_le_bytes());
        add_types(&mut digest, named);
        add_types(&mut digest, made);
        let mut initial = DefaultHasher::new();
        initial.write(&digest.finalize());
        NameKey { initial }
    }
}

impl BuildHasher for NameKey {
    type Hasher = DefaultHasher;

    ghost build_hasher = { λ key. key.initial };

    fn build_hasher(&self) -> DefaultHasher {
        self.initial
    }
}

// Adds the texts of a pool to what is digested, each after its length, so that no two lists of texts
// are the same message.
fn add_texts(digest: &mut Sha256, entries: &[Entry])
    ensures { (m : List ℕ) → Holds256 digest.old m
        → Holds256 digest.new (m ++ flat_map framed_text entries.now) }
{
    for entry in entries {
        add_text(digest, entry);
    }
}

// Adds the text that an entry is, if it is one.
fn add_text(digest: &mut Sha256, entry: &Entry)
    ensures { (m : List ℕ) → Holds256 digest.old m → Holds256 digest.new (m ++ framed_text entry.now) }
{
    if let Entry::Utf8(text) = entry {
        let bytes = text.as_slice();
        digest.update(&bytes.len().to_le_bytes());
        digest.update(bytes);
    }
}

// Adds types to what is digested.
fn add_types(digest: &mut Sha256, types: &[TypeRef])
    ensures { (m : List ℕ) → Holds256 digest.old m
        → Holds256 digest.new (m ++ flat_map type_bytes types.now) }
{
    for one in types {
        add_type(digest, *one);
    }
}

// Adds a type: its dimensions and its base, so that no two types have the same bytes.
fn add_type(digest: &mut Sha256, one: TypeRef)
    ensures { (m : List ℕ) → Holds256 digest.old m → Holds256 digest.new (m ++ type_bytes one) }
{
    digest.update(&[one.dims]);
    digest.update(&base_number(one.base).to_le_bytes());
}

// A base as a number: the letters have the lowest ones, and then come the classes.
fn base_number(base: Base) -> u64
    ensures { result ≡ base_number base }
{
    match base {
        Base::Boolean => 0,
        Base::Byte => 1,
        Base::Char => 2,
        Base::Short => 3,
        Base::Int => 4,
        Base::Long => 5,
        Base::OfClass(class) => 6 + class.0 as u64,
    }
}
