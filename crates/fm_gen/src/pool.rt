// The constant pool of the made class.

ghost use Rattle.std.specs.Prelude.{◌≡◌, ◌+◌, ◌≤◌, [], ◌∷◌, ◌++◌, IfOk, OnOk};
ghost use Rattle.std.specs.List.{flat_map, range_with_len};
ghost use Rattle.fm_gen.specs.Made.{constructor_entries, made_entries, method_entries, method_texts, name_index, object_entries, own_entries, shared_entries};

use fm_base::{Name, NoMemory, Seq};
use fm_code::{Entry, Pool};
use std::alloc::Global;

/// The descriptor of the methods `f0`, `f1`, .. in the pool.
pub(crate) const OF_OBJECT: u16 = 9;

/// The descriptor of the methods `g0`, `g1`, .. in the pool.
pub(crate) const OF_NOTHING: u16 = 6;

/// The index of the name of a method, by the method's number in the class.
pub(crate) fn name_index(method: u16) -> u16
    requires { method ≤ 10100 }
    ensures { result ≡ name_index method }
{
    13 + 3 * method
}

/// The constant pool.
#[tactic(auto, unfolding(crate::specs::Made::made_entries))]
pub(crate) fn pool(alloc: Global, n: u16) -> Result<Pool, NoMemory>
    requires { n ≤ 100 }
    ensures { IfOk result (λ pool. pool.entries ≡ made_entries n) }
{
    let mut entries = shared_entries(alloc)?;
    push_methods(alloc, "f", OF_OBJECT, 0, 100 * n, &mut entries)?;
    push_methods(alloc, "g", OF_NOTHING, 100 * n, n, &mut entries)?;
    Ok(Pool {
        entries: Seq::new(entries),
    })
}

// The entries that are there for any number.
#[tactic(auto, unfolding(crate::specs::Made::shared_entries))]
fn shared_entries(alloc: Global) -> Result<Vec<Entry>, NoMemory>
    ensures { IfOk result (λ entries. entries.items ≡ shared_entries) }
{
    let mut entries = Vec::new(alloc);
    push_own_entries(alloc, &mut entries)?;
    push_object_entries(alloc, &mut entries)?;
    push_constructor_entries(alloc, &mut entries)?;
    push_method_texts(alloc, &mut entries)?;
    Ok(entries)
}

// Appends those of the class.
fn push_own_entries(alloc: Global, entries: &mut Vec<Entry>) -> Result<(), NoMemory>
    ensures { OnOk result (entries.new.items ≡ entries.old.items ++ own_entries) }
{
    entries.push(Entry::Second)?;
    push_text(alloc, "G", entries)?;
    entries.push(Entry::Class(1))?;
    Ok(())
}

// Appends those of Object.
fn push_object_entries(alloc: Global, entries: &mut Vec<Entry>) -> Result<(), NoMemory>
    ensures { OnOk result (entries.new.items ≡ entries.old.items ++ object_entries) }
{
    push_text(alloc, "java/lang/Object", entries)?;
    entries.push(Entry::Class(3))?;
    Ok(())
}

// Appends those of the constructor of Object.
fn push_constructor_entries(alloc: Global, entries: &mut Vec<Entry>) -> Result<(), NoMemory>
    ensures { OnOk result (entries.new.items ≡ entries.old.items ++ constructor_entries) }
{
    push_text(alloc, "<init>", entries)?;
    push_text(alloc, "()V", entries)?;
    entries.push(Entry::NameAndType(5, 6))?;
    entries.push(Entry::Method(4, 7))?;
    Ok(())
}

// Appends the texts of the methods, but for the names of those with a number.
fn push_method_texts(alloc: Global, entries: &mut Vec<Entry>) -> Result<(), NoMemory>
    ensures { OnOk result (entries.new.items ≡ entries.old.items ++ method_texts) }
{
    push_text(alloc, "(Ljava/lang/Object;)Ljava/lang/Object;", entries)?;
    push_text(alloc, "main", entries)?;
    push_text(alloc, "([Ljava/lang/String;)V", entries)?;
    push_text(alloc, "Code", entries)?;
    Ok(())
}

// Appends the entry of a text.
fn push_text(alloc: Global, text: &str, entries: &mut Vec<Entry>) -> Result<(), NoMemory>
    ensures { OnOk result (entries.new.items ≡ entries.old.items ++ Entry.Utf8 text.now ∷ []) }
{
    let name = Name::new(Vec::from_slice(alloc, text.as_bytes())?);
    entries.push(Entry::Utf8(name))?;
    Ok(())
}

// Appends the entries of methods of one letter and one descriptor, of which there are `count`, after `first`
// other methods.
fn push_methods(
    alloc: Global,
    letter: &str,
    descriptor: u16,
    first: u16,
    count: u16,
    entries: &mut Vec<Entry>,
) -> Result<(), NoMemory>
    requires { first + count ≤ 10100 }
    ensures { OnOk result (entries.new.items ≡ entries.old.items
        ++ flat_map (method_entries letter.now descriptor first) (range_with_len 0 count)) }
{
    for number in 0..count {
        push_method(alloc, letter, descriptor, first, number, entries)?;
    }
    Ok(())
}

// Appends the entries of one method.
fn push_method(
    alloc: Global,
    letter: &str,
    descriptor: u16,
    first: u16,
    number: u16,
    entries: &mut Vec<Entry>,
) -> Result<(), NoMemory>
    requires { first + number ≤ 10100 }
    ensures { OnOk result (entries.new.items ≡ entries.old.items
        ++ method_entries letter.now descriptor first number) }
{
    let name = format!(in alloc; "{letter}{number}")?;
    let index = name_index(first + number);
    push_text(alloc, name.as_str(), entries)?;
    entries.push(Entry::NameAndType(index, descriptor))?;
    entries.push(Entry::Method(2, index + 1))?;
    Ok(())
}
