// Class files written from a record written by hand, and from what they were read as (JVMS 4.1).

ghost use Rattle.std.specs.Prelude.{◌≡◌, IfOk};
ghost use Rattle.fm_code.specs.Example.{example_code, example_entries, example_record};

use fm_base::{Name, NoMemory, Seq};
use fm_code::{ClassDef, Code, Entry, Insn, InsnBytes, Item, Member, MemberAttr, Pool};
use fm_read::read_class;
use fm_test_classes::{COMPUTES, MAKES_ARRAY, RETURNS};
use fm_write::write_class;
use std::alloc::Global;
use std::test::Fail;

// A text of the pool.
fn text(alloc: Global, bytes: &[u8]) -> Result<Entry, NoMemory>
    ensures { IfOk result (λ entry. entry ≡ Entry.Utf8 bytes.now) }
{
    Ok(Entry::Utf8(Name::new(Vec::from_slice(alloc, bytes)?)))
}

// The pool: a class M, its superclass, and the texts of its main.
fn pool(alloc: Global) -> Result<Pool, NoMemory>
    ensures { IfOk result (λ pool. pool.entries ≡ example_entries) }
{
    let entries = vec![in alloc;
        Entry::Second,
        text(alloc, b"M")?,
        Entry::Class(1),
        text(alloc, b"java/lang/Object")?,
        Entry::Class(3),
        text(alloc, b"main")?,
        text(alloc, b"([Ljava/lang/String;)V")?,
        text(alloc, b"Code")?,
    ]?;
    Ok(Pool {
        entries: Seq::new(entries),
    })
}

// The code of main, which only returns.
fn code(alloc: Global) -> Result<Code, NoMemory>
    ensures { IfOk result (λ code. code ≡ example_code) }
{
    let item = Item {
        offset: 0,
        bytes: InsnBytes::from_slice(alloc, b"\xb1")?,
        insn: Insn::Return(None),
    };
    Ok(Code {
        max_stack: 0,
        max_locals: 1,
        items: Seq::new(vec![in alloc; item]?),
        length: 1,
        handlers: Seq::empty(alloc),
        attributes: Seq::empty(alloc),
    })
}

// The class with main alone.
fn class(alloc: Global) -> Result<ClassDef, NoMemory>
    ensures { IfOk result (λ class. class ≡ example_record) }
{
    let main = Member {
        flags: 9,
        name: 5,
        descriptor: 6,
        attributes: Seq::new(vec![in alloc; MemberAttr::Coded(7, code(alloc)?)]?),
    };
    Ok(ClassDef {
        minor: 0,
        major: 49,
        pool: pool(alloc)?,
        flags: 33,
        this_class: 2,
        super_class: 4,
        interfaces: Seq::empty(alloc),
        fields: Seq::empty(alloc),
        methods: Seq::new(vec![in alloc; main]?),
        attributes: Seq::empty(alloc),
    })
}

#[test]
fn a_record_is_written_as_its_bytes(rt: HostRuntime) -> Result<(), Fail> {
    let class = class(rt.alloc())?;
    let bytes = write_class(rt.alloc(), &class)?;
    assert_eq!(rt; bytes.as_slice(), RETURNS.bytes(rt.alloc())?.as_slice());
    Ok(())
}

// What is written of the class that the bytes are read as.
fn written_again(alloc: Global, bytes: &[u8]) -> Result<Vec<u8>, Fail> {
    let class = read_class(alloc, bytes)?;
    Ok(write_class(alloc, &class)?)
}

#[test]
fn a_class_is_written_as_it_was_read(rt: HostRuntime) -> Result<(), Fail> {
    for sample in [RETURNS, MAKES_ARRAY, COMPUTES] {
        let bytes = sample.bytes(rt.alloc())?;
        let again = written_again(rt.alloc(), &bytes)?;
        assert_eq!(rt; again.as_slice(), bytes.as_slice());
    }
    Ok(())
}
