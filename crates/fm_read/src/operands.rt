// What the items of a code array name: locals below max_locals, and entries of the pool with the right
// tags (JVMS 4.9.1).

ghost use Rattle.std.specs.Prelude.{◌≡◌, ◌==◌, ◌↔◌, IsTrue};
ghost use Rattle.std.specs.List.{AllByRecursion};
ghost use Rattle.fm_code.specs.ConstantPool.{entry_at};
ghost use Rattle.fm_read.specs.inner.Items.{ItemIsValid, TakesCounted};
ghost use Rattle.fm_code.specs.Operands.{IsConstant, OperandIsValid, opcode_of};
ghost use Rattle.fm_code.specs.SpellsCode.{LocalFits, LocalsFit};
ghost use Rattle.fm_code.specs.declared.opcodes.TheConstants.{LDC2_W};

use fm_code::opcodes::LDC2_W;
use fm_code::{Entry, Insn, Item, Reg};
use fm_pool::KnownPool;

/// Whether the local that an instruction loads, stores or changes is below max_locals, and for a long
/// the next one too (JVMS 4.9.1).
fn locals_fit(max_locals: u16, insn: &Insn) -> bool
    ensures { IsTrue result ↔ LocalsFit max_locals insn.now }
{
    match insn {
        Insn::Load(kind, local) | Insn::Store(kind, local) => local_fits(max_locals, *kind, *local),
        Insn::Inc(local, _) => *local < max_locals,
        _ => true,
    }
}

/// Whether a local of this kind is below max_locals.
fn local_fits(max_locals: u16, kind: Reg, local: u16) -> bool
    ensures { IsTrue result ↔ LocalFits max_locals kind local }
{
    match kind {
        Reg::Int | Reg::Ref => local < max_locals,
        Reg::Long => u32::from(local) + 1 < u32::from(max_locals),
    }
}

/// Whether an entry is a constant of one word, or with `true` one of two words.
fn is_constant(two_words: bool, entry: &Entry) -> bool
    ensures { IsTrue result ↔ IsConstant two_words entry.now }
{
    match entry {
        Entry::Integer(_)
        | Entry::Float(_)
        | Entry::Class(_)
        | Entry::Text(_)
        | Entry::MethodHandle(_, _)
        | Entry::MethodType(_) => !two_words,
        Entry::Long(_) | Entry::Double(_) => two_words,
        _ => false,
    }
}

/// Whether the item is an ldc2_w.
fn is_ldc2_w(item: &Item) -> bool
    ensures { result ≡ (opcode_of item.now == LDC2_W) }
{
    matches!(item.bytes.as_slice(), [LDC2_W, ..])
}

/// Whether the constant at an index may be named by an item.
fn has_constant(known: &KnownPool, item: &Item, index: u16) -> bool
    ensures { IsTrue result
        ↔ IsConstant (opcode_of item.now == LDC2_W) (entry_at known.now.entries index) }
{
    match known.pool().entry(index) {
        Some(entry) => is_constant(is_ldc2_w(item), entry),
        None => false,
    }
}

/// Whether the method of an interface at an index takes as many words as an item says.
fn has_interface_method(known: &KnownPool, item: &Item, index: u16) -> bool
    ensures { IsTrue result ↔ TakesCounted known.now.entries item.now index }
{
    match item.bytes.as_slice() {
        [_, _, _, words, ..] => known.has_interface_method(index, *words),
        _ => false,
    }
}

/// Whether the entry that an item names has the tag that its instruction asks for.
fn operand_is_valid(known: &KnownPool, item: &Item) -> bool
    ensures { IsTrue result ↔ OperandIsValid known.now.entries item.now }
{
    match item.insn {
        Insn::LoadPool(index) => has_constant(known, item, index),
        Insn::GetStatic(index)
        | Insn::PutStatic(index)
        | Insn::GetField(index)
        | Insn::PutField(index) => known.has_field(index),
        Insn::Virtual(index) => known.has_method(index),
        Insn::Special(index) | Insn::Static(index) => {
            known.has_method(index) || known.names_interface_method(index)
        }
        Insn::Interface(index) => has_interface_method(known, item, index),
        Insn::New(index)
        | Insn::NewRefs(index)
        | Insn::Cast(index)
        | Insn::IsA(index)
        | Insn::MultiArray(index, _) => known.has_class(index),
        _ => true,
    }
}

/// Whether the locals that an item names lie below max_locals, and what it names in the pool has the
/// right tag.
fn item_is_valid(known: &KnownPool, max_locals: u16, item: &Item) -> bool
    ensures { IsTrue result ↔ ItemIsValid known.now.entries max_locals item.now }
{
    locals_fit(max_locals, &item.insn) && operand_is_valid(known, item)
}

/// Whether each item is so.
pub(crate) fn items_are_valid(known: &KnownPool, max_locals: u16, items: &[Item]) -> bool
    ensures { IsTrue result
        ↔ AllByRecursion (ItemIsValid known.now.entries max_locals) items.now }
{
    items
        .iter()
        .all(|item| item_is_valid(known, max_locals, item))
}
