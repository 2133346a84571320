// How values lie in the elements of objects, and what the machine reads and puts there.

ghost use Rattle.std.specs.Prelude.{◌≡◌, ◌<◌, ◌≤◌, [], ◌∷◌};
ghost use Rattle.fm_alu.specs.TwosComplement.{low_bits};
ghost use Rattle.fm_cells.specs.Answers.{head_at};
ghost use Rattle.fm_frames.specs.Acts.{put_value, value_of, Choose};
ghost use Rattle.fm_frames.specs.Effects.{acting, Put, Source};
ghost use Rattle.fm_frames.specs.Elements.{int_bits, kept, read};
ghost use Rattle.fm_frames.specs.States.{ref};
ghost use Rattle.fm_frames.specs.inner.Doings.{before, Does, IsReady};
ghost use Rattle.fm_frames.specs.inner.Places.{element_at, FitsIn, IsOfKind};

use crate::machine::Machine;
use crate::values::Value;
use fm_base::Kind;
use fm_cells::{Cell, Head, Memory};

// The lowest bits of a number, as many as an element of the kind has.
#[inline(always)]
fn low_bits(kind: Kind, n: i64) -> u64
    ensures { result ≡ low_bits (int_bits kind) n }
{
    let bits = n.cast_unsigned();
    match kind {
        Kind::Boolean => bits % (1 << 1),
        Kind::Byte => bits % (1 << u8::BITS),
        Kind::Char => bits % (1 << u16::BITS),
        Kind::Short => bits % (1 << u16::BITS),
        Kind::Int => bits % (1 << u32::BITS),
        Kind::Ref(_) => bits % (1 << u32::BITS),
        Kind::Long => bits,
    }
}

/// The element that keeps a value; a reference is kept by its cell. Takes no memory.
#[inline(always)]
pub fn kept(kind: Kind, value: Value) -> u64
    ensures { result ≡ kept kind value }
{
    match value {
        Value::Top => 0,
        Value::Int(n) => low_bits(kind, n as i64),
        Value::Long(n) => low_bits(kind, n),
        Value::Ref(cell) => cell.0 as u64,
    }
}

/// The value that an element keeps. Takes no memory.
#[inline(always)]
pub fn read(kind: Kind, element: u64) -> Value
    requires { IsOfKind kind element }
    ensures { result ≡ read kind element }
{
    match kind {
        Kind::Boolean => Value::Int(element as i32),
        Kind::Byte => Value::Int((element as u8).cast_signed() as i32),
        Kind::Char => Value::Int(element as i32),
        Kind::Short => Value::Int((element as u16).cast_signed() as i32),
        Kind::Int => Value::Int((element as u32).cast_signed()),
        Kind::Long => Value::Long(element.cast_signed()),
        Kind::Ref(_) => Value::Ref(Cell(element as u32)),
    }
}

impl<M: Memory> Machine<M> {
    /// The element at a place of the object in a cell; 0 where there is none. Takes no memory.
    #[inline(always)]
    pub fn element(&self, cell: Cell, place: u32) -> u64
        ensures { result ≡ element_at self.now.areas.store cell.0 place }
    {
        let Some(head) = self.memory.head(cell) else {
            return 0;
        };
        if place < head.len {
            self.memory.get(cell, place)
        } else {
            0
        }
    }

    /// The head of the object in a cell, if the cell is held. Takes no memory.
    #[inline(always)]
    pub fn head(&self, cell: Cell) -> Option<Head>
        ensures { result ≡ head_at self.now.areas.store cell.0 }
    {
        self.memory.head(cell)
    }

    /// The value that the element at a place of the object in a cell keeps. Takes no memory.
    #[inline(always)]
    pub fn place(&self, cell: Cell, place: u32, kind: Kind) -> Value
        requires { IsOfKind kind (element_at self.now.areas.store cell.0 place) }
        ensures { result ≡ read kind (element_at self.now.areas.store cell.0 place) }
    {
        read(kind, self.element(cell, place))
    }

    /// Puts a value at a place of the object in a cell, if there is that place. Takes no memory.
    #[inline(always)]
    pub fn put_place(&mut self, cell: Cell, place: u32, kind: Kind, value: Value)
        requires { FitsIn self.old.areas.store cell.0 kind value }
        ensures { self.new ≡ record self.old {
          areas = put_value self.old.areas (ref cell.0) place kind value;
        } }
    {
        let Some(head) = self.memory.head(cell) else {
            return;
        };
        if place < head.len {
            self.memory.put(cell, place, kept(kind, value));
        }
    }

    /// Takes `takes` words off the stack, and puts a value at a place of the object in a cell.
    /// Takes no memory.
    #[inline(always)]
    pub fn put(&mut self, takes: usize, cell: Cell, place: u32, kind: Kind, value: Value)
        requires ready { IsReady self.old }
        requires fits { FitsIn self.old.areas.store cell.0 kind value }
        ensures { (object source : Source) → value_of (before self.old) object ≡ ref cell.0
            → value_of (before self.old) source ≡ value
            → Does self.old self.new (acting takes (Put object place kind source ∷ [])) }
    {
        self.put_place(cell, place, kind, value);
        self.take(takes);
    }
}
