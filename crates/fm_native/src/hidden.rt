// Objects that have a text in a hidden field: those that build texts, and throwables.

ghost use Rattle.std.specs.Prelude.{◌≡◌, ◌∷◌, ◌++◌, [], ℕ, length, pos, IfErr, IfOk, IfSome};
ghost use Rattle.fm_native.specs.Serving.{HoldsHidden};
ghost use Rattle.fm_native.specs.Texts.{HoldsTexts};
ghost use Rattle.fm_native.specs.inner.Asked.{IsAt, IsHeldAt, IsTextAt};
ghost use Rattle.fm_native.specs.inner.Hidden.{builds_text, is_throwable, units_so_far, AsksBuilt, AsksFitting, AsksInner, HidesText, KnownBuilt};
ghost use Rattle.fm_frames.specs.Effects.{acting, OfOperand, Plain, Put};
ghost use Rattle.fm_frames.specs.NativeRows.{is_builder, text_kind};
ghost use Rattle.fm_frames.specs.Runnable.{IsRunnable};
ghost use Rattle.fm_frames.specs.States.{null, word_at};
ghost use Rattle.fm_frames.specs.Steps.{stack_of};
ghost use Rattle.fm_frames.specs.declared.values.Value.TheVariants as value;
ghost use Rattle.fm_frames.specs.inner.Doings.{seen, CanStep, DoesIn};
ghost use Rattle.fm_types.specs.Fits.{fits_type};
ghost use Rattle.fm_types.specs.Named.{throwable_type};

use crate::asked::{Held, OperandRefusal, Text, held_at};
use crate::contents::units_of;
use fm_base::{Kind, NoMemory, TypeId, TypeRef};
use fm_cells::{Cell, Memory};
use fm_frames::{
    Machine, STRING, STRING_BUFFER, STRING_BUILDER, THROWABLE, Value, is_text, type_numbered,
};
use fm_types::fits_type;
use fm_world::{Program, type_of_class};
use std::alloc::Global;

/// An object that builds a text: none before the first units are appended.
#[derive(Clone, Copy, Debug)]
pub struct Built {
    pub held: Held,
    pub text: Option<Text>,
}

/// The kind of a hidden field. Takes no memory.
pub fn text_kind(program: &Program) -> Kind
    ensures { IsRunnable program.now → result ≡ text_kind program.now.outline }
{
    // For its clause: a program has fewer than 2^32 classes.
    let _classes = program.classes();
    Kind::Ref(type_of_class(STRING))
}

// Whether objects of the type build texts.
fn builds_text(program: &Program, t: TypeRef) -> bool
    ensures { IsRunnable program.now → result ≡ builds_text program.now.outline t }
{
    fits_type(program, t, type_of_class(STRING_BUILDER))
        || fits_type(program, t, type_of_class(STRING_BUFFER))
}

// Whether objects of the type are throwables.
fn is_thrown(program: &Program, t: TypeRef) -> bool
    ensures { IsRunnable program.now → result
        ≡ fits_type program.now.outline.classes t (throwable_type program.now.outline) }
{
    fits_type(program, t, type_of_class(THROWABLE))
}

/// The object that builds texts to which an operand leads. Takes no memory.
pub fn builder_at<M: Memory>(
    machine: &Machine<M>,
    program: &Program,
    place: usize,
) -> Result<Held, OperandRefusal>
    requires runnable { IsRunnable program.now }
    requires hidden { HoldsHidden program.now.outline machine.now.areas.store }
    ensures value { AsksFitting (is_builder program.now.outline) program.now.outline
        machine.now.areas.store (seen program.now machine.now) place result }
    ensures held { IfOk result (IsHeldAt machine.now.areas.store machine.now place) }
    ensures hides { IfOk result (HidesText program.now.outline machine.now.areas.store) }
    ensures at { IfErr result (IsAt program.now.outline machine.now place) }
{
    let held = held_at(machine, program, place)?;
    let t = type_numbered(program, TypeId(held.head.class));
    let fits = builds_text(program, t);
    if fits {
        return Ok(held);
    }
    Err(OperandRefusal::Unfit(held.cell))
}

/// The throwable to which an operand leads. Takes no memory.
pub fn throwable_at<M: Memory>(
    machine: &Machine<M>,
    program: &Program,
    place: usize,
) -> Result<Held, OperandRefusal>
    requires runnable { IsRunnable program.now }
    requires hidden { HoldsHidden program.now.outline machine.now.areas.store }
    ensures value { AsksFitting (is_throwable program.now.outline) program.now.outline
        machine.now.areas.store (seen program.now machine.now) place result }
    ensures held { IfOk result (IsHeldAt machine.now.areas.store machine.now place) }
    ensures hides { IfOk result (HidesText program.now.outline machine.now.areas.store) }
    ensures at { IfErr result (IsAt program.now.outline machine.now place) }
{
    let held = held_at(machine, program, place)?;
    let t = type_numbered(program, TypeId(held.head.class));
    let fits = is_thrown(program, t);
    if fits {
        return Ok(held);
    }
    Err(OperandRefusal::Unfit(held.cell))
}

/// The text that the hidden field of an object leads to; none where it is null. Takes no memory.
pub fn inner_of<M: Memory>(
    machine: &Machine<M>,
    program: &Program,
    held: Held,
) -> Result<Option<Text>, OperandRefusal>
    requires hides { HidesText program.now.outline machine.now.areas.store held }
    requires runnable { IsRunnable program.now }
    requires texts { HoldsTexts program.now.outline machine.now.areas.store }
    ensures value { AsksInner program.now.outline machine.now.areas.store held result }
    ensures text { IfOk result (λ found. IfSome found (IsTextAt machine.now.areas.store)) }
    ensures at { IfErr result (λ r. (operand : ℕ)
        → word_at (stack_of machine.now) operand ≡ value.Ref held.cell
        → IsAt program.now.outline machine.now operand r) }
{
    let cell = Cell(machine.element(held.cell, 0) as u32);
    if cell.0 == 0 {
        return Ok(None);
    }
    let Some(head) = machine.head(cell) else {
        return Err(OperandRefusal::Lost(cell));
    };
    let fits = is_text(type_numbered(program, TypeId(head.class)));
    if fits {
        return Ok(Some(Text {
            cell,
            len: head.len,
        }));
    }
    Err(OperandRefusal::Lost(cell))
}

/// The text that is built at an operand. Takes no memory.
pub fn built_at<M: Memory>(
    machine: &Machine<M>,
    program: &Program,
    place: usize,
) -> Result<Built, OperandRefusal>
    requires runnable { IsRunnable program.now }
    requires hidden { HoldsHidden program.now.outline machine.now.areas.store }
    requires texts { HoldsTexts program.now.outline machine.now.areas.store }
    ensures value { AsksBuilt program.now.outline machine.now.areas.store
        (seen program.now machine.now) place result }
    ensures known { IfOk result
        (KnownBuilt program.now.outline machine.now.areas.store machine.now place) }
    ensures at { IfErr result (IsAt program.now.outline machine.now place) }
{
    match builder_at(machine, program, place) {
        Ok(held) => match inner_of(machine, program, held) {
            Ok(text) => Ok(Built { held, text }),
            Err(refusal) => Err(refusal),
        },
        Err(refusal) => Err(refusal),
    }
}

/// The units that an object has built so far.
pub fn units_so_far<M: Memory>(
    alloc: Global,
    machine: &Machine<M>,
    text: Option<Text>,
) -> Result<Vec<u16>, NoMemory>
    requires { IfSome text (IsTextAt machine.now.areas.store) }
    ensures { IfOk result (λ units. units.items ≡ units_so_far machine.now.areas.store text) }
{
    match text {
        Some(text) => units_of(alloc, machine, text),
        None => Ok(Vec::new(alloc)),
    }
}

/// The units so far, and those that are added.
pub fn joined<M: Memory>(
    alloc: Global,
    machine: &Machine<M>,
    text: Option<Text>,
    added: &[u16],
) -> Result<Vec<u16>, NoMemory>
    requires { IfSome text (IsTextAt machine.now.areas.store) }
    ensures { IfOk result (λ units. units.items
        ≡ units_so_far machine.now.areas.store text ++ added.now) }
{
    let mut units = units_so_far(alloc, machine, text)?;
    units.extend_from_slice(added)?;
    Ok(units)
}

/// How many units there are so far. Takes no memory.
pub fn built_len<M: Memory>(machine: &Machine<M>, text: Option<Text>) -> i32
    requires { IfSome text (IsTextAt machine.now.areas.store) }
    ensures { result ≡ pos (length (units_so_far machine.now.areas.store text)) }
{
    // For the invariant of the machine that each of its calls gives.
    let _end = machine.end();
    match text {
        Some(text) => text.len as i32,
        None => 0,
    }
}

/// Takes an object off the stack, and puts null into its hidden field. Takes no memory.
pub fn clear<M: Memory>(machine: &mut Machine<M>, program: &Program, held: Held)
    requires can { CanStep program.now machine.old }
    requires held { IsHeldAt machine.old.areas.store machine.old 0 held }
    requires hides { HidesText program.now.outline machine.old.areas.store held }
    ensures { DoesIn program.now M.choose machine.old machine.new
        (acting 1 (Put (OfOperand 0) 0 (text_kind program.now.outline) (Plain null) ∷ [])) }
{
    let kind = text_kind(program);
    machine.put(1, held.cell, 0, kind, Value::Ref(Cell(0)));
}
