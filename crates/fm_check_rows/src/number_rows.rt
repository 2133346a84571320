// The rows of constants, locals and numbers (JVMS 6.5).

ghost use Rattle.std.specs.Prelude.{◌≡◌, ◌<◌, [], ◌∷◌, if◌then◌else◌, IfOk, None, OnOk, Some, length};
ghost use Rattle.fm_code.specs.declared.operations.Reg.TheVariants as reg;
ghost use Rattle.fm_check_rows.specs.Outcomes.{outcome};
ghost use Rattle.fm_types.specs.Named.{built_in_type};
ghost use Rattle.fm_types.specs.NumberRows.{constant_row, convert_row, increment_row, load_row, loaded, store_row, suits};
ghost use Rattle.fm_types.specs.States.{cut_before, int_word, is_long, is_reference, long_words, pushed, stored};
ghost use Rattle.fm_types.specs.Typings.{type_state};
ghost use Rattle.fm_types.specs.declared.slots.Slot.TheVariants as slot;

use crate::method::built_in_type;
use crate::words::work;
use fm_base::NoMemory;
use fm_code::{Conv, Reg};
use fm_types::{SharedSlots, Slot, State};
use fm_world::{Program, Use};

/// Puts an int on the stack.
pub fn push_int(state: &mut State) -> Result<bool, NoMemory>
    ensures { IfOk result (λ met. outcome met state.new
        ≡ Some (pushed int_word (type_state state.old))) }
{
    state.stack.push(Slot::Int)?;
    Ok(true)
}

/// Puts a long on the stack.
pub fn push_long(state: &mut State) -> Result<bool, NoMemory>
    ensures { IfOk result (λ met. outcome met state.new
        ≡ Some (pushed long_words (type_state state.old))) }
{
    state.stack.push(Slot::Long)?;
    state.stack.push(Slot::Top)?;
    Ok(true)
}

/// Puts null on the stack.
pub fn push_null(state: &mut State) -> Result<bool, NoMemory>
    ensures { IfOk result (λ met. outcome met state.new
        ≡ Some (pushed (slot.Null ∷ []) (type_state state.old))) }
{
    state.stack.push(Slot::Null)?;
    Ok(true)
}

// Null, a reference, or an object before its constructor has returned.
fn is_reference(slot: Slot) -> bool
    ensures { result ≡ is_reference slot }
{
    match slot {
        Slot::Top => false,
        Slot::Int => false,
        Slot::Long => false,
        _ => true,
    }
}

// Whether a local or a word of that kind may hold the slot.
fn suits(kind: Reg, slot: Slot) -> bool
    ensures { result ≡ suits kind slot }
{
    match kind {
        Reg::Int => matches!(slot, Slot::Int),
        Reg::Long => matches!(slot, Slot::Long),
        Reg::Ref => is_reference(slot),
    }
}

// Puts a value of that kind on the stack, which a local holds.
fn push_loaded(kind: Reg, slot: Slot, state: &mut State) -> Result<bool, NoMemory>
    ensures { IfOk result (λ met. outcome met state.new
        ≡ Some (pushed (loaded kind slot) (type_state state.old))) }
{
    state.stack.push(slot)?;
    if let Reg::Long = kind {
        state.stack.push(Slot::Top)?;
    }
    Ok(true)
}

/// Puts a local on the stack.
#[tactic(auto, unfolding(fm_types::specs::NumberRows::load_row))]
pub fn load_row(kind: Reg, local: u16, state: &mut State) -> Result<bool, NoMemory>
    ensures { IfOk result (λ met. outcome met state.new
        ≡ load_row kind local (type_state state.old)) }
{
    let Some(slot) = state.locals.get(usize::from(local)) else {
        return Ok(false);
    };
    if !suits(kind, slot) {
        return Ok(false);
    }
    push_loaded(kind, slot, state)
}

// The first half of a long.
fn is_long(slot: Slot) -> bool
    ensures { result ≡ is_long slot }
{
    matches!(slot, Slot::Long)
}

// Makes the local before this one `Top`, where it is the first half of a long.
fn cut_before(locals: &mut SharedSlots, local: usize) -> Result<(), NoMemory>
    ensures value { OnOk result (locals.new ≡ cut_before local locals.old) }
    ensures size { OnOk result (length locals.new ≡ length locals.old) }
{
    if local == 0 {
        return Ok(());
    }
    let before = local - 1;
    if before >= locals.len() {
        return Ok(());
    }
    if !is_long(locals.slot(before)) {
        return Ok(());
    }
    locals.set(before, Slot::Top)?;
    Ok(())
}

// Writes one slot from the local on, and returns whether there is that local.
fn store_one(locals: &mut SharedSlots, local: usize, slot: Slot) -> Result<bool, NoMemory>
    ensures { IfOk result (λ met. (if met then Some locals.new else None)
        ≡ stored local (slot ∷ []) locals.old) }
{
    if local >= locals.len() {
        return Ok(false);
    }
    cut_before(locals, local)?;
    locals.set(local, slot)?;
    Ok(true)
}

// Writes a long, and returns whether there are two such locals.
fn store_long(locals: &mut SharedSlots, local: usize) -> Result<bool, NoMemory>
    ensures { IfOk result (λ met. (if met then Some locals.new else None)
        ≡ stored local (slot.Long ∷ slot.Top ∷ []) locals.old) }
{
    let size = locals.len();
    if size < 2 {
        return Ok(false);
    }
    if local > size - 2 {
        return Ok(false);
    }
    cut_before(locals, local)?;
    locals.set(local, Slot::Long)?;
    locals.set(local + 1, Slot::Top)?;
    Ok(true)
}

// Takes an int or a reference from the stack and writes it to a local.
#[tactic(auto, unfolding(fm_types::specs::NumberRows::store_row))]
fn store_word(program: &Program, kind: Reg, local: u16, state: &mut State) -> Result<bool, NoMemory>
    requires { ¬ (kind ≡ reg.Long) }
    ensures { IfOk result (λ met. outcome met state.new
        ≡ store_row program.now.outline kind local (type_state state.old)) }
{
    let Some(top) = state.stack.pop() else {
        return Ok(false);
    };
    if !suits(kind, top) {
        return Ok(false);
    }
    let met = store_one(&mut state.locals, usize::from(local), top)?;
    Ok(met)
}

// Takes a long from the stack and writes it to a local and the next one.
#[tactic(auto, unfolding(fm_types::specs::NumberRows::store_row))]
fn store_two_words(program: &Program, local: u16, state: &mut State) -> Result<bool, NoMemory>
    ensures { IfOk result (λ met. outcome met state.new
        ≡ store_row program.now.outline reg.Long local (type_state state.old)) }
{
    if let None = state.stack.pop() {
        return Ok(false);
    }
    let Some(slot) = state.stack.pop() else {
        return Ok(false);
    };
    if !suits(Reg::Long, slot) {
        return Ok(false);
    }
    let met = store_long(&mut state.locals, usize::from(local))?;
    Ok(met)
}

/// Takes a value from the stack and writes it to a local.
pub fn store_row(
    program: &Program,
    kind: Reg,
    local: u16,
    state: &mut State,
) -> Result<bool, NoMemory>
    ensures { IfOk result (λ met. outcome met state.new
        ≡ store_row program.now.outline kind local (type_state state.old)) }
{
    match kind {
        Reg::Long => store_two_words(program, local, state),
        Reg::Int => store_word(program, Reg::Int, local, state),
        Reg::Ref => store_word(program, Reg::Ref, local, state),
    }
}

/// Whether the local is an int, which is changed.
#[tactic(auto, unfolding(fm_types::specs::NumberRows::increment_row))]
pub fn increment_row(local: u16, state: &mut State) -> bool
    ensures { outcome result state.new ≡ increment_row local (type_state state.old) }
{
    suits(Reg::Int, state.locals.slot(usize::from(local)))
}

/// Conversions of numbers.
#[tactic(auto, unfolding(fm_types::specs::NumberRows::convert_row))]
pub fn convert_row(program: &Program, conv: Conv, state: &mut State) -> Result<bool, NoMemory>
    ensures { IfOk result (λ met. outcome met state.new
        ≡ convert_row program.now.outline conv (type_state state.old)) }
{
    match conv {
        Conv::IntToLong => work(program, state, &[Slot::Int], &[Slot::Long, Slot::Top]),
        Conv::LongToInt => work(program, state, &[Slot::Long, Slot::Top], &[Slot::Int]),
        _ => work(program, state, &[Slot::Int], &[Slot::Int]),
    }
}

/// ldc, ldc_w and ldc2_w.
#[tactic(auto, unfolding(fm_types::specs::NumberRows::constant_row))]
pub fn constant_row(program: &Program, resolved: Use, state: &mut State) -> Result<bool, NoMemory>
    ensures { IfOk result (λ met. outcome met state.new
        ≡ constant_row program.now.outline resolved (type_state state.old)) }
{
    match resolved {
        Use::OfInt(_) => push_int(state),
        Use::OfLong(_) => push_long(state),
        Use::OfText(_) => {
            let string = built_in_type(program, b"java/lang/String");
            state.stack.push(Slot::Ref(string))?;
            Ok(true)
        }
        Use::OfType(_) => {
            let class = built_in_type(program, b"java/lang/Class");
            state.stack.push(Slot::Ref(class))?;
            Ok(true)
        }
        _ => Ok(false),
    }
}
