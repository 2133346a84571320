// The checker's one call.

ghost use Rattle.std.specs.Prelude.{◌≡◌, ℕ, ◌<◌, ◌-◌, ◌++◌, Err, IfOk, IsSomeAnd, MatchOption, OnOk, length, replicate};
ghost use Rattle.std.specs.Option.{option_copied};
ghost use Rattle.fm_check.specs.Checking.{HasCode, IsCheckable, IsLeastTyping, IsNarrow, IsTooWide, coded};
ghost use Rattle.fm_check.specs.inner.Judgements.{Judged};
ghost use Rattle.fm_check.specs.inner.Steps.{IsLeast};
ghost use Rattle.fm_check_walk.specs.inner.Walks.{Untypable};
ghost use Rattle.fm_check_walk.specs.inner.Tasks.{IsSound, task};
ghost use Rattle.fm_code.specs.AccessFlags.{is_static};
ghost use Rattle.fm_types.specs.Typed.{Typed, entry_slots, entry_state, receiver_slots};
ghost use Rattle.fm_types.specs.Typings.{states_of, type_state};
ghost use Rattle.fm_types.specs.declared.slots.Slot.TheVariants.{Top};
ghost use Rattle.fm_world.specs.Members.{method_at, methods_of};
ghost use Rattle.fm_world.specs.Programs.{code_at, method_info};

use crate::error::CheckFail;
use crate::steps::run;
use fm_base::limits::{MAX_LOCAL_WORDS, MAX_STACK_WORDS};
use fm_base::{MethodId, NoMemory, Seq};
use fm_check_rows::{is_constructor, this_class};
use fm_check_walk::{CheckedMethod, Walk, is_within, parameter_slots};
use fm_code::{ACC_STATIC, Code, has_flag};
use fm_types::{KnownState, SharedSlots, Slot, Stack, State, Typing};
use fm_world::{Body, Program, type_of_class};
use std::alloc::Global;

/// The least typing of a method with code: a state for each item that can be reached, which fits the
/// state of that item in every typing. `TooWide` comes exactly where a count is above its limit, and
/// else `NotTyped` exactly where no typing exists. Takes memory for a state of each reachable item, and
/// for the locals of at most 34 states for each entry of the exception table.
pub fn check(alloc: Global, program: &Program, method: MethodId) -> Result<Typing, CheckFail>
    requires linked { IsCheckable program.now }
    requires code { IsSomeAnd (code_at program.now method.0) (HasCode program.now method.0) }
    ensures least { IfOk result
        (λ typing. IsLeastTyping program.now method.0 (states_of typing)) }
    ensures narrow { OnOk result (IsSomeAnd (code_at program.now method.0) IsNarrow) }
    ensures wide { (count : ℕ) → result ≡ Err (CheckFail.TooWide count)
        → IsSomeAnd (code_at program.now method.0) (λ code. IsTooWide code count) }
    ensures untyped { result ≡ Err CheckFail.NotTyped → ¬ Typed program.now method.0 }
    ensures untyped_narrow { result ≡ Err CheckFail.NotTyped
        → IsSomeAnd (code_at program.now method.0) IsNarrow }
{
    let Some(code) = code_of(program, method) else {
        return Err(CheckFail::NotTyped);
    };
    judge(
        alloc,
        &CheckedMethod {
            program,
            number: method,
            code,
        },
    )
}

// The same of a method whose code was looked up.
fn judge(alloc: Global, method: &CheckedMethod<'_>) -> Result<Typing, CheckFail>
    requires { IsSound (task method.now) }
    ensures { Judged (task method.now) result }
{
    if let Some(count) = wide_count(method.code) {
        return Err(CheckFail::TooWide(count));
    }
    match typing_of(alloc, method)? {
        Some(typing) => Ok(typing),
        None => Err(CheckFail::NotTyped),
    }
}

// The code of a method, if it has one.
fn code_of(program: &Program, method: MethodId) -> Option<&Code>
    requires { method.0 < length (methods_of program.now.outline.classes) }
    ensures { option_copied result ≡ coded (method_info program.now method.0).body }
{
    match &program.method(method).body {
        Body::Coded(code) => Some(code),
        _ => None,
    }
}

// The count that is above its limit, if one is.
fn wide_count(code: &Code) -> Option<u32>
    ensures { MatchOption result (IsNarrow code.now) (IsTooWide code.now) }
{
    if code.max_stack > MAX_STACK_WORDS {
        return Some(u32::from(code.max_stack));
    }
    if code.max_locals > MAX_LOCAL_WORDS {
        return Some(u32::from(code.max_locals));
    }
    None
}

// The least typing of the method, if one exists.
fn typing_of(alloc: Global, method: &CheckedMethod<'_>) -> Result<Option<Typing>, NoMemory>
    requires { IsSound (task method.now) }
    ensures { IfOk result (λ found. MatchOption found (Untypable (task method.now))
        (λ typing. IsLeast (task method.now) (states_of typing))) }
{
    let first = entry_state(alloc, method)?;
    if !is_within(method.code, &first) {
        return Ok(None);
    }
    let mut walk = Walk::new(alloc, method.code.items.len())?;
    let known = KnownState::of(&first)?;
    walk.begin(0, known)?;
    if !run(alloc, &mut walk, method)? {
        return Ok(None);
    }
    Ok(Some(Typing {
        states: Seq::new(walk.states),
    }))
}

// Whether the method is static.
#[tactic(auto, unfolding(fm_world::specs::Programs::method_info))]
fn is_static(program: &Program, method: MethodId) -> bool
    requires { method.0 < length (methods_of program.now.outline.classes) }
    ensures { result
        ≡ is_static (method_at program.now.outline.classes method.0).method.flags }
{
    has_flag(program.method(method).flags, ACC_STATIC)
}

// The receiver's slot, if there is a receiver.
fn receiver_slots(alloc: Global, program: &Program, method: MethodId) -> Result<Vec<Slot>, NoMemory>
    requires { method.0 < length (methods_of program.now.outline.classes) }
    ensures { IfOk result (λ slots. slots.items
        ≡ receiver_slots program.now.outline method.0) }
{
    let mut slots = Vec::new(alloc);
    if is_static(program, method) {
        return Ok(slots);
    }
    if is_constructor(program, method) {
        slots.push(Slot::UninitThis)?;
    } else {
        slots.push(Slot::Ref(type_of_class(this_class(program, method))))?;
    }
    Ok(slots)
}

// The slots of the receiver and of the parameters.
fn entry_slots(alloc: Global, program: &Program, method: MethodId) -> Result<Vec<Slot>, NoMemory>
    requires { method.0 < length (methods_of program.now.outline.classes) }
    ensures { IfOk result (λ slots. slots.items ≡ entry_slots program.now.outline method.0) }
{
    let mut slots = receiver_slots(alloc, program, method)?;
    let words = parameter_slots(alloc, program, method)?;
    slots.extend_from_slice(words.as_slice())?;
    Ok(slots)
}

// Fills the locals up with `Top`, to a given number.
fn fill(locals: &mut Vec<Slot>, count: usize) -> Result<(), NoMemory>
    ensures { OnOk result (locals.new.items
        ≡ locals.old.items ++ replicate (count - length locals.old.items) Top) }
{
    let missing = count.saturating_sub(locals.len());
    for _ in 0..missing {
        locals.push(Slot::Top)?;
    }
    Ok(())
}

// The state of the first item: the receiver and the parameters are in the first locals.
#[tactic(auto, unfolding(fm_types::specs::Typed::entry_state))]
fn entry_state(alloc: Global, method: &CheckedMethod<'_>) -> Result<State, NoMemory>
    requires { (task method.now).number < length (methods_of (task method.now).program.outline.classes) }
    ensures { IfOk result (λ state. type_state state
        ≡ entry_state (task method.now).program.outline (task method.now).number
        (task method.now).code) }
{
    let mut slots = entry_slots(alloc, method.program, method.number)?;
    fill(&mut slots, usize::from(method.code.max_locals))?;
    let locals = SharedSlots::of(alloc, slots.as_slice())?;
    Ok(State {
        locals,
        stack: Stack::new(SharedSlots::empty(alloc)),
        built: !is_constructor(method.program, method.number),
    })
}
