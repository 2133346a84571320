// Which methods calls can lead to, and which methods make them.

ghost use Rattle.std.specs.Prelude.{◌≡◌, ◌<◌, ◌^◌, Contains, IfOk, OnOk, length, map};
ghost use Rattle.fm_world.specs.Programs.{targets};
ghost use Rattle.fm_conn.specs.declared.shapes.CallShape.{CallShape};
ghost use Rattle.fm_conn.specs.declared.shapes.Shape.{Shape};
ghost use Rattle.fm_summ.specs.inner.Callers.{call_targets, ended_by, ends_with, lists_of, shape_targets, with_all, with_caller, with_callers, AreCallsIn, AreNumbersOf, AreNumbersOfAll, HasListed, Keeps};
ghost use Rattle.fm_summ.specs.inner.Lists.{AreCallsOf, KnowsCalls};
ghost use Rattle.fm_conn.specs.inner.PairLists.{IsCallIn};

use crate::target_lists::TargetLists;
use fm_base::NoMemory;
use fm_conn::{CallShape, Shape};
use fm_world::Program;
use std::alloc::Global;

/// The calls of all methods: what each can lead to, and who makes it.
#[derive(Drop)]
pub struct Calls {
    pub known: TargetLists,
    // for each method the lists of its calls
    pub of_methods: Vec<Vec<u32>>,
    // for each list the methods that have a call of it
    pub callers: Vec<Vec<u32>>,
    // for each method the lists that have it
    pub leading: Vec<Vec<u32>>,
}

impl Calls {
    /// The calls of these shapes. Takes memory for the calls and the lists.
    pub fn of(alloc: Global, program: &Program, shapes: &[Shape]) -> Result<Calls, NoMemory>
        requires { AreCallsIn program.now.outline shapes.now }
        ensures { IfOk result (AreCallsOf program.now shapes.now) }
    {
        let mut known = TargetLists::none(alloc);
        let of_methods = list_calls(alloc, program, &mut known, shapes)?;
        let callers = listed_in(alloc, known.lists.len(), of_methods.as_slice())?;
        let leading = listed_in(alloc, of_methods.len(), known.lists.as_slice())?;
        Ok(Calls {
            known,
            of_methods,
            callers,
            leading,
        })
    }
}

// For each method, and each of its calls, the list of the methods that the call can lead to.
fn list_calls(
    alloc: Global,
    program: &Program,
    known: &mut TargetLists,
    shapes: &[Shape],
) -> Result<Vec<Vec<u32>>, NoMemory>
    requires calls { AreCallsIn program.now.outline shapes.now }
    requires known { KnowsCalls program.now known.old }
    ensures { IfOk result (λ found. AreNumbersOfAll (lists_of known.new.lists.items)
        (lists_of found.items) (shape_targets program.now shapes.now)) }
{
    let mut found = Vec::new(alloc);
    for shape in shapes {
        found.push(list_calls_of(alloc, program, known, shape.calls.as_slice())?)?;
    }
    Ok(found)
}

// The same for the calls of one method.
fn list_calls_of(
    alloc: Global,
    program: &Program,
    known: &mut TargetLists,
    calls: &[CallShape],
) -> Result<Vec<u32>, NoMemory>
    requires calls { (c : CallShape) → Contains calls.now c → IsCallIn program.now.outline c.call }
    requires known { KnowsCalls program.now known.old }
    ensures known { OnOk result (KnowsCalls program.now known.new) }
    ensures kept { OnOk result
        (Keeps (lists_of known.old.lists.items) (lists_of known.new.lists.items)) }
    ensures are { IfOk result (λ found. AreNumbersOf (lists_of known.new.lists.items) found.items
        (call_targets program.now calls.now)) }
{
    let mut found = Vec::new(alloc);
    for call in calls {
        found.push(known.number(alloc, program, call.call)?)?;
    }
    Ok(found)
}

// For each number below the count those of the lists that have it, each once; `NoMemory` where there
// are more lists than numbers of 32 bits.
fn listed_in(alloc: Global, count: usize, lists: &[Vec<u32>]) -> Result<Vec<Vec<u32>>, NoMemory>
    ensures { IfOk result (λ found. HasListed count (lists_of lists.now) (lists_of found.items)) }
{
    let Ok(_lists) = u32::try_from(lists.len()) else {
        return Err(NoMemory);
    };
    let mut found = Vec::with_capacity(alloc, count)?;
    for _number in 0..count {
        found.push(Vec::new(alloc))?;
    }
    push_all(&mut found, lists)?;
    Ok(found)
}

// Lists each of the lists at the numbers that it has.
fn push_all(found: &mut Vec<Vec<u32>>, lists: &[Vec<u32>]) -> Result<(), NoMemory>
    requires { length lists.now < 2 ^ 32 }
    ensures { OnOk result (lists_of found.new.items
        ≡ with_all (lists_of found.old.items) (lists_of lists.now) 0) }
{
    for (index, list) in lists.iter().enumerate() {
        push_each(found, list.as_slice(), index as u32)?;
    }
    Ok(())
}

// Lists a number at each of these.
fn push_each(found: &mut Vec<Vec<u32>>, list: &[u32], number: u32) -> Result<(), NoMemory>
    ensures { OnOk result (lists_of found.new.items
        ≡ with_callers (lists_of found.old.items) list.now number) }
{
    for at in list {
        push_at(found, *at, number)?;
    }
    Ok(())
}

// Lists a number at this one, if that is there.
fn push_at(found: &mut Vec<Vec<u32>>, at: u32, number: u32) -> Result<(), NoMemory>
    ensures { OnOk result (lists_of found.new.items
        ≡ with_caller (lists_of found.old.items) at number) }
{
    let place = at as usize;
    if place < found.len() {
        push_once(&mut found[place], number)?;
    }
    Ok(())
}

// Puts the number after the last one, unless it is that one.
fn push_once(list: &mut Vec<u32>, n: u32) -> Result<(), NoMemory>
    ensures { OnOk result (list.new.items ≡ ended_by list.old.items n) }
{
    if !ends_with(list.as_slice(), n) {
        list.push(n)?;
    }
    Ok(())
}

// Whether the list ends with this number.
fn ends_with(list: &[u32], n: u32) -> bool
    ensures { result ≡ ends_with list.now n }
{
    match list.last() {
        Some(last) => *last == n,
        None => false,
    }
}
