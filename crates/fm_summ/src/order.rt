// The order in which methods are done at first: those that are called before those that call them.

ghost use Rattle.std.specs.Prelude.{◌≡◌, ◌↔◌, IfOk, IsTrue, OnOk, Some, false, slice_get, slice_set, true};
ghost use Rattle.fm_summ.specs.inner.Orders.{AreListed, ListsEachOnce};

use fm_base::{NoMemory, mark};
use std::alloc::Global;

// A method that the walk over calls went into, and which of its calls comes next.
#[derive(Clone, Copy)]
struct Visit {
    method: u32,
    call: usize,
}

/// Methods by their numbers, of which there are `count`: each once, behind those that it calls, but where
/// calls lead back to it. That callees come first is no promise.
pub fn callees_first(
    alloc: Global,
    count: u32,
    lists: &[Vec<u32>],
    calls: &[Vec<u32>],
) -> Result<Vec<u32>, NoMemory>
    ensures { IfOk result (λ order. ListsEachOnce count order.items) }
{
    let walked = walked(alloc, count, lists, calls)?;
    each_once(alloc, count, walked.as_slice())
}

// These methods, as far as they are below `count`, and then the others by their numbers: each once.
fn each_once(alloc: Global, count: u32, first: &[u32]) -> Result<Vec<u32>, NoMemory>
    ensures { IfOk result (λ order. ListsEachOnce count order.items) }
{
    let mut order = Vec::new(alloc);
    let mut listed = vec![in alloc; false; count as usize]?;
    for method in first {
        list_once(&mut order, &mut listed, *method)?;
    }
    for other in 0..count {
        list_once(&mut order, &mut listed, other)?;
    }
    Ok(order)
}

// Lists a method that isn't listed yet, and marks it.
fn list_once(order: &mut Vec<u32>, listed: &mut Vec<bool>, method: u32) -> Result<(), NoMemory>
    ensures kept { OnOk result (AreListed listed.old.items order.old.items
        → AreListed listed.new.items order.new.items) }
    ensures marks { OnOk result (listed.new.items ≡ slice_set listed.old.items method true) }
{
    if !is_unlisted(listed.as_slice(), method) {
        return Ok(());
    }
    order.push(method)?;
    mark(listed, method as usize);
    Ok(())
}

// Whether there is a mark for the method, which isn't set.
fn is_unlisted(listed: &[bool], method: u32) -> bool
    ensures { IsTrue result ↔ (slice_get listed.now method ≡ Some false) }
{
    match listed.get(method as usize) {
        Some(is_listed) => !*is_listed,
        None => false,
    }
}

// The methods in the order in which a walk over the calls leaves them. Takes memory for the methods and
// the lists, however many calls there are.
fn walked(
    alloc: Global,
    count: u32,
    lists: &[Vec<u32>],
    calls: &[Vec<u32>],
) -> Result<Vec<u32>, NoMemory> {
    let mut order = Vec::new(alloc);
    let mut entered = vec![in alloc; false; calls.len()]?;
    let mut gone = vec![in alloc; 0; lists.len()]?;
    let mut visits = Vec::new(alloc);
    let most = most_steps(lists, calls);
    for method in 0..count {
        enter(&mut entered, &mut visits, method)?;
        for _ in 0..most {
            let Some(visit) = visits.pop() else {
                break;
            };
            let Some(list) = next_list(calls, visit) else {
                order.push(visit.method)?;
                continue;
            };
            match next_target(lists, &mut gone, list) {
                Some(target) => go_on(&mut entered, &mut visits, visit, target)?,
                None => visits.push(Visit {
                    method: visit.method,
                    call: visit.call.saturating_add(1),
                })?,
            }
        }
    }
    Ok(order)
}

// No more steps are made: each method is left once, and each call and each target of a list is gone
// over once.
fn most_steps(lists: &[Vec<u32>], calls: &[Vec<u32>]) -> usize {
    let mut most = calls.len();
    for numbers in calls {
        most = most.saturating_add(numbers.len());
    }
    for list in lists {
        most = most.saturating_add(list.len());
    }
    most
}

// Goes into a method that wasn't gone into before.
fn enter(entered: &mut Vec<bool>, visits: &mut Vec<Visit>, method: u32) -> Result<(), NoMemory> {
    let index = method as usize;
    if index < entered.len() && !entered[index] {
        entered[index] = true;
        visits.push(Visit { method, call: 0 })?;
    }
    Ok(())
}

// The list of the call that comes next; none behind the last call.
fn next_list(calls: &[Vec<u32>], visit: Visit) -> Option<u32> {
    let index = visit.method as usize;
    if index >= calls.len() || visit.call >= calls[index].len() {
        return None;
    }
    Some(calls[index][visit.call])
}

// The first target of a list that no visit took from it, which now is taken. Those before it were gone
// into.
fn next_target(lists: &[Vec<u32>], gone: &mut Vec<usize>, list: u32) -> Option<u32> {
    let index = list as usize;
    if index >= lists.len() || index >= gone.len() || gone[index] >= lists[index].len() {
        return None;
    }
    let place = gone[index];
    gone[index] = place + 1;
    Some(lists[index][place])
}

// Goes into a target of a visit, which goes on behind it.
fn go_on(
    entered: &mut Vec<bool>,
    visits: &mut Vec<Visit>,
    visit: Visit,
    target: u32,
) -> Result<(), NoMemory> {
    visits.push(visit)?;
    enter(entered, visits, target)
}
