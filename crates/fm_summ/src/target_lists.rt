// Lists of the methods that calls can lead to, each of which alike calls share.

ghost use Rattle.std.specs.Prelude.{◌≡◌, Bool, IfOk, IfSome, OnOk, Some, ◌++◌, ◌∷◌, [], length, map, slice_get, true};
ghost use Rattle.fm_base.specs.declared.ids.MethodId.{MethodId};
ghost use Rattle.fm_flow.specs.inner.LiveWalks.{list_of};
ghost use Rattle.fm_world.specs.Programs.{targets};
ghost use Rattle.fm_conn.specs.inner.PairLists.{IsCallIn};
ghost use Rattle.fm_summ.specs.inner.Callers.{kinds_alike, lists_of, numbers_of, HasAlike, LeadAlike, Keeps};

use fm_base::{MethodId, NoMemory, TypeRef};
use fm_world::{Call, CallKind, Program};
use std::alloc::Global;
use std::collections::BTreeMap;

/// Lists of targets. Calls that name one type and one method share one.
#[derive(Drop)]
pub struct TargetLists {
    // for each list a call that leads to its methods
    calls: Vec<Call>,
    pub lists: Vec<Vec<u32>>,
    // only a hint: each list has its call
    places: BTreeMap<(TypeRef, MethodId, u64), u32>,
}

impl TargetLists {
    ghost use Rattle.fm_summ.specs.inner.Lists.{KnowsCalls};

    /// No list. Takes no memory.
    pub fn none(alloc: Global) -> TargetLists
        ensures calls { result.calls.items ≡ [] }
        ensures lists { result.lists.items ≡ [] }
    {
        TargetLists {
            calls: Vec::new(alloc),
            lists: Vec::new(alloc),
            places: BTreeMap::new(alloc),
        }
    }

    /// The number of the list of what a call can lead to, which is a new one unless there is such a
    /// list.
    pub fn number(&mut self, alloc: Global, program: &Program, call: Call) -> Result<u32, NoMemory>
        requires call { IsCallIn program.now.outline call }
        requires known { KnowsCalls program.now self.old }
        ensures known { OnOk result (KnowsCalls program.now self.new) }
        ensures kept { OnOk result
            (Keeps (lists_of self.old.lists.items) (lists_of self.new.lists.items)) }
        ensures is { IfOk result (λ n. slice_get (lists_of self.new.lists.items) n
            ≡ Some (targets program.now call)) }
    {
        if let Some(place) = self.find(call) {
            return Ok(place);
        }
        let found = program.targets(alloc, call)?;
        let targets = numbers_of(alloc, found.as_slice())?;
        let place = self.push(call, targets)?;
        Ok(place)
    }

    // The number of the list of calls that are alike. Takes no memory.
    fn find(&self, call: Call) -> Option<u32>
        ensures { IfSome result (λ place. HasAlike self.now.calls.items place call) }
    {
        let place = *self.places.get(&(call.named, call.method, kind_key(call)))?;
        if place as usize >= self.calls.len() {
            return None;
        }
        if leads_alike(self.calls[place as usize], call) {
            Some(place)
        } else {
            None
        }
    }

    // One list more, and its number.
    fn push(&mut self, call: Call, targets: Vec<u32>) -> Result<u32, NoMemory>
        ensures calls { OnOk result (self.new.calls.items ≡ self.old.calls.items ++ call ∷ []) }
        ensures lists { OnOk result (self.new.lists.items ≡ self.old.lists.items ++ targets ∷ []) }
        ensures is { IfOk result (λ n. n ≡ length self.old.lists.items) }
    {
        let Ok(place) = u32::try_from(self.lists.len()) else {
            return Err(NoMemory);
        };
        self.places
            .insert((call.named, call.method, kind_key(call)), place)?;
        self.calls.push(call)?;
        self.lists.push(targets)?;
        Ok(place)
    }
}

// A number by which calls of one type and one method that may lead elsewhere differ: of their kind, and of
// the class that makes a special one.
fn kind_key(call: Call) -> u64 {
    match call.kind {
        CallKind::Virtual => 0,
        CallKind::Interface => 1,
        CallKind::Static => 2,
        CallKind::Special => 3 + u64::from(call.caller.0),
    }
}

// The methods by their numbers.
fn numbers_of(alloc: Global, methods: &[MethodId]) -> Result<Vec<u32>, NoMemory>
    ensures { IfOk result (λ numbers. numbers.items ≡ numbers_of methods.now) }
{
    let mut numbers = Vec::with_capacity(alloc, methods.len())?;
    for method in methods {
        numbers.push(method.0)?;
    }
    Ok(numbers)
}

// Whether two calls have the same targets in each program: they name one type and one method.
fn leads_alike(one: Call, other: Call) -> bool
    ensures { result ≡ true → LeadAlike one other }
{
    if one.method.0 != other.method.0 {
        return false;
    }
    if one.named == other.named {
        kinds_alike(one.kind, other.kind, one.caller.0 == other.caller.0)
    } else {
        false
    }
}

// Whether calls of one method that name one type have the same targets: special ones only where one
// class has both.
fn kinds_alike(one: CallKind, other: CallKind, same_caller: bool) -> bool
    ensures { result ≡ kinds_alike one other same_caller }
{
    match (one, other) {
        (CallKind::Static, CallKind::Static) => true,
        (CallKind::Virtual, CallKind::Virtual) => true,
        (CallKind::Interface, CallKind::Interface) => true,
        (CallKind::Special, CallKind::Special) => same_caller,
        _ => false,
    }
}

/// The list of this number; of one that isn't there an empty one. Takes no memory.
pub fn list_at(lists: &[Vec<u32>], number: u32) -> &[u32]
    ensures { result.now ≡ list_of (lists_of lists.now) number }
{
    if (number as usize) < lists.len() {
        lists[number as usize].as_slice()
    } else {
        &[]
    }
}
