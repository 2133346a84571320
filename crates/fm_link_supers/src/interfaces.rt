// Superinterfaces of all classes by number (JVMS 5.3.5).
//
// In round k it shows which chains of listed interfaces have k members. A class whose chains end has its
// superinterfaces found in that round, since those of the interfaces that it lists were found before. A
// class whose chains never end leads into a cycle.

ghost use Rattle.std.specs.Prelude.{◌≡◌, ◌<◌, ◌≤◌, ℕ, suc, List, [], ◌∷◌, true, false, IfOk, OnOk, length, map, nat_eq, replicate, slice_index};
ghost use Rattle.std.specs.Global.{Vec};
ghost use Rattle.std.specs.List.{list_any};
ghost use Rattle.fm_link_supers.specs.inner.InterfaceRounds.{above_by, inherited_along, is_set, of_parent, settled_one, settled_to, with_classes, with_inherited, AreFoundTo, HavePassed, Lists, ListsOnce};
ghost use Rattle.fm_link_supers.specs.inner.ListTables.{lists};
ghost use Rattle.fm_world.specs.Chains.{distinct};
ghost use Rattle.fm_world.specs.declared.declarations.DeclaredClass.{DeclaredClass};

use crate::lists::{empty_lists, list_at, put_list, put_number};
use crate::once::distinct;
use fm_base::{NoMemory, is_marked, number_at};
use fm_link_names::{at, number_of};
use std::alloc::Global;

/// The superinterfaces of each class by its own list, depth first, each once; and whether its chains of
/// interfaces lead into a cycle.
#[derive(Drop)]
pub struct Superinterfaces {
    pub above: Vec<Vec<u32>>,
    pub leads_into_cycle: Vec<bool>,
}

impl Superinterfaces {
    /// Those of classes that list these interfaces.
    pub fn of(alloc: Global, listed: &[Vec<u32>]) -> Result<Superinterfaces, NoMemory>
        ensures { IfOk result (λ found. (classes : List DeclaredClass) → Lists classes listed.now
            → AreFoundTo classes (length classes) found) }
    {
        let once = each_once(alloc, listed)?;
        let found = Superinterfaces::by(alloc, once.as_slice())?;
        Ok(found)
    }

    // The same of classes that list no interface twice.
    fn by(alloc: Global, listed: &[Vec<u32>]) -> Result<Superinterfaces, NoMemory>
        ensures { IfOk result (λ found. (classes : List DeclaredClass)
            → ListsOnce classes listed.now → AreFoundTo classes (length classes) found) }
    {
        let count = listed.len();
        let mut found = Superinterfaces {
            above: empty_lists(alloc, count)?,
            leads_into_cycle: vec![in alloc; true; count]?,
        };
        let mut passed = vec![in alloc; 0; count]?;
        for _ in 0..count {
            if !found.go_deeper(alloc, listed, &mut passed)? {
                return Ok(found);
            }
        }
        Ok(found)
    }

    // One round. Whether another one can find more. No interface that was passed is looked at again.
    fn go_deeper(
        &mut self,
        alloc: Global,
        listed: &[Vec<u32>],
        passed: &mut Vec<u32>,
    ) -> Result<bool, NoMemory>
        ensures passes { IfOk result (λ goes_on. (classes : List DeclaredClass) (round : ℕ)
            → ListsOnce classes listed.now → round ≤ length classes
            → AreFoundTo classes round self.old
            → HavePassed self.old.leads_into_cycle.items (lists listed.now) passed.old.items
            → HavePassed self.new.leads_into_cycle.items (lists listed.now) passed.new.items) }
        ensures deeper { IfOk result (λ goes_on. (classes : List DeclaredClass) (round : ℕ)
            → ListsOnce classes listed.now → round ≤ length classes
            → AreFoundTo classes round self.old
            → HavePassed self.old.leads_into_cycle.items (lists listed.now) passed.old.items
            → AreFoundTo classes (suc round) self.new) }
        ensures ends { IfOk result (λ goes_on. (classes : List DeclaredClass) (round later : ℕ)
            → ListsOnce classes listed.now → round ≤ length classes
            → AreFoundTo classes round self.old
            → HavePassed self.old.leads_into_cycle.items (lists listed.now) passed.old.items
            → goes_on ≡ false → round ≤ later → AreFoundTo classes later self.new) }
    {
        let deeper = one_deeper(alloc, listed, self.leads_into_cycle.as_slice(), passed)?;
        settle(
            alloc,
            listed,
            self.leads_into_cycle.as_slice(),
            deeper.as_slice(),
            &mut self.above,
        )?;
        let goes_on = deeper.as_slice() != self.leads_into_cycle.as_slice();
        self.leads_into_cycle = deeper;
        Ok(goes_on)
    }
}

// Each list without what is in it for a second time, so that no interface is looked at twice for
// one class.
fn each_once(alloc: Global, listed: &[Vec<u32>]) -> Result<Vec<Vec<u32>>, NoMemory>
    ensures { IfOk result (λ once. lists once.items
        ≡ map (λ (list : Vec ℕ). distinct nat_eq list.items) listed.now) }
{
    let mut once = Vec::new(alloc);
    for interfaces in listed {
        once.push(distinct(alloc, interfaces.as_slice())?)?;
    }
    Ok(once)
}

// For each class whether some interface that it lists goes on. Those in front of the first one that does
// are passed.
fn one_deeper(
    alloc: Global,
    listed: &[Vec<u32>],
    goes_on: &[bool],
    passed: &mut Vec<u32>,
) -> Result<Vec<bool>, NoMemory>
    ensures passes { IfOk result (λ deeper. HavePassed goes_on.now (lists listed.now) passed.old.items
        → HavePassed goes_on.now (lists listed.now) passed.new.items) }
    ensures deeper { IfOk result (λ deeper. HavePassed goes_on.now (lists listed.now) passed.old.items
        → deeper.items ≡ map (list_any (is_set goes_on.now)) (lists listed.now)) }
{
    let count = number_of(listed.len())?;
    let mut deeper = Vec::with_capacity(alloc, listed.len())?;
    for class in 0..count {
        let interfaces = list_at(listed, class);
        let start = number_at(passed.as_slice(), class);
        let place = first_that_goes_on(interfaces, goes_on, start)?;
        put_number(true, passed, class, place);
        deeper.push((place as usize) < interfaces.len())?;
    }
    Ok(deeper)
}

// The place of the first interface from a place on that goes on, or the end.
fn first_that_goes_on(interfaces: &[u32], goes_on: &[bool], start: u32) -> Result<u32, NoMemory>
    ensures passed { IfOk result (λ place. (i : ℕ) → start ≤ i → i < place
        → i < length interfaces.now → is_set goes_on.now (slice_index interfaces.now i) ≡ false) }
    ensures here { IfOk result (λ place. place < length interfaces.now
        → is_set goes_on.now (slice_index interfaces.now place) ≡ true) }
{
    let end = number_of(interfaces.len())?;
    for place in start..end {
        if is_marked(goes_on, interfaces[place as usize] as usize) {
            return Ok(place);
        }
    }
    Ok(end)
}

// Finds the superinterfaces of the classes that went on before the round, and don't after it.
fn settle(
    alloc: Global,
    listed: &[Vec<u32>],
    before: &[bool],
    after: &[bool],
    above: &mut Vec<Vec<u32>>,
) -> Result<(), NoMemory>
    ensures { OnOk result (lists above.new.items
        ≡ settled_to (lists listed.now) before.now after.now (lists above.old.items)
        (length listed.now)) }
{
    for class in 0..listed.len() {
        let is_settled = is_marked(before, class) && !is_marked(after, class);
        settle_one(alloc, listed[class].as_slice(), is_settled, above, class)?;
    }
    Ok(())
}

// Puts the superinterfaces of a class into the table, where they are found in this round.
fn settle_one(
    alloc: Global,
    interfaces: &[u32],
    is_settled: bool,
    above: &mut Vec<Vec<u32>>,
    class: usize,
) -> Result<(), NoMemory>
    ensures { OnOk result (lists above.new.items
        ≡ settled_one interfaces.now is_settled (lists above.old.items) class) }
{
    if is_settled {
        let found = above_of(alloc, interfaces, above.as_slice())?;
        put_list(above, class, found);
    }
    Ok(())
}

// Each listed interface and then its own superinterfaces, each once where it is met first.
fn above_of(alloc: Global, interfaces: &[u32], above: &[Vec<u32>]) -> Result<Vec<u32>, NoMemory>
    ensures { IfOk result (λ found. found.items ≡ above_by interfaces.now (lists above.now)) }
{
    let mut met = Vec::new(alloc);
    for interface in interfaces {
        met.push(*interface)?;
        met.extend_from_slice(list_at(above, *interface))?;
    }
    distinct(alloc, met.as_slice())
}

/// For each class what the lists have at it and then at its superclasses, each once. The order has each
/// class after its superclass.
pub fn joined_along(
    alloc: Global,
    parents: &[Option<u32>],
    order: &[u32],
    own: &[Vec<u32>],
) -> Result<Vec<Vec<u32>>, NoMemory>
    ensures { IfOk result (λ all. lists all.items ≡ inherited_along parents.now (lists own.now)
        order.now (replicate (length own.now) [])) }
{
    let mut all = empty_lists(alloc, own.len())?;
    for class in order {
        inherit(alloc, parents, own, &mut all, *class)?;
    }
    Ok(all)
}

// Puts what a class has in front of what the table has at its superclass.
fn inherit(
    alloc: Global,
    parents: &[Option<u32>],
    own: &[Vec<u32>],
    all: &mut Vec<Vec<u32>>,
    class: u32,
) -> Result<(), NoMemory>
    ensures { OnOk result (lists all.new.items
        ≡ with_inherited parents.now (lists own.now) (lists all.old.items) class) }
{
    let mut met = Vec::from_slice(alloc, list_at(own, class))?;
    met.extend_from_slice(list_of_parent(all.as_slice(), at(parents, class)))?;
    let found = distinct(alloc, met.as_slice())?;
    put_list(all, class as usize, found);
    Ok(())
}

/// What the table has at a superclass; the empty list where there is none.
pub fn list_of_parent(all: &[Vec<u32>], parent: Option<u32>) -> &[u32]
    ensures { result.now ≡ of_parent (lists all.now) parent }
{
    match parent {
        Some(parent) => list_at(all, parent),
        None => &[],
    }
}

/// Each list with the number of its class in front.
pub fn with_classes(alloc: Global, own: &[Vec<u32>]) -> Result<Vec<Vec<u32>>, NoMemory>
    ensures { IfOk result (λ made. lists made.items ≡ with_classes (lists own.now)) }
{
    let mut made = Vec::with_capacity(alloc, own.len())?;
    for class in 0..number_of(own.len())? {
        made.push(with_class(alloc, class, list_at(own, class))?)?;
    }
    Ok(made)
}

// A list with the number of a class in front.
fn with_class(alloc: Global, class: u32, list: &[u32]) -> Result<Vec<u32>, NoMemory>
    ensures { IfOk result (λ made. made.items ≡ class ∷ list.now) }
{
    let mut made = Vec::new(alloc);
    made.push(class)?;
    made.extend_from_slice(list)?;
    Ok(made)
}
