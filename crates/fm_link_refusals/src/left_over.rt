// How many abstract methods are left over in each class, by the class that declares them (JVMS 5.4.5).
//
// A class has the counts of its superclass, but for the abstract methods that have the signature of one
// of its own methods. So what is above a class is looked at once, however many classes are below. A
// method that is private, or for its own package, is counted as left over throughout: where a class has
// one above it, its methods are asked for one by one.
// Only classes with objects, or with such classes below, have counts: no others are asked for theirs.

ghost use Rattle.std.specs.Prelude.{◌≡◌, ◌↔◌, ◌<◌, ◌≤◌, ◌+◌, ℕ, Bool, IfOk, IsTrue, List, None, OnOk, Some, length, not, slice_get, slice_index, slice_set, true, if◌then◌else◌};
ghost use Rattle.std.specs.List.{slice_index_or};
ghost use Rattle.fm_base.specs.Rows.{has};
ghost use Rattle.fm_link_members.specs.inner.MemberRows.{no_row};
ghost use Rattle.fm_link_supers.specs.inner.ListTables.{lists};
ghost use Rattle.fm_link_members.specs.inner.Owners.{pushed};
ghost use Rattle.fm_link_refusals.specs.inner.LeftOver.{can_be_met, changed, has_objects, is_limited, is_open, is_part_owed, is_owed, is_taken, length_above, marked_up, selected_at, with_signature, AreAskedOf, AreOwners, HasCounts, HasRow, HaveRows, IsCounting, IsLeftOver, NoneLeft};
ghost use Rattle.fm_link_refusals.specs.inner.Linking.{IsLinking};
ghost use Rattle.fm_world.specs.Chains.{is_among};
ghost use Rattle.fm_world.specs.declared.declarations.DeclaredClass.{DeclaredClass};

use crate::linking::Linking;
use crate::not_implemented::is_abstract;
use fm_base::{NoMemory, is_marked, mark};
use fm_code::{ACC_ABSTRACT, ACC_PRIVATE, has_flag, is_package_private};
use fm_link_members::{push_at, row_at};
use fm_link_names::{at, number_of};
use fm_link_supers::{empty_lists, list_at, put_list};
use fm_world::DeclaredClass;
use std::alloc::Global;

/// For each class how many abstract methods of each class are left over in it.
#[derive(Drop)]
pub(crate) struct LeftOver {
    rows: Vec<Vec<u32>>,
}

// By what methods are counted: for each signature the classes of its abstract methods that aren't limited,
// and for each class whether its counts are asked for.
#[derive(Clone, Copy)]
struct Counting<'w, 't, 'c> {
    linking: Linking<'w, 't, 'c>,
    owners: &'w [Vec<u32>],
    asked: &'w [bool],
}

impl LeftOver {
    /// The counts of all classes.
    pub fn of(alloc: Global, linking: Linking) -> Result<LeftOver, NoMemory>
        ensures counts { IfOk result (λ found. (classes : List DeclaredClass)
            → IsLinking classes linking.entry
            → IsLeftOver classes linking.entry.methods.now found) }
        ensures rows { IfOk result (λ found. (classes : List DeclaredClass)
            → IsLinking classes linking.entry → HaveRows classes found) }
    {
        let owners = owners_of(alloc, linking)?;
        let asked = asked_of(alloc, linking)?;
        let counting = Counting {
            linking,
            owners: owners.as_slice(),
            asked: asked.as_slice(),
        };
        let found = counted(alloc, counting)?;
        Ok(found)
    }

    /// Whether a class has counts, and nothing is left over in it.
    pub fn is_clear(&self, linking: Linking, class: u32) -> bool
        ensures { (classes : List DeclaredClass) → IsLinking classes linking.entry
            → class < length classes → IsLeftOver classes linking.entry.methods.now self.now
            → (IsTrue result ↔ (HasRow classes self.now class
            × NoneLeft classes linking.entry.methods.now class)) }
    {
        let row = list_at(self.rows.as_slice(), class);
        if row.len() != linking.hierarchy.classes.len() {
            return false;
        }
        if !are_zero(row, linking.hierarchy.chain(class)) {
            return false;
        }
        are_zero(row, list_at(linking.hierarchy.interfaces.as_slice(), class))
    }

    // The counts of a superclass; without one all abstract methods are left over.
    fn row_above(
        &self,
        alloc: Global,
        linking: Linking,
        parent: Option<u32>,
    ) -> Result<Vec<u32>, NoMemory>
        ensures counts { IfOk result (λ row. (classes : List DeclaredClass)
            → IsLinking classes linking.entry
            → ((p : ℕ) → parent ≡ Some p → p < length classes)
            → IsLeftOver classes linking.entry.methods.now self.now
            → HasCounts linking.entry.methods.now (length classes)
            (is_owed classes linking.entry.methods.now (λ signature. is_open classes
            (selected_at linking.entry.methods.now parent signature))) row.items) }
        ensures long { IfOk result (λ row. length row.items ≡ length_above self.now.rows.items
            (length linking.entry.hierarchy.now.classes.now) parent) }
    {
        match parent {
            Some(parent) => Ok(Vec::from_slice(alloc, list_at(self.rows.as_slice(), parent))?),
            None => all_abstract(alloc, linking),
        }
    }

    // The counts of a class that are asked for; none of the others.
    fn row_if_asked(
        &self,
        alloc: Global,
        counting: Counting,
        class: u32,
    ) -> Result<Vec<u32>, NoMemory>
        ensures counts { IfOk result (λ row. (classes : List DeclaredClass)
            → IsCounting classes counting.entry
            → class < length classes
            → IsLeftOver classes counting.entry.linking.methods.now self.now
            → HasCounts counting.entry.linking.methods.now (length classes)
            (is_owed classes counting.entry.linking.methods.now (λ signature. is_open classes
            (selected_at counting.entry.linking.methods.now (Some class) signature))) row.items) }
        ensures long { IfOk result (λ row. has counting.entry.asked.now class ≡ true
            → length row.items ≡ length_above self.now.rows.items
            (length counting.entry.linking.hierarchy.now.classes.now)
            (slice_index_or counting.entry.linking.hierarchy.now.parents.items class None)) }
    {
        if !is_marked(counting.asked, class as usize) {
            return Ok(Vec::new(alloc));
        }
        self.row_of(alloc, counting, class)
    }

    // The counts of a class, by those of its superclass.
    fn row_of(&self, alloc: Global, counting: Counting, class: u32) -> Result<Vec<u32>, NoMemory>
        ensures counts { IfOk result (λ row. (classes : List DeclaredClass)
            → IsCounting classes counting.entry
            → class < length classes
            → IsLeftOver classes counting.entry.linking.methods.now self.now
            → HasCounts counting.entry.linking.methods.now (length classes)
            (is_owed classes counting.entry.linking.methods.now (λ signature. is_open classes
            (selected_at counting.entry.linking.methods.now (Some class) signature))) row.items) }
        ensures long { IfOk result (λ row. length row.items ≡ length_above self.now.rows.items
            (length counting.entry.linking.hierarchy.now.classes.now)
            (slice_index_or counting.entry.linking.hierarchy.now.parents.items class None)) }
    {
        let parent = at(&counting.linking.hierarchy.parents, class);
        let mut row = self.row_above(alloc, counting.linking, parent)?;
        let (start, end) = counting.linking.methods.members.of_class(class);
        for method in start..end {
            take_in(counting, &mut row, parent, class, method)?;
        }
        Ok(row)
    }
}

// The counts of all classes, each after its superclass.
fn counted(alloc: Global, counting: Counting) -> Result<LeftOver, NoMemory>
    ensures counts { IfOk result (λ found. (classes : List DeclaredClass)
        → IsCounting classes counting.entry
        → IsLeftOver classes counting.entry.linking.methods.now found) }
    ensures rows { IfOk result (λ found. (classes : List DeclaredClass)
        → IsCounting classes counting.entry → HaveRows classes found) }
{
    let hierarchy = counting.linking.hierarchy;
    let mut found = LeftOver {
        rows: empty_lists(alloc, hierarchy.classes.len())?,
    };
    for class in hierarchy.order.as_slice() {
        let row = found.row_if_asked(alloc, counting, *class)?;
        put_list(&mut found.rows, *class as usize, row);
    }
    Ok(found)
}

// For each class whether it, or a class below it, has objects: isn't abstract, as interfaces are.
fn asked_of(alloc: Global, linking: Linking) -> Result<Vec<bool>, NoMemory>
    ensures { IfOk result (λ asked. (classes : List DeclaredClass)
        → IsLinking classes linking.entry
        → AreAskedOf classes linking.entry.hierarchy.now.order.items asked.items) }
{
    let hierarchy = linking.hierarchy;
    let mut asked = vec![in alloc; false; hierarchy.classes.len()]?;
    for class in hierarchy.order.as_slice() {
        let has_own = has_objects(hierarchy.classes, *class);
        mark_if(has_own, &mut asked, hierarchy.chain(*class));
    }
    Ok(asked)
}

// Whether the class of that number has objects: isn't abstract, as interfaces are.
fn has_objects(classes: &[DeclaredClass], class: u32) -> bool
    ensures { result ≡ has_objects classes.now class }
{
    match classes.get(class as usize) {
        Some(class) => !has_flag(class.flags, ACC_ABSTRACT),
        None => true,
    }
}

// Marks a class and its superclasses, where the test holds.
fn mark_if(test: bool, marks: &mut Vec<bool>, chain: &[u32])
    ensures { marks.new.items
        ≡ (if test then marked_up marks.old.items chain.now else marks.old.items) }
{
    if test {
        mark_chain(marks, chain);
    }
}

// Marks a class and its superclasses, up to one that has a mark: those above it have theirs.
fn mark_chain(marks: &mut Vec<bool>, chain: &[u32])
    ensures { marks.new.items ≡ marked_up marks.old.items chain.now }
{
    for class in chain {
        if is_marked(marks.as_slice(), *class as usize) {
            return;
        }
        mark(marks, *class as usize);
    }
}

// For each signature the classes of its abstract methods that aren't limited, one after the other: what
// changes with a signature is changed in one walk over numbers that lie side by side.
fn owners_of(alloc: Global, linking: Linking) -> Result<Vec<Vec<u32>>, NoMemory>
    ensures { IfOk result (λ owners. (classes : List DeclaredClass)
        → IsLinking classes linking.entry
        → AreOwners classes linking.entry.methods.now
        (length linking.entry.methods.now.members.rows.items) owners.items) }
{
    let mut owners = empty_lists(alloc, linking.methods.signatures.count as usize)?;
    for method in 0..linking.methods.signatures.count {
        let is_met = can_be_met(linking, method);
        let signature = linking.methods.signatures.of_member(method);
        let class = class_of(linking, method);
        push_if(is_met, &mut owners, signature, class)?;
    }
    Ok(owners)
}

// Puts a number at the end of the list at a place, where the test holds.
fn push_if(test: bool, table: &mut Vec<Vec<u32>>, place: u32, number: u32) -> Result<(), NoMemory>
    ensures { OnOk result (lists table.new.items ≡ (if test
        then pushed (lists table.old.items) place number else lists table.old.items)) }
{
    if !test {
        return Ok(());
    }
    push_at(table, place, number)
}

// Whether a method is abstract and not limited.
fn can_be_met(linking: Linking, method: u32) -> bool
    ensures { (classes : List DeclaredClass) → IsLinking classes linking.entry
        → result ≡ can_be_met classes linking.entry.methods.now method }
{
    is_abstract(linking, method) && !is_limited(linking.methods.flags(method))
}

// Whether a method of these flags is private or for its own package.
fn is_limited(flags: u16) -> bool
    ensures { result ≡ is_limited flags }
{
    has_flag(flags, ACC_PRIVATE) || is_package_private(flags)
}

// How many abstract methods each class has.
fn all_abstract(alloc: Global, linking: Linking) -> Result<Vec<u32>, NoMemory>
    ensures counts { IfOk result (λ row. (classes : List DeclaredClass)
        → IsLinking classes linking.entry
        → HasCounts linking.entry.methods.now (length classes)
        (is_owed classes linking.entry.methods.now (λ signature. true)) row.items) }
    ensures long { IfOk result (λ row. length row.items
        ≡ length linking.entry.hierarchy.now.classes.now) }
{
    let mut row = vec![in alloc; 0; linking.hierarchy.classes.len()]?;
    for method in 0..linking.methods.signatures.count {
        let class = class_of(linking, method);
        change_if(is_abstract(linking, method), &mut row, class, true)?;
    }
    Ok(row)
}

// The class of a method; 0 past the end.
fn class_of(linking: Linking, method: u32) -> u32
    ensures { result
        ≡ (slice_index_or linking.entry.methods.now.members.rows.items method no_row).class }
{
    row_at(linking.methods.members.rows.as_slice(), method).class
}

// Changes the counts by one of a class's own methods, where it is the one that is selected.
fn take_in(
    counting: Counting,
    row: &mut Vec<u32>,
    parent: Option<u32>,
    class: u32,
    method: u32,
) -> Result<(), NoMemory>
    ensures counts { OnOk result ((classes : List DeclaredClass) (start : ℕ)
        → IsCounting classes counting.entry
        → class < length classes → start ≤ method
        → method < length counting.entry.linking.methods.now.members.rows.items
        → HasCounts counting.entry.linking.methods.now (length classes)
        (is_part_owed classes counting.entry.linking.methods.now parent class start method)
        row.old.items
        → HasCounts counting.entry.linking.methods.now (length classes)
        (is_part_owed classes counting.entry.linking.methods.now parent class start (method + 1))
        row.new.items) }
    ensures long { OnOk result (length row.new.items ≡ length row.old.items) }
{
    let linking = counting.linking;
    let signature = linking.methods.signatures.of_member(method);
    if !is_number(linking.methods.selectable.get(class, signature), method) {
        return Ok(());
    }
    let was_open = is_open(linking, selected_at(linking, parent, signature));
    let adds = is_abstract(linking, method);
    if are_same(was_open, adds) {
        return Ok(());
    }
    change_all(counting, row, signature, adds)
}

// Whether both are true, or neither.
fn are_same(one: bool, other: bool) -> bool
    ensures { result ≡ (if one then other else not other) }
{
    if one { other } else { !other }
}

// Whether the number is there.
fn is_number(found: Option<u32>, number: u32) -> bool
    ensures { result ≡ is_taken found number }
{
    match found {
        Some(found) => found == number,
        None => false,
    }
}

// What is selected of a signature in a class, where there is one.
fn selected_at(linking: Linking, class: Option<u32>, signature: u32) -> Option<u32>
    ensures { result ≡ selected_at linking.entry.methods.now class signature }
{
    linking.methods.selectable.get(class?, signature)
}

// Whether no method is selected, or an abstract one.
fn is_open(linking: Linking, selected: Option<u32>) -> bool
    ensures { (classes : List DeclaredClass) → IsLinking classes linking.entry
        → result ≡ is_open classes selected }
{
    match selected {
        Some(selected) => is_abstract(linking, selected),
        None => true,
    }
}

// Changes the counts by all abstract methods of a signature, which are left over from now on, or aren't
// any more.
fn change_all(
    counting: Counting,
    row: &mut Vec<u32>,
    signature: u32,
    adds: bool,
) -> Result<(), NoMemory>
    ensures counts { OnOk result ((classes : List DeclaredClass) (q : ℕ → Bool)
        → IsCounting classes counting.entry
        → signature < length counting.entry.linking.methods.now.members.rows.items
        → ((k : ℕ) → can_be_met classes counting.entry.linking.methods.now k ≡ true
        → slice_index counting.entry.linking.methods.now.signatures.of_members.items k ≡ signature
        → q k ≡ not adds)
        → HasCounts counting.entry.linking.methods.now (length classes) q row.old.items
        → HasCounts counting.entry.linking.methods.now (length classes)
        (with_signature classes counting.entry.linking.methods.now signature adds
        (length counting.entry.linking.methods.now.members.rows.items) q) row.new.items) }
    ensures long { OnOk result (length row.new.items ≡ length row.old.items) }
{
    let owners = list_at(counting.owners, signature);
    for class in owners {
        change_if(true, row, *class, adds)?;
    }
    Ok(())
}

// Changes the count of a class by one, where the test holds.
fn change_if(test: bool, row: &mut Vec<u32>, class: u32, adds: bool) -> Result<(), NoMemory>
    ensures { OnOk result (row.new.items ≡ (if test
        then slice_set row.old.items class (changed adds (slice_index row.old.items class))
        else row.old.items)) }
{
    let place = class as usize;
    if test && place < row.len() {
        row[place] = changed(row[place], adds)?;
    }
    Ok(())
}

// One more, or one less; no count is less than 0.
fn changed(count: u32, adds: bool) -> Result<u32, NoMemory>
    ensures { IfOk result (λ other. other ≡ changed adds count) }
{
    if !adds {
        return Ok(count.saturating_sub(1));
    }
    match count.checked_add(1) {
        Some(more) => Ok(more),
        None => Err(NoMemory),
    }
}

// Whether the counts of all these classes are there, and 0.
fn are_zero(row: &[u32], classes: &[u32]) -> bool
    ensures { IsTrue result ↔ ((class : ℕ) → is_among class classes.now ≡ true
        → slice_get row.now class ≡ Some 0) }
{
    for class in classes {
        if !is_zero(row, *class) {
            return false;
        }
    }
    true
}

// Whether the count of a class is there, and 0.
fn is_zero(row: &[u32], class: u32) -> bool
    ensures { IsTrue result ↔ (slice_get row.now class ≡ Some 0) }
{
    match row.get(class as usize) {
        Some(count) => *count == 0,
        None => false,
    }
}
