// From which place on the classes where a member is looked for can declare it.
//
// Lists of superinterfaces are long, and few of their classes declare a member of one signature. What files
// name is looked at once for each class and signature: the members of the signature show how
// many classes at the front of the list declare none.

ghost use Rattle.std.specs.Prelude.{◌≡◌, ◌<◌, ◌≤◌, ℕ, IfOk, List, OnOk, length, slice_index};
ghost use Rattle.fm_link_members.specs.inner.MemberTables.{start_in, AreSignatures, AreStarts};
ghost use Rattle.fm_link_members.specs.inner.SearchStarts.{interfaces_along, list_along, place_in, ArePlaces, IsFinding};

use crate::asked::{Asked, asked_of_classes};
use crate::members::{Members, Signatures, add_signature};
use crate::owners::owners_of;
use fm_base::{NoMemory, number_at};
use fm_link_names::number_of;
use fm_link_supers::{Hierarchy, is_interface_at, list_at, put_number};
use std::alloc::Global;
use std::collections::BTreeMap;

/// Along which classes a member is looked for from a class on.
#[derive(Clone, Copy, Debug)]
pub enum Along {
    /// For fields: it, its superinterfaces, and its superclasses in the same way.
    Paths,
    /// For methods: its superinterfaces.
    Interfaces,
}

/// The classes along which members are looked for from a class on.
pub fn list_along<'h>(hierarchy: &'h Hierarchy, along: Along, class: u32) -> &'h [u32]
    ensures { result.now ≡ list_along hierarchy.entry.now along class }
{
    match along {
        Along::Paths => list_at(hierarchy.paths.as_slice(), class),
        Along::Interfaces => interfaces_along(hierarchy, class),
    }
}

// The superinterfaces of a class; those of an interface by its own list alone.
fn interfaces_along<'h>(hierarchy: &'h Hierarchy, class: u32) -> &'h [u32]
    ensures { result.now ≡ interfaces_along hierarchy.entry.now class }
{
    if is_interface_at(hierarchy.classes, class) {
        list_at(hierarchy.above.as_slice(), class)
    } else {
        list_at(hierarchy.interfaces.as_slice(), class)
    }
}

/// For classes and signatures a place in the list of the class: no class before it declares a member of
/// the signature.
#[derive(Drop)]
pub struct SearchStarts {
    places: BTreeMap<(u32, u32), u32>,
}

// By what places are found: the members, their signatures, and for each of these the classes of its members.
#[derive(Clone, Copy)]
struct Finding<'w> {
    members: &'w Members,
    signatures: &'w Signatures,
    owners: &'w [Vec<u32>],
}

impl SearchStarts {
    /// Those of what is asked, where the signature has a mark.
    pub fn of(
        alloc: Global,
        hierarchy: &Hierarchy,
        along: Along,
        members: &Members,
        signatures: &Signatures,
        marks: &[bool],
        asked: &[Asked],
    ) -> Result<SearchStarts, NoMemory>
        requires { AreSignatures members.now.rows.items signatures.now }
        ensures { IfOk result (AreStarts (list_along hierarchy.now along) members.now.rows.items
            signatures.now.of_members.items) }
    {
        let owners = owners_of(alloc, members, signatures)?;
        let finding = Finding {
            members,
            signatures,
            owners: owners.as_slice(),
        };
        let count = hierarchy.classes.len();
        let of_classes = asked_of_classes(alloc, count, signatures, marks, asked)?;
        let starts = SearchStarts::by(alloc, hierarchy, along, finding, of_classes.as_slice())?;
        Ok(starts)
    }

    // The same by the signatures that are asked of each class.
    fn by(
        alloc: Global,
        hierarchy: &Hierarchy,
        along: Along,
        finding: Finding,
        asked: &[Vec<u32>],
    ) -> Result<SearchStarts, NoMemory>
        ensures { IfOk result (λ starts. IsFinding finding.entry
            → AreStarts (list_along hierarchy.now along) finding.entry.members.now.rows.items
            finding.entry.signatures.now.of_members.items starts) }
    {
        let mut starts = SearchStarts {
            places: BTreeMap::new(alloc),
        };
        for class in 0..number_of(asked.len())? {
            let list = list_along(hierarchy, along, class);
            starts.add_class(alloc, finding, class, list, list_at(asked, class))?;
        }
        Ok(starts)
    }

    // Adds the places of the signatures that are asked of one class.
    fn add_class(
        &mut self,
        alloc: Global,
        finding: Finding,
        class: u32,
        list: &[u32],
        signatures: &[u32],
    ) -> Result<(), NoMemory>
        ensures { OnOk result ((f : ℕ → List ℕ) → IsFinding finding.entry → f class ≡ list.now
            → AreStarts f finding.entry.members.now.rows.items
            finding.entry.signatures.now.of_members.items self.old
            → AreStarts f finding.entry.members.now.rows.items
            finding.entry.signatures.now.of_members.items self.new) }
    {
        if signatures.is_empty() {
            return Ok(());
        }
        let places = places_of(alloc, list, finding.members.first.len())?;
        for signature in signatures {
            self.add(finding, class, list, places.as_slice(), *signature)?;
        }
        Ok(())
    }

    // Adds the place of one signature, where it isn't there.
    fn add(
        &mut self,
        finding: Finding,
        class: u32,
        list: &[u32],
        places: &[u32],
        signature: u32,
    ) -> Result<(), NoMemory>
        ensures { OnOk result ((f : ℕ → List ℕ) → IsFinding finding.entry → f class ≡ list.now
            → ArePlaces list.now places.now
            → AreStarts f finding.entry.members.now.rows.items
            finding.entry.signatures.now.of_members.items self.old
            → AreStarts f finding.entry.members.now.rows.items
            finding.entry.signatures.now.of_members.items self.new) }
    {
        if signature >= finding.signatures.count {
            return Ok(());
        }
        if self.places.contains_key(&(class, signature)) {
            return Ok(());
        }
        let end = number_of(list.len())?;
        let place = first_place(finding, places, signature, end);
        add_signature(&mut self.places, class, signature, place)?;
        Ok(())
    }

    /// The place of a class and a signature; 0 where none is noted.
    pub fn get(&self, class: u32, signature: u32) -> u32
        ensures { result ≡ start_in self.now class signature }
    {
        match self.places.get(&(class, signature)) {
            Some(place) => *place,
            None => 0,
        }
    }
}

// For each class of a list its place there.
fn places_of(alloc: Global, list: &[u32], count: usize) -> Result<Vec<u32>, NoMemory>
    ensures { IfOk result (λ places. ArePlaces list.now places.items) }
{
    let end = number_of(list.len())?;
    let mut places = vec![in alloc; end; count]?;
    let mut left = end;
    while left > 0 {
        left -= 1;
        put_number(true, &mut places, list[left as usize], left);
    }
    Ok(places)
}

// The first place of a class that declares a member of the signature, or the end.
fn first_place(finding: Finding, places: &[u32], signature: u32, end: u32) -> u32
    ensures { (k : ℕ) → IsFinding finding.entry
        → signature < length finding.entry.members.now.rows.items
        → k < length finding.entry.members.now.rows.items
        → slice_index finding.entry.signatures.now.of_members.items k ≡ signature
        → result ≤ place_in finding.entry.members.now.rows.items places.now k }
{
    let mut first = end;
    let owners = list_at(finding.owners, signature);
    for class in owners {
        first = first.min(number_at(places, *class));
    }
    first
}
