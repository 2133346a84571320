// For each signature the classes of its members, one after the other: what is asked of a signature
// is found by one walk over numbers that lie side by side.

ghost use Rattle.std.specs.Prelude.{◌≡◌, IfOk, OnOk, length};
ghost use Rattle.fm_link_supers.specs.inner.ListTables.{lists};
ghost use Rattle.fm_link_members.specs.inner.MemberTables.{AreSignatures};
ghost use Rattle.fm_link_members.specs.inner.Owners.{pushed, HaveOwners};

use crate::members::{Members, Signatures, row_at};
use fm_base::NoMemory;
use fm_link_supers::empty_lists;
use std::alloc::Global;

/// For each signature the classes of its members.
pub(crate) fn owners_of(
    alloc: Global,
    members: &Members,
    signatures: &Signatures,
) -> Result<Vec<Vec<u32>>, NoMemory>
    requires { AreSignatures members.now.rows.items signatures.now }
    ensures { IfOk result (λ owners. HaveOwners members.now.rows.items
        signatures.now.of_members.items (length members.now.rows.items) owners.items) }
{
    let mut owners = empty_lists(alloc, signatures.count as usize)?;
    for member in 0..signatures.count {
        let class = row_at(members.rows.as_slice(), member).class;
        push_at(&mut owners, signatures.of_member(member), class)?;
    }
    Ok(owners)
}

/// Puts a number at the end of the list at a place; past the end there is none.
pub fn push_at(table: &mut Vec<Vec<u32>>, place: u32, number: u32) -> Result<(), NoMemory>
    ensures { OnOk result (lists table.new.items
        ≡ pushed (lists table.old.items) place number) }
{
    let place = place as usize;
    if place < table.len() {
        table[place].push(number)?;
    }
    Ok(())
}
