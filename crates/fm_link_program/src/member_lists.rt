// The descriptors and the flags of members, and which texts are descriptors.

ghost use Rattle.std.specs.Prelude.{◌≡◌, IfOk, false, replicate};
ghost use Rattle.fm_base.specs.Rows.{marked};
ghost use Rattle.fm_link_program.specs.inner.MemberLists.{descriptors_in, flags_in};

use fm_base::{NoMemory, mark_all};
use fm_link_members::MemberRow;
use std::alloc::Global;

/// The descriptor of each member, by the number of its text.
pub fn descriptors_of(alloc: Global, rows: &[MemberRow]) -> Result<Vec<u32>, NoMemory>
    ensures { IfOk result (λ descriptors. descriptors.items ≡ descriptors_in rows.now) }
{
    let mut descriptors = Vec::with_capacity(alloc, rows.len())?;
    for row in rows {
        descriptors.push(row.descriptor)?;
    }
    Ok(descriptors)
}

/// The flags of each member.
pub fn flags_of(alloc: Global, rows: &[MemberRow]) -> Result<Vec<u16>, NoMemory>
    ensures { IfOk result (λ flags. flags.items ≡ flags_in rows.now) }
{
    let mut flags = Vec::with_capacity(alloc, rows.len())?;
    for row in rows {
        flags.push(row.flags)?;
    }
    Ok(flags)
}

/// For each of a given number of texts whether it is the descriptor of a field or of a method.
pub fn descriptor_marks(
    alloc: Global,
    texts: usize,
    fields: &[u32],
    methods: &[u32],
) -> Result<Vec<bool>, NoMemory>
    ensures { IfOk result (λ marks. marks.items
        ≡ marked (marked (replicate texts false) fields.now) methods.now) }
{
    let mut marks = vec![in alloc; false; texts]?;
    mark_all(&mut marks, fields);
    mark_all(&mut marks, methods);
    Ok(marks)
}
