// What fields hold first.

ghost use Rattle.std.specs.Prelude.{◌≡◌, ◌++◌, [], IfOk, OnOk, map, replicate};
ghost use Rattle.std.specs.List.{slice_index_or};
ghost use Rattle.fm_link_records.specs.inner.Firsts.{first_by, first_use, firsts_told};

use fm_base::{NoMemory, Seq};
use fm_code::{ACC_STATIC, Member, MemberAttr, has_flag};
use fm_link_names::GivenFile;
use fm_world::Use;
use std::alloc::Global;

// The number of the fields of built-in classes.
const BUILT_IN_FIELDS: usize = 2;

/// What each field holds first, by what the indices of each file are resolved to; a field of a built-in
/// class holds no first value that is recorded.
pub fn firsts_of(
    alloc: Global,
    files: &[GivenFile],
    resolved: &[Seq<Use>],
) -> Result<Vec<Use>, NoMemory>
    ensures { IfOk result (λ firsts. firsts.items
        ≡ replicate BUILT_IN_FIELDS Use.Unused ++ firsts_told resolved.now 0 files.now) }
{
    let mut firsts = Vec::new(alloc);
    for _ in 0..BUILT_IN_FIELDS {
        firsts.push(Use::Unused)?;
    }
    add_firsts_of(&mut firsts, files, resolved)?;
    Ok(firsts)
}

// Adds what the fields of files hold first.
fn add_firsts_of(
    firsts: &mut Vec<Use>,
    files: &[GivenFile],
    resolved: &[Seq<Use>],
) -> Result<(), NoMemory>
    ensures { OnOk result (firsts.new.items
        ≡ firsts.old.items ++ firsts_told resolved.now 0 files.now) }
{
    for (place, file) in files.iter().enumerate() {
        add_firsts(
            firsts,
            uses_at(resolved, place),
            file.class.fields.as_slice(),
        )?;
    }
    Ok(())
}

// What the indices of a file are resolved to.
fn uses_at(resolved: &[Seq<Use>], place: usize) -> &[Use]
    ensures { result.now ≡ slice_index_or resolved.now place [] }
{
    match resolved.get(place) {
        Some(uses) => uses.as_slice(),
        None => &[],
    }
}

// Adds what fields of one file hold first.
fn add_firsts(firsts: &mut Vec<Use>, uses: &[Use], fields: &[Member]) -> Result<(), NoMemory>
    ensures { OnOk result (firsts.new.items
        ≡ firsts.old.items ++ map (first_use uses.now) fields.now) }
{
    for field in fields {
        firsts.push(first_use(uses, field))?;
    }
    Ok(())
}

// What a field holds first: only a static one holds a first value that is recorded.
fn first_use(uses: &[Use], field: &Member) -> Use
    ensures { result ≡ first_use uses.now field.now }
{
    if has_flag(field.flags, ACC_STATIC) {
        first_by(uses, field.attributes.as_slice())
    } else {
        Use::Unused
    }
}

// What the first value among attributes is resolved to.
fn first_by(uses: &[Use], attributes: &[MemberAttr]) -> Use
    ensures { result ≡ first_by uses.now attributes.now }
{
    for attribute in attributes {
        if let MemberAttr::Constant(_, value) = attribute {
            return use_at(uses, *value);
        }
    }
    Use::Unused
}

// What an index is resolved to.
fn use_at(uses: &[Use], index: u16) -> Use
    ensures { result ≡ slice_index_or uses.now index Use.Unused }
{
    match uses.get(usize::from(index)) {
        Some(resolved) => *resolved,
        None => Use::Unused,
    }
}
