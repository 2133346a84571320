// Whether a member is as instructions want it.

ghost use Rattle.std.specs.Prelude.{◌≡◌, Bool, List};
ghost use Rattle.fm_link_names.specs.inner.Wanting.{wanted_of};
ghost use Rattle.fm_link_members.specs.inner.MemberTables.{flags_of};
ghost use Rattle.fm_link_refusals.specs.inner.Linking.{is_unlike};

use fm_code::{ACC_STATIC, has_flag};
use fm_link_members::Members;
use fm_link_names::Wanted;

/// The flags of a member; none are set past the last one.
pub(crate) fn flags_at(members: &Members, member: u32) -> u16
    ensures { result ≡ flags_of members.now.rows.items member }
{
    match members.rows.get(member as usize) {
        Some(row) => row.flags,
        None => 0,
    }
}

/// Whether no member is found, or one with another flag than instructions want.
pub(crate) fn is_unlike(found: Option<u16>, wanted: Wanted) -> bool
    ensures { (flags : List Bool) → wanted ≡ wanted_of flags → result ≡ is_unlike found flags }
{
    match found {
        Some(flags) => wanted.differs_from(has_flag(flags, ACC_STATIC)),
        None => true,
    }
}
