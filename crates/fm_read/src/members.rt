// Fields and methods with their attributes (JVMS 4.5, 4.6).

ghost use Rattle.std.specs.Prelude.{◌≡◌, ◌↔◌, map, List, Err, IfOk, IsTrue};
ghost use Rattle.std.specs.List.{AllByRecursion};
ghost use Rattle.fm_code.specs.Members.{AreDistinct};
ghost use Rattle.fm_code.specs.declared.class_file.Member.{Member as MemberRecord};
ghost use Rattle.fm_read.specs.inner.MemberRules.{AreMembersOf, IsMemberOf, MeetsRules};
ghost use Rattle.fm_read.specs.inner.Parts.{member_view, RawMemberFits};
ghost use Rattle.fm_read.specs.inner.Rules.{AreFieldsOf, AreMethodsOf};

use crate::attributes::{MemberKind, attributes_of};
use crate::fields::field_meets_rules;
use crate::methods::method_meets_rules;
use crate::parts::MemberParts;
use fm_base::{NoMemory, Seq};
use fm_code::{Member, PieceFail};
use fm_pool::KnownPool;
use fm_pool_texts::TextNumbers;
use std::alloc::Global;

/// The fields of a class, or of an interface, of these parts. `Malformed` comes exactly where there
/// are none.
pub(crate) fn fields_of(
    alloc: Global,
    known: &KnownPool,
    in_interface: bool,
    parts: &[MemberParts<'_>],
) -> Result<Vec<Member>, PieceFail>
    requires { AllByRecursion RawMemberFits (map member_view parts.now) }
    ensures found { IfOk result (λ members.
        AreFieldsOf in_interface known.now.entries (map member_view parts.now) members.items) }
    ensures malformed { result ≡ Err PieceFail.Malformed → (members : List MemberRecord)
        → ¬ AreFieldsOf in_interface known.now.entries (map member_view parts.now) members }
{
    let fields = members_of(alloc, known, MemberKind::Field, in_interface, parts)?;
    if !are_distinct(alloc, known, fields.as_slice())? {
        return Err(PieceFail::Malformed);
    }
    Ok(fields)
}

/// The methods of a class, or of an interface, of these parts. `Malformed` comes exactly where there
/// are none.
pub(crate) fn methods_of(
    alloc: Global,
    known: &KnownPool,
    in_interface: bool,
    parts: &[MemberParts<'_>],
) -> Result<Vec<Member>, PieceFail>
    requires { AllByRecursion RawMemberFits (map member_view parts.now) }
    ensures found { IfOk result (λ members.
        AreMethodsOf in_interface known.now.entries (map member_view parts.now) members.items) }
    ensures malformed { result ≡ Err PieceFail.Malformed → (members : List MemberRecord)
        → ¬ AreMethodsOf in_interface known.now.entries (map member_view parts.now) members }
{
    let methods = members_of(alloc, known, MemberKind::Method, in_interface, parts)?;
    if !are_distinct(alloc, known, methods.as_slice())? {
        return Err(PieceFail::Malformed);
    }
    Ok(methods)
}

/// Whether no two members agree in name and descriptor.
fn are_distinct(alloc: Global, known: &KnownPool, members: &[Member]) -> Result<bool, NoMemory>
    ensures { IfOk result
        (λ distinct. IsTrue distinct ↔ AreDistinct known.now.entries members.now) }
{
    let numbers = TextNumbers::of(alloc, known.pool().entries.as_slice())?;
    numbers.are_distinct(alloc, members)
}

/// The members of these parts, some of which may agree. `Malformed` comes exactly where there are none.
fn members_of(
    alloc: Global,
    known: &KnownPool,
    kind: MemberKind,
    in_interface: bool,
    parts: &[MemberParts<'_>],
) -> Result<Vec<Member>, PieceFail>
    requires { AllByRecursion RawMemberFits (map member_view parts.now) }
    ensures found { IfOk result (λ members.
        AreMembersOf kind in_interface known.now.entries (map member_view parts.now) members.items) }
    ensures malformed { result ≡ Err PieceFail.Malformed → (members : List MemberRecord)
        → ¬ AreMembersOf kind in_interface known.now.entries (map member_view parts.now) members }
{
    let mut members = Vec::with_capacity(alloc, parts.len())?;
    for part in parts {
        members.push(member_of(alloc, known, kind, in_interface, part)?)?;
    }
    Ok(members)
}

/// The member of this part. `Malformed` comes exactly where there is none.
fn member_of(
    alloc: Global,
    known: &KnownPool,
    kind: MemberKind,
    in_interface: bool,
    part: &MemberParts<'_>,
) -> Result<Member, PieceFail>
    requires { RawMemberFits (member_view part.now) }
    ensures found { IfOk result
        (IsMemberOf kind in_interface known.now.entries (member_view part.now)) }
    ensures malformed { result ≡ Err PieceFail.Malformed → (m : MemberRecord)
        → ¬ IsMemberOf kind in_interface known.now.entries (member_view part.now) m }
{
    let attributes = attributes_of(alloc, known, kind, part.attributes.as_slice())?;
    let member = Member {
        flags: part.flags,
        name: part.name,
        descriptor: part.descriptor,
        attributes: Seq::new(attributes),
    };
    if !meets_rules(known, kind, in_interface, &member) {
        return Err(PieceFail::Malformed);
    }
    Ok(member)
}

/// Whether a member meets the rules but for those of each attribute.
fn meets_rules(known: &KnownPool, kind: MemberKind, in_interface: bool, member: &Member) -> bool
    ensures { IsTrue result ↔ MeetsRules kind in_interface known.now.entries member.now }
{
    match kind {
        MemberKind::Field => field_meets_rules(known, in_interface, member),
        MemberKind::Method => method_meets_rules(known, in_interface, member),
    }
}
