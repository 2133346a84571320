// What a program records about its methods and fields.

ghost use Rattle.std.specs.Prelude.{◌≡◌, ◌++◌, IfOk, drop, length, map, replicate};
ghost use Rattle.std.specs.List.{AllByRecursion};
ghost use Rattle.fm_code.specs.Spells.{HasSpelling};
ghost use Rattle.fm_link_names.specs.inner.ClassNumbering.{NumbersClasses};
ghost use Rattle.fm_link_names.specs.inner.Files.{AreFiles};
ghost use Rattle.fm_link_names.specs.inner.Numbering.{texts_in};
ghost use Rattle.fm_link_supers.specs.inner.Hierarchy.{IsHierarchy};
ghost use Rattle.fm_link_records.specs.inner.Fields.{fields_told};
ghost use Rattle.fm_link_records.specs.inner.Firsts.{firsts_told};
ghost use Rattle.fm_link_records.specs.inner.Methods.{methods_told};
ghost use Rattle.fm_link_records.specs.inner.Rows.{lent_kinds};
ghost use Rattle.fm_link_refusals.specs.inner.GivenClasses.{given_in};
ghost use Rattle.fm_link_refusals.specs.inner.Linking.{IsLinking};
ghost use Rattle.fm_link_program.specs.inner.MemberInfos.{AreMemberInfos};
ghost use Rattle.fm_world.specs.BuiltIns.{built_in};
ghost use Rattle.fm_world.specs.Members.{fields_of, methods_of, slot_of, statics_of};
ghost use Rattle.fm_world.specs.Programs.{Outline, classes_of, codes_of, uses_of};
ghost use Rattle.fm_world.specs.inner.Tables.{numbers_below};

use crate::member_lists::{descriptor_marks, descriptors_of};
use fm_base::{NoMemory, Seq};
use fm_link_names::{ClassNumbers, GivenFile, Kinds};
use fm_link_records::{
    bases_of, codes_of, field_infos, firsts_of, kinds_by_text, kinds_of_members, method_infos,
    own_sizes, slots_of,
};
use fm_link_refusals::Linking;
use fm_link_supers::Hierarchy;
use fm_world::{DeclaredClass, FieldInfo, MethodInfo, Use, built_in_classes};
use std::alloc::Global;

/// What is recorded about all fields, and how many of them are static.
#[derive(Drop)]
pub struct FieldInfos {
    pub infos: Vec<FieldInfo>,
    pub statics: u32,
}

/// What is recorded about all methods and fields.
#[derive(Drop)]
pub struct MemberInfos {
    pub methods: Vec<MethodInfo>,
    pub fields: FieldInfos,
}

/// What is recorded about all methods and fields, by what the indices of all classes are resolved
/// to.
pub fn member_infos_of(
    alloc: Global,
    numbers: &ClassNumbers,
    linking: Linking,
    files: &[GivenFile],
    uses: &[Seq<Use>],
) -> Result<MemberInfos, NoMemory>
    requires linked { IsLinking (classes_of (given_in files.now)) linking }
    requires named { NumbersClasses (classes_of (given_in files.now)) numbers.now.numbers }
    requires files { AreFiles (texts_in linking.texts.now) (given_in files.now) files.now }
    requires spelled { AllByRecursion HasSpelling (given_in files.now) }
    ensures { (o : Outline) → o.classes ≡ classes_of (given_in files.now)
        → uses.now ≡ uses_of o (given_in files.now)
        → IfOk result (AreMemberInfos o (given_in files.now)) }
{
    let hierarchy = linking.hierarchy;
    let texts = linking.texts.texts.as_slice();
    let field_rows = linking.fields.members.rows.as_slice();
    let described = descriptors_of(alloc, field_rows)?;
    let of_all_fields = described.as_slice();
    let method_rows = linking.methods.members.rows.as_slice();
    let typed = descriptors_of(alloc, method_rows)?;
    let of_all_methods = typed.as_slice();
    let marked = descriptor_marks(alloc, texts.len(), of_all_fields, of_all_methods)?;
    let marks = marked.as_slice();
    let kept = kinds_by_text(alloc, numbers, texts, marks)?;
    let kinds = kept.as_slice();
    let of_fields = kinds_of_members(alloc, kinds, of_all_fields)?;
    let of_methods = kinds_of_members(alloc, kinds, of_all_methods)?;
    let method_kinds = of_methods.as_slice();
    let methods = method_infos_of(alloc, hierarchy.classes, method_kinds, files)?;
    let field_kinds = of_fields.as_slice();
    let resolved = given_uses(uses);
    let fields = field_infos_of(alloc, hierarchy, field_kinds, files, resolved)?;
    Ok(MemberInfos { methods, fields })
}

// What is recorded about all methods, by what their descriptors declare.
fn method_infos_of(
    alloc: Global,
    classes: &[DeclaredClass],
    kinds: &[Option<&Kinds>],
    files: &[GivenFile],
) -> Result<Vec<MethodInfo>, NoMemory>
    ensures { IfOk result (λ infos. infos.items ≡ methods_told
        (lent_kinds kinds.entry.now) (codes_of (given_in files.now)) 0 (methods_of classes.now)) }
{
    let found = codes_of(alloc, files)?;
    let codes = found.as_slice();
    method_infos(alloc, classes, kinds, codes)
}

// What is recorded about all fields, by what their descriptors declare and by what the indices of
// each file are resolved to.
fn field_infos_of(
    alloc: Global,
    hierarchy: &Hierarchy,
    kinds: &[Option<&Kinds>],
    files: &[GivenFile],
    uses: &[Seq<Use>],
) -> Result<FieldInfos, NoMemory>
    requires { IsHierarchy hierarchy.now.classes.now hierarchy.now }
    ensures infos { IfOk result (λ told. told.infos.items ≡ fields_told
        (lent_kinds kinds.entry.now)
        (map (slot_of hierarchy.now.classes.now)
        (numbers_below (length (fields_of hierarchy.now.classes.now))))
        (replicate 2 Use.Unused ++ firsts_told uses.now 0 files.now) 0
        (fields_of hierarchy.now.classes.now)) }
    ensures statics { IfOk result
        (λ told. told.statics ≡ statics_of hierarchy.now.classes.now) }
{
    let classes = hierarchy.classes;
    let sizes = own_sizes(alloc, classes)?;
    let own = sizes.as_slice();
    let chains = hierarchy.chains.as_slice();
    let found = bases_of(alloc, classes, own, chains)?;
    let bases = found.as_slice();
    let placed = slots_of(alloc, classes, bases)?;
    let slots = placed.slots.as_slice();
    let held = firsts_of(alloc, files, uses)?;
    let firsts = held.as_slice();
    let infos = field_infos(alloc, classes, kinds, slots, firsts)?;
    let statics = placed.statics;
    Ok(FieldInfos { infos, statics })
}

// What the indices of given classes are resolved to.
fn given_uses(uses: &[Seq<Use>]) -> &[Seq<Use>]
    ensures { result.now ≡ drop (length built_in) uses.now }
{
    let count = built_in_classes().len();
    if count <= uses.len() {
        &uses[count..]
    } else {
        &[]
    }
}
