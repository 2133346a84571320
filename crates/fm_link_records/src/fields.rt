// What a program records about its fields.

ghost use Rattle.std.specs.Prelude.{◌≡◌, ◌+◌, ◌++◌, None, IfOk, OnOk, length, option_copied, slice_index, sum_by, if◌then◌else◌};
ghost use Rattle.std.specs.List.{slice_index_or};
ghost use Rattle.fm_world.specs.Members.{fields_of};
ghost use Rattle.fm_link_records.specs.inner.Fields.{field_told, fields_among, fields_told, kind_field, slots_among, slots_told, static_fields};
ghost use Rattle.fm_link_records.specs.inner.Rows.{lent_kinds};

use crate::methods::kind_at;
use crate::places::sum_of;
use crate::sizes::size_at;
use fm_base::{ClassId, Kind, NoMemory};
use fm_code::{ACC_STATIC, has_flag};
use fm_link_names::{Kinds, number_of};
use fm_world::{DeclaredClass, DeclaredField, FieldInfo, Use};
use std::alloc::Global;

/// What the program records about each field, by what its descriptor declares, by its place and by
/// what it holds first.
pub fn field_infos(
    alloc: Global,
    classes: &[DeclaredClass],
    kinds: &[Option<&Kinds>],
    slots: &[u32],
    firsts: &[Use],
) -> Result<Vec<FieldInfo>, NoMemory>
    ensures { IfOk result (λ infos. infos.items ≡ fields_told
        (lent_kinds kinds.entry.now) slots.now firsts.now 0 (fields_of classes.now)) }
{
    let mut infos = Vec::new(alloc);
    for (class, declared) in classes.iter().enumerate() {
        let fields = declared.fields.as_slice();
        add_fields(&mut infos, number_of(class)?, fields, kinds, slots, firsts)?;
    }
    Ok(infos)
}

// Adds what the program records about the fields of one class.
fn add_fields(
    infos: &mut Vec<FieldInfo>,
    class: u32,
    fields: &[DeclaredField],
    kinds: &[Option<&Kinds>],
    slots: &[u32],
    firsts: &[Use],
) -> Result<(), NoMemory>
    ensures { OnOk result (infos.new.items ≡ infos.old.items
        ++ fields_told (lent_kinds kinds.entry.now) slots.now firsts.now
        (length infos.old.items) (fields_among class fields.now)) }
{
    for field in fields {
        let place = infos.len();
        let slot = slot_at(slots, place);
        let info = field_told(
            class,
            field,
            kind_at(kinds, place),
            slot,
            first_at(firsts, place),
        )?;
        infos.push(info)?;
    }
    Ok(())
}

// What the program records about one field.
fn field_told(
    class: u32,
    field: &DeclaredField,
    kinds: Option<&Kinds>,
    slot: u32,
    first: Use,
) -> Result<FieldInfo, NoMemory>
    ensures { IfOk result (λ info. info ≡ field_told
        (record { class = class; field = field.now }) (option_copied kinds.entry) slot first) }
{
    Ok(FieldInfo {
        class: ClassId(class),
        name: field.name.copy()?,
        kind: kind_of(kinds),
        is_static: has_flag(field.flags, ACC_STATIC),
        slot,
        first,
    })
}

// The kind that is declared.
fn kind_of(kinds: Option<&Kinds>) -> Kind
    ensures { result ≡ kind_field (option_copied kinds.entry) }
{
    match kinds {
        Some(kinds) => kinds.field,
        None => Kind::Int,
    }
}

// The place of a field, by its number.
fn slot_at(slots: &[u32], number: usize) -> u32
    ensures { result ≡ slice_index slots.now number }
{
    match slots.get(number) {
        Some(slot) => *slot,
        None => 0,
    }
}

// What a field holds first, by its number.
fn first_at(firsts: &[Use], number: usize) -> Use
    ensures { result ≡ slice_index_or firsts.now number Use.Unused }
{
    match firsts.get(number) {
        Some(first) => *first,
        None => Use::Unused,
    }
}

// ---- places

/// The place of each field, by the bases at which the fields of each class's objects begin; and the
/// number of static fields.
pub fn slots_of(alloc: Global, classes: &[DeclaredClass], bases: &[u32]) -> Result<Slots, NoMemory>
    ensures slots { IfOk result
        (λ found. found.slots.items ≡ slots_told bases.now 0 0 classes.now) }
    ensures statics { IfOk result
        (λ found. found.statics ≡ sum_by (λ c. static_fields c.fields) classes.now) }
{
    let mut found = Slots {
        slots: Vec::new(alloc),
        statics: 0,
    };
    for (class, declared) in classes.iter().enumerate() {
        let base = size_at(bases, number_of(class)?);
        found.add(base, declared.fields.as_slice())?;
    }
    Ok(found)
}

/// The places of fields, and how many of them are static.
#[derive(Drop)]
pub struct Slots {
    pub slots: Vec<u32>,
    pub statics: u32,
}

impl Slots {
    // Adds the places of a class's fields, of which those that aren't static begin at the base.
    fn add(&mut self, base: u32, fields: &[DeclaredField]) -> Result<(), NoMemory>
        ensures slots { OnOk result (self.new.slots.items ≡ self.old.slots.items
            ++ slots_among self.old.statics base fields.now) }
        ensures statics { OnOk result
            (self.new.statics ≡ self.old.statics + static_fields fields.now) }
    {
        let mut own = base;
        for field in fields {
            let is_static = has_flag(field.flags, ACC_STATIC);
            self.slots.push(choose(is_static, self.statics, own))?;
            self.statics = sum_of(self.statics, choose(is_static, 1, 0))?;
            own = sum_of(own, choose(is_static, 0, 1))?;
        }
        Ok(())
    }
}

// The first number where the test passes, and else the second.
fn choose(passes: bool, first: u32, second: u32) -> u32
    ensures { result ≡ (if passes then first else second) }
{
    if passes { first } else { second }
}
