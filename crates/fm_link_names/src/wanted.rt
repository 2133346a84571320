// What a class's instructions want of the members at the indices of its pool.

ghost use Rattle.std.specs.Prelude.{◌≡◌, [], IfOk};
ghost use Rattle.fm_link_names.specs.inner.Wanting.{
  differs_from,
  is_something,
  noted,
  noted_among,
  noted_if,
  wanted_by,
  wanted_of,
  with_flag,
};
ghost use Rattle.fm_world.specs.Causes.{static_field_wanted, static_method_wanted};

use crate::used::items_of;
use fm_base::NoMemory;
use fm_code::{ClassDef, Insn, Item};
use std::alloc::Global;

/// What instructions want of the member at an index: some a static one, some another one.
#[derive(Clone, Copy, Debug)]
pub struct Wanted {
    pub in_class: bool,
    pub in_object: bool,
}

impl Wanted {
    /// No instruction names the index.
    pub fn nothing() -> Wanted
        ensures { result ≡ wanted_of [] }
    {
        Wanted {
            in_class: false,
            in_object: false,
        }
    }

    // The same, with one more that is wanted.
    fn with(self, is_static: bool) -> Wanted
        ensures { result ≡ with_flag self is_static }
    {
        Wanted {
            in_class: self.in_class || is_static,
            in_object: self.in_object || !is_static,
        }
    }

    /// Whether some instruction names it.
    pub fn is_something(self) -> bool
        ensures { result ≡ is_something self }
    {
        self.in_class || self.in_object
    }

    /// Whether some instruction wants another flag than this one.
    pub fn differs_from(self, is_static: bool) -> bool
        ensures { result ≡ differs_from self is_static }
    {
        if is_static {
            self.in_object
        } else {
            self.in_class
        }
    }
}

/// What the instructions of a class want of the fields, and of the methods, at the indices of its
/// pool.
#[derive(Drop)]
pub struct WantedMembers {
    pub fields: Vec<Wanted>,
    pub methods: Vec<Wanted>,
}

impl WantedMembers {
    /// What the class's instructions want. `NoMemory` where memory runs out.
    pub fn of(alloc: Global, class: &ClassDef) -> Result<WantedMembers, NoMemory>
        ensures fields { IfOk result
            (λ w. w.fields.items ≡ wanted_by static_field_wanted class.now) }
        ensures methods { IfOk result
            (λ w. w.methods.items ≡ wanted_by static_method_wanted class.now) }
    {
        let count = class.pool.entries.len();
        let mut fields = vec![in alloc; Wanted::nothing(); count]?;
        let mut methods = vec![in alloc; Wanted::nothing(); count]?;
        for method in class.methods.as_slice() {
            let items = items_of(method);
            note_fields(&mut fields, items);
            note_methods(&mut methods, items);
        }
        Ok(WantedMembers { fields, methods })
    }
}

// Notes what the instructions want of fields.
fn note_fields(wanted: &mut Vec<Wanted>, items: &[Item])
    ensures { wanted.new.items ≡ noted_among static_field_wanted wanted.old.items items.now }
{
    for item in items {
        note(
            wanted,
            item.insn.pool_index(),
            static_field_wanted(&item.insn),
        );
    }
}

// Notes what the instructions want of methods.
fn note_methods(wanted: &mut Vec<Wanted>, items: &[Item])
    ensures { wanted.new.items ≡ noted_among static_method_wanted wanted.old.items items.now }
{
    for item in items {
        note(
            wanted,
            item.insn.pool_index(),
            static_method_wanted(&item.insn),
        );
    }
}

// Whether the instruction wants a static field; none where it names no field.
fn static_field_wanted(insn: &Insn) -> Option<bool>
    ensures { result ≡ static_field_wanted insn.now }
{
    match insn {
        Insn::GetStatic(_) => Some(true),
        Insn::PutStatic(_) => Some(true),
        Insn::GetField(_) => Some(false),
        Insn::PutField(_) => Some(false),
        _ => None,
    }
}

// Whether the instruction wants a static method; none where it names no method.
fn static_method_wanted(insn: &Insn) -> Option<bool>
    ensures { result ≡ static_method_wanted insn.now }
{
    match insn {
        Insn::Virtual(_) => Some(false),
        Insn::Special(_) => Some(false),
        Insn::Static(_) => Some(true),
        Insn::Interface(_) => Some(false),
        _ => None,
    }
}

// Notes at an index what is wanted there, if an index is named and something is wanted.
fn note(wanted: &mut Vec<Wanted>, index: Option<u16>, is_static: Option<bool>)
    ensures { wanted.new.items ≡ noted_if wanted.old.items index is_static }
{
    if let Some(index) = index {
        if let Some(is_static) = is_static {
            want(wanted, index, is_static);
        }
    }
}

// Notes at an index, where the pool has it, that a static member is wanted, or another one.
fn want(wanted: &mut Vec<Wanted>, index: u16, is_static: bool)
    ensures { wanted.new.items ≡ noted wanted.old.items index is_static }
{
    let place = usize::from(index);
    if place < wanted.len() {
        wanted[place] = wanted[place].with(is_static);
    }
}
