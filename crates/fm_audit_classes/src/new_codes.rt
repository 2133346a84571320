// The new code of methods, by class files that somebody wrote.

ghost use Rattle.std.specs.Prelude.{◌≡◌, ◌+◌, ◌++◌, IfOk, OnOk, length, map, slice_get};
ghost use Rattle.std.specs.List.{AllByRecursion};
ghost use Rattle.fm_audit_classes.specs.Parts.{code_items};
ghost use Rattle.fm_audit_classes.specs.inner.Codes.{codes_in, free_for, method_items, pair_of, written_codes};
ghost use Rattle.fm_code.specs.Members.{code_of};
ghost use Rattle.fm_code.specs.Spells.{HasSpelling};
ghost use Rattle.fm_rewrite.specs.inner.ByPlans.{method_count};

use fm_audit::NewCode;
use fm_base::NoMemory;
use fm_code::{ClassDef, Item, Member};
use fm_place_weave::pool_for;
use fm_pool::AddFail;
use std::alloc::Global;

/// The new code of each method of these classes, in their order: that of the method in the same place of
/// the written class, if there is one. Takes a few words for each method, and the pool of one class at a
/// time.
pub(crate) fn new_codes<'a>(
    alloc: Global,
    classes: &[ClassDef],
    written: &'a [ClassDef],
) -> Result<Vec<NewCode<'a>>, NoMemory>
    requires spelled { AllByRecursion HasSpelling classes.now }
    requires lengths { length written.now ≡ length classes.now }
    ensures one_each { IfOk result (λ codes. length codes.items ≡ method_count classes.now) }
    ensures codes { IfOk result
        (λ codes. map pair_of codes.items ≡ written_codes classes.now written.now) }
{
    let mut codes = Vec::new(alloc);
    for place in 0..classes.len() {
        let class = &classes[place];
        let new = &written[place];
        let free = free_of(alloc, class)?;
        let count = class.methods.len();
        push_codes(&mut codes, free, count, new.methods.as_slice())?;
    }
    Ok(codes)
}

/// The index of FreeMe.free in the pool of a class when it has its entries; 0 where that pool is full.
fn free_of(alloc: Global, class: &ClassDef) -> Result<u16, NoMemory>
    requires { HasSpelling class.now }
    ensures { IfOk result (λ free. free ≡ free_for class.now) }
{
    match pool_for(alloc, class, false) {
        Ok(pool) => Ok(pool.calls.free),
        Err(AddFail::Full(_)) => Ok(0),
        Err(AddFail::NoMemory) => Err(NoMemory),
    }
}

/// Puts this many codes behind the others, those of the methods in these places.
fn push_codes<'a>(
    codes: &mut Vec<NewCode<'a>>,
    free: u16,
    count: usize,
    methods: &'a [Member],
) -> Result<(), NoMemory>
    ensures count { OnOk result (length codes.new.items ≡ length codes.old.items + count) }
    ensures codes { OnOk result (map pair_of codes.new.items
        ≡ map pair_of codes.old.items ++ codes_in free count methods.now) }
{
    for place in 0..count {
        let items = items_at(methods, place);
        codes.push(NewCode { free, items })?;
    }
    Ok(())
}

/// The items of the method in a place; none where there is no method, or it has no code.
fn items_at(methods: &[Member], place: usize) -> &[Item]
    ensures { result.now ≡ method_items (slice_get methods.now place) }
{
    match methods.get(place) {
        Some(method) => items_of(method),
        None => &[],
    }
}

/// The items of a method; none where it has no code.
fn items_of(method: &Member) -> &[Item]
    ensures { result.now ≡ code_items (code_of method.now) }
{
    match method.code() {
        Some(code) => code.items.as_slice(),
        None => &[],
    }
}
