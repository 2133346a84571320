// Which indices of its pool a class uses.

ghost use Rattle.std.specs.Prelude.{◌≡◌, IfOk, map};
ghost use Rattle.std.specs.List.{flat_map};
ghost use Rattle.fm_base.specs.Rows.{marked};
ghost use Rattle.fm_link_names.specs.inner.Marks.{operands_among, operands_in, values_among};
ghost use Rattle.fm_world.specs.Uses.{caught_by, is_used, items_of, pool_indices, values_of};

use fm_base::{NoMemory, mark, mark_indices};
use fm_code::{ClassDef, Handler, Item, Member, MemberAttr};
use std::alloc::Global;

/// For each index of the pool whether the class uses it. `NoMemory` where memory runs out.
pub fn used_indices(alloc: Global, class: &ClassDef) -> Result<Vec<bool>, NoMemory>
    ensures { IfOk result (λ used. used.items ≡ map (is_used class.now) (pool_indices class.now)) }
{
    let mut used = vec![in alloc; false; class.pool.entries.len()]?;
    mark(&mut used, usize::from(class.this_class));
    mark(&mut used, usize::from(class.super_class));
    mark_indices(&mut used, class.interfaces.as_slice());
    mark_values(&mut used, class.fields.as_slice());
    mark_operands(&mut used, class.methods.as_slice());
    mark_caught(&mut used, class.methods.as_slice());
    Ok(used)
}

// Marks the values of fields.
fn mark_values(used: &mut Vec<bool>, fields: &[Member])
    ensures { used.new.items ≡ marked used.old.items (flat_map values_of fields.now) }
{
    for field in fields {
        mark_value(used, field.attributes.as_slice());
    }
}

// Marks the values among a field's attributes.
fn mark_value(used: &mut Vec<bool>, attributes: &[MemberAttr])
    ensures { used.new.items ≡ marked used.old.items (values_among attributes.now) }
{
    for attribute in attributes {
        if let MemberAttr::Constant(_, value) = attribute {
            mark(used, usize::from(*value));
        }
    }
}

// Marks what the instructions of methods name.
fn mark_operands(used: &mut Vec<bool>, methods: &[Member])
    ensures { used.new.items ≡ marked used.old.items (flat_map operands_in methods.now) }
{
    for method in methods {
        mark_items(used, items_of(method));
    }
}

/// The items of a method.
pub fn items_of(method: &Member) -> &[Item]
    ensures { result.now ≡ items_of method.now }
{
    match method.code() {
        Some(code) => code.items.as_slice(),
        None => &[],
    }
}

// Marks what instructions name.
fn mark_items(used: &mut Vec<bool>, items: &[Item])
    ensures { used.new.items ≡ marked used.old.items (operands_among items.now) }
{
    for item in items {
        if let Some(index) = item.insn.pool_index() {
            mark(used, usize::from(index));
        }
    }
}

// Marks the catch types of methods.
fn mark_caught(used: &mut Vec<bool>, methods: &[Member])
    ensures { used.new.items ≡ marked used.old.items (flat_map caught_by methods.now) }
{
    for method in methods {
        mark_handlers(used, handlers_of(method));
    }
}

// The handlers of a method.
fn handlers_of(method: &Member) -> &[Handler]
    ensures { map (λ h. h.catch_class) result.now ≡ caught_by method.now }
{
    match method.code() {
        Some(code) => code.handlers.as_slice(),
        None => &[],
    }
}

// Marks the catch types of handlers.
fn mark_handlers(used: &mut Vec<bool>, handlers: &[Handler])
    ensures { used.new.items ≡ marked used.old.items (map (λ h. h.catch_class) handlers.now) }
{
    for handler in handlers {
        mark(used, usize::from(handler.catch_class));
    }
}
