// What the start of classes does, action by action (JVMS 5.5).

ghost use Rattle.std.specs.Prelude.{◌≡◌, ◌++◌, ◌+◌, ◌<◌, ◌≤◌, ◌-◌, length, map, IfOk, OnOk};
ghost use Rattle.std.specs.List.{flat_map, range_with_len};
ghost use Rattle.fm_base.specs.declared.ids.ClassId as ids;
ghost use Rattle.fm_frames.specs.Starts.{start_actions, start_of_class};
ghost use Rattle.fm_frames.specs.inner.StartActions.{action_of, constant_at, actions_by};
ghost use Rattle.fm_world.specs.Members.{fields_of};
ghost use Rattle.fm_world.specs.declared.uses.Use.TheVariants as used;

use crate::starts::first_field;
use crate::values::Value;
use fm_base::{ClassId, FieldId, Kind, NoMemory};
use fm_world::{FieldInfo, Program, Use};
use std::alloc::Global;

/// One action of the start of a class.
#[derive(Clone, Copy, Debug)]
pub enum StartAction {
    /// The class is marked as started.
    Start(ClassId),
    /// The literal of a text is made, unless it is there.
    MakeLiteral(u32),
    /// The static field at a place, of a kind, gets a number.
    SetNumber(u32, Kind, Value),
    /// The static field at a place, of a kind, gets the literal of a text.
    SetLiteral(u32, Kind, u32),
}

/// What the start of the classes does, in order.
pub fn start_actions(
    alloc: Global,
    program: &Program,
    classes: &[ClassId],
) -> Result<Vec<StartAction>, NoMemory>
    ensures { IfOk result (λ actions. map action_of actions.items
        ≡ start_actions program.now.outline (map (λ (c : ids.ClassId). c.0) classes.now)) }
{
    let mut actions = Vec::new(alloc);
    for class in classes {
        add_class(&mut actions, program, *class)?;
    }
    Ok(actions)
}

// Puts what the start of a class does after the others.
fn add_class(
    actions: &mut Vec<StartAction>,
    program: &Program,
    class: ClassId,
) -> Result<(), NoMemory>
    ensures { OnOk result (map action_of actions.new.items
        ≡ map action_of actions.old.items ++ start_of_class program.now.outline class.0) }
{
    actions.push(StartAction::Start(class))?;
    if class.0 >= program.classes() {
        return Ok(());
    }
    let first = first_field(program, class.0);
    let end = first_field(program, class.0 + 1);
    add_fields(actions, program, first, end)
}

// Puts what the constants of these fields do after the others.
fn add_fields(
    actions: &mut Vec<StartAction>,
    program: &Program,
    first: u32,
    end: u32,
) -> Result<(), NoMemory>
    requires in_order { first ≤ end }
    requires inside { end ≤ length (fields_of program.now.outline.classes) }
    ensures { OnOk result (map action_of actions.new.items ≡ map action_of actions.old.items
        ++ flat_map (constant_at program.now.outline) (range_with_len first (end - first))) }
{
    for place in 0..end - first {
        add_constant(actions, program.field(FieldId(first + place)))?;
    }
    Ok(())
}

// Puts what the constant of a field does after the others, if the field has one.
fn add_constant(actions: &mut Vec<StartAction>, field: &FieldInfo) -> Result<(), NoMemory>
    ensures { OnOk result (map action_of actions.new.items
        ≡ map action_of actions.old.items ++ actions_by field.now.slot field.now.kind field.now.first) }
{
    match field.first {
        Use::OfInt(n) => add_int(actions, field.slot, field.kind, n),
        Use::OfLong(n) => add_long(actions, field.slot, field.kind, n),
        Use::OfText(text) => add_text(actions, field.slot, field.kind, text),
        Use::OfType(_) => Ok(()),
        Use::OfField(_, _) => Ok(()),
        Use::OfMethod(_, _) => Ok(()),
        Use::Unused => Ok(()),
    }
}

// Puts that a static field gets an int after the others.
fn add_int(actions: &mut Vec<StartAction>, slot: u32, kind: Kind, n: i32) -> Result<(), NoMemory>
    ensures { OnOk result (map action_of actions.new.items
        ≡ map action_of actions.old.items ++ actions_by slot kind (used.OfInt n)) }
{
    actions.push(StartAction::SetNumber(slot, kind, Value::Int(n)))?;
    Ok(())
}

// Puts that a static field gets a long after the others.
fn add_long(actions: &mut Vec<StartAction>, slot: u32, kind: Kind, n: i64) -> Result<(), NoMemory>
    ensures { OnOk result (map action_of actions.new.items
        ≡ map action_of actions.old.items ++ actions_by slot kind (used.OfLong n)) }
{
    actions.push(StartAction::SetNumber(slot, kind, Value::Long(n)))?;
    Ok(())
}

// Puts that a static field gets the literal of a text, which is made first, after the others.
fn add_text(
    actions: &mut Vec<StartAction>,
    slot: u32,
    kind: Kind,
    text: u32,
) -> Result<(), NoMemory>
    ensures { OnOk result (map action_of actions.new.items
        ≡ map action_of actions.old.items ++ actions_by slot kind (used.OfText text)) }
{
    actions.extend_from_slice(&[
        StartAction::MakeLiteral(text),
        StartAction::SetLiteral(slot, kind, text),
    ])?;
    Ok(())
}
