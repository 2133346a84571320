// Exceptions: which frame catches what is thrown (JVMS 2.10).

ghost use Rattle.std.specs.Prelude.{◌≡◌, ◌+◌, ◌^◌, ◌<◌, length, unwrap_or, OnOk, false, List, ℕ};
ghost use Rattle.std.specs.Option.{option_map};
ghost use Rattle.fm_frames.specs.Operands.{thrown};
ghost use Rattle.fm_frames.specs.States.{ref};
ghost use Rattle.fm_frames.specs.Runnable.{IsRunnable};
ghost use Rattle.fm_frames.specs.Steps.{catches, caught, class_at_type, handler_among, handler_of, is_start, thrown_by};
ghost use Rattle.fm_frames.specs.declared.values.Value.{Value};
ghost use Rattle.fm_frames.specs.inner.Catching.{caught_as, placed, IsCaughtAt};
ghost use Rattle.fm_frames.specs.inner.Doings.{AreFramesIn, CanStep, DoesIn};
ghost use Rattle.fm_types.specs.Named.{built_in_type};
ghost use Rattle.fm_types.specs.Typed.{type_of_use};
ghost use Rattle.fm_world.specs.BuiltIns.{built_in_classes};
ghost use Rattle.fm_world.specs.Chains.{is_sub};
ghost use Rattle.fm_world.specs.Members.{methods_of};
ghost use Rattle.fm_world.specs.Numbers.{type_of_class};
ghost use Rattle.fm_world.specs.Programs.{IsTypeIn};

use crate::coded::{code_of, pack_of, type_id, type_numbered};
use crate::ends::Ended;
use crate::frames::Frames;
use crate::machine::Machine;
use crate::values::Value;
use fm_base::{Base, ClassId, MethodId, NoMemory, TypeRef};
use fm_cells::{Cell, Memory};
use fm_code::Handler;
use fm_world::{Program, Use, type_of_class};

/// Where an exception goes.
#[derive(Clone, Copy)]
pub enum Catch {
    /// To a handler, by its item, of the frame above which this many frames lie.
    InFrame(usize, usize),
    /// Out of main, or out of the start of a class: the run ends.
    Leaves(Ended),
}

// Whether an object of the type can be cast to the type that a use names; not where it names none.
fn is_below(program: &Program, t: TypeRef, resolved: Use) -> bool
    requires runnable { IsRunnable program.now }
    requires inside { IsTypeIn program.now.outline.classes t }
    ensures { result ≡ unwrap_or (option_map (is_sub program.now.outline.classes t)
        (type_of_use program.now.outline resolved)) false }
{
    match resolved {
        Use::OfType(id) => {
            if id.0 < program.types() {
                program.is_sub(t, program.type_of(id))
            } else {
                false
            }
        }
        _ => false,
    }
}

// Whether an entry of the exception table catches the type at an item of the method.
fn catches(program: &Program, method: MethodId, item: usize, t: TypeRef, h: &Handler) -> bool
    requires runnable { IsRunnable program.now }
    requires method { method.0 < length (methods_of program.now.outline.classes) }
    requires inside { IsTypeIn program.now.outline.classes t }
    ensures { result ≡ catches program.now (placed method.0 item) t h.now }
{
    if h.start as usize > item {
        return false;
    }
    if item >= h.end as usize {
        return false;
    }
    if h.catch_class == 0 {
        return true;
    }
    let class = program.method(method).class;
    is_below(program, t, program.use_of(class, h.catch_class))
}

// The handler of the first entry that catches it.
fn handler_among(
    program: &Program,
    method: MethodId,
    item: usize,
    t: TypeRef,
    handlers: &[Handler],
) -> Option<u32>
    requires runnable { IsRunnable program.now }
    requires method { method.0 < length (methods_of program.now.outline.classes) }
    requires inside { IsTypeIn program.now.outline.classes t }
    ensures { result ≡ handler_among program.now (placed method.0 item) t handlers.now }
{
    for h in handlers {
        if catches(program, method, item, t, h) {
            return Some(h.handler);
        }
    }
    None
}

// That of the exception table of the method.
fn handler_of(program: &Program, method: MethodId, item: usize, t: TypeRef) -> Option<u32>
    requires runnable { IsRunnable program.now }
    requires method { method.0 < length (methods_of program.now.outline.classes) }
    requires inside { IsTypeIn program.now.outline.classes t }
    ensures { result ≡ handler_of program.now (placed method.0 item) t }
{
    match code_of(program, method) {
        Some(code) => handler_among(program, method, item, t, code.handlers.as_slice()),
        None => None,
    }
}

/// Whether the method is the one that starts its class. Takes no memory.
pub fn is_start(program: &Program, method: MethodId) -> bool
    requires runnable { IsRunnable program.now }
    requires method { method.0 < length (methods_of program.now.outline.classes) }
    ensures { result ≡ is_start program.now.outline method.0 }
{
    let class = program.method(method).class;
    match program.class(class).start {
        Some(start) => start.0 == method.0,
        None => false,
    }
}

// The class of a type; Object for an array.
fn class_of(t: TypeRef) -> ClassId
    ensures { result.0 ≡ class_at_type t }
{
    if t.dims != 0 {
        return ClassId(0);
    }
    match t.base {
        Base::OfClass(class) => class,
        _ => ClassId(0),
    }
}

// What the frame does with the exception above which `above` frames lie; none where it goes on
// below it.
fn caught_at(frames: &Frames, program: &Program, above: usize, t: TypeRef) -> Option<Catch>
    requires runnable { IsRunnable program.now }
    requires methods { AreFramesIn program.now frames.now }
    requires inside { IsTypeIn program.now.outline.classes t }
    ensures { (v : Value) → IsCaughtAt program.now t v frames.now above result }
{
    let Some(cursor) = frames.cursor(above) else {
        return None;
    };
    if let Some(handler) = handler_of(program, cursor.method, cursor.item, t) {
        return Some(Catch::InFrame(above, handler as usize));
    }
    if is_start(program, cursor.method) {
        let class = program.method(cursor.method).class;
        return Some(Catch::Leaves(Ended::InitFailed(class)));
    }
    None
}

// Where an exception of the type goes.
fn catcher(frames: &Frames, program: &Program, t: TypeRef) -> Catch
    requires runnable { IsRunnable program.now }
    requires methods { AreFramesIn program.now frames.now }
    requires inside { IsTypeIn program.now.outline.classes t }
    ensures { (v : Value) → caught program.now t v frames.now ≡ caught_as v frames.now result }
{
    for above in 0..frames.count() {
        if let Some(catch) = caught_at(frames, program, above, t) {
            return catch;
        }
    }
    Catch::Leaves(Ended::Uncaught(class_of(t)))
}

impl<M: Memory> Machine<M> {
    /// Throws an object of the type: the step is counted, and the frame that catches it goes on at its
    /// handler; or the run ends.
    pub fn throw(&mut self, program: &Program, cell: Cell, t: TypeRef) -> Result<(), NoMemory>
        requires runnable { IsRunnable program.now }
        requires methods { AreFramesIn program.now self.old.frames }
        requires inside { IsTypeIn program.now.outline.classes t }
        requires step_fits { self.old.steps + 1 < 2 ^ 64 }
        ensures { OnOk result (self.new ≡ thrown_by (record self.old { steps = self.old.steps + 1 })
            (caught program.now t (ref cell.0) self.old.frames)) }
    {
        self.steps += 1;
        match catcher(&self.frames, program, t) {
            Catch::InFrame(above, handler) => {
                self.frames.catch(above, handler, Value::Ref(cell))
            }
            Catch::Leaves(end) => {
                self.ended = Some(end);
                Ok(())
            }
        }
    }

    /// Throws a new object of a built-in class, without a message.
    pub fn throw_new(&mut self, program: &Program, class: ClassId) -> Result<(), NoMemory>
        requires can { CanStep program.now self.old }
        requires built_in { class.0 < built_in_classes }
        ensures { OnOk result ((name : List ℕ) → built_in_type program.now.outline name ≡ type_of_class class.0
            → DoesIn program.now M.choose self.old self.new (thrown program.now.outline name)) }
    {
        let t = type_of_class(class);
        let id = type_id(program, t);
        let pack = pack_of(program, t);
        let Some(cell) = self.make_one(id, program.class(class).size, pack)? else {
            return Ok(());
        };
        self.throw(program, cell, type_numbered(program, id))
    }
}
