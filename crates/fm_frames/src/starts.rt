// Which classes an instruction starts, their fields, and the frames of the methods that start them
// (JVMS 5.5).

ghost use Rattle.std.specs.Prelude.{◌≡◌, ◌++◌, ◌<◌, ◌≤◌, ◌-◌, ◌∷◌, [], length, map, not, filter, option_to_list, IfOk, OnOk, if◌then◌else◌};
ghost use Rattle.std.specs.Option.{option_map};
ghost use Rattle.fm_base.specs.declared.ids.ClassId as ids;
ghost use Rattle.fm_base.specs.declared.ids.MethodId as method_ids;
ghost use Rattle.fm_frames.specs.Acts.{class_started};
ghost use Rattle.fm_frames.specs.Runnable.{IsRunnable};
ghost use Rattle.fm_frames.specs.Starts.{is_started, start_methods, to_start};
ghost use Rattle.fm_frames.specs.Steps.{start_frames};
ghost use Rattle.fm_frames.specs.inner.Frames.{with_start};
ghost use Rattle.fm_world.specs.Members as spec;
ghost use Rattle.fm_world.specs.Members.{fields_of, start_of};

use crate::calls::max_locals_of;
use crate::machine::Machine;
use fm_base::{ClassId, FieldId, MethodId, NoMemory};
use fm_cells::Memory;
use fm_world::Program;
use std::alloc::Global;

// A number between two others: not below the first, and below the second.
fn middle_of(low: u32, high: u32) -> u32
    requires { low < high }
    ensures from { low ≤ result }
    ensures below { result < high }
{
    low + (high - low) / 2
}

// The first field of a class is looked for between two numbers: in which half it lies.
fn half_with_first(program: &Program, class: u32, low: u32, high: u32) -> (u32, u32)
    requires some { low < high }
    requires inside { high ≤ length (fields_of program.now.outline.classes) }
    ensures low { low ≤ spec.first_field program.now.outline.classes class
        → result.0 ≤ spec.first_field program.now.outline.classes class }
    ensures high { spec.first_field program.now.outline.classes class ≤ high
        → spec.first_field program.now.outline.classes class ≤ result.1 }
    ensures inside { result.1 ≤ high }
    ensures fewer { result.1 - result.0 < high - low }
{
    let middle = middle_of(low, high);
    let owner = program.field(FieldId(middle)).class.0;
    if owner < class {
        (middle + 1, high)
    } else {
        (low, middle)
    }
}

/// The number of the first field of a class: how many fields the classes before it have together.
/// Takes no memory.
pub fn first_field(program: &Program, class: u32) -> u32
    ensures { result ≡ spec.first_field program.now.outline.classes class }
{
    let mut low = 0;
    let mut high = program.fields();
    while low < high {
        let half = half_with_first(program, class, low, high);
        low = half.0;
        high = half.1;
    }
    low
}

/// The method that starts a class, if it has one. Takes no memory.
pub fn start_of(program: &Program, class: ClassId) -> Option<MethodId>
    ensures { option_map (λ (m : method_ids.MethodId). m.0) result
        ≡ start_of program.now.outline.classes class.0 }
{
    if class.0 >= program.classes() {
        return None;
    }
    program.class(class).start
}

// 1 where a method starts the class, and else 0.
fn start_count_of(program: &Program, class: ClassId) -> usize
    ensures value { result ≡ length (option_to_list (start_of program.now.outline.classes class.0)) }
    ensures few { result ≤ 1 }
{
    match start_of(program, class) {
        Some(_) => 1,
        None => 0,
    }
}

/// How many of the classes have methods that start them. Takes no memory.
pub fn start_count(program: &Program, classes: &[ClassId]) -> usize
    ensures { result ≡ length (start_methods program.now.outline (map (λ (c : ids.ClassId). c.0) classes.now)) }
{
    let mut count = 0;
    for class in classes {
        count += start_count_of(program, *class);
    }
    count
}

impl<M: Memory> Machine<M> {
    /// Whether the class has started; a built-in class always has. Takes no memory.
    pub fn is_started(&self, program: &Program, class: ClassId) -> bool
        ensures { result ≡ is_started program.now.outline self.now.areas.started class.0 }
    {
        if class.0 >= self.started.bits() {
            return true;
        }
        if self.started.get(class.0) {
            return true;
        }
        if class.0 >= program.classes() {
            return true;
        }
        program.class(class).file.is_none()
    }

    /// The class and those of its superclasses that haven't started, the uppermost first.
    pub fn classes_to_start(
        &self,
        alloc: Global,
        program: &Program,
        class: ClassId,
    ) -> Result<Vec<ClassId>, NoMemory>
        requires { class.0 < length program.now.outline.classes }
        ensures { IfOk result (λ classes. map (λ (c : ids.ClassId). c.0) classes.items
            ≡ to_start program.now.outline self.now.areas.started class.0) }
    {
        if program.class(class).file.is_none() {
            return Ok(Vec::new(alloc));
        }
        not_started(alloc, self, program, program.display(class))
    }

    /// Marks a class as started. Takes no memory.
    pub fn mark_started(&mut self, class: ClassId)
        ensures { self.new ≡ record self.old { areas = class_started self.old.areas class.0 } }
    {
        if class.0 < self.started.bits() {
            self.started.set(class.0);
        }
    }

    // Puts the frame of the method that starts a class on top, if one does.
    fn enter_start(&mut self, program: &Program, class: ClassId) -> Result<(), NoMemory>
        requires runnable { IsRunnable program.now }
        requires some { 0 < length self.old.frames }
        ensures { OnOk result (self.new ≡ record self.old {
          frames = with_start program.now (start_of program.now.outline.classes class.0) self.old.frames;
        }) }
    {
        let Some(start) = start_of(program, class) else {
            return Ok(());
        };
        let max_locals = max_locals_of(program, start);
        self.frames.enter(start, max_locals, 0)
    }
}

// Those of the classes that haven't started, in their order.
fn not_started<M: Memory>(
    alloc: Global,
    machine: &Machine<M>,
    program: &Program,
    classes: &[u32],
) -> Result<Vec<ClassId>, NoMemory>
    ensures { IfOk result (λ found. map (λ (c : ids.ClassId). c.0) found.items
        ≡ filter (λ class. not (is_started program.now.outline machine.now.areas.started class)) classes.now) }
{
    let mut found = Vec::new(alloc);
    for class in classes {
        let started = machine.is_started(program, ClassId(*class));
        push_unless(&mut found, started, *class)?;
    }
    Ok(found)
}

// Puts a class after the others, unless it has started.
fn push_unless(classes: &mut Vec<ClassId>, started: bool, class: u32) -> Result<(), NoMemory>
    ensures { OnOk result (map (λ (c : ids.ClassId). c.0) classes.new.items
        ≡ map (λ (c : ids.ClassId). c.0) classes.old.items ++ (if started then [] else class ∷ [])) }
{
    if !started {
        classes.push(ClassId(class))?;
    }
    Ok(())
}

/// Puts the frames of the methods that start the classes on top, that of the first class uppermost.
pub fn enter_starts<M: Memory>(
    machine: &mut Machine<M>,
    program: &Program,
    classes: &[ClassId],
) -> Result<(), NoMemory>
    requires runnable { IsRunnable program.now }
    requires some { 0 < length machine.old.frames }
    ensures { OnOk result (machine.new ≡ record machine.old {
      frames = start_frames program.now
          (start_methods program.now.outline (map (λ (c : ids.ClassId). c.0) classes.now))
          ++ machine.old.frames;
    }) }
{
    for entered in 0..classes.len() {
        machine.enter_start(program, classes[classes.len() - 1 - entered])?;
    }
    Ok(())
}
