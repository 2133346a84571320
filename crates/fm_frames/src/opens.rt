// The opening of a run, action by action (JVMS 5.2, 5.5).

ghost use Rattle.std.specs.Prelude.{◌≡◌, ◌+◌, ◌++◌, ◌-◌, ◌<◌, ◌≤◌, ◌^◌, ℕ, List, [], length, map, slice_set, IfOk, IfSome, OnOk, Some};
ghost use Rattle.std.specs.List.{AllByRecursion};
ghost use Rattle.fm_base.specs.declared.ids.ClassId as ids;
ghost use Rattle.fm_cells.specs.Objects.{new_object};
ghost use Rattle.fm_cells.specs.Stores.{object_at};
ghost use Rattle.fm_cells.specs.declared.answers.Cell as cells;
ghost use Rattle.fm_frames.specs.Acts.{literal_text, requested};
ghost use Rattle.fm_frames.specs.Effects.{MakeLiteral};
ghost use Rattle.fm_frames.specs.Literals.{literal_count};
ghost use Rattle.fm_frames.specs.NativeRows.{text_type};
ghost use Rattle.fm_frames.specs.Runnable.{IsRunnable};
ghost use Rattle.fm_frames.specs.Runs.{first_areas, first_statics, opening, unopened};
ghost use Rattle.fm_frames.specs.Starts.{start_actions};
ghost use Rattle.fm_frames.specs.States.{ref};
ghost use Rattle.fm_frames.specs.Steps.{stopped};
ghost use Rattle.fm_frames.specs.declared.ends.Ended.TheVariants as end;
ghost use Rattle.fm_frames.specs.inner.Opening.{first_by, GrowsBy, GrowsOnce, OpensAll, OpensArgument, OpensArguments, OpensAsked, opening_classes, OpensMain, OpensObjects, OpensOne, StartFits};
ghost use Rattle.fm_frames.specs.inner.Places.{IsWide};
ghost use Rattle.fm_frames.specs.inner.StartActions.{action_of};

use crate::actions::{StartAction, start_actions};
use crate::built_ins::{INPUT_STREAM, PRINT_STREAM, STRING};
use crate::calls::max_locals_of;
use crate::coded::{pack_of, type_id};
use crate::elements::read;
use crate::ends::Ended;
use crate::frames::Frames;
use crate::machine::Machine;
use crate::starts::{enter_starts, start_count};
use crate::texts::text_words;
use crate::values::Value;
use fm_base::{Base, ClassId, FieldId, Kind, NoMemory, Row, TypeRef, Units};
use fm_cells::{Cell, Memory, object_words};
use fm_world::{FieldInfo, Program, type_of_class};
use std::alloc::Global;

// Puts what a field holds at first after the others, if it is static.
fn add_first(statics: &mut Vec<Value>, field: &FieldInfo) -> Result<(), NoMemory>
    ensures { OnOk result (statics.new.items
        ≡ statics.old.items ++ first_by field.now.is_static field.now.kind) }
{
    if !field.is_static {
        return Ok(());
    }
    statics.push(read(field.kind, 0))?;
    Ok(())
}

// How many literals there are.
fn literal_count(program: &Program) -> usize
    ensures { result ≡ literal_count program.now.outline }
{
    program.texts() as usize + program.types() as usize
}

// What the static fields hold at first, in the order of their places.
fn first_statics(alloc: Global, program: &Program) -> Result<Vec<Value>, NoMemory>
    ensures { IfOk result (λ statics. statics.items ≡ first_statics program.now.outline) }
{
    let mut statics = Vec::new(alloc);
    for field in 0..program.fields() {
        add_first(&mut statics, program.field(FieldId(field)))?;
    }
    Ok(statics)
}

impl<M: Memory> Machine<M> {
    // Makes the object of the type in the next action of the opening; none where the run has ended.
    fn open_object(
        &mut self,
        program: &Program,
        t: TypeRef,
        len: u32,
        fixed: bool,
    ) -> Result<Option<Cell>, NoMemory>
        requires runnable { IsRunnable program.now }
        requires len_fits { len < 2 ^ 31 }
        requires birth_fits { self.old.areas.store.births < 2 ^ 32 - 1 }
        ensures told { IfOk result (λ made. OpensAsked program.now M.choose self.old self.new
            (requested program.now.outline t len fixed) [] made) }
        ensures grows { OnOk result (GrowsOnce self.old self.new) }
        ensures object { IfOk result (λ made. IfSome made (λ (cell : cells.Cell).
            object_at self.new.areas.store cell.0 ≡ Some (new_object self.old.areas.store.births
            (requested program.now.outline t len fixed)))) }
    {
        let id = type_id(program, t);
        let pack = pack_of(program, t);
        if !self.reserve(object_words(len, pack) as u64) {
            return Ok(None);
        }
        self.make_object(id, len, pack, fixed)
    }

    // Makes the text in the next action of the opening; none where the run has ended.
    fn open_text(
        &mut self,
        program: &Program,
        units: &[u16],
        fixed: bool,
    ) -> Result<Option<Cell>, NoMemory>
        requires runnable { IsRunnable program.now }
        requires len_fits { length units.now < 2 ^ 31 }
        requires birth_fits { self.old.areas.store.births < 2 ^ 32 - 1 }
        requires budget_fits { self.old.areas.store.budget ≤ 2 ^ 27 }
        ensures told { IfOk result (λ made. OpensAsked program.now M.choose self.old self.new
            (requested program.now.outline (text_type program.now.outline) (length units.now) fixed)
            units.now made) }
        ensures grows { OnOk result (GrowsOnce self.old self.new) }
        ensures keeps { OnOk result ((cell : ℕ) → IsWide self.old.areas.store cell
            → IsWide self.new.areas.store cell) }
    {
        if !self.reserve(text_words(units.len())) {
            return Ok(None);
        }
        self.make_units(program, units, fixed)
    }

    // Makes the text of an argument and puts it into the array of the arguments; returns false
    // where the run has ended.
    fn open_argument(
        &mut self,
        program: &Program,
        arguments: Cell,
        place: u32,
        units: &[u16],
    ) -> Result<bool, NoMemory>
        requires runnable { IsRunnable program.now }
        requires len_fits { length units.now < 2 ^ 31 }
        requires birth_fits { self.old.areas.store.births < 2 ^ 32 - 1 }
        requires budget_fits { self.old.areas.store.budget ≤ 2 ^ 27 }
        requires wide { IsWide self.old.areas.store arguments.0 }
        ensures told { IfOk result (λ goes. OpensArgument program.now M.choose self.old self.new
            arguments.0 place units.now goes) }
        ensures grows { OnOk result (GrowsOnce self.old self.new) }
        ensures wide { OnOk result (IsWide self.new.areas.store arguments.0) }
    {
        let Some(text) = self.open_text(program, units, false)? else {
            return Ok(false);
        };
        let kind = Kind::Ref(type_of_class(STRING));
        self.put_place(arguments, place, kind, Value::Ref(text));
        Ok(true)
    }

    // Makes the literal of a text, unless it is there; returns false where the run has ended.
    fn open_literal(&mut self, program: &Program, text: u32) -> Result<bool, NoMemory>
        requires runnable { IsRunnable program.now }
        requires text { text < length program.now.outline.texts }
        requires len_fits { length (literal_text program.now.outline text) < 2 ^ 31 }
        requires birth_fits { self.old.areas.store.births < 2 ^ 32 - 1 }
        requires budget_fits { self.old.areas.store.budget ≤ 2 ^ 27 }
        ensures told { IfOk result (λ goes.
            OpensOne program.now M.choose self.old self.new (MakeLiteral text) goes) }
        ensures grows { OnOk result (GrowsOnce self.old self.new) }
    {
        let made = self.literal_at(text);
        if made.0 != 0 {
            return Ok(true);
        }
        let units = program.text(text).as_slice();
        let Some(cell) = self.open_text(program, units, true)? else {
            return Ok(false);
        };
        self.set_literal(text, cell);
        Ok(true)
    }

    // Does one action of the start of a class; returns false where the run has ended.
    fn open_action(&mut self, program: &Program, action: StartAction) -> Result<bool, NoMemory>
        requires runnable { IsRunnable program.now }
        requires fits { StartFits program.now.outline (action_of action) }
        requires birth_fits { self.old.areas.store.births < 2 ^ 32 - 1 }
        requires budget_fits { self.old.areas.store.budget ≤ 2 ^ 27 }
        ensures told { IfOk result (λ goes.
            OpensOne program.now M.choose self.old self.new (action_of action) goes) }
        ensures grows { OnOk result (GrowsOnce self.old self.new) }
    {
        match action {
            StartAction::Start(class) => {
                self.mark_started(class);
                Ok(true)
            }
            StartAction::MakeLiteral(text) => self.open_literal(program, text),
            StartAction::SetNumber(slot, kind, value) => {
                self.set_static(slot as usize, kind, value);
                Ok(true)
            }
            StartAction::SetLiteral(slot, kind, text) => {
                let literal = self.literal_at(text);
                self.set_static(slot as usize, kind, Value::Ref(literal));
                Ok(true)
            }
        }
    }

    // Gives the static field at this place a reference, if there is that field.
    fn set_reference(&mut self, slot: usize, cell: Cell)
        ensures { self.new ≡ record self.old {
          areas = record self.old.areas {
            statics = slice_set self.old.areas.statics slot (ref cell.0);
          };
        } }
    {
        if slot < self.statics.len() {
            self.statics[slot] = Value::Ref(cell);
        }
    }

    // Makes the streams, which the first static fields get, and the array of the arguments with
    // their texts, and returns that array; none where the run has ended.
    fn open_objects(&mut self, program: &Program, args: &[Units]) -> Result<Option<Cell>, NoMemory>
        requires runnable { IsRunnable program.now }
        requires few { length args.now < 2 ^ 31 }
        requires lens_fit { AllByRecursion (λ (text : List ℕ). length text < 2 ^ 31) args.now }
        requires births_fit { self.old.areas.store.births + (length args.now + 3) < 2 ^ 32 - 1 }
        requires budget_fits { self.old.areas.store.budget ≤ 2 ^ 27 }
        ensures told { IfOk result (λ found.
            OpensObjects program.now M.choose self.old self.new args.now found) }
        ensures grows { OnOk result (GrowsBy (length args.now + 3) self.old self.new) }
    {
        let Some(out) = self.open_object(program, type_of_class(PRINT_STREAM), 0, true)? else {
            return Ok(None);
        };
        let Some(input) = self.open_object(program, type_of_class(INPUT_STREAM), 0, true)? else {
            return Ok(None);
        };
        let texts = TypeRef {
            dims: 1,
            base: Base::OfClass(STRING),
        };
        let Some(arguments) = self.open_object(program, texts, args.len() as u32, false)? else {
            return Ok(None);
        };
        if !open_arguments(self, program, arguments, args)? {
            return Ok(None);
        }
        self.set_reference(0, out);
        self.set_reference(1, input);
        Ok(Some(arguments))
    }

    // Makes these the frames.
    fn set_frames(&mut self, frames: Frames)
        ensures { self.new ≡ record self.old { frames = frames } }
    {
        self.frames = frames;
    }

    // Ends the run before main's frame is there.
    fn refuse_frames(&mut self, alloc: Global)
        ensures { self.new ≡ stopped (record self.old { frames = [] }) (end.TooDeep 1) }
    {
        self.frames = Frames::new(alloc);
        self.ended = Some(Ended::TooDeep(1));
    }

    // Starts the classes, and makes main's frame with those of the methods that start classes above it.
    fn open_main(
        &mut self,
        alloc: Global,
        program: &Program,
        classes: &[ClassId],
        arguments: Cell,
    ) -> Result<(), NoMemory>
        requires runnable { IsRunnable program.now }
        requires fits { AllByRecursion (StartFits program.now.outline)
            (start_actions program.now.outline (map (λ (c : ids.ClassId). c.0) classes.now)) }
        requires births_fit { self.old.areas.store.births
            + length (start_actions program.now.outline (map (λ (c : ids.ClassId). c.0) classes.now))
            < 2 ^ 32 - 1 }
        requires budget_fits { self.old.areas.store.budget ≤ 2 ^ 27 }
        ensures { OnOk result (OpensMain program.now M.choose self.old self.new
            (map (λ (c : ids.ClassId). c.0) classes.now) arguments.0) }
    {
        let actions = start_actions(alloc, program, classes)?;
        if !open_starts(self, program, &actions)? {
            return Ok(());
        }
        if start_count(program, classes) >= self.depth as usize {
            self.refuse_frames(alloc);
            return Ok(());
        }
        let main = program.main();
        let max_locals = max_locals_of(program, main);
        self.set_frames(Frames::of_main(alloc, main, max_locals, Value::Ref(arguments))?);
        enter_starts(self, program, classes)
    }
}

// Makes the texts of the arguments and puts them into their array; returns false where the run has
// ended.
fn open_arguments<M: Memory>(
    machine: &mut Machine<M>,
    program: &Program,
    arguments: Cell,
    args: &[Units],
) -> Result<bool, NoMemory>
    requires runnable { IsRunnable program.now }
    requires few { length args.now < 2 ^ 31 }
    requires lens_fit { AllByRecursion (λ (text : List ℕ). length text < 2 ^ 31) args.now }
    requires births_fit { machine.old.areas.store.births + length args.now < 2 ^ 32 - 1 }
    requires budget_fits { machine.old.areas.store.budget ≤ 2 ^ 27 }
    requires wide { IsWide machine.old.areas.store arguments.0 }
    ensures told { IfOk result (λ goes. OpensArguments program.now M.choose machine.old machine.new
        arguments.0 args.now goes) }
    ensures grows { OnOk result (GrowsBy (length args.now) machine.old machine.new) }
{
    for (place, text) in args.iter().enumerate() {
        if !machine.open_argument(program, arguments, place as u32, text.as_slice())? {
            return Ok(false);
        }
    }
    Ok(true)
}

// Does the actions that start classes, one after the other; returns false where the run has ended.
fn open_starts<M: Memory>(
    machine: &mut Machine<M>,
    program: &Program,
    actions: &[StartAction],
) -> Result<bool, NoMemory>
    requires runnable { IsRunnable program.now }
    requires fits { AllByRecursion (StartFits program.now.outline) (map action_of actions.now) }
    requires births_fit { machine.old.areas.store.births + length actions.now < 2 ^ 32 - 1 }
    requires budget_fits { machine.old.areas.store.budget ≤ 2 ^ 27 }
    ensures { IfOk result (λ goes. OpensAll program.now M.choose machine.old machine.new
        (map action_of actions.now) goes) }
{
    for action in actions {
        if !machine.open_action(program, *action)? {
            return Ok(false);
        }
    }
    Ok(true)
}

impl<M: Memory + Drop> Machine<M> {
    // The machine before anything is made.
    fn unopened(
        alloc: Global,
        program: &Program,
        input: &[u8],
        frames: u32,
        memory: M,
    ) -> Result<Machine<M>, NoMemory>
        ensures { IfOk result (λ machine. machine ≡ unopened program.now
            (record { arguments = []; input = input.now; depth = frames })
            (first_areas program.now.outline (M.store memory))) }
    {
        let statics = first_statics(alloc, program)?;
        let started = Row::new(alloc, program.classes())?;
        let literals = vec![in alloc; Cell(0); literal_count(program)]?;
        let input = Vec::from_slice(alloc, input)?;
        Ok(Machine {
            frames: Frames::new(alloc),
            statics,
            started,
            literals,
            input,
            taken: 0,
            memory,
            depth: frames,
            steps: 0,
            frees: 0,
            freed_words: 0,
            ended: None,
        })
    }

    /// The machine at the opening of a run of the program with these arguments and this input, in
    /// which at most `frames` frames may be, over a memory in which nothing was made. The run may
    /// have ended already.
    pub fn open(
        alloc: Global,
        program: &Program,
        args: &[Units],
        input: &[u8],
        frames: u32,
        memory: M,
    ) -> Result<Machine<M>, NoMemory>
        requires runnable { IsRunnable program.now }
        requires main_class { program.now.outline.main_class < length program.now.outline.classes }
        requires few { length args.now < 2 ^ 31 }
        requires lens_fit { AllByRecursion (λ (text : List ℕ). length text < 2 ^ 31) args.now }
        requires starts_fit { AllByRecursion (StartFits program.now.outline)
            (start_actions program.now.outline (opening_classes program.now.outline)) }
        requires births_fit { (M.store memory).births + (length args.now + 3)
            + length (start_actions program.now.outline (opening_classes program.now.outline))
            < 2 ^ 32 - 1 }
        requires budget_fits { (M.store memory).budget ≤ 2 ^ 27 }
        ensures { IfOk result (λ machine. machine ≡ (opening program.now M.choose
            (record { arguments = args.now; input = input.now; depth = frames })
            (M.store memory)).state) }
    {
        let mut machine = Machine::unopened(alloc, program, input, frames, memory)?;
        let classes = machine.classes_to_start(alloc, program, program.main_class())?;
        let Some(arguments) = machine.open_objects(program, args)? else {
            return Ok(machine);
        };
        machine.open_main(alloc, program, &classes, arguments)?;
        Ok(machine)
    }
}
