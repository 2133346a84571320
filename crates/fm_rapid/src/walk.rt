// The state of the walk over methods, and its steps: methods are entered, classes are made and started,
// calls are followed.

ghost use Rattle.std.specs.Prelude.{◌≡◌, ◌<◌, true, Contains, IfOk, IfSome, IsTrue, OnOk, length};
ghost use Rattle.fm_base.specs.Rows.{has};
ghost use Rattle.fm_conn.specs.inner.PairLists.{IsCallIn};
ghost use Rattle.fm_rapid.specs.Reach.{starts_of, AreIn};
ghost use Rattle.fm_flow.specs.inner.LiveWalks.{list_of};
ghost use Rattle.fm_rapid.specs.inner.Walks.{is_concrete, sets_of, AreAbove, AreNeeded, Goes, IsCallFollowed, IsCallNeeded, IsListed, IsListedAt, IsMadeNeeded, IsNeeded, IsNew, IsReceived, IsReceiver, IsVirtualNeeded, IsWalk, LeadsInto};
ghost use Rattle.fm_summ.specs.inner.Callers.{lists_of};
ghost use Rattle.fm_world.specs.Members.{methods_of};
ghost use Rattle.fm_world.specs.Programs.{IsTypeIn};
ghost use Rattle.fm_world.specs.inner.Marks.{selected_of_arrays};

use crate::lists::{empty_lists, list_at, push_at};
use crate::named::selected_of_arrays;
use crate::selected::{is_concrete, selected_by, selected_for, starts_of};
use fm_base::{ClassId, MethodId, NoMemory, Row, TypeRef};
use fm_flow::mark;
use fm_world::{Call, CallKind, Program, class_of_type};
use std::alloc::Global;
use std::collections::BTreeMap;

/// What was found so far.
#[derive(Drop)]
pub struct Walk {
    /// The methods that are in, and those of them whose items weren't gone over.
    pub methods: Row,
    pub waiting: Vec<u32>,
    /// The classes that are made.
    pub made: Row,
    /// Classes whose start methods are in, with those of their superclasses.
    pub started: Row,
    /// For each class the methods whose virtual calls name it.
    pub called: Vec<Vec<u32>>,
    /// For each class those that are made and whose objects it takes.
    pub below: Vec<Vec<u32>>,
    // the place of a method in the list of a class: only a hint
    pub places: BTreeMap<(u32, u32), u32>,
}

impl Walk {
    /// Nothing is in.
    pub fn new(alloc: Global, program: &Program) -> Result<Walk, NoMemory>
        ensures { IfOk result (λ walk. IsNew program.now (sets_of walk)) }
    {
        let classes = program.classes();
        let methods = Row::new(alloc, program.methods())?;
        let made = Row::new(alloc, classes)?;
        let started = Row::new(alloc, classes)?;
        let called = empty_lists(alloc, classes)?;
        let below = empty_lists(alloc, classes)?;
        Ok(Walk {
            methods,
            waiting: Vec::new(alloc),
            made,
            started,
            called,
            below,
            places: BTreeMap::new(alloc),
        })
    }

    /// Lets a method in.
    pub fn enter(&mut self, program: &Program, method: MethodId) -> Result<(), NoMemory>
        requires walk { IsWalk program.now (sets_of self.old) }
        requires inside { method.0 < length (methods_of program.now.outline.classes) }
        requires needed { IsNeeded program.now method.0 }
        ensures goes { OnOk result (Goes program.now (sets_of self.old) (sets_of self.new)) }
        ensures entered { OnOk result (has self.new.methods method.0 ≡ true) }
    {
        mark(&[method.0], &mut self.methods, &mut self.waiting)?;
        Ok(())
    }

    /// Lets in what starts a class and its superclasses.
    pub fn start(
        &mut self,
        alloc: Global,
        program: &Program,
        class: ClassId,
    ) -> Result<(), NoMemory>
        requires walk { IsWalk program.now (sets_of self.old) }
        requires class { class.0 < length program.now.outline.classes }
        requires needed { AreNeeded program.now (starts_of program.now.outline class.0) }
        ensures goes { OnOk result (Goes program.now (sets_of self.old) (sets_of self.new)) }
        ensures started { OnOk result
            (AreIn self.new.methods (starts_of program.now.outline class.0)) }
    {
        if self.started.get(class.0) {
            return Ok(());
        }
        let listed = starts_of(alloc, program, class)?;
        mark(listed.as_slice(), &mut self.methods, &mut self.waiting)?;
        self.started.set(class.0);
        Ok(())
    }

    /// Makes objects of a class: what calls that take them select is let in.
    pub fn make(&mut self, alloc: Global, program: &Program, class: ClassId) -> Result<(), NoMemory>
        requires walk { IsWalk program.now (sets_of self.old) }
        requires class { class.0 < length program.now.outline.classes }
        requires needed { IsMadeNeeded program.now class.0 }
        ensures goes { OnOk result (Goes program.now (sets_of self.old) (sets_of self.new)) }
        ensures made { OnOk result (has self.new.made class.0 ≡ true) }
    {
        if self.made.get(class.0) {
            return Ok(());
        }
        self.made.set(class.0);
        if !is_concrete(program, class) {
            return Ok(());
        }
        self.receive_all(alloc, program, class)?;
        Ok(())
    }

    // Lists a class that is made at all that take its objects.
    fn receive_all(
        &mut self,
        alloc: Global,
        program: &Program,
        class: ClassId,
    ) -> Result<(), NoMemory>
        requires walk { IsWalk program.now (sets_of self.old) }
        requires class { class.0 < length program.now.outline.classes }
        requires made { has self.old.made class.0 ≡ true }
        requires concrete { is_concrete program.now.outline.classes class.0 ≡ true }
        ensures goes { OnOk result (Goes program.now (sets_of self.old) (sets_of self.new)) }
        ensures received { OnOk result (IsReceived program.now (sets_of self.new) class.0) }
    {
        let superclasses = program.display(class);
        self.receive_each(alloc, program, class, superclasses)?;
        let superinterfaces = program.interfaces(class);
        self.receive_each(alloc, program, class, superinterfaces)?;
        Ok(())
    }

    // Lists it at each of these.
    fn receive_each(
        &mut self,
        alloc: Global,
        program: &Program,
        class: ClassId,
        supers: &[u32],
    ) -> Result<(), NoMemory>
        requires walk { IsWalk program.now (sets_of self.old) }
        requires class { class.0 < length program.now.outline.classes }
        requires made { has self.old.made class.0 ≡ true }
        requires supers { AreAbove program.now.outline.classes class.0 supers.now }
        ensures goes { OnOk result (Goes program.now (sets_of self.old) (sets_of self.new)) }
        ensures listed { OnOk result
            (IsListedAt (lists_of self.new.below.items) supers.now class.0) }
    {
        for named in supers {
            self.receive(alloc, program, class, *named)?;
        }
        Ok(())
    }

    // Lists it at one of them, and lets in what calls that name this one select for it.
    fn receive(
        &mut self,
        alloc: Global,
        program: &Program,
        class: ClassId,
        named: u32,
    ) -> Result<(), NoMemory>
        requires walk { IsWalk program.now (sets_of self.old) }
        requires class { class.0 < length program.now.outline.classes }
        requires named { named < length program.now.outline.classes }
        requires made { has self.old.made class.0 ≡ true }
        requires receives { IsReceiver program.now.outline.classes named class.0 }
        ensures goes { OnOk result (Goes program.now (sets_of self.old) (sets_of self.new)) }
        ensures listed { OnOk result (Contains (list_of (lists_of self.new.below.items) named) class.0) }
    {
        let listed = selected_by(
            alloc,
            program,
            class,
            list_at(self.called.as_slice(), named),
        )?;
        mark(listed.as_slice(), &mut self.methods, &mut self.waiting)?;
        push_at(&mut self.below, named, class.0)?;
        Ok(())
    }

    /// Follows a call: its targets are let in, and more later if more classes are made.
    pub fn follow_call(
        &mut self,
        alloc: Global,
        program: &Program,
        call: Call,
    ) -> Result<(), NoMemory>
        requires walk { IsWalk program.now (sets_of self.old) }
        requires call { IsCallIn program.now.outline call }
        requires needed { IsCallFollowed program.now call }
        ensures goes { OnOk result (Goes program.now (sets_of self.old) (sets_of self.new)) }
        ensures leads { OnOk result
            (LeadsInto program.now (sets_of self.new) call call.kind) }
    {
        match call.kind {
            CallKind::Static => self.enter(program, call.method),
            CallKind::Special => {
                let target = program.special_target(call.caller, call.named, call.method);
                self.enter(program, target)
            }
            CallKind::Virtual | CallKind::Interface => {
                self.follow_virtual(alloc, program, call.named, call.method)
            }
        }
    }

    // The same of a virtual call that names a type.
    fn follow_virtual(
        &mut self,
        alloc: Global,
        program: &Program,
        named: TypeRef,
        method: MethodId,
    ) -> Result<(), NoMemory>
        requires walk { IsWalk program.now (sets_of self.old) }
        requires named { IsTypeIn program.now.outline.classes named }
        requires method { method.0 < length (methods_of program.now.outline.classes) }
        requires needed { IsVirtualNeeded program.now named method.0 }
        ensures goes { OnOk result (Goes program.now (sets_of self.old) (sets_of self.new)) }
        ensures listed { OnOk result
            (IsListed program.now (sets_of self.new) named method.0) }
    {
        self.follow_arrays(program, named, method)?;
        let Some(class) = class_of_type(named) else {
            return Ok(());
        };
        self.list_call(alloc, program, class, method)?;
        Ok(())
    }

    // Lets in what it selects for arrays.
    fn follow_arrays(
        &mut self,
        program: &Program,
        named: TypeRef,
        method: MethodId,
    ) -> Result<(), NoMemory>
        requires walk { IsWalk program.now (sets_of self.old) }
        requires named { IsTypeIn program.now.outline.classes named }
        requires method { method.0 < length (methods_of program.now.outline.classes) }
        requires needed { AreNeeded program.now (selected_of_arrays program.now named method.0) }
        ensures goes { OnOk result (Goes program.now (sets_of self.old) (sets_of self.new)) }
        ensures arrays { OnOk result
            (AreIn self.new.methods (selected_of_arrays program.now named method.0)) }
    {
        let Some(found) = selected_of_arrays(program, named, method) else {
            return Ok(());
        };
        self.enter(program, found)?;
        Ok(())
    }

    // Lists a method whose virtual call names a class, and lets in what is selected for the classes that
    // are made.
    fn list_call(
        &mut self,
        alloc: Global,
        program: &Program,
        named: ClassId,
        method: MethodId,
    ) -> Result<(), NoMemory>
        requires walk { IsWalk program.now (sets_of self.old) }
        requires named { named.0 < length program.now.outline.classes }
        requires method { method.0 < length (methods_of program.now.outline.classes) }
        requires needed { IsCallNeeded program.now named.0 method.0 }
        ensures goes { OnOk result (Goes program.now (sets_of self.old) (sets_of self.new)) }
        ensures listed { OnOk result (Contains (list_of (lists_of self.new.called.items) named.0) method.0) }
    {
        if self.is_listed(named.0, method.0) {
            return Ok(());
        }
        let below = list_at(self.below.as_slice(), named.0);
        let listed = selected_for(alloc, program, below, method)?;
        mark(listed.as_slice(), &mut self.methods, &mut self.waiting)?;
        let called = list_at(self.called.as_slice(), named.0);
        let Ok(place) = u32::try_from(called.len()) else {
            return Err(NoMemory);
        };
        self.places.insert((named.0, method.0), place)?;
        push_at(&mut self.called, named.0, method.0)?;
        Ok(())
    }

    // Whether the method is listed at the class.
    fn is_listed(&self, named: u32, method: u32) -> bool
        requires { named < length (lists_of self.now.called.items) }
        ensures { IsTrue result → Contains (list_of (lists_of self.now.called.items) named) method }
    {
        let Some(place) = self.places.get(&(named, method)) else {
            return false;
        };
        let listed = list_at(self.called.as_slice(), named);
        match listed.get(*place as usize) {
            Some(one) => *one == method,
            None => false,
        }
    }
}
