// What the items of a method lead to.

ghost use Rattle.std.specs.Prelude.{◌≡◌, ◌<◌, true, IfOk, IfSome, OnOk, Some, length};
ghost use Rattle.fm_base.specs.Rows.{has};
ghost use Rattle.fm_code.specs.Edges.{IsReachable};
ghost use Rattle.fm_conn.specs.Shapes.{HasUsesIn};
ghost use Rattle.fm_conn.specs.inner.PairLists.{method_in, IsCallIn};
ghost use Rattle.fm_flow.specs.Flow.{IsFlowOf};
ghost use Rattle.fm_rapid.specs.inner.Followed.{CanBeFollowed, HasFlow};
ghost use Rattle.fm_rapid.specs.Reach.{starts_of, AreIn};
ghost use Rattle.fm_rapid.specs.inner.Walks.{sets_of, AreFollowNeeded, AreGoneBelow, AreNeeded, Goes, IsCallFollowed, IsDone, IsFollowNeeded, IsGone, IsGoneAt, IsMadeNeeded, IsNeeded, IsWalk, LeadsInto};
ghost use Rattle.fm_world.specs.Members.{methods_of};
ghost use Rattle.fm_world.specs.Programs.{code_at};

use crate::named::{made_by, started_by};
use crate::walk::Walk;
use fm_base::{ClassId, MethodId, NoMemory, Seq};
use fm_code::{Code, Insn};
use fm_conn::AnalysedMethod;
use fm_flow::{Flow, FlowFail};
use fm_types::Typing;
use fm_world::{Body, Call, Program};
use std::alloc::Global;

impl Walk {
    /// Goes over the items of a method that is in. Takes memory for the flow of its code, and a step for
    /// each item and each edge.
    pub fn follow(
        &mut self,
        alloc: Global,
        program: &Program,
        method: MethodId,
    ) -> Result<(), NoMemory>
        requires program { CanBeFollowed program.now }
        requires walk { IsWalk program.now (sets_of self.old) }
        requires inside { method.0 < length (methods_of program.now.outline.classes) }
        requires needed { IsNeeded program.now method.0 }
        ensures goes { OnOk result (Goes program.now (sets_of self.old) (sets_of self.new)) }
        ensures done { OnOk result (IsDone program.now (sets_of self.new) method.0) }
    {
        let Body::Coded(code) = &program.method(method).body else {
            return Ok(());
        };
        let flow = flow_of(alloc, program, method, code)?;
        let typing = Typing {
            states: Seq::empty(alloc),
        };
        let at = AnalysedMethod {
            program,
            number: method,
            code,
            typing: &typing,
        };
        self.follow_items(alloc, &at, &flow)?;
        Ok(())
    }

    // The same with its flow.
    fn follow_items(
        &mut self,
        alloc: Global,
        at: &AnalysedMethod<'_>,
        flow: &Flow,
    ) -> Result<(), NoMemory>
        requires uses { HasUsesIn at.now.program.now }
        requires walk { IsWalk at.now.program.now (sets_of self.old) }
        requires inside { at.now.number.0
            < length (methods_of at.now.program.now.outline.classes) }
        requires needed { AreFollowNeeded (method_in at.now) }
        requires flow { IsFlowOf at.now.code.now flow.now }
        ensures goes { OnOk result
            (Goes at.now.program.now (sets_of self.old) (sets_of self.new)) }
        ensures gone { OnOk result (AreGoneBelow (sets_of self.new) (method_in at.now)
            (length at.now.code.now.items)) }
    {
        for item in 0..at.code.items.len() {
            self.follow_item(alloc, at, flow, item as u32)?;
        }
        Ok(())
    }

    // An item, where it is reachable.
    fn follow_item(
        &mut self,
        alloc: Global,
        at: &AnalysedMethod<'_>,
        flow: &Flow,
        item: u32,
    ) -> Result<(), NoMemory>
        requires uses { HasUsesIn at.now.program.now }
        requires walk { IsWalk at.now.program.now (sets_of self.old) }
        requires inside { at.now.number.0
            < length (methods_of at.now.program.now.outline.classes) }
        requires needed { AreFollowNeeded (method_in at.now) }
        requires flow { IsFlowOf at.now.code.now flow.now }
        requires item { item < length at.now.code.now.items }
        ensures goes { OnOk result
            (Goes at.now.program.now (sets_of self.old) (sets_of self.new)) }
        ensures gone { OnOk result (IsGoneAt (sets_of self.new) (method_in at.now) item) }
    {
        if !flow.reachable(item) {
            return Ok(());
        }
        let items = at.code.items.as_slice();
        self.follow_insn(alloc, at, &items[item as usize].insn)?;
        Ok(())
    }

    // What an instruction leads to: the class of which it makes an object, the class that it starts, and
    // its call.
    fn follow_insn(
        &mut self,
        alloc: Global,
        at: &AnalysedMethod<'_>,
        insn: &Insn,
    ) -> Result<(), NoMemory>
        requires uses { HasUsesIn at.now.program.now }
        requires walk { IsWalk at.now.program.now (sets_of self.old) }
        requires inside { at.now.number.0
            < length (methods_of at.now.program.now.outline.classes) }
        requires needed { IsFollowNeeded (method_in at.now) insn.now }
        ensures goes { OnOk result
            (Goes at.now.program.now (sets_of self.old) (sets_of self.new)) }
        ensures gone { OnOk result (IsGone (sets_of self.new) (method_in at.now) insn.now) }
    {
        let resolved = at.use_at(insn);
        let made = made_by(at.program, insn, resolved);
        self.make_if(alloc, at.program, made)?;
        let started = started_by(at.program, insn, resolved);
        self.start_if(alloc, at.program, started)?;
        let call = at.call_of(insn);
        self.follow_call_if(alloc, at.program, call)?;
        Ok(())
    }

    // Makes objects of a class, if there is one.
    fn make_if(
        &mut self,
        alloc: Global,
        program: &Program,
        class: Option<ClassId>,
    ) -> Result<(), NoMemory>
        requires walk { IsWalk program.now (sets_of self.old) }
        requires class { IfSome class (λ c. c.0 < length program.now.outline.classes) }
        requires needed { IfSome class (λ c. IsMadeNeeded program.now c.0) }
        ensures goes { OnOk result (Goes program.now (sets_of self.old) (sets_of self.new)) }
        ensures made { OnOk result (IfSome class (λ c. has self.new.made c.0 ≡ true)) }
    {
        let Some(class) = class else {
            return Ok(());
        };
        self.make(alloc, program, class)?;
        Ok(())
    }

    // Starts a class, if there is one.
    fn start_if(
        &mut self,
        alloc: Global,
        program: &Program,
        class: Option<ClassId>,
    ) -> Result<(), NoMemory>
        requires walk { IsWalk program.now (sets_of self.old) }
        requires class { IfSome class (λ c. c.0 < length program.now.outline.classes) }
        requires needed { IfSome class
            (λ c. AreNeeded program.now (starts_of program.now.outline c.0)) }
        ensures goes { OnOk result (Goes program.now (sets_of self.old) (sets_of self.new)) }
        ensures started { OnOk result (IfSome class
            (λ c. AreIn self.new.methods (starts_of program.now.outline c.0))) }
    {
        let Some(class) = class else {
            return Ok(());
        };
        self.start(alloc, program, class)?;
        Ok(())
    }

    // Follows a call, if there is one.
    fn follow_call_if(
        &mut self,
        alloc: Global,
        program: &Program,
        call: Option<Call>,
    ) -> Result<(), NoMemory>
        requires walk { IsWalk program.now (sets_of self.old) }
        requires call { IfSome call (IsCallIn program.now.outline) }
        requires needed { IfSome call (IsCallFollowed program.now) }
        ensures goes { OnOk result (Goes program.now (sets_of self.old) (sets_of self.new)) }
        ensures leads { OnOk result
            (IfSome call (λ c. LeadsInto program.now (sets_of self.new) c c.kind)) }
    {
        let Some(call) = call else {
            return Ok(());
        };
        self.follow_call(alloc, program, call)?;
        Ok(())
    }
}

// The flow of the code of a method, past whose end control never goes.
fn flow_of(
    alloc: Global,
    program: &Program,
    method: MethodId,
    code: &Code,
) -> Result<Flow, NoMemory>
    requires { HasFlow program.now method.0 code.now }
    ensures { IfOk result (IsFlowOf code.now) }
{
    match Flow::of(alloc, code) {
        Ok(flow) => Ok(flow),
        Err(FlowFail::FallsOff) => unreachable!(),
        Err(FlowFail::NoMemory) => Err(NoMemory),
    }
}
