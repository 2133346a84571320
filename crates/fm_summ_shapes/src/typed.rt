// The least typing of a method, with the flow of its code.

ghost use Rattle.std.specs.Prelude.{◌≡◌, IfOk, IsSome, Some};
ghost use Rattle.fm_summ_shapes.specs.Analysed.{AreAnalysable};
ghost use Rattle.fm_check.specs.Checking.{IsLeastTyping};
ghost use Rattle.fm_flow.specs.Flow.{IsFlowOf};
ghost use Rattle.fm_types.specs.Typings.{states_of};
ghost use Rattle.fm_world.specs.Programs.{code_at};

use fm_base::{MethodId, NoMemory};
use fm_check::{CheckFail, check};
use fm_code::Code;
use fm_flow::{Flow, FlowFail};
use fm_types::Typing;
use fm_world::Program;
use std::alloc::Global;

/// The least typing of a method, and the flow of its code.
#[derive(Debug, Drop)]
pub struct Typed {
    pub typing: Typing,
    pub flow: Flow,
}

impl Typed {
    /// Of a method with this code. Takes memory for a state of each reachable item, and for the edges.
    pub fn of(
        alloc: Global,
        program: &Program,
        method: MethodId,
        code: &Code,
    ) -> Result<Typed, NoMemory>
        requires analysable { AreAnalysable program.now }
        requires code { code_at program.now method.0 ≡ Some code.now }
        ensures typing { IfOk result
            (λ typed. IsLeastTyping program.now method.0 (states_of typed.typing)) }
        ensures flow { IfOk result (λ typed. IsFlowOf code.now typed.flow) }
    {
        let flow = flow_of(alloc, program, method, code)?;
        let typing = typing_of(alloc, program, method)?;
        Ok(Typed { typing, flow })
    }
}

// The flow of the code, past whose end control never goes.
fn flow_of(
    alloc: Global,
    program: &Program,
    method: MethodId,
    code: &Code,
) -> Result<Flow, NoMemory>
    requires analysable { AreAnalysable program.now }
    requires code { code_at program.now method.0 ≡ Some code.now }
    ensures { IfOk result (IsFlowOf code.now) }
{
    match Flow::of(alloc, code) {
        Ok(flow) => Ok(flow),
        Err(FlowFail::FallsOff) => unreachable!(),
        Err(FlowFail::NoMemory) => Err(NoMemory),
    }
}

// The least typing of the method, which is typed.
fn typing_of(alloc: Global, program: &Program, method: MethodId) -> Result<Typing, NoMemory>
    requires analysable { AreAnalysable program.now }
    requires coded { IsSome (code_at program.now method.0) }
    ensures { IfOk result
        (λ typing. IsLeastTyping program.now method.0 (states_of typing)) }
{
    match check(alloc, program, method) {
        Ok(typing) => Ok(typing),
        Err(CheckFail::TooWide(_)) => unreachable!(),
        Err(CheckFail::NotTyped) => unreachable!(),
        Err(CheckFail::NoMemory) => Err(NoMemory),
    }
}
