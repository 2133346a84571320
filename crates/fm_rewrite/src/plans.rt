// What can be inserted into the methods of a program.

ghost use Rattle.std.specs.Prelude.{◌≡◌, ◌<◌, IfOk, Some, length};
ghost use Rattle.fm_summ_shapes.specs.Analysed.{AreAnalysable};
ghost use Rattle.fm_conn.specs.Summaries.{AreSummariesOf};
ghost use Rattle.std.specs.List.{AllByRecursion};
ghost use Rattle.fm_chain.specs.Planned.{IsSiteIn};
ghost use Rattle.fm_check.specs.Checking.{IsLeastTyping};
ghost use Rattle.fm_flow.specs.Flow.{IsFlowOf};
ghost use Rattle.fm_types.specs.Typings.{states_of};
ghost use Rattle.fm_rewrite.specs.Plans.{ArePlanned, ArePlannedBy, HasOldItems, IsChainPlan, IsFullPlan, IsPlanned, IsPlannedCode};
ghost use Rattle.fm_world.specs.Members.{methods_of};
ghost use Rattle.fm_world.specs.Programs.{code_at};

use fm_base::{MethodId, NoMemory};
use fm_chain::ChainPlan;
use fm_code::Code;
use fm_conn::{Summaries, classes};
use fm_flow::{Flow, live};
use fm_place::{Plan, places, sites};
use fm_place_weave::Planned;
use fm_summ::summaries;
use fm_summ_shapes::{Typed, shapes_of};
use fm_world::{Body, Program};
use std::alloc::Global;

/// All that can be inserted into a method with this code, its typing and its flow, as the summaries link
/// the ends of methods: a holder for each held site, freed at all its places. Takes memory for the
/// plan, and for what the analysis returns for the method.
pub fn full_plan(
    alloc: Global,
    program: &Program,
    summaries: &Summaries,
    method: MethodId,
    code: &Code,
    typed: &Typed,
) -> Result<Plan, NoMemory>
    requires analysable { AreAnalysable program.now }
    requires summaries { AreSummariesOf program.now.outline summaries.now }
    requires code { code_at program.now method.0 ≡ Some code.now }
    requires typing { IsLeastTyping program.now method.0 (states_of typed.now.typing) }
    requires flow { IsFlowOf code.now typed.now.flow }
    ensures { IfOk result (IsFullPlan program.now summaries.now method.0 code.now) }
{
    let rows = live(alloc, code)?;
    let classes = classes(
        alloc,
        program,
        method,
        &typed.typing,
        &typed.flow,
        summaries,
    )?;
    let sites = sites(alloc, program, method, &typed.typing, &classes, summaries)?;
    places(
        alloc,
        program,
        method,
        &typed.typing,
        &typed.flow,
        &rows,
        &classes,
        sites.as_slice(),
    )
}

/// What is to be done with a method that has this code: it stays as it is where no site is held, and
/// else it is woven by the plan of all that can be inserted, unless it would be too long already while
/// no branch is widened. With `chains` the holder of a site in a loop holds a chain. Takes the memory that
/// its plan takes.
pub fn planned_code(
    alloc: Global,
    program: &Program,
    summaries: &Summaries,
    method: MethodId,
    code: &Code,
    chains: bool,
) -> Result<Planned, NoMemory>
    requires analysable { AreAnalysable program.now }
    requires old { HasOldItems program.now }
    requires summaries { AreSummariesOf program.now.outline summaries.now }
    requires code { code_at program.now method.0 ≡ Some code.now }
    ensures { IfOk result (IsPlannedCode program.now summaries.now method.0 code.now chains) }
{
    let typed = Typed::of(alloc, program, method, code)?;
    let plan = full_plan(alloc, program, summaries, method, code, &typed)?;
    let held = chain_plan(alloc, code, &typed.flow, plan, chains)?;
    Ok(Planned::of(code, held))
}

/// The plan of a method with this code and its flow, with `chains` with a chain for each holder of a site in
/// a loop.
fn chain_plan(
    alloc: Global,
    code: &Code,
    flow: &Flow,
    plan: Plan,
    chains: bool,
) -> Result<ChainPlan, NoMemory>
    requires flow { IsFlowOf code.now flow.now }
    requires sites { AllByRecursion (IsSiteIn code.now plan.holders) plan.after.items }
    ensures { IfOk result (IsChainPlan code.now chains plan) }
{
    if chains {
        ChainPlan::with_chains(alloc, code, flow, plan)
    } else {
        ChainPlan::plain(alloc, plan)
    }
}

/// The same of a method that may have code: without code it stays as it is.
pub fn planned_method(
    alloc: Global,
    program: &Program,
    summaries: &Summaries,
    method: MethodId,
    chains: bool,
) -> Result<Planned, NoMemory>
    requires analysable { AreAnalysable program.now }
    requires old { HasOldItems program.now }
    requires summaries { AreSummariesOf program.now.outline summaries.now }
    requires inside { method.0 < length (methods_of program.now.outline.classes) }
    ensures { IfOk result (IsPlanned program.now summaries.now method.0 chains) }
{
    match &program.method(method).body {
        Body::Coded(code) => planned_code(alloc, program, summaries, method, code, chains),
        _ => Ok(Planned::Same),
    }
}

/// The same of all methods in their order. Takes memory for all plans but those of methods that
/// become too long, and for what the analysis returns for one method at a time.
pub fn planned_by(
    alloc: Global,
    program: &Program,
    summaries: &Summaries,
    chains: bool,
) -> Result<Vec<Planned>, NoMemory>
    requires analysable { AreAnalysable program.now }
    requires old { HasOldItems program.now }
    requires summaries { AreSummariesOf program.now.outline summaries.now }
    ensures { IfOk result (λ planned. ArePlannedBy program.now summaries.now chains planned.items) }
{
    let mut planned = Vec::new(alloc);
    for number in 0..program.methods() {
        let made = planned_method(alloc, program, summaries, MethodId(number), chains)?;
        planned.push(made)?;
    }
    Ok(planned)
}

/// What is to be done with each method of a program, by the facts of the whole program. Takes memory
/// for the shapes of all methods and the links of their ends, and for the plans.
pub fn planned_methods(
    alloc: Global,
    program: &Program,
    chains: bool,
) -> Result<Vec<Planned>, NoMemory>
    requires analysable { AreAnalysable program.now }
    requires old { HasOldItems program.now }
    ensures { IfOk result (λ planned. ArePlanned program.now chains planned.items) }
{
    let shapes = shapes_of(alloc, program)?;
    let summaries = summaries(alloc, program, shapes.as_slice())?;
    planned_by(alloc, program, &summaries, chains)
}
