// What is inserted into a method, chains too.

ghost use Rattle.std.specs.Prelude.{◌≡◌, ◌≤◌, IfOk, false, length, replicate};
ghost use Rattle.std.specs.List.{AllByRecursion};
ghost use Rattle.fm_chain.specs.Planned.{IsSiteIn, chain_flags, flags_with};
ghost use Rattle.fm_flow.specs.Flow.{IsFlowOf};

use crate::loops::looped;
use fm_base::{NoMemory, Row};
use fm_code::Code;
use fm_flow::Flow;
use fm_place::{Plan, set_if};
use std::alloc::Global;

/// What is inserted into a method, and which of its holders hold chains.
#[derive(Debug, Drop)]
pub struct ChainPlan {
    pub plan: Plan,
    /// For each holder, by its number, whether it holds a chain.
    pub looped: Row,
}

impl ChainPlan {
    ghost use Rattle.fm_chain.specs.Planned.{added_words, has_chain};

    /// The plan, where no holder holds a chain. Takes memory for a bit for each holder.
    pub fn plain(alloc: Global, plan: Plan) -> Result<ChainPlan, NoMemory>
        ensures plan { IfOk result (λ made. made.plan ≡ plan) }
        ensures flags { IfOk result (λ made. made.looped ≡ replicate plan.holders false) }
    {
        let looped = Row::new(alloc, u32::from(plan.holders))?;
        Ok(ChainPlan { plan, looped })
    }

    /// The plan of a method with this code and its flow, where the holders of sites in loops hold chains.
    /// Takes at most one step for each held site and edge, and memory for a bit for each item.
    pub fn with_chains(
        alloc: Global,
        code: &Code,
        flow: &Flow,
        plan: Plan,
    ) -> Result<ChainPlan, NoMemory>
        requires flow { IsFlowOf code.now flow.now }
        requires sites { AllByRecursion (IsSiteIn code.now plan.holders) plan.after.items }
        ensures plan { IfOk result (λ made. made.plan ≡ plan) }
        ensures flags { IfOk result (λ made. made.looped ≡ chain_flags code.now plan) }
    {
        let looped = looped_row(alloc, code, flow, plan.holders, plan.after.as_slice())?;
        Ok(ChainPlan { plan, looped })
    }

    /// Whether a holder holds a chain.
    pub fn has_chain(&self) -> bool
        requires { self.now.plan.holders ≤ length self.now.looped }
        ensures { result ≡ has_chain self.now }
    {
        for holder in 0..self.plan.holders {
            if self.looped.get(u32::from(holder)) {
                return true;
            }
        }
        false
    }

    /// How many words of stack what is inserted takes at most.
    pub fn added_words(&self) -> u16
        requires { self.now.plan.holders ≤ length self.now.looped }
        ensures is { result ≡ added_words self.now }
        ensures few { result ≤ 2 }
    {
        if self.has_chain() { 2 } else { 1 }
    }
}

// For each of this many holders, whether its site is one of these and lies in a loop.
fn looped_row(
    alloc: Global,
    code: &Code,
    flow: &Flow,
    holders: u16,
    after: &[(u32, u16)],
) -> Result<Row, NoMemory>
    requires flow { IsFlowOf code.now flow.now }
    requires sites { AllByRecursion (IsSiteIn code.now holders) after.now }
    ensures { IfOk result (λ row. row ≡ flags_with code.now (replicate holders false) after.now) }
{
    let mut row = Row::new(alloc, u32::from(holders))?;
    for pair in after {
        set_if(
            &mut row,
            u32::from(pair.1),
            looped(alloc, code, flow, pair.0)?,
        );
    }
    Ok(row)
}
