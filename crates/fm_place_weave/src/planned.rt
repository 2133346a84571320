// What is to be done with a method.

ghost use Rattle.std.specs.Prelude.{◌≡◌, ◌<◌, ◌^◌, length};
ghost use Rattle.fm_layout.specs.inner.Weights.{AreShort};
ghost use Rattle.fm_place_weave.specs.ByPlan.{narrow_by, planned_by};
ghost use Rattle.fm_place_weave.specs.Conditions.{HasRoom};

use crate::counting::narrow_length;
use fm_chain::ChainPlan;
use fm_code::{Code, MAX_CODE_BYTES};

/// What is to be done with a method.
#[derive(Debug, Drop)]
pub enum Planned {
    /// It stays as it is.
    Same,
    /// It is woven by this plan.
    Woven(ChainPlan),
    /// It would have this many bytes of code already while no branch is widened, which are too
    /// many; and whether a holder would hold a chain.
    TooLong(u32, bool),
}

impl Planned {
    /// By the plan of a method with this code. Takes no memory.
    pub fn of(code: &Code, plan: ChainPlan) -> Planned
        requires room { HasRoom code.now plan }
        requires short { AreShort code.now.items }
        requires few { length code.now.items < 2 ^ 32 }
        requires fits { narrow_by code.now plan < 2 ^ 32 }
        ensures { result ≡ planned_by code.now plan }
    {
        if plan.plan.holders == 0 {
            return Planned::Same;
        }
        let narrow = narrow_length(code, &plan);
        if narrow > MAX_CODE_BYTES {
            Planned::TooLong(narrow, plan.has_chain())
        } else {
            Planned::Woven(plan)
        }
    }
}
