// Whether there is room for what is woven: on the stacks of methods, and for the pairs of plans.

ghost use Rattle.std.specs.Prelude.{◌≡◌, length};
ghost use Rattle.fm_audit_classes.specs.inner.Low.{are_low, is_low, is_low_code};

use fm_code::{Code, Member};
use fm_place::Plan;
use fm_place_weave::Planned;

/// The most words of a stack that may have one more.
const MAX_WOVEN_STACK_WORDS: u16 = 1_023;

/// The most pairs of an item and a holder. Each makes an item of new code, which has no more bytes.
const MAX_PAIRS: usize = 65_535;

/// Whether there is room in all these methods, by what is to be done with each.
pub(crate) fn are_low(planned: &[Planned], methods: &[Member]) -> bool
    requires { length planned.now ≡ length methods.now }
    ensures { result ≡ are_low planned.now methods.now }
{
    for place in 0..methods.len() {
        if !is_low(&planned[place], &methods[place]) {
            return false;
        }
    }
    true
}

/// The same of one method.
fn is_low(planned: &Planned, method: &Member) -> bool
    ensures { result ≡ is_low planned.now method.now }
{
    match planned {
        Planned::Woven(plan) => match method.code() {
            Some(code) => is_low_code(code, &plan.plan),
            None => true,
        },
        Planned::Same | Planned::TooLong(..) => true,
    }
}

/// Whether the stack of a code may have one more word, and its plan has so few pairs.
pub(crate) fn is_low_code(code: &Code, plan: &Plan) -> bool
    ensures { result ≡ is_low_code code.now plan.now }
{
    if code.max_stack > MAX_WOVEN_STACK_WORDS {
        return false;
    }
    if plan.before.len() > MAX_PAIRS {
        return false;
    }
    !(plan.after.len() > MAX_PAIRS)
}
