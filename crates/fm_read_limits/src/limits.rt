// Whether the counts of a class's methods are within their limits. No call here takes memory.

ghost use Rattle.std.specs.Prelude.{◌≡◌, ◌↔◌, ◌<◌, ◌^◌, IfErr, IfSome, IsNone, IsOk, IsSomeAnd, length, slice_get, take};
ghost use Rattle.std.specs.List.{AllByRecursion};
ghost use Rattle.fm_code.specs.Fits.{CodeFits, MemberFits};
ghost use Rattle.fm_code.specs.Members.{code_of};
ghost use Rattle.fm_code.specs.Profile.{CodeIsWithin, IsFirstOver, IsFirstOverLimit, IsWithinLimits, MethodIsWithin};
ghost use Rattle.fm_code.specs.Spells.{HasSpelling};
ghost use Rattle.fm_read_limits.specs.inner.Declared.{IsOverAt};

use fm_base::limits::{MAX_HANDLERS, MAX_LOCAL_WORDS, MAX_STACK_WORDS};
use fm_code::{ClassDef, Code, Member, OverLimit, What};

/// Asks whether the counts of each method are within their limits. An error is the first method
/// with a count above its limit, and the first such count of it: max_stack before max_locals, and
/// that before the number of handlers. Some bytes have to spell the record. Takes no memory.
pub fn within_limits(class: &ClassDef) -> Result<(), OverLimit>
    requires { HasSpelling class.now }
    ensures ok { IsOk result ↔ IsWithinLimits class.now }
    ensures first { IfErr result (λ over. IsFirstOverLimit class.now over) }
{
    match first_over_limit(class.methods.as_slice()) {
        Some(over) => Err(over),
        None => Ok(()),
    }
}

/// The first count of a method that is above its limit.
fn first_over_limit(methods: &[Member]) -> Option<OverLimit>
    requires few { length methods.now < 2 ^ 16 }
    requires fit { AllByRecursion MemberFits methods.now }
    ensures none { IsNone result → AllByRecursion MethodIsWithin methods.now }
    ensures before { IfSome result
        (λ over. AllByRecursion MethodIsWithin (take over.method methods.now)) }
    ensures there { IfSome result (λ over. IsOverAt methods.now over) }
{
    let mut number = 0;
    for method in methods {
        if let Some((what, count)) = first_of_method(method) {
            return Some(OverLimit {
                what,
                method: number,
                count,
            });
        }
        number += 1;
    }
    None
}

/// The first count of a method that is above its limit.
fn first_of_method(method: &Member) -> Option<(What, u32)>
    requires { MemberFits method.now }
    ensures none { IsNone result → MethodIsWithin method.now }
    ensures some { IfSome result
        (λ over. IsSomeAnd (code_of method.now) (IsFirstOver over.0 over.1)) }
{
    match method.code() {
        Some(code) => first_of_code(code),
        None => None,
    }
}

/// The first count of a method's code that is above its limit.
fn first_of_code(code: &Code) -> Option<(What, u32)>
    requires { CodeFits code.now }
    ensures none { IsNone result → CodeIsWithin code.now }
    ensures some { IfSome result (λ over. IsFirstOver over.0 over.1 code.now) }
{
    let handlers = code.handlers.len() as u32;
    if code.max_stack > MAX_STACK_WORDS {
        Some((What::Stack, u32::from(code.max_stack)))
    } else if code.max_locals > MAX_LOCAL_WORDS {
        Some((What::Locals, u32::from(code.max_locals)))
    } else if handlers > MAX_HANDLERS {
        Some((What::Handlers, handlers))
    } else {
        None
    }
}
