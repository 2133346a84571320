// The quick code of each method of a program: one for each item.

ghost use Rattle.std.specs.Prelude.{◌≡◌, ◌<◌, IfOk, length, option_copied, slice_get};
ghost use Rattle.fm_frames.specs.Runnable.{IsRunnable};
ghost use Rattle.fm_run.specs.inner.Quicks.{codes_of, quicks_for, quicks_in};
ghost use Rattle.fm_world.specs.Members.{methods_of};
ghost use Rattle.fm_world.specs.Programs.{code_at};

use crate::quick::{Quick, quick_of};
use fm_base::{MethodId, NoMemory, Seq};
use fm_code::Item;
use fm_frames::code_of;
use fm_world::Program;
use std::alloc::Global;
use std::marker::Model;

// The quick codes of the methods, in their order; none of a method without code.
#[derive(Drop)]
pub(crate) struct QuickCodes {
    codes: Vec<Seq<Quick>>,
}

impl Model for QuickCodes {
    ghost use Rattle.std.specs.Prelude.{List};
    ghost use Rattle.fm_run.specs.declared.quick.Quick.{Quick};

    ghost Value = { List (List Quick) };

    ghost view = { λ q. q.codes.items };
}

impl QuickCodes {
    // Those of a program.
    pub(crate) fn of(alloc: Global, program: &Program) -> Result<QuickCodes, NoMemory>
        requires runnable { IsRunnable program.now }
        ensures { IfOk result (λ codes. codes ≡ codes_of program.now) }
    {
        let mut codes = Vec::new(alloc);
        for number in 0..program.methods() {
            let quicks = quicks_of(alloc, program, MethodId(number))?;
            codes.push(quicks)?;
        }
        Ok(QuickCodes { codes })
    }

    // That of a method, if there is that method.
    #[inline(always)]
    pub(crate) fn quicks(&self, method: MethodId) -> Option<&[Quick]>
        ensures { option_copied result ≡ slice_get self.now method.0 }
    {
        match self.codes.get(method.0 as usize) {
            Some(quicks) => Some(quicks.as_slice()),
            None => None,
        }
    }
}

// The quick code of a method.
fn quicks_of(alloc: Global, program: &Program, method: MethodId) -> Result<Seq<Quick>, NoMemory>
    requires runnable { IsRunnable program.now }
    requires method { method.0 < length (methods_of program.now.outline.classes) }
    ensures { IfOk result (λ quicks. quicks ≡ quicks_in program.now method.0
        (code_at program.now method.0)) }
{
    match code_of(program, method) {
        Some(code) => quicks_in(alloc, program, method, code.items.as_slice()),
        None => Ok(Seq::empty(alloc)),
    }
}

// One for each item.
fn quicks_in(
    alloc: Global,
    program: &Program,
    method: MethodId,
    items: &[Item],
) -> Result<Seq<Quick>, NoMemory>
    requires runnable { IsRunnable program.now }
    requires method { method.0 < length (methods_of program.now.outline.classes) }
    ensures { IfOk result (λ quicks. quicks ≡ quicks_for program.now method.0 items.now) }
{
    let mut quicks = Vec::new(alloc);
    for item in items {
        quicks.push(quick_of(program, method, &item.insn))?;
    }
    Ok(Seq::new(quicks))
}
