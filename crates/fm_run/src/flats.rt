// Runs of simple instructions over frames that are taken out of the machine.
//
// The frames lie in a local whose address goes to no call that isn't in line, so that what each
// step changes stays in registers; and the loop is in the function that has the match.

ghost use Rattle.std.specs.Prelude.{◌≡◌, ◌+◌, ◌<◌, ◌≤◌, ◌^◌, length, slice_get, IfSome, None, Some, true, false};
ghost use Rattle.fm_fast.specs.Flows.{resumed};
ghost use Rattle.fm_fast.specs.Operands.{AsksOf};
ghost use Rattle.fm_frames.specs.inner.Doings.{NextFits};
ghost use Rattle.fm_law_can_step.specs.Ready.{CanRun};
ghost use Rattle.fm_run.specs.inner.Flats.{FlowsNext, method_in, WentOn};
ghost use Rattle.fm_run.specs.inner.Going.{Keeps, LeadsQuietly};
ghost use Rattle.fm_run.specs.inner.Quicks.{AreNextQuicks, IsQuickNext, codes_of};
ghost use Rattle.fm_world.specs.Members.{methods_of};

use crate::called::{do_call, do_out_of_line};
use crate::indexed::number;
use crate::names::{code_in, insn_in};
use crate::quick::Quick;
use crate::quick_codes::QuickCodes;
use crate::quick_rows::{
    do_array_load, do_array_store, do_cast, do_field, do_goto, do_if_int, do_if_pair, do_int_op,
    do_load, do_simple, do_store,
};
use crate::straight::{done, next_item, reach_after, straight_reach};
use fm_base::MethodId;
use fm_cells::Memory;
use fm_code::Insn;
use fm_fast as rows;
use fm_frames::{Frames, Machine};
use fm_world::Program;
use std::alloc::Global;

// The quick code of an item that is there.
#[inline(always)]
fn quick_among(quicks: &[Quick], item: usize) -> &Quick
    requires { item < length quicks.now }
    ensures { slice_get quicks.now item ≡ Some result.now }
{
    &quicks[item]
}

// The method of the topmost frame of frames that are taken out of a machine, and the quick code of its next
// instruction; none where there are no frames.
#[inline(always)]
fn next_in<'a, M: Memory>(
    machine: &Machine<M>,
    frames: &Frames,
    counted: u64,
    program: &Program,
    quicks: &'a [Quick],
    steps: u64,
) -> Option<(MethodId, &'a Quick)>
    requires run { CanRun program.now }
    requires few { steps < 2 ^ 64 }
    requires keeps { Keeps program.now steps (resumed machine.now frames.now counted) }
    requires on { machine.now.ended ≡ None }
    requires within { counted < steps }
    requires quicks { AreNextQuicks program.now frames.now quicks.now }
    ensures fits { IfSome result (λ next. NextFits frames.now) }
    ensures method { IfSome result (λ next. method_in frames.now ≡ Some next.0.0) }
    ensures next { IfSome result (λ next. IsQuickNext program.now steps
        (resumed machine.now frames.now counted) next.0.0 next.1.now) }
{
    let Some(place) = frames.topmost() else {
        return None;
    };
    Some((place.method, quick_among(quicks, place.item)))
}

// The quick code of the method that the topmost frame is in; none where there are no frames.
#[inline(always)]
fn quicks_next<'a>(program: &Program, codes: &'a QuickCodes, frames: &Frames) -> Option<&'a [Quick]>
    requires { codes.now ≡ codes_of program.now }
    ensures { IfSome result (λ quicks. AreNextQuicks program.now frames.now quicks.now) }
{
    let Some(place) = frames.topmost() else {
        return None;
    };
    let Some(quicks) = codes.quicks(place.method) else {
        return None;
    };
    Some(quicks)
}

// Whether the topmost frame is in this method.
#[inline(always)]
fn is_in(frames: &Frames, method: MethodId) -> bool
    ensures { result ≡ true → method_in frames.now ≡ Some method.0 }
{
    match frames.topmost() {
        Some(place) => place.method == method,
        None => false,
    }
}

// Does the instruction, if it is one of the other simple ones over only frames; returns whether it
// was done.
#[inline(always)]
fn do_other(frames: &mut Frames, program: &Program, method: MethodId, insn: &Insn) -> bool
    requires fits { NextFits frames.old }
    requires method { method.0 < length (methods_of program.now.outline.classes) }
    requires asks { AsksOf insn.now frames.old }
    ensures did { result ≡ true → FlowsNext program.now method.0 frames.old frames.new insn.now }
    ensures same { result ≡ false → frames.new ≡ frames.old }
{
    match insn {
        Insn::Null => rows::null(frames),
        Insn::LoadPool(index) => number(frames, program, method, *index),
        Insn::IntShift(shift) => rows::int_shift(frames, *shift),
        Insn::LongConst(n) => rows::long_constant(frames, *n),
        Insn::LongOp(op) => rows::long_op(frames, *op),
        Insn::LongShift(shift) => rows::long_shift(frames, *shift),
        Insn::LongCompare => rows::long_compare(frames),
        Insn::IntNeg => rows::int_negate(frames),
        Insn::LongNeg => rows::long_negate(frames),
        Insn::Convert(to) => rows::convert(frames, *to),
        Insn::IfSame(same, target) => rows::if_same(frames, *same, *target),
        Insn::IfNull(null, target) => rows::if_null(frames, *null, *target),
        Insn::Table(low, others, targets) => {
            rows::table_switch(frames, *low, *others, targets.as_slice())
        }
        Insn::Lookup(others, keys, targets) => {
            let keys = keys.as_slice();
            rows::lookup_switch(frames, *others, keys, targets.as_slice())
        }
        Insn::Dup2 => rows::dup2(frames),
        Insn::Pop => {
            rows::pop(frames);
            true
        }
        Insn::Pop2 => {
            rows::pop2(frames);
            true
        }
        _ => false,
    }
}

// Whether an instruction that was done jumped: another item than this one is next.
#[inline(always)]
fn jumps(did: bool, frames: &Frames, after: usize) -> bool
    ensures { result ≡ true → did ≡ true }
{
    did && next_item(frames) != after
}

// Does the simple instructions, calls and returns that come next over frames that are taken out, as far as the
// budget of steps allows; gives the frames again, with how many steps are done then.
fn flow<M: Memory>(
    machine: &mut Machine<M>,
    taken: Frames,
    before: u64,
    program: &Program,
    codes: &QuickCodes,
    first: &[Quick],
    steps: u64,
) -> (Frames, u64)
    requires run { CanRun program.now }
    requires codes { codes.now ≡ codes_of program.now }
    requires quicks { AreNextQuicks program.now taken first.now }
    requires few { steps < 2 ^ 32 }
    requires keeps { Keeps program.now steps (resumed machine.old taken before) }
    requires on { machine.old.ended ≡ None }
    requires within { before < steps }
    ensures went { WentOn program.now M.choose steps (resumed machine.old taken before)
        (resumed machine.new result.0 result.1) }
    ensures more { before ≤ result.1 }
{
    let mut quicks = first;
    let mut frames = taken;
    let mut reach = straight_reach(before, &frames);
    if reach > steps {
        return (frames, before);
    }
    'straight: loop {
        let counted = done(reach, &frames);
        let next = next_in(machine, &frames, counted, program, quicks, steps);
        let Some((method, quick)) = next else {
            return (frames, counted);
        };
        let item = next_item(&frames);
        let after = item + 1;
        // For clauses: the store is sound, and the memory's choices are lawful.
        let _lawful = machine.births();
        let did = 'done: {
            let jumping = match quick {
                Quick::Iload(_) | Quick::Lload(_) | Quick::Aload(_) => {
                    break 'done do_load(&mut frames, quick);
                }
                Quick::Istore(_) | Quick::Lstore(_) | Quick::Astore(_) => {
                    break 'done do_store(&mut frames, quick);
                }
                Quick::Iconst(_) | Quick::Iinc(_, _) | Quick::Dup => {
                    break 'done do_simple(&mut frames, quick);
                }
                Quick::Iadd
                | Quick::Isub
                | Quick::Imul
                | Quick::Idiv
                | Quick::Irem
                | Quick::Iand
                | Quick::Ior
                | Quick::Ixor => {
                    break 'done do_int_op(&mut frames, quick);
                }
                Quick::Baload
                | Quick::Caload
                | Quick::Saload
                | Quick::Iaload
                | Quick::Laload
                | Quick::Aaload
                | Quick::Arraylength => {
                    break 'done do_array_load(
                        machine,
                        &mut frames,
                        counted,
                        program,
                        method,
                        quick,
                        steps,
                    );
                }
                Quick::Bastore
                | Quick::Castore
                | Quick::Sastore
                | Quick::Iastore
                | Quick::Lastore => {
                    break 'done do_array_store(
                        machine,
                        &mut frames,
                        counted,
                        program,
                        method,
                        quick,
                        steps,
                    );
                }
                Quick::Getfield(_)
                | Quick::Putfield(_)
                | Quick::Getstatic(_)
                | Quick::GetfieldInt(_, _)
                | Quick::GetfieldRef(_, _)
                | Quick::PutfieldInt(_, _)
                | Quick::PutfieldRef(_, _)
                | Quick::GetstaticInt(_, _)
                | Quick::GetstaticRef(_, _) => {
                    break 'done do_field(
                        machine,
                        &mut frames,
                        counted,
                        program,
                        method,
                        quick,
                        steps,
                    );
                }
                Quick::Checkcast(_) => {
                    break 'done do_cast(
                        machine,
                        &mut frames,
                        counted,
                        program,
                        method,
                        quick,
                        steps,
                    );
                }
                Quick::Invokevirtual(_, _, _)
                | Quick::Invokespecial(_, _)
                | Quick::Invokestatic(_, _)
                | Quick::Invokeinterface(_)
                | Quick::Return
                | Quick::Ireturn
                | Quick::Lreturn
                | Quick::Areturn => {
                    let called = do_call(
                        machine,
                        &mut frames,
                        counted,
                        program,
                        method,
                        quick,
                        steps,
                    );
                    if !called {
                        return (frames, counted);
                    }
                    let Some(coming) = quicks_next(program, codes, &frames) else {
                        return (frames, counted + 1);
                    };
                    let reached = reach_after(reach, item, counted, &frames);
                    if reached > steps {
                        return (frames, counted + 1);
                    }
                    quicks = coming;
                    reach = reached;
                    continue 'straight;
                }
                Quick::Ifeq(_)
                | Quick::Ifne(_)
                | Quick::Iflt(_)
                | Quick::Ifge(_)
                | Quick::Ifgt(_)
                | Quick::Ifle(_) => do_if_int(&mut frames, quick),
                Quick::IfIcmpeq(_)
                | Quick::IfIcmpne(_)
                | Quick::IfIcmplt(_)
                | Quick::IfIcmpge(_)
                | Quick::IfIcmpgt(_)
                | Quick::IfIcmple(_) => do_if_pair(&mut frames, quick),
                Quick::Goto(_) => do_goto(&mut frames, quick),
                Quick::Other => {
                    let insn = insn_in(code_in(program, method), item);
                    do_other(&mut frames, program, method, insn)
                }
            };
            if jumps(jumping, &frames, after) {
                let stays = is_in(&frames, method);
                if !stays {
                    return (frames, counted + 1);
                }
                reach = reach_after(reach, item, counted, &frames);
                if reach > steps {
                    return (frames, counted + 1);
                }
                continue 'straight;
            }
            jumping
        };
        let _births = machine.births();
        if !did {
            return (frames, counted);
        }
        // Each of them stays in its method, and each that jumps has gone on from its arm, which LLVM sees: so
        // nothing is left of these tests.
        let stayed = is_in(&frames, method);
        if !stayed {
            return (frames, counted + 1);
        }
        let place = next_item(&frames);
        if place != after {
            return (frames, counted + 1);
        }
    }
}

// Does the next instruction, if it is one that is done out of line; returns whether it was done.
#[inline(never)]
fn do_next_out_of_line<M: Memory>(
    machine: &mut Machine<M>,
    frames: &mut Frames,
    counted: u64,
    program: &Program,
    codes: &QuickCodes,
    steps: u64,
) -> bool
    requires run { CanRun program.now }
    requires codes { codes.now ≡ codes_of program.now }
    requires few { steps < 2 ^ 64 }
    requires keeps { Keeps program.now steps (resumed machine.old frames.old counted) }
    requires on { machine.old.ended ≡ None }
    requires within { counted < steps }
    ensures did { result ≡ true → WentOn program.now M.choose steps
        (resumed machine.old frames.old counted) (resumed machine.new frames.new (counted + 1)) }
    ensures same { result ≡ false → frames.new ≡ frames.old }
    ensures kept { result ≡ false → machine.new ≡ machine.old }
{
    let Some(quicks) = quicks_next(program, codes, frames) else {
        return false;
    };
    let next = next_in(machine, frames, counted, program, quicks, steps);
    let Some((method, _)) = next else {
        return false;
    };
    let insn = insn_in(code_in(program, method), next_item(frames));
    let did = do_out_of_line(machine, frames, counted, program, method, insn, steps);
    // For its clauses: the store is sound, and the memory's choices are lawful.
    let _births = machine.births();
    did
}

// Does the simple instructions, calls and returns that come next, as far as the budget of steps allows.
#[inline(never)]
pub(crate) fn do_flat_ones<M: Memory>(
    alloc: Global,
    machine: &mut Machine<M>,
    program: &Program,
    codes: &QuickCodes,
    steps: u64,
)
    requires run { CanRun program.now }
    requires codes { codes.now ≡ codes_of program.now }
    requires few { steps < 2 ^ 32 }
    requires keeps { Keeps program.now steps machine.old }
    ensures { LeadsQuietly program.now M.choose steps machine.old machine.new }
{
    if machine.end().is_some() {
        return;
    }
    let mut counted = machine.steps();
    let mut frames = machine.take_frames(alloc);
    while counted < steps {
        let Some(quicks) = quicks_next(program, codes, &frames) else {
            break;
        };
        let flowed = flow(machine, frames, counted, program, codes, quicks, steps);
        frames = flowed.0;
        counted = flowed.1;
        if counted >= steps {
            break;
        }
        let did = do_next_out_of_line(machine, &mut frames, counted, program, codes, steps);
        if !did {
            break;
        }
        counted += 1;
    }
    machine.put_frames(frames, counted);
}
