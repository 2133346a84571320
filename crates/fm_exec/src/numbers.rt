// The rows of numbers (JVMS 6.5.iadd and its like). Of two operands the second one is on top.

ghost use Rattle.std.specs.Prelude.{◌≡◌, ℤ, pos, ◌-ℤ◌, FitsSigned, OnOk};
ghost use Rattle.std.specs.Int.{w32};
ghost use Rattle.fm_alu.specs.Conversions.{IsOperandOf};
ghost use Rattle.fm_alu.specs.TwosComplement.{signed};
ghost use Rattle.fm_exec.specs.Steps.{seen, Steps};
ghost use Rattle.fm_frames.specs.NumberRows.{compare_effect, convert_effect, int_converted, int_negate_effect, int_op_effect, int_shift_effect, long_negate_effect, long_op_effect, long_shift_effect};
ghost use Rattle.fm_frames.specs.inner.Doings.{CanStep};

use fm_base::NoMemory;
use fm_cells::Memory;
use fm_code::{Conv, Op, Shift};
use fm_frames::{ARITHMETIC_EXCEPTION, Machine, Value};
use fm_world::Program;

/// iadd, isub, imul, idiv, irem, iand, ior and ixor.
#[inline(always)]
pub fn int_op<M: Memory>(
    machine: &mut Machine<M>,
    program: &Program,
    op: Op,
) -> Result<(), NoMemory>
    requires { CanStep program.now machine.old }
    ensures { OnOk result (Steps program.now M.choose machine.old machine.new
        (int_op_effect program.now.outline op (seen program.now machine.old))) }
{
    let Some(b) = machine.int_operand(0) else {
        machine.stuck(program);
        return Ok(());
    };
    let Some(a) = machine.int_operand(1) else {
        machine.stuck(program);
        return Ok(());
    };
    match fm_alu::int_op(op, a, b) {
        Some(n) => machine.give(2, Value::Int(n)),
        None => machine.throw_new(program, ARITHMETIC_EXCEPTION),
    }
}

/// ladd, lsub, lmul, ldiv, lrem, land, lor and lxor.
#[inline(always)]
pub fn long_op<M: Memory>(
    machine: &mut Machine<M>,
    program: &Program,
    op: Op,
) -> Result<(), NoMemory>
    requires { CanStep program.now machine.old }
    ensures { OnOk result (Steps program.now M.choose machine.old machine.new
        (long_op_effect program.now.outline op (seen program.now machine.old))) }
{
    let Some(b) = machine.long_operand(1) else {
        machine.stuck(program);
        return Ok(());
    };
    let Some(a) = machine.long_operand(3) else {
        machine.stuck(program);
        return Ok(());
    };
    match fm_alu::long_op(op, a, b) {
        Some(n) => machine.give_wide(4, Value::Long(n)),
        None => machine.throw_new(program, ARITHMETIC_EXCEPTION),
    }
}

// An int with its sign turned; the least one is its own. Takes no memory.
#[inline(always)]
fn negated_int(a: i32) -> i32
    ensures { result ≡ signed 32 (pos 0 -ℤ a) }
{
    0_i32.wrapping_sub(a)
}

/// ineg.
#[inline(always)]
pub fn int_negate<M: Memory>(machine: &mut Machine<M>, program: &Program) -> Result<(), NoMemory>
    requires { CanStep program.now machine.old }
    ensures { OnOk result (Steps program.now M.choose machine.old machine.new
        (int_negate_effect (seen program.now machine.old))) }
{
    let Some(a) = machine.int_operand(0) else {
        machine.stuck(program);
        return Ok(());
    };
    machine.give(1, Value::Int(negated_int(a)))
}

// A long with its sign turned; the least one is its own. Takes no memory.
#[inline(always)]
fn negated_long(a: i64) -> i64
    ensures { result ≡ signed 64 (pos 0 -ℤ a) }
{
    0_i64.wrapping_sub(a)
}

/// lneg.
#[inline(always)]
pub fn long_negate<M: Memory>(machine: &mut Machine<M>, program: &Program) -> Result<(), NoMemory>
    requires { CanStep program.now machine.old }
    ensures { OnOk result (Steps program.now M.choose machine.old machine.new
        (long_negate_effect (seen program.now machine.old))) }
{
    let Some(a) = machine.long_operand(1) else {
        machine.stuck(program);
        return Ok(());
    };
    machine.give_wide(2, Value::Long(negated_long(a)))
}

/// ishl, ishr and iushr: the count is on top.
#[inline(always)]
pub fn int_shift<M: Memory>(
    machine: &mut Machine<M>,
    program: &Program,
    shift: Shift,
) -> Result<(), NoMemory>
    requires { CanStep program.now machine.old }
    ensures { OnOk result (Steps program.now M.choose machine.old machine.new
        (int_shift_effect shift (seen program.now machine.old))) }
{
    let Some(n) = machine.int_operand(0) else {
        machine.stuck(program);
        return Ok(());
    };
    let Some(a) = machine.int_operand(1) else {
        machine.stuck(program);
        return Ok(());
    };
    machine.give(2, Value::Int(fm_alu::int_shift(shift, a, n)))
}

/// lshl, lshr and lushr: the count is on top.
#[inline(always)]
pub fn long_shift<M: Memory>(
    machine: &mut Machine<M>,
    program: &Program,
    shift: Shift,
) -> Result<(), NoMemory>
    requires { CanStep program.now machine.old }
    ensures { OnOk result (Steps program.now M.choose machine.old machine.new
        (long_shift_effect shift (seen program.now machine.old))) }
{
    let Some(n) = machine.int_operand(0) else {
        machine.stuck(program);
        return Ok(());
    };
    let Some(a) = machine.long_operand(2) else {
        machine.stuck(program);
        return Ok(());
    };
    machine.give_wide(3, Value::Long(fm_alu::long_shift(shift, a, n)))
}

/// lcmp.
#[inline(always)]
pub fn long_compare<M: Memory>(machine: &mut Machine<M>, program: &Program) -> Result<(), NoMemory>
    requires { CanStep program.now machine.old }
    ensures { OnOk result (Steps program.now M.choose machine.old machine.new
        (compare_effect (seen program.now machine.old))) }
{
    let Some(b) = machine.long_operand(1) else {
        machine.stuck(program);
        return Ok(());
    };
    let Some(a) = machine.long_operand(3) else {
        machine.stuck(program);
        return Ok(());
    };
    machine.give(4, Value::Int(fm_alu::compare(a, b)))
}

// i2b, i2c and i2s, whose results are ints.
#[inline(always)]
fn convert_int<M: Memory>(
    machine: &mut Machine<M>,
    program: &Program,
    to: Conv,
) -> Result<(), NoMemory>
    requires can { CanStep program.now machine.old }
    requires is_int { (n : ℤ) → FitsSigned w32 n → IsOperandOf to n }
    ensures { OnOk result (Steps program.now M.choose machine.old machine.new
        (int_converted to (seen program.now machine.old))) }
{
    let Some(a) = machine.int_operand(0) else {
        machine.stuck(program);
        return Ok(());
    };
    let n = fm_alu::convert(to, i64::from(a));
    machine.give(1, Value::Int(n as i32))
}

// i2l.
#[inline(always)]
fn widen<M: Memory>(machine: &mut Machine<M>, program: &Program) -> Result<(), NoMemory>
    requires { CanStep program.now machine.old }
    ensures { OnOk result (Steps program.now M.choose machine.old machine.new
        (convert_effect Conv.IntToLong (seen program.now machine.old))) }
{
    let Some(a) = machine.int_operand(0) else {
        machine.stuck(program);
        return Ok(());
    };
    machine.give_wide(1, Value::Long(i64::from(a)))
}

// l2i.
#[inline(always)]
fn narrow<M: Memory>(machine: &mut Machine<M>, program: &Program) -> Result<(), NoMemory>
    requires { CanStep program.now machine.old }
    ensures { OnOk result (Steps program.now M.choose machine.old machine.new
        (convert_effect Conv.LongToInt (seen program.now machine.old))) }
{
    let Some(a) = machine.long_operand(1) else {
        machine.stuck(program);
        return Ok(());
    };
    let n = fm_alu::convert(Conv::LongToInt, a);
    machine.give(2, Value::Int(n as i32))
}

/// i2l, l2i, i2b, i2c and i2s.
#[inline(always)]
pub fn convert<M: Memory>(
    machine: &mut Machine<M>,
    program: &Program,
    to: Conv,
) -> Result<(), NoMemory>
    requires { CanStep program.now machine.old }
    ensures { OnOk result (Steps program.now M.choose machine.old machine.new
        (convert_effect to (seen program.now machine.old))) }
{
    match to {
        Conv::IntToLong => widen(machine, program),
        Conv::LongToInt => narrow(machine, program),
        Conv::IntToByte => convert_int(machine, program, Conv::IntToByte),
        Conv::IntToChar => convert_int(machine, program, Conv::IntToChar),
        Conv::IntToShort => convert_int(machine, program, Conv::IntToShort),
    }
}
