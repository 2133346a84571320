// The rows that only move words of the stack (JVMS 6.5.pop, 6.5.dup and its like, 6.5.swap).

ghost use Rattle.std.specs.Prelude.{OnOk};
ghost use Rattle.fm_code.specs.declared.instructions.Insn.TheVariants as insn;
ghost use Rattle.fm_exec.specs.Steps.{Steps};
ghost use Rattle.fm_frames.specs.NumberRows.{move_effect};
ghost use Rattle.fm_frames.specs.inner.Doings.{CanStep};

use fm_base::NoMemory;
use fm_cells::Memory;
use fm_frames::Machine;
use fm_world::Program;

/// pop. Takes no memory.
#[inline(always)]
pub fn pop<M: Memory>(machine: &mut Machine<M>, program: &Program)
    requires { CanStep program.now machine.old }
    ensures { Steps program.now M.choose machine.old machine.new (move_effect insn.Pop) }
{
    // For its clause: a program has fewer than 2^32 classes.
    let _classes = program.classes();
    machine.take(1);
}

/// pop2. Takes no memory.
#[inline(always)]
pub fn pop2<M: Memory>(machine: &mut Machine<M>, program: &Program)
    requires { CanStep program.now machine.old }
    ensures { Steps program.now M.choose machine.old machine.new (move_effect insn.Pop2) }
{
    // For its clause: a program has fewer than 2^32 classes.
    let _classes = program.classes();
    machine.take(2);
}

/// dup.
#[inline(always)]
pub fn dup<M: Memory>(machine: &mut Machine<M>, program: &Program) -> Result<(), NoMemory>
    requires { CanStep program.now machine.old }
    ensures { OnOk result (Steps program.now M.choose machine.old machine.new (move_effect insn.Dup)) }
{
    // For its clause: a program has fewer than 2^32 classes.
    let _classes = program.classes();
    let top = machine.word(0);
    machine.give_words(1, &[top, top])
}

/// dup_x1.
#[inline(always)]
pub fn dup_x1<M: Memory>(machine: &mut Machine<M>, program: &Program) -> Result<(), NoMemory>
    requires { CanStep program.now machine.old }
    ensures { OnOk result (Steps program.now M.choose machine.old machine.new (move_effect insn.DupX1)) }
{
    // For its clause: a program has fewer than 2^32 classes.
    let _classes = program.classes();
    let top = machine.word(0);
    let second = machine.word(1);
    machine.give_words(2, &[top, second, top])
}

/// dup_x2.
#[inline(always)]
pub fn dup_x2<M: Memory>(machine: &mut Machine<M>, program: &Program) -> Result<(), NoMemory>
    requires { CanStep program.now machine.old }
    ensures { OnOk result (Steps program.now M.choose machine.old machine.new (move_effect insn.DupX2)) }
{
    // For its clause: a program has fewer than 2^32 classes.
    let _classes = program.classes();
    let top = machine.word(0);
    let second = machine.word(1);
    let third = machine.word(2);
    machine.give_words(3, &[top, second, third, top])
}

/// dup2.
#[inline(always)]
pub fn dup2<M: Memory>(machine: &mut Machine<M>, program: &Program) -> Result<(), NoMemory>
    requires { CanStep program.now machine.old }
    ensures { OnOk result (Steps program.now M.choose machine.old machine.new (move_effect insn.Dup2)) }
{
    // For its clause: a program has fewer than 2^32 classes.
    let _classes = program.classes();
    let top = machine.word(0);
    let second = machine.word(1);
    machine.give_words(2, &[top, second, top, second])
}

/// dup2_x1.
#[inline(always)]
pub fn dup2_x1<M: Memory>(machine: &mut Machine<M>, program: &Program) -> Result<(), NoMemory>
    requires { CanStep program.now machine.old }
    ensures { OnOk result (Steps program.now M.choose machine.old machine.new (move_effect insn.Dup2X1)) }
{
    // For its clause: a program has fewer than 2^32 classes.
    let _classes = program.classes();
    let top = machine.word(0);
    let second = machine.word(1);
    let third = machine.word(2);
    machine.give_words(3, &[top, second, third, top, second])
}

/// dup2_x2.
#[inline(always)]
pub fn dup2_x2<M: Memory>(machine: &mut Machine<M>, program: &Program) -> Result<(), NoMemory>
    requires { CanStep program.now machine.old }
    ensures { OnOk result (Steps program.now M.choose machine.old machine.new (move_effect insn.Dup2X2)) }
{
    // For its clause: a program has fewer than 2^32 classes.
    let _classes = program.classes();
    let top = machine.word(0);
    let second = machine.word(1);
    let third = machine.word(2);
    let fourth = machine.word(3);
    machine.give_words(4, &[top, second, third, fourth, top, second])
}

/// swap.
#[inline(always)]
pub fn swap<M: Memory>(machine: &mut Machine<M>, program: &Program) -> Result<(), NoMemory>
    requires { CanStep program.now machine.old }
    ensures { OnOk result (Steps program.now M.choose machine.old machine.new (move_effect insn.Swap)) }
{
    // For its clause: a program has fewer than 2^32 classes.
    let _classes = program.classes();
    let top = machine.word(0);
    let second = machine.word(1);
    machine.give_words(2, &[second, top])
}
