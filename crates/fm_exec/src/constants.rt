// The rows of constants (JVMS 6.5.aconst_null, 6.5.bipush and its like, 6.5.ldc).

ghost use Rattle.std.specs.Prelude.{◌<◌, ◌^◌, length, OnOk, []};
ghost use Rattle.std.specs.List.{All};
ghost use Rattle.fm_exec.specs.Steps.{Steps};
ghost use Rattle.fm_frames.specs.Acts.{name_numbered};
ghost use Rattle.fm_frames.specs.Effects.{int_word, long_words, null_word, words};
ghost use Rattle.fm_frames.specs.Literals.{class_literal};
ghost use Rattle.fm_frames.specs.NumberRows.{constant_effect};
ghost use Rattle.fm_frames.specs.inner.Doings.{CanStep};
ghost use Rattle.fm_world.specs.declared.uses.Use.TheVariants as used;

use fm_base::{NoMemory, TypeId};
use fm_cells::{Cell, Memory};
use fm_frames::{Machine, Value};
use fm_world::Program;
use std::alloc::Global;

/// nop. Takes no memory.
#[inline(always)]
pub fn nop<M: Memory>(machine: &mut Machine<M>, program: &Program)
    requires { CanStep program.now machine.old }
    ensures { Steps program.now M.choose machine.old machine.new (words 0 []) }
{
    // For its clause: a program has fewer than 2^32 classes.
    let _classes = program.classes();
    machine.take(0);
}

/// aconst_null.
#[inline(always)]
pub fn null<M: Memory>(machine: &mut Machine<M>, program: &Program) -> Result<(), NoMemory>
    requires { CanStep program.now machine.old }
    ensures { OnOk result (Steps program.now M.choose machine.old machine.new (words 0 null_word)) }
{
    // For its clause: a program has fewer than 2^32 classes.
    let _classes = program.classes();
    machine.give(0, Value::Ref(Cell(0)))
}

/// iconst, bipush and sipush, and ldc of an int.
#[inline(always)]
pub fn int_constant<M: Memory>(
    machine: &mut Machine<M>,
    program: &Program,
    n: i32,
) -> Result<(), NoMemory>
    requires { CanStep program.now machine.old }
    ensures { OnOk result (Steps program.now M.choose machine.old machine.new (words 0 (int_word n))) }
{
    // For its clause: a program has fewer than 2^32 classes.
    let _classes = program.classes();
    machine.give(0, Value::Int(n))
}

/// lconst, and ldc2_w of a long.
#[inline(always)]
pub fn long_constant<M: Memory>(
    machine: &mut Machine<M>,
    program: &Program,
    n: i64,
) -> Result<(), NoMemory>
    requires { CanStep program.now machine.old }
    ensures { OnOk result (Steps program.now M.choose machine.old machine.new (words 0 (long_words n))) }
{
    // For its clause: a program has fewer than 2^32 classes.
    let _classes = program.classes();
    machine.give_wide(0, Value::Long(n))
}

/// ldc of a text, by its number: the literal is made at its first use.
#[inline(always)]
pub fn text_constant<M: Memory>(
    machine: &mut Machine<M>,
    program: &Program,
    text: u32,
) -> Result<(), NoMemory>
    requires can { CanStep program.now machine.old }
    requires text { text < length program.now.outline.texts }
    requires literals { text < length machine.old.areas.literals }
    ensures { OnOk result (Steps program.now M.choose machine.old machine.new
        (constant_effect program.now.outline (used.OfText text))) }
{
    machine.give_literal(program, text)
}

/// ldc of a class, by the number of its type: the class literal is made at its first use.
#[inline(always)]
pub fn class_constant<M: Memory>(
    alloc: Global,
    machine: &mut Machine<M>,
    program: &Program,
    t: TypeId,
) -> Result<(), NoMemory>
    requires can { CanStep program.now machine.old }
    requires inside { t.0 < length program.now.outline.types }
    requires literals { class_literal program.now.outline t.0 < length machine.old.areas.literals }
    requires name { All (λ unit. unit < 2 ^ 16) (name_numbered program.now.outline t.0) }
    ensures { OnOk result (Steps program.now M.choose machine.old machine.new
        (constant_effect program.now.outline (used.OfType t))) }
{
    machine.give_class(alloc, program, 0, t)
}
