// Instructions in eight bytes, with a variant for each operation and kind: one dispatch finds what is done.

ghost use Rattle.std.specs.Prelude.{◌≡◌, ◌<◌, length};
ghost use Rattle.fm_frames.specs.Runnable.{IsRunnable};
ghost use Rattle.fm_run.specs.inner.Quicks.{quick_array_load, quick_array_store, quick_if_int, quick_if_pair, quick_int_op, quick_load, quick_of, quick_return, quick_store};
ghost use Rattle.fm_world.specs.Members.{methods_of};

use crate::names::used;
use crate::quick_operands::{
    quick_checkcast, quick_getfield, quick_getstatic, quick_putfield, quick_special, quick_static,
    quick_virtual,
};
use fm_base::{MethodId, TypeId};
use fm_code::{Elem, Insn, Op, Reg, Test};
use fm_world::Program;

// What an item does, by the name of its instruction (JVMS 6.5). A `u16` alone is a pool index or a local
// variable, and a `u32` alone the number of the item that is jumped to.
#[derive(Clone, Copy)]
pub(crate) enum Quick {
    // One that has no variant here.
    Other,
    // Those that go on to the next item.
    Iconst(i32),
    Iinc(u16, i16),
    Dup,
    Iload(u16),
    Lload(u16),
    Aload(u16),
    Istore(u16),
    Lstore(u16),
    Astore(u16),
    Iadd,
    Isub,
    Imul,
    Idiv,
    Irem,
    Iand,
    Ior,
    Ixor,
    Baload,
    Caload,
    Saload,
    Iaload,
    Laload,
    Aaload,
    Arraylength,
    Bastore,
    Castore,
    Sastore,
    Iastore,
    Lastore,
    Getfield(u16),
    Putfield(u16),
    Getstatic(u16),
    // The place of a field of ints or references, and the named type.
    GetfieldInt(u16, TypeId),
    GetfieldRef(u16, TypeId),
    PutfieldInt(u16, TypeId),
    PutfieldRef(u16, TypeId),
    // The place of a static field of ints or references, and the number of its class.
    GetstaticInt(u16, u32),
    GetstaticRef(u16, u32),
    // The named type.
    Checkcast(TypeId),
    // Those that may jump.
    Ifeq(u32),
    Ifne(u32),
    Iflt(u32),
    Ifge(u32),
    Ifgt(u32),
    Ifle(u32),
    IfIcmpeq(u32),
    IfIcmpne(u32),
    IfIcmplt(u32),
    IfIcmpge(u32),
    IfIcmpgt(u32),
    IfIcmple(u32),
    Goto(u32),
    // Those that enter a method or leave one. First how many words the arguments have with the receiver; of
    // invokevirtual then the number of the named type.
    Invokevirtual(u8, u16, MethodId),
    Invokespecial(u16, u32),
    Invokestatic(u16, MethodId),
    Invokeinterface(u16),
    Return,
    Ireturn,
    Lreturn,
    Areturn,
}

const _: () = prove!(size_of::<Quick>() <= 8);

// The quick code of an instruction of a method.
pub(crate) fn quick_of(program: &Program, method: MethodId, insn: &Insn) -> Quick
    requires runnable { IsRunnable program.now }
    requires method { method.0 < length (methods_of program.now.outline.classes) }
    ensures { result ≡ quick_of program.now method.0 insn.now }
{
    match insn {
        Insn::Const(n) => Quick::Iconst(*n),
        Insn::Load(kind, place) => quick_load(*kind, *place),
        Insn::Store(kind, place) => quick_store(*kind, *place),
        Insn::Inc(place, by) => Quick::Iinc(*place, *by),
        Insn::Dup => Quick::Dup,
        Insn::IntOp(op) => quick_int_op(*op),
        Insn::IfInt(test, target) => quick_if_int(*test, *target),
        Insn::IfPair(test, target) => quick_if_pair(*test, *target),
        Insn::Goto(target) => Quick::Goto(*target),
        Insn::ArrayLoad(e) => quick_array_load(*e),
        Insn::ArrayStore(e) => quick_array_store(*e),
        Insn::Length => Quick::Arraylength,
        Insn::GetField(index) => quick_getfield(program, used(program, method, *index), *index),
        Insn::PutField(index) => quick_putfield(program, used(program, method, *index), *index),
        Insn::GetStatic(index) => quick_getstatic(program, used(program, method, *index), *index),
        Insn::Cast(index) => quick_checkcast(used(program, method, *index)),
        Insn::Virtual(index) => quick_virtual(program, used(program, method, *index)),
        Insn::Interface(index) => Quick::Invokeinterface(*index),
        Insn::Special(index) => quick_special(program, method, used(program, method, *index)),
        Insn::Static(index) => quick_static(program, used(program, method, *index)),
        Insn::Return(value) => quick_return(*value),
        _ => Quick::Other,
    }
}

// iload, lload and aload.
fn quick_load(kind: Reg, place: u16) -> Quick
    ensures { result ≡ quick_load kind place }
{
    match kind {
        Reg::Int => Quick::Iload(place),
        Reg::Long => Quick::Lload(place),
        Reg::Ref => Quick::Aload(place),
    }
}

// istore, lstore and astore.
fn quick_store(kind: Reg, place: u16) -> Quick
    ensures { result ≡ quick_store kind place }
{
    match kind {
        Reg::Int => Quick::Istore(place),
        Reg::Long => Quick::Lstore(place),
        Reg::Ref => Quick::Astore(place),
    }
}

// iadd and its like.
fn quick_int_op(op: Op) -> Quick
    ensures { result ≡ quick_int_op op }
{
    match op {
        Op::Add => Quick::Iadd,
        Op::Sub => Quick::Isub,
        Op::Mul => Quick::Imul,
        Op::Div => Quick::Idiv,
        Op::Rem => Quick::Irem,
        Op::And => Quick::Iand,
        Op::Or => Quick::Ior,
        Op::Xor => Quick::Ixor,
    }
}

// ifeq and its like.
fn quick_if_int(test: Test, target: u32) -> Quick
    ensures { result ≡ quick_if_int test target }
{
    match test {
        Test::Eq => Quick::Ifeq(target),
        Test::Ne => Quick::Ifne(target),
        Test::Lt => Quick::Iflt(target),
        Test::Ge => Quick::Ifge(target),
        Test::Gt => Quick::Ifgt(target),
        Test::Le => Quick::Ifle(target),
    }
}

// if_icmpeq and its like.
fn quick_if_pair(test: Test, target: u32) -> Quick
    ensures { result ≡ quick_if_pair test target }
{
    match test {
        Test::Eq => Quick::IfIcmpeq(target),
        Test::Ne => Quick::IfIcmpne(target),
        Test::Lt => Quick::IfIcmplt(target),
        Test::Ge => Quick::IfIcmpge(target),
        Test::Gt => Quick::IfIcmpgt(target),
        Test::Le => Quick::IfIcmple(target),
    }
}

// return, ireturn, lreturn and areturn.
fn quick_return(value: Option<Reg>) -> Quick
    ensures { result ≡ quick_return value }
{
    match value {
        None => Quick::Return,
        Some(Reg::Int) => Quick::Ireturn,
        Some(Reg::Long) => Quick::Lreturn,
        Some(Reg::Ref) => Quick::Areturn,
    }
}

// baload and its like.
fn quick_array_load(e: Elem) -> Quick
    ensures { result ≡ quick_array_load e }
{
    match e {
        Elem::Boolean => Quick::Other,
        Elem::Byte => Quick::Baload,
        Elem::Char => Quick::Caload,
        Elem::Short => Quick::Saload,
        Elem::Int => Quick::Iaload,
        Elem::Long => Quick::Laload,
        Elem::Ref => Quick::Aaload,
    }
}

// bastore and its like; an aastore has no variant.
fn quick_array_store(e: Elem) -> Quick
    ensures { result ≡ quick_array_store e }
{
    match e {
        Elem::Boolean => Quick::Other,
        Elem::Byte => Quick::Bastore,
        Elem::Char => Quick::Castore,
        Elem::Short => Quick::Sastore,
        Elem::Int => Quick::Iastore,
        Elem::Long => Quick::Lastore,
        Elem::Ref => Quick::Other,
    }
}
