// The instructions of the methods of the made class.

ghost use Rattle.std.specs.Prelude.{◌≡◌, ◌<◌, ◌≤◌, ◌++◌, IfOk, OnOk};
ghost use Rattle.fm_gen.specs.Made.{argument, call, dropped_object, f_insns, g_insns, main_insns, new_object, tried};

use crate::pool::name_index;
use fm_base::NoMemory;
use fm_code::{Insn, Reg};
use std::alloc::Global;

/// The instructions of the method `fi`.
#[tactic(auto, unfolding(crate::specs::Made::f_insns))]
pub(crate) fn f_insns(alloc: Global, i: u16) -> Result<Vec<Insn>, NoMemory>
    requires { i < 10000 }
    ensures { IfOk result (λ insns. insns.items ≡ f_insns i) }
{
    let mut insns = Vec::new(alloc);
    match i % 4 {
        0 => push_new_object(&mut insns)?,
        1 => insns.push(Insn::Load(Reg::Ref, 0))?,
        2 => push_dropped_object(&mut insns)?,
        _ => push_argument(i, &mut insns)?,
    }
    insns.push(Insn::Return(Some(Reg::Ref)))?;
    Ok(insns)
}

/// The instructions of the method `gj`.
#[tactic(auto, unfolding(crate::specs::Made::g_insns))]
pub(crate) fn g_insns(alloc: Global, j: u16) -> Result<Vec<Insn>, NoMemory>
    requires { j < 100 }
    ensures { IfOk result (λ insns. insns.items ≡ g_insns j) }
{
    let mut insns = Vec::new(alloc);
    for k in 0..100 {
        push_tried(100 * j + k, &mut insns)?;
    }
    insns.push(Insn::Return(None))?;
    Ok(insns)
}

/// The instructions of `main`.
#[tactic(auto, unfolding(crate::specs::Made::main_insns))]
pub(crate) fn main_insns(alloc: Global, n: u16) -> Result<Vec<Insn>, NoMemory>
    requires { n ≤ 100 }
    ensures { IfOk result (λ insns. insns.items ≡ main_insns n) }
{
    let mut insns = Vec::new(alloc);
    for j in 0..n {
        insns.push(call(100 * n + j))?;
    }
    insns.push(Insn::Return(None))?;
    Ok(insns)
}

// The call of a method by its number in the class.
fn call(method: u16) -> Insn
    requires { method ≤ 10100 }
    ensures { result ≡ call method }
{
    Insn::Static(name_index(method) + 2)
}

// Appends what makes an object.
fn push_new_object(insns: &mut Vec<Insn>) -> Result<(), NoMemory>
    ensures { OnOk result (insns.new.items ≡ insns.old.items ++ new_object) }
{
    insns.push(Insn::New(4))?;
    insns.push(Insn::Dup)?;
    insns.push(Insn::Special(8))?;
    Ok(())
}

// Appends what makes an object, drops it, and gives null.
fn push_dropped_object(insns: &mut Vec<Insn>) -> Result<(), NoMemory>
    ensures { OnOk result (insns.new.items ≡ insns.old.items ++ dropped_object) }
{
    push_new_object(insns)?;
    insns.push(Insn::Pop)?;
    insns.push(Insn::Null)?;
    Ok(())
}

// Appends what gives the argument of the method `fi`, or what f(i - 4) returns for it.
fn push_argument(i: u16, insns: &mut Vec<Insn>) -> Result<(), NoMemory>
    requires least { 3 ≤ i }
    requires most { i < 10000 }
    ensures { OnOk result (insns.new.items ≡ insns.old.items ++ argument i) }
{
    insns.push(Insn::Load(Reg::Ref, 0))?;
    if i % 100 == 3 {
        return Ok(());
    }
    insns.push(call(i - 4))?;
    Ok(())
}

// Appends a call of the method `fi` with a new object, whose result is dropped.
fn push_tried(i: u16, insns: &mut Vec<Insn>) -> Result<(), NoMemory>
    requires { i < 10000 }
    ensures { OnOk result (insns.new.items ≡ insns.old.items ++ tried i) }
{
    push_new_object(insns)?;
    insns.push(call(i))?;
    insns.push(Insn::Pop)?;
    Ok(())
}
