// The made class.

ghost use Rattle.std.specs.Prelude.{◌≡◌, ◌*◌, ◌<◌, ◌≤◌, ◌++◌, IfOk, OnOk, map};
ghost use Rattle.std.specs.List.{range_with_len};
ghost use Rattle.fm_gen.specs.Made.{f_method, g_method, made, main_method, method_with};

use crate::code::code_with;
use crate::insns::{f_insns, g_insns, main_insns};
use crate::pool::{OF_NOTHING, OF_OBJECT, name_index, pool};
use fm_base::{NoMemory, Seq};
use fm_code::{ClassDef, Code, Member, MemberAttr};
use std::alloc::Global;

/// The made class of this number.
#[tactic(auto, unfolding(crate::specs::Made::made))]
pub fn made(alloc: Global, n: u32) -> Result<ClassDef, NoMemory>
    requires at_least { 1 ≤ n }
    requires at_most { n ≤ 100 }
    ensures { IfOk result (λ class. class ≡ made n) }
{
    let count = n as u16;
    let mut methods = Vec::new(alloc);
    push_f_methods(alloc, count, &mut methods)?;
    push_g_methods(alloc, count, &mut methods)?;
    methods.push(main_method(alloc, count)?)?;
    Ok(ClassDef {
        minor: 0,
        major: 49,
        pool: pool(alloc, count)?,
        flags: 33,
        this_class: 2,
        super_class: 4,
        interfaces: Seq::empty(alloc),
        fields: Seq::empty(alloc),
        methods: Seq::new(methods),
        attributes: Seq::empty(alloc),
    })
}

// Appends the methods `f0`, `f1`, ..
fn push_f_methods(alloc: Global, n: u16, methods: &mut Vec<Member>) -> Result<(), NoMemory>
    requires { n ≤ 100 }
    ensures { OnOk result
        (methods.new.items ≡ methods.old.items ++ map f_method (range_with_len 0 (100 * n))) }
{
    for i in 0..100 * n {
        let method = f_method(alloc, i)?;
        methods.push(method)?;
    }
    Ok(())
}

// Appends the methods `g0`, `g1`, ..
fn push_g_methods(alloc: Global, n: u16, methods: &mut Vec<Member>) -> Result<(), NoMemory>
    requires { n ≤ 100 }
    ensures { OnOk result
        (methods.new.items ≡ methods.old.items ++ map (g_method n) (range_with_len 0 n)) }
{
    for j in 0..n {
        let method = g_method(alloc, n, j)?;
        methods.push(method)?;
    }
    Ok(())
}

// The method `fi`.
fn f_method(alloc: Global, i: u16) -> Result<Member, NoMemory>
    requires { i < 10000 }
    ensures { IfOk result (λ method. method ≡ f_method i) }
{
    let insns = f_insns(alloc, i)?;
    let code = code_with(alloc, 2, 1, insns.as_slice())?;
    method_with(alloc, name_index(i), OF_OBJECT, code)
}

// The method `gj`.
fn g_method(alloc: Global, n: u16, j: u16) -> Result<Member, NoMemory>
    requires few { n ≤ 100 }
    requires within { j < n }
    ensures { IfOk result (λ method. method ≡ g_method n j) }
{
    let insns = g_insns(alloc, j)?;
    let code = code_with(alloc, 2, 0, insns.as_slice())?;
    method_with(alloc, name_index(100 * n + j), OF_NOTHING, code)
}

// The method `main`.
fn main_method(alloc: Global, n: u16) -> Result<Member, NoMemory>
    requires { n ≤ 100 }
    ensures { IfOk result (λ method. method ≡ main_method n) }
{
    let insns = main_insns(alloc, n)?;
    let code = code_with(alloc, 0, 1, insns.as_slice())?;
    method_with(alloc, 10, 11, code)
}

// A public static method with this code.
fn method_with(alloc: Global, name: u16, descriptor: u16, code: Code) -> Result<Member, NoMemory>
    ensures { IfOk result (λ method. method ≡ method_with name descriptor code) }
{
    let mut attributes = Vec::new(alloc);
    attributes.push(MemberAttr::Coded(12, code))?;
    Ok(Member {
        flags: 9,
        name,
        descriptor,
        attributes: Seq::new(attributes),
    })
}
