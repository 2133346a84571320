// Which instructions are done by one function.

ghost use Rattle.std.specs.Prelude.{◌≡◌, false, None};
ghost use Rattle.fm_exec_nests.specs.inner.Costs.{nest_of};
ghost use Rattle.fm_run.specs.inner.Nexts.{group_of};

use fm_code::Insn;

// The instructions that one function does.
#[derive(Clone, Copy)]
pub(crate) enum Group {
    // What most steps are.
    Frequent,
    // Others of numbers, the stack and switches.
    Rarer,
    Throws,
    Statics,
    Objects,
    Calls,
    // What no program has that is run.
    LeftOut,
}

// Whether the instruction makes arrays of arrays; each other one costs 1.
#[inline(always)]
pub(crate) fn is_nest(insn: &Insn) -> bool
    ensures { result ≡ false → nest_of insn.now ≡ None }
{
    match insn {
        Insn::MultiArray(_, _) => true,
        _ => false,
    }
}

// Which function does the instruction.
#[inline(always)]
pub(crate) fn group_of(insn: &Insn) -> Group
    ensures { result ≡ group_of insn.now }
{
    match insn {
        Insn::Load(_, _)
        | Insn::Store(_, _)
        | Insn::Inc(_, _)
        | Insn::Const(_)
        | Insn::Null
        | Insn::IntOp(_)
        | Insn::IntShift(_)
        | Insn::LongOp(_)
        | Insn::Convert(_)
        | Insn::IfInt(_, _)
        | Insn::IfPair(_, _)
        | Insn::IfSame(_, _)
        | Insn::IfNull(_, _)
        | Insn::Goto(_)
        | Insn::Dup
        | Insn::Pop
        | Insn::GetField(_)
        | Insn::PutField(_)
        | Insn::ArrayLoad(_)
        | Insn::ArrayStore(_)
        | Insn::Length
        | Insn::LoadPool(_)
        | Insn::New(_)
        | Insn::Return(_) => Group::Frequent,
        Insn::Throw => Group::Throws,
        Insn::GetStatic(_) | Insn::PutStatic(_) => Group::Statics,
        Insn::NewArray(_)
        | Insn::NewRefs(_)
        | Insn::MultiArray(_, _)
        | Insn::Cast(_)
        | Insn::IsA(_) => Group::Objects,
        Insn::Virtual(_) | Insn::Interface(_) | Insn::Special(_) | Insn::Static(_) => Group::Calls,
        Insn::LeftOut(_) => Group::LeftOut,
        _ => Group::Rarer,
    }
}
