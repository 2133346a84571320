// Which places of a state the row of an instruction leaves alone: it neither looks at what is there
// nor changes it.

ghost use Rattle.std.specs.Prelude.{◌≡◌, ◌↔◌, All, IfOk, IsTrue};
ghost use Rattle.fm_check_walk.specs.inner.Risen.{IsLeftAlone, are_apart, called_words, is_bare, leaves_alone, leaves_local, leaves_word, words_taken};
ghost use Rattle.fm_check_walk.specs.inner.Tasks.{IsSound, task};
ghost use Rattle.fm_check_rows.specs.Members.{NamesMember};
ghost use Rattle.fm_types.specs.Typed.{use_by};

use crate::checked_method::{CheckedMethod, parameter_slots};
use crate::risen::Rise;
use fm_base::NoMemory;
use fm_check_rows::use_in;
use fm_code::Insn;
use fm_types::{Slot, SlotPlace};
use fm_world::{Program, Use};
use std::alloc::Global;

// Whether neither local is the other one, or beside it.
fn are_apart(k: u16, local: u16) -> bool
    ensures { result ≡ are_apart k local }
{
    let (k, local) = (u32::from(k), u32::from(local));
    if k + 1 < local {
        return true;
    }
    local + 1 < k
}

// Whether it is an object that isn't initialised.
fn is_bare(slot: Slot) -> bool
    ensures { result ≡ is_bare slot }
{
    matches!(slot, Slot::Uninit(_) | Slot::UninitThis)
}

// Whether the row of the instruction neither looks at a local of this value nor changes it.
fn leaves_local(insn: &Insn, k: u16, slot: Slot) -> bool
    ensures { result ≡ leaves_local insn.now k slot }
{
    match insn {
        Insn::Load(_, local) | Insn::Store(_, local) | Insn::Inc(local, _) => are_apart(k, *local),
        Insn::New(_) | Insn::Special(_) => !is_bare(slot),
        _ => true,
    }
}

// Whether the row of the instruction leaves a word of this value as it is, where it doesn't take it.
fn leaves_word(insn: &Insn, slot: Slot) -> bool
    ensures { result ≡ leaves_word insn.now slot }
{
    match insn {
        Insn::New(_) | Insn::Special(_) => !is_bare(slot),
        _ => true,
    }
}

// The words of the arguments of the method that is named, and of a receiver.
fn called_words(alloc: Global, program: &Program, resolved: Use) -> Result<usize, NoMemory>
    requires { NamesMember program.now.outline resolved }
    ensures { IfOk result (λ count. count ≡ called_words program.now.outline resolved) }
{
    let Use::OfMethod(m, _) = resolved else {
        return Ok(0);
    };
    let words = parameter_slots(alloc, program, m)?;
    Ok(words.len() + 1)
}

/// The words of the stack that the row of the instruction takes at most.
pub fn words_taken(
    alloc: Global,
    method: &CheckedMethod<'_>,
    insn: &Insn,
) -> Result<usize, NoMemory>
    requires { IsSound (task method.now) }
    ensures { IfOk result (λ count. count ≡ words_taken (task method.now).program.outline
        (use_by (task method.now).program (task method.now).number insn.now) insn.now) }
{
    match insn {
        Insn::Virtual(index)
        | Insn::Special(index)
        | Insn::Static(index)
        | Insn::Interface(index) => {
            let resolved = use_in(method.program, method.number, *index);
            called_words(alloc, method.program, resolved)
        }
        _ => Ok(insn.words_taken(2, 0)),
    }
}

// Whether the row leaves a place alone, where it takes no word below `below`.
fn leaves_alone(insn: &Insn, below: usize, rise: Rise) -> bool
    ensures { result ≡ leaves_alone insn.now below rise.place rise.slot }
{
    match rise.place {
        SlotPlace::Local(local) => leaves_local(insn, local, rise.slot),
        SlotPlace::Word(word) => {
            if usize::from(word) >= below {
                return false;
            }
            leaves_word(insn, rise.slot)
        }
    }
}

/// Whether the row leaves each of these places alone, where it takes no word below `below`.
pub fn all_left_alone(insn: &Insn, below: usize, rises: &[Rise]) -> bool
    ensures { IsTrue result ↔ All (IsLeftAlone insn.now below) rises.now }
{
    for rise in rises {
        if !leaves_alone(insn, below, *rise) {
            return false;
        }
    }
    true
}
