// Which items load a reference from a local, and which store over it (JVMS 6.5.aload, 2.6.1).

ghost use Rattle.std.specs.Prelude.{◌≡◌, ◌<◌, IfOk, Some, length};
ghost use Rattle.fm_code.specs.Edges.{insn_of, MeetsCodeRules};
ghost use Rattle.fm_flow.specs.inner.LiveWalks.{local_loaded, locals_stored, AreUsesOf};

use crate::item_edges::item_count;
use crate::lists::{add_to_each, empty_lists};
use fm_base::{NoMemory, Seq};
use fm_code::{Code, Insn, Reg};
use std::alloc::Global;

/// For each local the items that load a reference from it, and those that store over it.
#[derive(Debug, Drop)]
pub struct Uses {
    pub loads: Vec<Seq<u32>>,
    pub stores: Vec<Seq<u32>>,
}

/// The uses of the locals of a code.
pub fn uses_of(alloc: Global, code: &Code) -> Result<Uses, NoMemory>
    requires { MeetsCodeRules code.now }
    ensures { IfOk result (λ uses. AreUsesOf code.now uses.loads.items uses.stores.items) }
{
    let mut loads = empty_lists(alloc, u32::from(code.max_locals))?;
    let mut stores = empty_lists(alloc, u32::from(code.max_locals))?;
    for j in 0..item_count(code) {
        let insn = insn_at(code, j);
        let loaded = local_loaded(alloc, insn)?;
        add_to_each(loaded.as_slice(), j, &mut loads)?;
        let stored = locals_stored(alloc, insn)?;
        add_to_each(stored.as_slice(), j, &mut stores)?;
    }
    Ok(Uses { loads, stores })
}

// The instruction of item j.
fn insn_at(code: &Code, j: u32) -> &Insn
    requires { j < length code.now.items }
    ensures { insn_of code.now j ≡ Some result.now }
{
    &code.items.as_slice()[j as usize].insn
}

// The local from which the instruction loads a reference, if it loads one.
fn local_loaded(alloc: Global, insn: &Insn) -> Result<Vec<u32>, NoMemory>
    ensures { IfOk result (λ locals. locals.items ≡ local_loaded insn.now) }
{
    match insn {
        Insn::Load(Reg::Ref, local) => Ok(vec![in alloc; u32::from(*local)]?),
        _ => Ok(Vec::new(alloc)),
    }
}

// The locals over which the instruction stores.
fn locals_stored(alloc: Global, insn: &Insn) -> Result<Vec<u32>, NoMemory>
    ensures { IfOk result (λ locals. locals.items ≡ locals_stored insn.now) }
{
    match insn {
        Insn::Store(Reg::Int | Reg::Ref, local) => Ok(vec![in alloc; u32::from(*local)]?),
        Insn::Store(Reg::Long, local) => {
            let first = u32::from(*local);
            Ok(vec![in alloc; first, first + 1]?)
        }
        _ => Ok(Vec::new(alloc)),
    }
}
