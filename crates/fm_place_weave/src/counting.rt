// How many bytes the new items of a method take, by its plan.

ghost use Rattle.std.specs.Prelude.{◌≡◌, ◌+◌, ◌≤◌, ◌<◌, ◌^◌, length};
ghost use Rattle.fm_base.specs.declared.limits.TheConstants.{MAX_LOCAL_WORDS};
ghost use Rattle.fm_layout.specs.inner.Weights.{AreShort, IsShort};
ghost use Rattle.fm_chain.specs.Chained.{taken, top_linked};
ghost use Rattle.fm_place.specs.Woven.{freed, null_stored, top_stored};
ghost use Rattle.fm_place_weave.specs.ByPlan.{end_after, inserted_end, narrow_by, no_calls, nulls_by, released_by, step_end, taken_by};
ghost use Rattle.fm_place_weave.specs.Conditions.{AreFlagged, AreLocals, HasRoom};

use crate::holders::Holders;
use crate::pairs::{here, later};
use crate::sizes::{CALL_BYTES, DUP_BYTES, NULL_BYTES, kept_size};
use fm_chain::{Calls, ChainPlan};
use fm_code::{Code, Item};
use fm_layout::local_size;

/// How many bytes a call takes doesn't depend on its entry.
const NO_CALLS: Calls = Calls {
    free: 0,
    link: 0,
    free_chain: 0,
};

/// The bytes of the new items while no branch is widened. Takes no memory.
pub(crate) fn narrow_length(code: &Code, plan: &ChainPlan) -> u32
    requires room { HasRoom code.now plan.now }
    requires short { AreShort code.now.items }
    requires fits { narrow_by code.now plan.now < 2 ^ 32 }
    ensures { result ≡ narrow_by code.now plan.now }
{
    let holders = Holders {
        calls: NO_CALLS,
        first: code.max_locals,
        looped: &plan.looped,
    };
    items_end(
        holders,
        nulls_end(code.max_locals, plan.plan.holders),
        plan.plan.before.as_slice(),
        plan.plan.after.as_slice(),
        code.items.as_slice(),
    )
}

/// Where the old items end that begin at an offset, with what is inserted before and after each.
fn items_end(
    holders: Holders<'_>,
    start: u32,
    before: &[(u32, u16)],
    after: &[(u32, u16)],
    items: &[Item],
) -> u32
    requires before { AreLocals holders.first before.now }
    requires after { AreLocals holders.first after.now }
    requires freed { AreFlagged holders.looped.now before.now }
    requires taken { AreFlagged holders.looped.now after.now }
    requires short { AreShort items.now }
    requires fits { end_after holders.looped.now holders.first start 0 before.now after.now items.now < 2 ^ 32 }
    ensures { result ≡ end_after holders.entry.looped.now holders.entry.first start 0 before.now after.now items.now }
{
    let mut freeing = before;
    let mut taking = after;
    let mut end = start;
    for index in 0..items.len() {
        end = item_end(
            holders,
            end,
            here(freeing, index),
            here(taking, index),
            &items[index],
        );
        freeing = later(freeing, index);
        taking = later(taking, index);
    }
    end
}

/// Where an old item ends, with what is inserted before and after it.
fn item_end(
    holders: Holders<'_>,
    end: u32,
    before: &[(u32, u16)],
    after: &[(u32, u16)],
    item: &Item,
) -> u32
    requires before { AreLocals holders.first before.now }
    requires after { AreLocals holders.first after.now }
    requires freed { AreFlagged holders.looped.now before.now }
    requires taken { AreFlagged holders.looped.now after.now }
    requires short { IsShort item.now }
    requires fits { step_end holders.looped.now holders.first end before.now after.now item.now < 2 ^ 32 }
    ensures { result ≡ step_end holders.entry.looped.now holders.entry.first end before.now after.now item.now }
{
    let start = released_end(holders, end, before);
    taken_end(holders, start + kept_size(item, start), after)
}

/// Where that ends which makes a local null.
fn null_end(end: u32, local: u16) -> u32
    requires { inserted_end end (null_stored local) < 2 ^ 32 }
    ensures { result ≡ inserted_end end (null_stored local) }
{
    end + NULL_BYTES + local_size(local)
}

/// Where that ends which frees a local's object and makes the local null.
fn free_end(end: u32, local: u16) -> u32
    requires { inserted_end end (freed 0 local) < 2 ^ 32 }
    ensures { result ≡ inserted_end end (freed 0 local) }
{
    null_end(end + local_size(local) + CALL_BYTES, local)
}

/// Where that ends which puts the object on top of the stack into a local.
fn store_end(end: u32, local: u16) -> u32
    requires { inserted_end end (top_stored local) < 2 ^ 32 }
    ensures { result ≡ inserted_end end (top_stored local) }
{
    end + DUP_BYTES + local_size(local)
}

/// Where that ends which makes `holders` holders null, from this local on.
fn nulls_end(first: u16, holders: u16) -> u32
    requires room { first + holders ≤ MAX_LOCAL_WORDS }
    requires fits { inserted_end 0 (nulls_by first holders) < 2 ^ 32 }
    ensures { result ≡ inserted_end 0 (nulls_by first holders) }
{
    let mut end = 0;
    for holder in 0..holders {
        end = null_end(end, first + holder);
    }
    end
}

/// Where that ends which puts the object on top of the stack before the chain of a local.
fn link_end(end: u32, local: u16) -> u32
    requires { inserted_end end (top_linked 0 local) < 2 ^ 32 }
    ensures { result ≡ inserted_end end (top_linked 0 local) }
{
    end + DUP_BYTES + local_size(local) + CALL_BYTES + local_size(local)
}

/// Where that ends which frees the holders of these pairs.
fn released_end(holders: Holders<'_>, start: u32, pairs: &[(u32, u16)]) -> u32
    requires locals { AreLocals holders.first pairs.now }
    requires flags { AreFlagged holders.looped.now pairs.now }
    requires fits { inserted_end start
        (released_by no_calls holders.looped.now holders.first pairs.now) < 2 ^ 32 }
    ensures { result ≡ inserted_end start
        (released_by no_calls holders.entry.looped.now holders.entry.first pairs.now) }
{
    let mut end = start;
    for pair in pairs {
        end = free_end(end, holders.local_of(pair));
    }
    end
}

/// Where that ends which puts the object on top of the stack into the holders of these pairs.
fn taken_end(holders: Holders<'_>, start: u32, pairs: &[(u32, u16)]) -> u32
    requires locals { AreLocals holders.first pairs.now }
    requires flags { AreFlagged holders.looped.now pairs.now }
    requires fits { inserted_end start
        (taken_by no_calls holders.looped.now holders.first pairs.now) < 2 ^ 32 }
    ensures { result ≡ inserted_end start
        (taken_by no_calls holders.entry.looped.now holders.entry.first pairs.now) }
{
    let mut end = start;
    for pair in pairs {
        end = take_end(end, holders.is_looped(pair), holders.local_of(pair));
    }
    end
}

/// Where that ends which puts the object on top of the stack into a holder.
fn take_end(end: u32, looped: bool, local: u16) -> u32
    requires { inserted_end end (taken no_calls looped local) < 2 ^ 32 }
    ensures { result ≡ inserted_end end (taken no_calls looped local) }
{
    if looped {
        link_end(end, local)
    } else {
        store_end(end, local)
    }
}
