// Steps that are counted by where straight code would end.
//
// The reach of frames is the count that there will be at the item 65,536 if no jump comes before it. A step to the
// next item leaves it as it is, so only jumps count, and only they compare with the budget.

ghost use Rattle.std.specs.Prelude.{◌≡◌, ◌+◌, ◌^◌, ◌<◌, ◌≤◌};
ghost use Rattle.fm_run.specs.inner.Flats.{done_by, item_in};

use fm_frames::Frames;

// More items than a method's code has (JVMS 4.7.3).
const ITEMS: u64 = 65_536;

// The item that is next.
#[inline(always)]
pub(crate) fn next_item(frames: &Frames) -> usize
    ensures { result ≡ item_in frames.now }
{
    match frames.topmost() {
        Some(place) => place.item,
        None => 0,
    }
}

// The count of steps, by the reach.
#[inline(always)]
pub(crate) fn done(reach: u64, frames: &Frames) -> u64
    requires inside { item_in frames.now < 65536 }
    requires there { 65536 ≤ reach + item_in frames.now }
    ensures { result ≡ done_by reach frames.now }
{
    reach - (ITEMS - next_item(frames) as u64)
}

// The reach of frames at which `counted` steps are done.
#[inline(always)]
pub(crate) fn straight_reach(counted: u64, frames: &Frames) -> u64
    requires few { counted < 2 ^ 32 }
    requires inside { item_in frames.now < 65536 }
    ensures there { 65536 ≤ result + item_in frames.now }
    ensures exact { done_by result frames.now ≡ counted }
{
    counted + (ITEMS - next_item(frames) as u64)
}

// The reach after a step from an item, before which `counted` steps were done.
#[inline(always)]
pub(crate) fn reach_after(reach: u64, item: usize, counted: u64, frames: &Frames) -> u64
    requires few { reach < 2 ^ 32 }
    requires before { item < 65536 }
    requires was { reach + item ≡ counted + 65536 }
    requires inside { item_in frames.now < 65536 }
    ensures there { 65536 ≤ result + item_in frames.now }
    ensures exact { done_by result frames.now ≡ counted + 1 }
{
    reach + (item as u64 + 1) - next_item(frames) as u64
}
