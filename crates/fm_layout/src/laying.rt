// Laying code out.

ghost use Rattle.std.specs.Prelude.{◌≡◌, ◌+◌, ◌++◌, ◌≤◌, ◌<◌, ◌^◌, ◌*◌, IfErr, IfOk, OnOk, length, slice_index};
ghost use Rattle.std.specs.Option.{option_copied};
ghost use Rattle.fm_code.specs.declared.code_array.TheConstants.{MAX_CODE_BYTES};
ghost use Rattle.fm_layout.specs.Conditions.{AreNewItems, AreOldItems};
ghost use Rattle.fm_layout.specs.Laid.{IsCause, IsCode, laid_from, laid_items, laid_length, laid_of, wide_items};
ghost use Rattle.fm_layout.specs.Rooms.{end_from, size_at, wide_size};
ghost use Rattle.fm_layout.specs.inner.Weights.{AreOffsetsWithin};

use crate::error::LayFail;
use crate::new_items::NewItem;
use crate::rooms::{Branch, GOTO_W_BYTES, Room, SHORT_JUMP_BYTES, kept_item};
use crate::rounds::{firsts_of, length_of, narrow_length, rooms_of, starts_of, widened_rooms};
use crate::spelling::{goto_w_item, moved_item, short_item};
use fm_base::{NoMemory, Seq, number_at};
use fm_code::{Insn, Item, MAX_CODE_BYTES};
use std::alloc::Global;

/// There are fewer new items than this, so that the bytes of any code that is asked for can be
/// counted.
pub const MAX_NEW_ITEMS: u32 = 600_000_000;

/// Laid-out code.
#[derive(Debug, PartialEq, Eq, Drop)]
pub struct Laid {
    pub items: Seq<Item>,
    /// The number of the first laid item of each new one, and at the end the number of all.
    pub firsts: Seq<u32>,
    /// The number of bytes.
    pub length: u32,
}

/// The new items laid out over the old ones that they keep. Branches that don't reach their targets in
/// two bytes are widened, in rounds. `TooLong` comes exactly where the laid-out code has more bytes
/// than a code array may have; then memory is taken only if that is so of no narrower code.
pub fn layout(alloc: Global, old: &[Item], items: &[NewItem]) -> Result<Laid, LayFail>
    requires old_items { AreOldItems old.now }
    requires new_items { AreNewItems old.now items.now }
    ensures laid { IfOk result (λ laid. laid ≡ laid_of old.now items.now) }
    // Its bytes spell its items.
    ensures code { IfOk result IsCode }
    // What is laid out isn't too long, and what is refused is.
    ensures fits { OnOk result (laid_length old.now items.now ≤ MAX_CODE_BYTES) }
    ensures refused { IfErr result (IsCause old.now items.now) }
{
    let narrow = narrow_length(old, items);
    if narrow > MAX_CODE_BYTES {
        return Err(LayFail::TooLong(narrow));
    }
    let rooms = widened_rooms(alloc, rooms_of(alloc, old, items)?)?;
    let length = length_of(rooms.as_slice());
    if length > MAX_CODE_BYTES {
        return Err(LayFail::TooLong(length));
    }
    let starts = starts_of(alloc, rooms.as_slice())?;
    let firsts = firsts_of(alloc, rooms.as_slice())?;
    let laid = laid_in_rooms(
        alloc,
        old,
        items,
        rooms.as_slice(),
        starts.as_slice(),
        firsts.as_slice(),
    )?;
    Ok(Laid {
        items: Seq::new(laid),
        firsts: Seq::new(firsts),
        length,
    })
}

/// The laid items of new items in these rooms.
fn laid_in_rooms(
    alloc: Global,
    old: &[Item],
    items: &[NewItem],
    rooms: &[Room],
    starts: &[u32],
    firsts: &[u32],
) -> Result<Vec<Item>, NoMemory>
    requires one_each { length rooms.now ≡ length items.now }
    requires few { 2 * length rooms.now < 2 ^ 32 }
    requires fits { end_from 0 rooms.now ≤ MAX_CODE_BYTES }
    requires starts_within { AreOffsetsWithin starts.now }
    ensures { IfOk result (λ laid. laid.items
        ≡ laid_from old.now starts.now firsts.now 0 0 items.now rooms.now) }
{
    let mut laid = Vec::new(alloc);
    let mut start = 0;
    let mut first = 0;
    for index in 0..items.len() {
        let place = LaidPlace {
            start,
            first,
            follows: index + 1 < items.len(),
            room: rooms[index],
        };
        let kept = kept_item(old, &items[index]);
        put_laid(
            alloc,
            starts,
            firsts,
            place,
            kept,
            &items[index].insn,
            &mut laid,
        )?;
        start += place.room.size_at(start);
        first += place.room.item_count();
    }
    Ok(laid)
}

/// Where the laid items of a new one are: their offset, the number of the first, whether a new item
/// follows, and their room.
#[derive(Clone, Copy, Debug)]
struct LaidPlace {
    start: u32,
    first: u32,
    follows: bool,
    room: Room,
}

/// Appends the laid items of one new item.
fn put_laid(
    alloc: Global,
    starts: &[u32],
    firsts: &[u32],
    place: LaidPlace,
    kept: Option<&Item>,
    insn: &Insn,
    out: &mut Vec<Item>,
) -> Result<(), NoMemory>
    requires fits { place.start + size_at place.start place.room ≤ MAX_CODE_BYTES }
    requires few { place.first + 2 < 2 ^ 32 }
    requires starts_within { AreOffsetsWithin starts.now }
    ensures { OnOk result (out.new.items ≡ out.old.items ++ laid_items starts.now firsts.now
        place.start place.first place.follows (option_copied kept.entry) insn.now place.room) }
{
    match place.room {
        Room::Plain(_) | Room::Switch(_) => {
            out.push(moved_item(alloc, starts, firsts, place.start, kept, insn)?)?;
        }
        Room::Narrow(branch) => {
            let to = number_at(starts, branch.target);
            let target = number_at(firsts, branch.target);
            out.push(short_item(alloc, place.start, branch.condition, to, target)?)?;
        }
        Room::Wide(branch) => put_wide(alloc, starts, firsts, place, branch, out)?,
    }
    Ok(())
}

/// Appends the laid items of a widened branch.
fn put_wide(
    alloc: Global,
    starts: &[u32],
    firsts: &[u32],
    place: LaidPlace,
    branch: Branch,
    out: &mut Vec<Item>,
) -> Result<(), NoMemory>
    requires fits { place.start + wide_size branch.condition ≤ MAX_CODE_BYTES }
    requires few { place.first + 2 < 2 ^ 32 }
    requires starts_within { AreOffsetsWithin starts.now }
    ensures { OnOk result (out.new.items ≡ out.old.items ++ wide_items place.start place.first
        place.follows branch.condition (slice_index starts.now branch.target)
        (slice_index firsts.now branch.target)) }
{
    let to = number_at(starts, branch.target);
    let target = number_at(firsts, branch.target);
    let Some(condition) = branch.condition else {
        out.push(goto_w_item(alloc, place.start, to, target)?)?;
        return Ok(());
    };
    let goto_w = place.start + SHORT_JUMP_BYTES;
    let (next, next_item) = if place.follows {
        (goto_w + GOTO_W_BYTES, place.first + 2)
    } else {
        (goto_w, place.first + 1)
    };
    let test = Some(condition.opposite());
    out.push(short_item(alloc, place.start, test, next, next_item)?)?;
    out.push(goto_w_item(alloc, goto_w, to, target)?)?;
    Ok(())
}
