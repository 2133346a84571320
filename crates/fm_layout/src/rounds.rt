// Widening in rounds, and where each room begins.

ghost use Rattle.std.specs.Prelude.{◌≡◌, ◌+◌, ◌<◌, ◌^◌, ◌*◌, IfOk, OnOk, length};
ghost use Rattle.std.specs.List.{AllByRecursion};
ghost use Rattle.fm_layout.specs.Laid.{firsts_from};
ghost use Rattle.fm_layout.specs.Rooms.{end_from, rooms_of, round_after, starts_from, widened_from, widened_rooms};
ghost use Rattle.fm_layout.specs.inner.Spots.{Tracks, far_items, widen_all, widen_item};
ghost use Rattle.fm_layout.specs.inner.Weights.{AreShort, weight_of};

use crate::new_items::NewItem;
use crate::rooms::Room;
use crate::spots::{Spot, change_of, move_spots, put_far, put_spots};
use fm_base::NoMemory;
use fm_code::Item;
use std::alloc::Global;

// A round that widens no more branches than this doesn't go over all rooms.
const FEW_BRANCHES: usize = 16;

/// The rooms of the new items before any branch is widened.
pub(crate) fn rooms_of(
    alloc: Global,
    old: &[Item],
    items: &[NewItem],
) -> Result<Vec<Room>, NoMemory>
    requires { AreShort old.now }
    ensures { IfOk result (λ rooms. rooms.items ≡ rooms_of old.now items.now) }
{
    let mut rooms = Vec::with_capacity(alloc, items.len())?;
    for new in items {
        rooms.push(Room::of(old, new))?;
    }
    Ok(rooms)
}

/// The bytes of the new items before any branch is widened. Takes no memory.
pub(crate) fn narrow_length(old: &[Item], items: &[NewItem]) -> u32
    requires short { AreShort old.now }
    requires fits { end_from 0 (rooms_of old.now items.now) < 2 ^ 32 }
    ensures { result ≡ end_from 0 (rooms_of old.now items.now) }
{
    let mut end = 0;
    for new in items {
        end += Room::of(old, new).size_at(end);
    }
    end
}

/// The bytes that rooms take.
pub(crate) fn length_of(rooms: &[Room]) -> u32
    requires { end_from 0 rooms.now < 2 ^ 32 }
    ensures { result ≡ end_from 0 rooms.now }
{
    let mut end = 0;
    for room in rooms {
        end += room.size_at(end);
    }
    end
}

/// Where each room begins, and where the last one ends.
pub(crate) fn starts_of(alloc: Global, rooms: &[Room]) -> Result<Vec<u32>, NoMemory>
    requires { end_from 0 rooms.now < 2 ^ 32 }
    ensures { IfOk result (λ starts. starts.items ≡ starts_from 0 rooms.now) }
{
    let mut starts = Vec::new(alloc);
    put_starts(rooms, &mut starts)?;
    Ok(starts)
}

// Puts in place of all offsets those where each room begins, and where the last one ends.
fn put_starts(rooms: &[Room], starts: &mut Vec<u32>) -> Result<(), NoMemory>
    requires { end_from 0 rooms.now < 2 ^ 32 }
    ensures { OnOk result (starts.new.items ≡ starts_from 0 rooms.now) }
{
    starts.clear();
    let mut start = 0;
    for room in rooms {
        starts.push(start)?;
        start += room.size_at(start);
    }
    starts.push(start)?;
    Ok(())
}

/// The number of the first laid item of each room, and at the end the number of all.
pub(crate) fn firsts_of(alloc: Global, rooms: &[Room]) -> Result<Vec<u32>, NoMemory>
    requires { 2 * length rooms.now < 2 ^ 32 }
    ensures { IfOk result (λ firsts. firsts.items ≡ firsts_from 0 rooms.now) }
{
    let mut firsts = Vec::new(alloc);
    let mut first = 0;
    for room in rooms {
        firsts.push(first)?;
        first += room.item_count();
    }
    firsts.push(first)?;
    Ok(firsts)
}

// One round, where each target starts at an offset of this list.
fn widen_each(rooms: &mut [Room], starts: &[u32])
    requires { end_from 0 rooms.old < 2 ^ 32 }
    ensures { rooms.new ≡ widened_from starts.now 0 rooms.old }
{
    let mut start = 0;
    for k in 0..rooms.len() {
        let room = rooms[k];
        let wider = room.widened_at(starts, start);
        rooms[k] = wider;
        start += room.size_at(start);
    }
}

// Widens the branch of an item, and moves what is listed with it.
fn widen_one(rooms: &mut [Room], spots: &mut [Spot], item: usize)
    requires within { item < length rooms.old }
    requires tracks { Tracks rooms.old spots.old }
    ensures widened { rooms.new ≡ widen_item rooms.old item }
    ensures tracks { Tracks rooms.new spots.new }
{
    let room = rooms[item];
    let wider = room.widened();
    let change = change_of(spots, item, room.growth(), rooms.len());
    move_spots(spots, change);
    rooms[item] = wider;
}

// Widens the branches of these items one after the other.
fn widen_far(rooms: &mut [Room], spots: &mut [Spot], far: &[usize])
    requires within { AllByRecursion (λ item. item < length rooms.old) far.now }
    requires tracks { Tracks rooms.old spots.old }
    ensures widened { rooms.new ≡ widen_all rooms.old far.now }
    ensures tracks { Tracks rooms.new spots.new }
{
    for item in far {
        widen_one(rooms, spots, *item);
    }
}

// A round that widens these branches: one after the other, or if they are many by going over all
// rooms.
fn widen_round(
    rooms: &mut [Room],
    starts: &mut Vec<u32>,
    spots: &mut Vec<Spot>,
    far: &[usize],
) -> Result<(), NoMemory>
    requires tracks { Tracks rooms.old spots.old.items }
    requires far { far.now ≡ far_items spots.old.items }
    ensures widened { OnOk result (rooms.new ≡ round_after rooms.old) }
    ensures tracks { OnOk result (Tracks rooms.new spots.new.items) }
{
    if far.len() <= FEW_BRANCHES {
        widen_far(rooms, spots.as_mut_slice(), far);
        return Ok(());
    }
    put_starts(rooms, starts)?;
    widen_each(rooms, starts.as_slice());
    put_starts(rooms, starts)?;
    put_spots(rooms, starts.as_slice(), spots)?;
    Ok(())
}

/// The rooms after the last round. Each round widens the branches that are known not to reach, and
/// looks at branches and switches only, unless it widens many.
pub(crate) fn widened_rooms(alloc: Global, rooms: Vec<Room>) -> Result<Vec<Room>, NoMemory>
    requires { weight_of rooms.items + 8 < 2 ^ 32 }
    ensures { IfOk result (λ wide. wide.items ≡ widened_rooms rooms.items) }
{
    let mut rooms = rooms;
    let mut starts = starts_of(alloc, rooms.as_slice())?;
    let mut spots = Vec::new(alloc);
    put_spots(rooms.as_slice(), starts.as_slice(), &mut spots)?;
    let mut far = Vec::new(alloc);
    for _ in 0..rooms.len() {
        put_far(spots.as_slice(), &mut far)?;
        if far.is_empty() {
            return Ok(rooms);
        }
        widen_round(
            rooms.as_mut_slice(),
            &mut starts,
            &mut spots,
            far.as_slice(),
        )?;
    }
    Ok(rooms)
}
