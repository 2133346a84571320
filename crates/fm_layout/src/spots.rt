// Branches and switches apart from the other items, so that widening a branch looks at no others.

ghost use Rattle.std.specs.Prelude.{◌≡◌, ◌+◌, ◌++◌, ◌<◌, ◌≤◌, ◌^◌, OnOk, map};
ghost use Rattle.std.specs.List.{AllByRecursion};
ghost use Rattle.fm_layout.specs.Rooms.{end_from};
ghost use Rattle.fm_layout.specs.inner.Spots.{change_in, far_items, growth, is_far, is_spot, is_switch, moved, nearer, next_in, no_switch, shift, spot_in, spots_from, target_of, wide_room, FitsAfter};

use crate::rooms::{Branch, GOTO_W_BYTES, Room, SHORT_JUMP_BYTES, is_in_reach};
use fm_base::{NoMemory, number_at};

/// A branch or a switch: the number of its item, where it begins, where the item that it names
/// begins, and its room.
#[derive(Clone, Copy, Debug)]
pub(crate) struct Spot {
    pub item: usize,
    pub start: u32,
    pub to: u32,
    pub room: Room,
}

/// What widening a branch moves: by so many bytes what begins behind it, up to the next switch,
/// whose padding changes, and by others what begins behind that.
#[derive(Clone, Copy, Debug)]
pub(crate) struct Change {
    /// The number of the branch.
    pub item: usize,
    pub by: u32,
    /// The number of the next switch, or that of all items.
    pub switch: usize,
    pub later: u32,
    /// The number of all items.
    pub count: usize,
}

impl Room {
    /// The number of the item that a branch names; 0 of other rooms.
    fn target(self) -> u32
        ensures { result ≡ target_of self }
    {
        match self {
            Room::Narrow(branch) => branch.target,
            Room::Wide(branch) => branch.target,
            _ => 0,
        }
    }

    /// Whether it is a branch or a switch.
    fn is_spot(self) -> bool
        ensures { result ≡ is_spot self }
    {
        match self {
            Room::Plain(_) => false,
            _ => true,
        }
    }

    /// Whether it is a switch.
    fn is_switch(self) -> bool
        ensures { result ≡ is_switch self }
    {
        match self {
            Room::Switch(_) => true,
            _ => false,
        }
    }

    /// The branch widened.
    pub(crate) fn widened(self) -> Room
        ensures { result ≡ wide_room self }
    {
        match self {
            Room::Narrow(branch) => Room::Wide(branch),
            room => room,
        }
    }

    /// How many bytes more it takes once it is widened.
    pub(crate) fn growth(self) -> u32
        ensures { result ≡ growth self }
    {
        match self {
            Room::Narrow(branch) => branch.growth(),
            _ => 0,
        }
    }
}

impl Branch {
    /// How many bytes more it takes once it is widened.
    fn growth(self) -> u32
        ensures { result ≡ growth (Room.Narrow self) }
    {
        match self.condition {
            None => GOTO_W_BYTES - SHORT_JUMP_BYTES,
            Some(_) => GOTO_W_BYTES,
        }
    }
}

impl Change {
    /// By how many bytes an item moves.
    fn shift(self, place: usize) -> u32
        ensures { result ≡ shift self place }
    {
        if self.item < place {
            if self.switch < place {
                if self.count < place { 0 } else { self.later }
            } else {
                self.by
            }
        } else {
            0
        }
    }
}

impl Spot {
    /// Whether it is a branch that isn't widened and doesn't reach its target.
    fn is_far(self) -> bool
        ensures { result ≡ is_far self }
    {
        match self.room {
            Room::Narrow(_) => !is_in_reach(self.start, self.to),
            _ => false,
        }
    }

    /// The other one, if it is a switch behind an item and before this one, or else this one.
    fn nearer(self, other: Spot, item: usize) -> Spot
        ensures { result ≡ nearer item self other }
    {
        if other.room.is_switch() & (item < other.item) & (other.item < self.item) {
            other
        } else {
            self
        }
    }

    /// After a change.
    fn moved(self, change: Change) -> Spot
        requires { FitsAfter change self }
        ensures { result ≡ moved change self }
    {
        Spot {
            item: self.item,
            start: self.start + change.shift(self.item),
            to: self.to + change.shift(self.room.target() as usize),
            room: if self.item == change.item {
                self.room.widened()
            } else {
                self.room
            },
        }
    }
}

// Appends a room that is a branch or a switch.
fn push_spot(
    starts: &[u32],
    start: u32,
    item: usize,
    room: Room,
    spots: &mut Vec<Spot>,
) -> Result<(), NoMemory>
    ensures { OnOk result (spots.new.items
        ≡ spots.old.items ++ spot_in starts.now start item room) }
{
    if room.is_spot() {
        let to = number_at(starts, room.target());
        spots.push(Spot {
            item,
            start,
            to,
            room,
        })?;
    }
    Ok(())
}

/// Puts in place of what is listed the branches and switches of rooms that begin at these offsets.
pub(crate) fn put_spots(
    rooms: &[Room],
    starts: &[u32],
    spots: &mut Vec<Spot>,
) -> Result<(), NoMemory>
    requires { end_from 0 rooms.now < 2 ^ 32 }
    ensures { OnOk result (spots.new.items ≡ spots_from starts.now 0 0 rooms.now) }
{
    spots.clear();
    let mut start = 0;
    for item in 0..rooms.len() {
        let room = rooms[item];
        push_spot(starts, start, item, room, spots)?;
        start += room.size_at(start);
    }
    Ok(())
}

/// Puts in place of what is listed the branches that aren't widened and don't reach their targets.
pub(crate) fn put_far(spots: &[Spot], far: &mut Vec<usize>) -> Result<(), NoMemory>
    ensures { OnOk result (far.new.items ≡ far_items spots.now) }
{
    far.clear();
    for spot in spots {
        if spot.is_far() {
            far.push(spot.item)?;
        }
    }
    Ok(())
}

// The first switch behind an item; where there is none, its number is that of all items.
fn next_switch(spots: &[Spot], item: usize, count: usize) -> Spot
    ensures { result ≡ next_in item (no_switch count) spots.now }
{
    let mut next = Spot {
        item: count,
        start: 0,
        to: 0,
        room: Room::Plain(0),
    };
    for spot in spots {
        next = next.nearer(*spot, item);
    }
    next
}

/// What the growth of an item moves, where there are so many items.
pub(crate) fn change_of(spots: &[Spot], item: usize, by: u32, count: usize) -> Change
    requires { by ≤ 8 }
    ensures { result ≡ change_in item by count (next_in item (no_switch count) spots.now) }
{
    let next = next_switch(spots, item, count);
    Change {
        item,
        by,
        switch: next.item,
        later: (next.start % 4 + by) / 4 * 4,
        count,
    }
}

/// Moves all after a change.
pub(crate) fn move_spots(spots: &mut [Spot], change: Change)
    requires { AllByRecursion (FitsAfter change) spots.old }
    ensures { spots.new ≡ map (moved change) spots.old }
{
    for k in 0..spots.len() {
        let spot = spots[k];
        let moved = spot.moved(change);
        spots[k] = moved;
    }
}
