// Where the classes of holders are busy.

ghost use Rattle.std.specs.Prelude.{◌≡◌, ◌+◌, ◌<◌, ◌≤◌, ◌&&◌, ℕ, IfOk, Some, is_some, length};
ghost use Rattle.std.specs.Option.{option_copied, option_map};
ghost use Rattle.fm_base.specs.Rows.{has};
ghost use Rattle.fm_flow.specs.LiveRows.{is_live, item_count, local_count};
ghost use Rattle.fm_place.specs.Places.{is_word_in};
ghost use Rattle.fm_place.specs.inner.PlanRows.{AreGroups, AreRowsIn, IsRowOf, IsSeen, busy_by_words, busy_with, count_of, facts_seen, is_busy_at, is_class, is_reached, typed_seen, words_before};
ghost use Rattle.fm_types.specs.Typed.{state_at};
ghost use Rattle.fm_types.specs.Typings.{known_state, states_of};

use crate::groups::Groups;
use crate::set_bits::{set_at_if, set_if};
use fm_base::{NoMemory, Row};
use fm_conn::{AnalysedMethod, Classes};
use fm_flow::{Flow, LiveRows, empty_rows};
use fm_types::{KnownState, Typing};
use std::alloc::Global;

/// A method with its flow, its live locals and its classes.
#[derive(Clone, Copy)]
pub struct Seen<'a> {
    pub method: AnalysedMethod<'a>,
    pub flow: &'a Flow,
    pub live: &'a LiveRows,
    pub classes: &'a Classes,
}

impl Seen<'_> {
    /// For each holder a row over the items: that with the number of a class has the items at which the
    /// class is busy.
    pub fn busy_rows(
        &self,
        alloc: Global,
        groups: &Groups<'_>,
        count: u32,
    ) -> Result<Vec<Row>, NoMemory>
        requires seen { IsSeen self.now }
        requires groups { AreGroups groups.now }
        requires count { count ≡ count_of self.now }
        ensures { IfOk result (λ rows. AreRowsIn groups.now count (is_busy_at self.now) rows.items) }
    {
        let mut rows = self.word_rows(alloc, groups, count)?;
        let reached = self.reached_row(alloc, count)?;
        self.mark_locals(groups, &reached, &mut rows);
        Ok(rows)
    }

    // The same by the words of the stack alone.
    fn word_rows(
        &self,
        alloc: Global,
        groups: &Groups<'_>,
        count: u32,
    ) -> Result<Vec<Row>, NoMemory>
        requires seen { IsSeen self.now }
        requires groups { AreGroups groups.now }
        requires count { count ≡ count_of self.now }
        ensures { IfOk result (λ rows. AreRowsIn groups.now (count_of self.now)
            (busy_with self.now 0) rows.items) }
    {
        let mut rows = empty_rows(alloc, groups.held.len() as u32, count)?;
        for item in 0..count {
            self.mark_item(groups, item, &mut rows);
        }
        Ok(rows)
    }

    // The items that can be reached.
    fn reached_row(&self, alloc: Global, count: u32) -> Result<Row, NoMemory>
        requires count { count ≡ count_of self.now }
        ensures { IfOk result (IsRowOf (count_of self.now) (is_reached self.now)) }
    {
        let mut reached = Row::new(alloc, count)?;
        for item in 0..count {
            set_if(&mut reached, item, is_reached(self.method.typing, item));
        }
        Ok(reached)
    }

    // Sets the item in the rows of the classes of the words of the stack.
    fn mark_item(&self, groups: &Groups<'_>, item: u32, rows: &mut Vec<Row>)
        requires seen { IsSeen self.now }
        requires groups { AreGroups groups.now }
        requires inside { item < count_of self.now }
        requires rows { AreRowsIn groups.now (count_of self.now)
            (words_before self.now item) rows.old.items }
        ensures { AreRowsIn groups.now (count_of self.now)
            (words_before self.now (item + 1)) rows.new.items }
    {
        let Some(state) = state_at(self.method.typing, item) else {
            return;
        };
        let depth = depth_within(state.depth(), self.method.code.max_stack);
        self.mark_words(groups, item, depth, rows);
    }

    // Sets the item in the rows of the classes of the lowest words of the stack.
    fn mark_words(&self, groups: &Groups<'_>, item: u32, depth: u16, rows: &mut Vec<Row>)
        requires seen { IsSeen self.now }
        requires groups { AreGroups groups.now }
        requires inside { item < count_of self.now }
        requires rows { AreRowsIn groups.now (count_of self.now)
            (words_before self.now item) rows.old.items }
        ensures { AreRowsIn groups.now (count_of self.now)
            (busy_by_words self.now item depth) rows.new.items }
    {
        for below in 0..depth {
            let class = self.word_class(item, below);
            groups.mark(class, item, rows);
        }
    }

    // Sets the items that can be reached in the rows of the classes of the locals that are live there.
    fn mark_locals(&self, groups: &Groups<'_>, reached: &Row, rows: &mut Vec<Row>)
        requires seen { IsSeen self.now }
        requires groups { AreGroups groups.now }
        requires reached { IsRowOf (count_of self.now) (is_reached self.now) reached.now }
        requires rows { AreRowsIn groups.now (count_of self.now)
            (busy_with self.now 0) rows.old.items }
        ensures { AreRowsIn groups.now (count_of self.now)
            (busy_with self.now self.now.method.code.now.max_locals) rows.new.items }
    {
        let count = self.method.code.max_locals;
        for local in 0..count {
            self.mark_local(groups, reached, local, rows);
        }
    }

    // Sets the items at which the local is live in the row of its class, if a holder has it.
    fn mark_local(&self, groups: &Groups<'_>, reached: &Row, local: u16, rows: &mut Vec<Row>)
        requires seen { IsSeen self.now }
        requires groups { AreGroups groups.now }
        requires reached { IsRowOf (count_of self.now) (is_reached self.now) reached.now }
        requires local { local < self.now.method.code.now.max_locals }
        requires rows { AreRowsIn groups.now (count_of self.now)
            (busy_with self.now local) rows.old.items }
        ensures { AreRowsIn groups.now (count_of self.now)
            (busy_with self.now (local + 1)) rows.new.items }
    {
        let Some(number) = groups.number(self.classes.of_local(local)) else {
            return;
        };
        for item in 0..reached.bits() {
            let busy = is_live_in(reached, self.live, local, item);
            set_at_if(rows, number as usize, item, busy);
        }
    }

    // The class of the word of the stack, if it is a reference.
    fn word_class(&self, item: u32, below: u16) -> Option<u32>
        requires { IsSeen self.now }
        ensures { (class : ℕ) → is_class result class
            ≡ is_word_in (facts_seen self.now) (typed_seen self.now) class item below }
    {
        self.classes.of_slot(item, below)
    }
}

// Whether the row has the item, and the local is live there.
fn is_live_in(reached: &Row, live: &LiveRows, local: u16, item: u32) -> bool
    requires reached { item < length reached.now }
    requires local { local < local_count live.now }
    requires item { item < item_count live.now local }
    ensures { result ≡ (has reached.now item && is_live live.now local item) }
{
    if reached.get(item) {
        live.is_live(local, item)
    } else {
        false
    }
}

// Whether an item can be reached.
fn is_reached(typing: &Typing, item: u32) -> bool
    ensures { result ≡ is_some (state_at (states_of typing.now) item) }
{
    match state_at(typing, item) {
        Some(_) => true,
        None => false,
    }
}

// The state of an item; none where it can't be reached.
fn state_at(typing: &Typing, item: u32) -> Option<&KnownState>
    ensures { option_map known_state (option_copied result) ≡ state_at (states_of typing.now) item }
{
    match typing.states.as_slice().get(item as usize) {
        Some(Some(state)) => Some(state),
        _ => None,
    }
}

// The number of words, of which there are no more than there may be.
fn depth_within(words: usize, most: u16) -> u16
    requires { words ≤ most }
    ensures { result ≡ words }
{
    words as u16
}
