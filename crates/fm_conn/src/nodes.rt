// The numbers of a method's nodes: its locals, then Global and the result, then the words of the stack,
// item by item and from the bottom up.

ghost use Rattle.std.specs.Prelude.{◌≡◌, ◌+◌, ◌<◌, ◌^◌, IfOk, length, map};
ghost use Rattle.std.specs.Option.{option_map};
ghost use Rattle.fm_types.specs.States.{is_reference};
ghost use Rattle.fm_types.specs.Typings.{known_state, states_of};
ghost use Rattle.fm_conn.specs.inner.NodeTables.{global_number, local_number, node_count, return_number, slot_number, table_with, words_at, words_of_state};

use fm_base::{NoMemory, Seq};
use fm_types::{KnownState, Slot, Typing};
use std::alloc::Global;
use std::marker::Model;

/// Which numbers the nodes of a method have. Contracts see how many locals there are, and which words
/// of the stack of each item are nodes.
#[derive(Debug, Drop)]
pub struct Nodes {
    locals: u16,
    // for each item, for each word from the bottom up, whether it holds a reference
    words: Vec<Seq<bool>>,
    // for each item the number of its first word, and at the end the number of all nodes
    starts: Vec<u32>,
}

impl Model for Nodes {
    ghost use Rattle.fm_conn.specs.inner.NodeTables.{table_in, AreStarts, NodeTable};

    ghost Value = { NodeTable };

    ghost view = { λ n. table_in n.locals n.words.items };

    ghost invariant = { λ n. AreStarts (table_in n.locals n.words.items) n.starts.items };
}

impl Nodes {
    /// The nodes of a method with `locals` locals and these states.
    pub fn of(alloc: Global, locals: u16, typing: &Typing) -> Result<Nodes, NoMemory>
        ensures { IfOk result (λ nodes. nodes ≡ table_with locals (states_of typing.now)) }
    {
        let mut words = Vec::new(alloc);
        let mut starts = Vec::new(alloc);
        let mut next = u32::from(locals) + 2;
        for state in &typing.states {
            let references = references_at(alloc, state)?;
            starts.push(next)?;
            next = sum(next, references.len())?;
            words.push(Seq::new(references))?;
        }
        starts.push(next)?;
        Ok(Nodes {
            locals,
            words,
            starts,
        })
    }

    /// The number of locals.
    pub fn locals(&self) -> u16
        ensures { result ≡ self.now.locals }
    {
        self.locals
    }

    /// The number of nodes, which is one more than the greatest of their numbers.
    pub fn count(&self) -> u32
        ensures { result ≡ node_count self.now }
    {
        self.starts[self.words.len()]
    }

    /// How many words the stack of an item has; none where there is no such item.
    pub fn depth(&self, item: usize) -> u32
        ensures { result ≡ length (words_at self.now item) }
    {
        match self.words.get(item) {
            Some(words) => words.len() as u32,
            None => 0,
        }
    }

    /// The number of a local, where there is that local.
    pub fn local(&self, k: u16) -> Option<u32>
        ensures { result ≡ local_number self.now k }
    {
        if k < self.locals {
            Some(u32::from(k))
        } else {
            None
        }
    }

    /// The number of Global.
    pub fn global(&self) -> u32
        ensures { result ≡ global_number self.now }
    {
        u32::from(self.locals)
    }

    /// The number of the result.
    pub fn returned(&self) -> u32
        ensures { result ≡ return_number self.now }
    {
        u32::from(self.locals) + 1
    }

    /// The number of the word that has `depth` words below it on the stack of an item, where it is
    /// there and holds a reference.
    pub fn slot(&self, item: usize, depth: usize) -> Option<u32>
        ensures { result ≡ slot_number self.now item depth }
    {
        let words = self.words.get(item)?;
        if *words.get(depth)? {
            Some(self.starts[item] + depth as u32)
        } else {
            None
        }
    }
}

// The sum; `NoMemory` where it doesn't fit 32 bits: such a table isn't made.
fn sum(next: u32, words: usize) -> Result<u32, NoMemory>
    ensures sum { IfOk result (λ after. after ≡ next + words) }
    ensures few { IfOk result (λ after. after < 2 ^ 32) }
{
    if words > (u32::MAX - next) as usize {
        return Err(NoMemory);
    }
    Ok(next + words as u32)
}

// Which words of a state's stack hold a reference, from the bottom up.
fn references_at(alloc: Global, state: &Option<KnownState>) -> Result<Vec<bool>, NoMemory>
    ensures { IfOk result (λ words. words.items
        ≡ words_of_state (option_map known_state state.now)) }
{
    match state {
        Some(state) => references_among(alloc, state.to_words(alloc)?.as_slice()),
        None => Ok(Vec::new(alloc)),
    }
}

// For each slot whether it is a reference.
fn references_among(alloc: Global, slots: &[Slot]) -> Result<Vec<bool>, NoMemory>
    ensures { IfOk result (λ words. words.items ≡ map is_reference slots.now) }
{
    let mut words = Vec::with_capacity(alloc, slots.len())?;
    for slot in slots {
        words.push(is_reference(*slot))?;
    }
    Ok(words)
}

/// Whether it is null, a reference, or an object before its constructor has returned.
pub fn is_reference(slot: Slot) -> bool
    ensures { result ≡ is_reference slot }
{
    match slot {
        Slot::Top | Slot::Int | Slot::Long => false,
        Slot::Null | Slot::Ref(_) | Slot::Uninit(_) | Slot::UninitThis => true,
    }
}
