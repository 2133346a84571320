// Tables from numbers to numbers that share what they have in common.
//
// A table is made of another one by one more entry, and both stay. So a class has the table of its
// superclass with its own entries over it, and the tables of all classes together take memory for each
// entry once, times the depth of a tree of eight branches.

ghost use Rattle.std.specs.Prelude.{◌≡◌, ◌<◌, ◌≤◌, ◌^◌, ℕ, [], ◌∷◌, None, IfOk, replicate};
ghost use Rattle.fm_world.specs.inner.Nodes.{child_of, AreNodes, Grows, IsNode, Puts};

use fm_base::NoMemory;
use std::alloc::Global;

/// Tables by their numbers. Table 0 has no entries.
#[derive(Debug, Drop)]
pub struct Layers {
    nodes: Vec<[u32; 8]>,
    levels: u32,
    ghost are_nodes: { AreNodes nodes.items },
}

impl Layers {
    ghost use Rattle.fm_world.specs.inner.Layers.{value_at, HasRoom, IsTable, KeepsTables, PutsValue};

    /// The empty table alone, and room for keys below that count.
    pub fn new(alloc: Global, keys: u32) -> Result<Layers, NoMemory>
        ensures room { IfOk result (λ layers. (key : ℕ) → key < keys → HasRoom layers key) }
        ensures empty { IfOk result (λ layers. IsTable layers 0) }
        ensures nothing { IfOk result (λ layers. (key : ℕ) → value_at layers 0 key ≡ None) }
    {
        let levels = levels_of(keys);
        let mut nodes = Vec::new(alloc);
        nodes.push([0; 8])?;
        Ok(Layers { nodes, levels })
    }

    /// Equal tables by the same numbers.
    pub fn copy(&self, alloc: Global) -> Result<Layers, NoMemory>
        ensures nodes { IfOk result (λ layers. layers.nodes.items ≡ self.now.nodes.items) }
        ensures levels { IfOk result (λ layers. layers.levels ≡ self.now.levels) }
    {
        let nodes = Vec::from_slice(alloc, self.nodes.as_slice())?;
        Ok(Layers {
            nodes,
            levels: self.levels,
        })
    }

    /// What a table has at a key. Takes no memory.
    pub fn get(&self, table: u32, key: u32) -> Option<u32>
        ensures { result ≡ value_at self.now table key }
    {
        let mut node = table;
        let mut rest = key;
        for _ in 0..self.levels {
            node = self.child(node, (rest % 8) as usize);
            rest /= 8;
        }
        if node == 0 { None } else { Some(node - 1) }
    }

    // The node on a branch of another one; the empty one where there is none.
    fn child(&self, node: u32, branch: usize) -> u32
        ensures { result ≡ child_of self.now.nodes.items node branch }
    {
        match self.nodes.get(node as usize) {
            Some(children) => match children.get(branch) {
                Some(child) => *child,
                None => 0,
            },
            None => 0,
        }
    }

    /// The table that has the value at the key, and is else as the given one. All tables stay as they
    /// were, after `NoMemory` too.
    pub fn put(&mut self, table: u32, key: u32, value: u32) -> Result<u32, NoMemory>
        requires table { IsTable self.old table }
        requires room { HasRoom self.old key }
        ensures keeps { KeepsTables self.old self.new }
        ensures puts { IfOk result (PutsValue self.old self.new table key value) }
    {
        let Some(entry) = value.checked_add(1) else {
            return Err(NoMemory);
        };
        self.put_below(self.levels, table, key, entry)
    }

    // The node that has the entry a given number of levels below it.
    fn put_below(&mut self, level: u32, node: u32, key: u32, entry: u32) -> Result<u32, NoMemory>
        requires node { IsNode self.old.nodes.items level node }
        requires room { key < 8 ^ level }
        ensures grows { Grows self.old.nodes.items self.new.nodes.items }
        ensures levels { self.new.levels ≡ self.old.levels }
        ensures puts { IfOk result
            (Puts self.old.nodes.items self.new.nodes.items level node key entry) }
    {
        if level == 0 {
            return Ok(entry);
        }
        let branch = (key % 8) as usize;
        let child = self.child(node, branch);
        let below = self.put_below(level - 1, child, key / 8, entry)?;
        let Ok(fresh) = u32::try_from(self.nodes.len()) else {
            return Err(NoMemory);
        };
        let mut children = self.nodes[node as usize];
        children[branch] = below;
        self.nodes.push(children)?;
        Ok(fresh)
    }
}

// How many levels have room for keys below that count.
fn levels_of(keys: u32) -> u32
    ensures { keys ≤ 8 ^ result }
{
    match keys {
        0..=8 => 1,
        9..=64 => 2,
        65..=512 => 3,
        513..=4_096 => 4,
        4_097..=32_768 => 5,
        32_769..=262_144 => 6,
        262_145..=2_097_152 => 7,
        _ => 11,
    }
}
