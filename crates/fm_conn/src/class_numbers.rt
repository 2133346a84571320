// The connectivity classes of a method, as numbers.

ghost use Rattle.std.specs.Prelude.{◌≡◌, ◌<◌, length};
ghost use Rattle.fm_conn.specs.inner.NodeTables.{node_count};

use crate::nodes::Nodes;

/// A number for each node of a method: two nodes have the same exactly where they are joined.
#[derive(Debug, Drop)]
pub struct Classes {
    pub(crate) nodes: Nodes,
    // for each node by its number the least number of a node that is joined with it
    pub(crate) least: Vec<u32>,
    ghost one_each: { length least.items ≡ node_count nodes },
}

impl Classes {
    ghost use Rattle.std.specs.Prelude.{is_some, IfSome};
    ghost use Rattle.fm_conn.specs.Classes.{class_of, has_class, local_count};
    ghost use Rattle.fm_conn.specs.Nodes as node;

    /// The class of a local. Takes no memory.
    pub fn of_local(&self, k: u16) -> u32
        requires { k < local_count self.now }
        ensures { result ≡ class_of self.now (node.Local k) }
    {
        self.least[usize::from(k)]
    }

    /// The class of a word of the stack at item j that has d words below it; none exactly where
    /// there is no reference. Takes no memory.
    pub fn of_slot(&self, j: u32, d: u16) -> Option<u32>
        ensures some { is_some result ≡ has_class self.now j d }
        ensures class { IfSome result (λ class. class ≡ class_of self.now (node.Slot j d)) }
    {
        let number = self.nodes.slot(j as usize, usize::from(d))?;
        Some(self.least[number as usize])
    }

    /// The class of what static fields and thrown objects lead to. Takes no memory.
    pub fn of_global(&self) -> u32
        ensures { result ≡ class_of self.now node.Global }
    {
        self.least[self.nodes.global() as usize]
    }

    /// The class of what the method returns. Takes no memory.
    pub fn of_return(&self) -> u32
        ensures { result ≡ class_of self.now node.Return }
    {
        self.least[self.nodes.returned() as usize]
    }
}
