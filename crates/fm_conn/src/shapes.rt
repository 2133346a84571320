// Shapes of methods.

use crate::ends::End2;
use fm_base::Seq;
use fm_world::Call;

/// A call with the nodes of the ends of the methods that are called, by their numbers.
#[derive(Debug, Drop)]
pub struct CallShape {
    pub call: Call,
    pub ends: Seq<(End2, u32)>,
}

/// The ends of a method and its calls, with a number for each node there: two nodes have the same
/// exactly where the method's own instructions join them, calls left out.
#[derive(Debug, Drop)]
pub struct Shape {
    pub ends: Seq<(End2, u32)>,
    pub calls: Seq<CallShape>,
}
