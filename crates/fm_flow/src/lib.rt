// The flow of control between the items of a code, and live local variables.
//
// The layers above use that the edges of a flow are those of its code, that it says which items are
// reachable, and that a local is said to be live exactly where a path leads to a load of it. Walks of
// their own share the step that marks items.
#![tactic(auto)]

mod edge_lists;
mod edge_tables;
mod error;
mod flow;
mod item_edges;
mod item_rows;
mod lists;
mod live_rows;
mod live_walk;
mod marking;
mod reach;
mod sources;
mod uses;

pub use error::FlowFail;
pub use flow::Flow;
pub use item_rows::empty_rows;
pub use live_rows::{LiveRows, live};
pub use marking::mark;
