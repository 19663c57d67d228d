// The solvers: who can force a run where, how long fills hold, the least fills that hold for ever, and the moves that keep them.
#![tactic(auto)]

mod arcs;
mod budget;
mod buffer;
mod changing;
mod edge_table;
pub mod forcing;
mod levels;
pub mod marking;
mod needing;
mod needs;
mod origins;
pub mod planning;
mod preferring;
pub mod rows;
mod scratch;
mod settling;
mod sources;
mod spreading;
mod tracing;
pub mod unfolded;

pub use forcing::forced;
pub use marking::{mark, marks_needed};
pub use planning::plan;
pub use rows::least;
pub use unfolded::{Unfolded, fills};

// The number that stands for never in a buffer.
// kept as it is: marks and rows are plain numbers in memory that the caller gives.
pub const NEVER: u32 = 4_294_967_295;
