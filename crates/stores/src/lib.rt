// Stores: rows of cells of any make, that mean a count and for each cell a content or a fault.
#![tactic(auto)]

mod bench;
mod bits;
mod fault;
mod fitted;
mod flat;
mod pair;
mod refusal;
mod split;
mod store;

pub use bench::Bench;
pub use fault::{Cause, Fault, FaultNumbers};
pub use fitted::is_fitted;
pub use flat::Flat;
pub use pair::Pair;
pub use refusal::{test_cell, test_write};
pub use split::Split;
pub use store::{CONTENT_BITS, CONTENT_LIMIT, MOST_CELLS, Store};
