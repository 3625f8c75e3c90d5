// Check codes: what a code is, the law that every code keeps, and two codes that keep it.
#![tactic(auto)]

mod am2960;
mod bits;
mod cells;
mod code;
mod columns;
mod examples;
mod names;
mod parity;
mod verdict;

pub use am2960::Am2960;
pub use bits::low_bits;
pub use cells::{data_of, encode, encoded_word, pack, stored_checks};
pub use code::Code;
pub use columns::columns_fit;
pub use examples::{Example, worked_examples};
pub use names::CodeName;
pub use parity::ByteParity;
pub use verdict::{Judgement, Verdict};
