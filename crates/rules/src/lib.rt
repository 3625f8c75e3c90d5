// The rules of the card: placements, registers and tallies, and what each call answers and leaves, whatever the store and the code.
#![tactic(auto)]

mod answer;
mod control;
mod look;
mod placement;
mod refusal;
mod registers;
mod tally;

pub use answer::{Treatment, WordRead};
pub use look::Look;
pub use placement::Placement;
pub use placement::make::{Misplaced, Target};
pub use refusal::{Refusal, carry};
pub use registers::Registers;
pub use tally::Tallies;
