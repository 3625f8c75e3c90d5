// The card: a module that answers bus transfers on any store with any check code.
#![tactic(auto)]

mod bench;
mod content;
mod examine;
mod module;
mod power;
mod transfers;

pub use module::Module;
pub use rules::{Misplaced, Placement, Refusal, Treatment, WordRead};
