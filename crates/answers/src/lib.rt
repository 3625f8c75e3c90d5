// What acts answer and what a job comes to, and how both are said.
#![tactic(auto)]

mod answer;
mod refused;
mod totals;

pub use answer::Answer;
pub use refused::Refused;
pub use totals::Totals;
