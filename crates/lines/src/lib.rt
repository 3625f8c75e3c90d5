// Lines of a text: without their ends, as words, and the numbers that words write.
#![tactic(auto)]

mod line;
mod numbers;
mod words;

pub use line::line_content;
pub use numbers::number;
pub use words::Words;
