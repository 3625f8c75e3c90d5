// Running jobs: what the programs of the bench share. Each has a name, a dialect of the job language and a job of its own.
#![tactic(auto)]

mod output;
mod program;
mod reading;
mod stop;

pub use program::Program;
