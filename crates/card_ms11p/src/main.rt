// The bench program for cards: runs jobs that place a card on a store and call it, and prints what each act answers.
#![tactic(auto)]

mod example;

use example::DEFAULT_JOB;
use language::Dialect;
use runner::Program;
use std::process::ExitCode;

// Like the other program's, but for a name, a dialect and a job, which are data already.
fn main(rt: HostRuntime) -> ExitCode {
    let program = Program {
        name: "card_ms11p",
        dialect: Dialect::Cards,
        default_job: DEFAULT_JOB,
    };
    program.run(&rt)
}
