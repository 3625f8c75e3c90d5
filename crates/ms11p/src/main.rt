// The bench program: runs jobs of the job language, and prints what each act answers.
#![tactic(auto)]

mod example;

use example::DEFAULT_JOB;
use language::Dialect;
use runner::Program;
use std::process::ExitCode;

// Like the other program's, but for a name, a dialect and a job, which are data already.
fn main(rt: HostRuntime) -> ExitCode {
    let program = Program {
        name: "ms11p",
        dialect: Dialect::Stores,
        default_job: DEFAULT_JOB,
    };
    program.run(&rt)
}
