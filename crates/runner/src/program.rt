// A program of the bench, from its arguments to its exit code.
ghost use Rattle.std.specs.Prelude.{◌≤◌};
ghost use Rattle.std.specs.Process.{exit_status};

use crate::output::Output;
use crate::reading::Lines;
use crate::stop::Stop;
use language::Dialect;
use std::io::{BufReader, BufWriter, Write};
use std::process::ExitCode;
use std::{env, fs};

#[derive(Clone, Copy)]
pub struct Program {
    pub name: &'static str,
    pub dialect: Dialect,
    // The job that is run under the name --default.
    pub default_job: &'static [u8],
}

impl Program {
    // Runs the jobs that are named, and says on standard error what ended the program early.
    // The status is 0 or 1.
    pub fn run(&self, rt: &HostRuntime) -> ExitCode
        ensures { exit_status result ≤ 1 }
    {
        let Err(stop) = self.run_arguments(rt) else {
            return ExitCode::SUCCESS;
        };
        let name = self.name;
        let _ = match stop {
            Stop::Wrong(text) => eprintln!(rt; "{text}"),
            stop => eprintln!(rt; "{name}: {stop}"),
        };
        ExitCode::FAILURE
    }

    fn run_arguments(&self, rt: &HostRuntime) -> Result<(), Stop> {
        let heap = rt.alloc();
        let mut out = Output::new(heap, self.dialect, BufWriter::new(heap, rt.stdout())?);
        let mut jobs = Vec::new(heap);
        for arg in env::args(rt)?.skip(1) {
            match arg.as_str() {
                "--help" => {
                    out.usage(self.name)?;
                    return Ok(out.flush()?);
                }
                "--echo" => out.echo = true,
                _ => jobs.push(arg)?,
            }
        }
        if jobs.is_empty() {
            self.run_named(rt, &mut out, "-")?;
        }
        let several = jobs.len() > 1;
        for name in jobs.iter() {
            if several {
                out.title(name.as_str())?;
            }
            self.run_named(rt, &mut out, name.as_str())?;
        }
        Ok(out.flush()?)
    }

    fn run_named(&self, rt: &HostRuntime, out: &mut Output, name: &str) -> Result<(), Stop> {
        let heap = rt.alloc();
        match name {
            "-" => {
                let input = BufReader::new(heap, rt.stdin())?;
                out.run_job(Lines::new(heap, "standard input", input))
            }
            "--default" => out.run_job(Lines::new(heap, name, self.default_job)),
            _ => {
                let file = fs::open(rt, name).map_err(|error| Stop::unreadable(heap, name, error))?;
                out.run_job(Lines::new(heap, name, BufReader::new(heap, file)?))
            }
        }
    }
}
