// The stages of a job: its head, its time with a store, its time with a card. Each takes lines until one of them ends it.
ghost use Rattle.std.specs.Prelude.{◌≡◌, Option, None, Result};
ghost use Rattle.std.specs.declared.ops.ControlFlow.{ControlFlow};
ghost use Rattle.std.specs.declared.ops.ControlFlow.TheVariants.{Continue};
ghost use Rattle.answers.specs.declared.answer.Answer.{Answer};
ghost use Rattle.language.specs.declared.act.Act.{Act};
ghost use Rattle.language.specs.declared.dialect.Dialect.{Dialect};
ghost use Rattle.language.specs.declared.wrong.Expected.{Expected};
ghost use Rattle.language.specs.Acts.{told, parsed};
ghost use Rattle.bench.specs.Lines.{said_of, line_given, LineLeaves};

use answers::Answer;
use language::{Act, Dialect, Expected, Wrong, parse_line};
use lines::Words;
use std::ops::ControlFlow;

pub trait Stage {
    // What ends it, and what the next stage begins with.
    type End;

    ghost spoken: { Self → Dialect };

    // What an act gives.
    ghost gives: { Self → Act → Result (ControlFlow Self.End (Option Answer)) Expected };

    // What an act leaves.
    ghost Leaves: { Self → Act → Self → Type 0 };

    // The dialect of the job.
    fn dialect(&self) -> Dialect
        ensures { result ≡ spoken self.now };

    // Carries an act out, or says what was expected in its place.
    fn perform(&mut self, act: Act) -> Result<ControlFlow<Self::End, Option<Answer>>, Expected>
        ensures answers { result ≡ gives self.old act }
        ensures leaves { Leaves self.old act self.new };

    // Carries a line out, or says what is wrong with it. A wrong line and one without an act change nothing.
    final fn run_line<'a>(
        &mut self,
        line: &'a [u8],
    ) -> Result<ControlFlow<Self::End, Option<Answer>>, Wrong<'a>>
        ensures answers { told result ≡ line_given (spoken self.old) (gives self.old) (Continue None) line.now }
        ensures leaves { LineLeaves (Leaves self.old) self.old self.new (parsed (spoken self.old) line.now) }
    {
        match parse_line(self.dialect(), line)? {
            None => Ok(ControlFlow::Continue(None)),
            Some(act) => said_of(line, self.perform(act)),
        }
    }
}

// A mistake is said of the line's first word.
fn said_of<'a, T>(line: &'a [u8], given: Result<T, Expected>) -> Result<T, Wrong<'a>>
    ensures { told result ≡ said_of line.now given }
{
    given.map_err(|expected| Wrong {
        expected,
        found: Words::new(line).next(),
    })
}
