// A job as it runs, up to its store: the code that its lines have chosen, and what each act gives.
ghost use Rattle.std.specs.Prelude.{◌≡◌, None};
ghost use Rattle.std.specs.Option.{ok_or};
ghost use Rattle.language.specs.declared.wrong.Expected.TheVariants.{CodeFirst};
ghost use Rattle.codes.specs.Names.{coding_of};
ghost use Rattle.bench.specs.Jobs.{checks_answer, judged_answer, performed, chosen_after};

use crate::stage::Stage;
use answers::Answer;
use codes::{CodeName, pack};
use language::{Act, Dialect, Expected, Make};
use std::ops::ControlFlow;

// It means its dialect, and the code that its lines have chosen, if any.
#[derive(Clone, Copy)]
pub struct Job {
    dialect: Dialect,
    code: Option<CodeName>,
}

impl Job {
    pub fn new(dialect: Dialect) -> Job
        ensures dialect { result.dialect ≡ dialect }
        ensures code { result.code ≡ None }
    {
        Job {
            dialect,
            code: None,
        }
    }

    fn chosen(&self) -> Result<CodeName, Expected>
        ensures { result ≡ ok_or self.now.code CodeFirst }
    {
        self.code.ok_or(Expected::CodeFirst)
    }
}

// It ends with the line that asks for a store, which the job goes on with, under the code.
impl Stage for Job {
    type End = (CodeName, Make);

    ghost spoken = { λ job. job.dialect };

    ghost gives = { λ job a. performed job.code a };

    ghost Leaves = { λ old a new. (new.code ≡ chosen_after old.code a) × (new.dialect ≡ old.dialect) };

    fn dialect(&self) -> Dialect {
        self.dialect
    }

    fn perform(
        &mut self,
        act: Act,
    ) -> Result<ControlFlow<(CodeName, Make), Option<Answer>>, Expected> {
        match act {
            Act::Code(name) => {
                self.code = Some(name);
                Ok(ControlFlow::Continue(None))
            }
            Act::Store(make) => Ok(ControlFlow::Break((self.chosen()?, make))),
            Act::Checks { word } => {
                let answer = checks_answer(self.chosen()?, word);
                Ok(ControlFlow::Continue(Some(answer)))
            }
            Act::Judge { data, checks } => {
                let answer = judged_answer(self.chosen()?, data, checks);
                Ok(ControlFlow::Continue(Some(answer)))
            }
            Act::Place(_) | Act::Strike { .. } | Act::Cell { .. } => Err(Expected::StoreFirst),
            Act::Dati { .. } | Act::Datip { .. } | Act::Dato { .. } | Act::Datob { .. } => {
                Err(Expected::PlaceFirst)
            }
        }
    }
}

pub(crate) fn checks_answer(code: CodeName, word: u16) -> Answer
    ensures { result ≡ checks_answer (coding_of code) word }
{
    Answer::Checks {
        checks: code.checks(word),
    }
}

pub(crate) fn judged_answer(code: CodeName, data: u16, checks: u8) -> Answer
    ensures { result ≡ judged_answer (coding_of code) «data» checks }
{
    Answer::Judged(code.judge(pack(data, checks)))
}
