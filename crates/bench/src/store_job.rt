// A job on a bench store: what each act answers, and what it does to the store.
ghost use Rattle.std.specs.Prelude.{◌≡◌};
ghost use Rattle.answers.specs.Answers.{totals_of};
ghost use Rattle.bench.specs.Jobs.{struck_answer, content_answer, performed_on, store_after, totals_by};

use crate::job::{checks_answer, judged_answer};
use crate::stage::Stage;
use answers::{Answer, Totals};
use codes::CodeName;
use language::{Act, AskedPlacement, Dialect, Expected};
use std::ops::ControlFlow;
use stores::{Bench, Fault};

// It means its dialect, the code of the job's head, its store, and what the job has come to so far.
#[derive(Drop)]
pub struct StoreJob<B: Bench> {
    dialect: Dialect,
    pub code: CodeName,
    pub(crate) store: B,
    pub totals: Totals,
}

impl<B: Bench> StoreJob<B> {
    pub fn new(dialect: Dialect, code: CodeName, store: B) -> StoreJob<B>
        ensures dialect { result.dialect ≡ dialect }
        ensures code { result.code ≡ code }
        ensures store { result.store ≡ store }
        ensures totals { result.totals ≡ totals_of 0 0 0 }
    {
        StoreJob {
            dialect,
            code,
            store,
            totals: Totals::new(),
        }
    }
}

// It ends with the line that asks for a card, which the job goes on with, if there can be one.
impl<B: Bench> Stage for StoreJob<B> {
    type End = AskedPlacement;

    ghost spoken = { λ job. job.dialect };

    ghost gives = { λ job a. performed_on job.dialect job.code (B.Store.meaning job.store) a };

    ghost Leaves = { λ old a new. (B.Store.meaning new.store ≡ store_after (B.Store.meaning old.store) a)
        × (new.totals ≡ totals_by old.totals (performed_on old.dialect old.code (B.Store.meaning old.store) a))
        × (B.Store.outside new.store ≡ B.Store.outside old.store) × (new.code ≡ old.code) × (new.dialect ≡ old.dialect) };

    fn dialect(&self) -> Dialect {
        self.dialect
    }

    fn perform(
        &mut self,
        act: Act,
    ) -> Result<ControlFlow<AskedPlacement, Option<Answer>>, Expected> {
        match act {
            Act::Code(_) | Act::Store(_) => Err(Expected::HeadOnce(self.dialect)),
            Act::Place(asked) => Ok(ControlFlow::Break(asked)),
            Act::Checks { word } => {
                let answer = checks_answer(self.code, word);
                Ok(ControlFlow::Continue(Some(answer)))
            }
            Act::Judge { data, checks } => {
                let answer = judged_answer(self.code, data, checks);
                Ok(ControlFlow::Continue(Some(answer)))
            }
            Act::Strike { cell, mask } => {
                let answer = struck_answer(self.store.upset(cell, mask));
                self.totals.count(answer);
                Ok(ControlFlow::Continue(Some(answer)))
            }
            Act::Cell { cell } => {
                let answer = content_answer(self.store.read(cell));
                Ok(ControlFlow::Continue(Some(answer)))
            }
            Act::Dati { .. } | Act::Datip { .. } | Act::Dato { .. } | Act::Datob { .. } => {
                Err(Expected::PlaceFirst)
            }
        }
    }
}

pub(crate) fn struck_answer(upset: Result<(), Fault>) -> Answer
    ensures { result ≡ struck_answer upset }
{
    upset.map_or_else(Answer::Faulted, |()| Answer::Struck)
}

pub(crate) fn content_answer(read: Result<u32, Fault>) -> Answer
    ensures { result ≡ content_answer read }
{
    read.map_or_else(Answer::Faulted, |content| Answer::Content { content })
}
