// A job on a card over a bench store: what each line answers, and what it does to the card.
ghost use Rattle.std.specs.Prelude.{◌≡◌};
ghost use Rattle.rules.specs.Calls.{read_answer, wrote_answer, refused as refused_call};
ghost use Rattle.rules.specs.Power.{powered_up};
ghost use Rattle.rules.specs.Targets.{placed};
ghost use Rattle.card.specs.Modules.{state_of, on_module, Stays};
ghost use Rattle.language.specs.declared.dialect.Dialect.TheVariants.{Cards};
ghost use Rattle.bench.specs.Cards.{call_answer, performed_card, answered, totals_after, card_after};

use crate::stage::Stage;
use crate::store_job::{StoreJob, content_answer, struck_answer};
use answers::{Answer, Refused, Totals};
use card::{Module, Placement, Refusal, Treatment, WordRead};
use codes::{Code, pack};
use language::{Act, Dialect, Expected};
use std::convert::Infallible;
use std::ops::ControlFlow;
use stores::Bench;

// It means its card, and what the job has come to so far.
#[derive(Drop)]
pub struct CardJob<B: Bench, C: Code> {
    module: Module<B, C>,
    pub totals: Totals,
}

impl<B: Bench, C: Code> CardJob<B, C> {
    // Powers a card up on the store of a job, which goes on.
    pub fn new(placement: Placement, job: StoreJob<B>, code: C) -> CardJob<B, C>
        ensures powered { state_of B.Store.meaning result.module ≡ powered_up C.Code.meaning (placed placement) (B.Store.meaning job.store) }
        ensures placement { result.module.placement ≡ placement }
        ensures memory { B.Store.outside result.module.store ≡ B.Store.outside job.store }
        ensures totals { result.totals ≡ job.totals }
    {
        let totals = job.totals;
        let StoreJob { store, .. } = job;
        CardJob {
            module: Module::new(placement, store, code),
            totals,
        }
    }

    fn answer(&mut self, act: Act) -> Result<Answer, Expected>
        ensures answers { result ≡ on_module performed_card C.Code.meaning B.Store.meaning self.old.module act }
        ensures leaves { state_of B.Store.meaning self.new.module
            ≡ on_module card_after C.Code.meaning B.Store.meaning self.old.module act }
        ensures totals { self.new.totals ≡ self.old.totals }
        ensures stays { Stays B.Store.outside self.old.module self.new.module }
    {
        match act {
            Act::Code(_) | Act::Store(_) | Act::Place(_) => {
                Err(Expected::HeadOnce(Dialect::Cards))
            },
            Act::Checks { word } => Ok(Answer::Checks {
                checks: C::checks(word),
            }),
            Act::Judge { data, checks } => Ok(Answer::Judged(C::judge(pack(data, checks)))),
            Act::Dati { address } => Ok(word_answer(self.module.dati(address))),
            Act::Datip { address } => Ok(word_answer(self.module.datip(address))),
            Act::Dato { address, word } => Ok(treated_answer(self.module.dato(address, word))),
            Act::Datob { address, byte } => Ok(treated_answer(self.module.datob(address, byte))),
            Act::Strike { cell, mask } => Ok(struck_answer(self.module.upset(cell, mask))),
            Act::Cell { cell } => Ok(content_answer(self.module.content(cell))),
        }
    }
}

// No line ends it.
impl<B: Bench, C: Code> Stage for CardJob<B, C> {
    type End = Infallible;

    ghost spoken = { λ _. Cards };

    ghost gives = { λ job a. answered (on_module performed_card C.Code.meaning B.Store.meaning job.module a) };

    ghost Leaves = { λ old a new. (state_of B.Store.meaning new.module ≡ on_module card_after C.Code.meaning B.Store.meaning old.module a)
        × (new.totals ≡ totals_after old.totals (on_module performed_card C.Code.meaning B.Store.meaning old.module a))
        × Stays B.Store.outside old.module new.module };

    fn dialect(&self) -> Dialect {
        Dialect::Cards
    }

    fn perform(&mut self, act: Act) -> Result<ControlFlow<Infallible, Option<Answer>>, Expected> {
        let answer = self.answer(act)?;
        self.totals.count(answer);
        Ok(ControlFlow::Continue(Some(answer)))
    }
}

fn word_answer(given: Result<WordRead, Refusal>) -> Answer
    ensures { result ≡ call_answer (read_answer given) }
{
    given.map_or_else(refused, Answer::Word)
}

fn treated_answer(given: Result<Treatment, Refusal>) -> Answer
    ensures { result ≡ call_answer (wrote_answer given) }
{
    given.map_or_else(refused, |treatment| Answer::Treated { treatment })
}

fn refused(refusal: Refusal) -> Answer
    ensures { result ≡ call_answer (refused_call refusal) }
{
    Answer::Refused(Refused::Call(refusal))
}
