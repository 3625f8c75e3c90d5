// What a job comes to: calls that were granted and refused, and strikes that were carried out.
ghost use Rattle.std.specs.Prelude.{◌≡◌, Some};
ghost use Rattle.answers.specs.Answers.{totals_of, counted, totals_text};

use crate::answer::Answer;
use std::fmt;

#[derive(Clone, Copy)]
pub struct Totals {
    granted: u64,
    refused: u64,
    struck: u64,
}

impl Totals {
    pub fn new() -> Totals
        ensures { result ≡ totals_of 0 0 0 }
    {
        Totals {
            granted: 0,
            refused: 0,
            struck: 0,
        }
    }

    // Counts an answer, if it is a call's or a strike's.
    pub fn count(&mut self, answer: Answer)
        ensures { self.new ≡ counted self.old answer }
    {
        match answer {
            Answer::Word(_) | Answer::Treated { .. } => {
                self.granted = self.granted.saturating_add(1)
            }
            Answer::Refused(_) => self.refused = self.refused.saturating_add(1),
            Answer::Struck => self.struck = self.struck.saturating_add(1),
            _ => {}
        }
    }
}

// The closing line of a job, without its end; by hand, since a derived text has no contract.
impl fmt::Display for Totals {
    ghost output = { λ t. Some (totals_text t) };

    fn fmt<W: fmt::Write>(&self, f: &mut fmt::Formatter<W>) -> fmt::Result {
        let Totals {
            granted,
            refused,
            struck,
        } = *self;
        let calls = granted.saturating_add(refused);
        write!(
            f,
            "done: {calls} calls, {granted} granted, {refused} refused, {struck} struck"
        )
    }
}
