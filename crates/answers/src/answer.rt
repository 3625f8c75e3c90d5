// What an act answers, and how that is said.
ghost use Rattle.std.specs.Prelude.{◌≡◌, Some};
ghost use Rattle.answers.specs.Answers.{parity_text, answer_text};

use crate::refused::Refused;
use card::{Treatment, WordRead};
use codes::Judgement;
use std::fmt;
use stores::{Fault, FaultNumbers};

#[derive(Clone, Copy, PartialEq, Eq, Debug)]
pub enum Answer {
    Checks { checks: u8 },
    Judged(Judgement),
    // A word that was read.
    Word(WordRead),
    // A word or a byte that was given.
    Treated { treatment: Treatment },
    Struck,
    Content { content: u32 },
    Faulted(Fault),
    Refused(Refused),
}

// One line of text, without its end; by hand, since a derived text has no contract.
impl fmt::Display for Answer {
    ghost output = { λ a. Some (answer_text a) };

    fn fmt<W: fmt::Write>(&self, f: &mut fmt::Formatter<W>) -> fmt::Result {
        match *self {
            Answer::Checks { checks } => write!(f, "checks {checks}"),
            Answer::Judged(
                Judgement {
                    verdict,
                    word,
                    syndrome,
                },
            ) => write!(f, "{verdict} {word} syndrome {syndrome}"),
            Answer::Word(
                WordRead {
                    word,
                    treatment,
                    parity,
                },
            ) => {
                let mark = parity_text(parity);
                write!(f, "word {word} {treatment}{mark}")
            }
            Answer::Treated { treatment } => write!(f, "{treatment}"),
            Answer::Struck => write!(f, "struck"),
            Answer::Content { content } => write!(f, "content {content}"),
            Answer::Faulted(fault) => {
                let numbers = FaultNumbers { fault };
                write!(f, "fault cause {numbers}")
            }
            Answer::Refused(refused) => write!(f, "refused {refused}"),
        }
    }
}

// Not the text of a type: the mark, or nothing.
fn parity_text(parity: bool) -> &'static str
    ensures { result.now ≡ parity_text parity }
{
    if parity { " parity" } else { "" }
}
