// Why a line of a job was refused.
ghost use Rattle.std.specs.Prelude.{◌≡◌, Some};
ghost use Rattle.answers.specs.Answers.{refused_number, refused_carries, refused_text};

use card::{Misplaced, Refusal};
use maps::NoMap;
use std::fmt;
use stores::{Fault, FaultNumbers};

#[derive(Clone, Copy, PartialEq, Eq, Debug)]
pub enum Refused {
    // There is no such bank map.
    Map(NoMap),
    // There is no such placement.
    Placement(Misplaced),
    // The card refused a call.
    Call(Refusal),
    // A refusal of which only its number is known, and the bus address and the fault where it carries them.
    Numbered {
        number: u8,
        carried: Option<(u32, Fault)>,
    },
}

impl Refused {
    // 1 to 3 of placements, 4 of bank maps, 5 to 8 of calls, and its own of one that is known by its number.
    pub fn number(self) -> u8
        ensures { result ≡ refused_number self }
    {
        match self {
            Refused::Map(map) => map.number(),
            Refused::Placement(placement) => placement.number(),
            Refused::Call(call) => call.number(),
            Refused::Numbered { number, .. } => number,
        }
    }

    fn carried(self) -> Option<(u32, Fault)>
        ensures { result ≡ refused_carries self }
    {
        match self {
            Refused::Call(Refusal::Store { address, fault }) => Some((address, fault)),
            Refused::Numbered { carried, .. } => carried,
            _ => None,
        }
    }
}

// The number, and what the refusal carries; by hand, since a derived text has no contract.
impl fmt::Display for Refused {
    ghost output = { λ r. Some (refused_text r) };

    fn fmt<W: fmt::Write>(&self, f: &mut fmt::Formatter<W>) -> fmt::Result {
        let number = self.number();
        match self.carried() {
            Some((address, fault)) => {
                let numbers = FaultNumbers { fault };
                write!(f, "{number} address {address} cause {numbers}")
            }
            None => write!(f, "{number}"),
        }
    }
}
