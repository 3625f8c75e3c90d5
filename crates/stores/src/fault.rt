// Faults: why a store refuses, which layer says so, and of which of its cells.
ghost use Rattle.std.specs.Prelude.{◌≡◌, Some};
ghost use Rattle.stores.specs.Faults.{cause_number};
ghost use Rattle.stores.specs.Texts.{numbers_text, fault_text};

use std::fmt;

// Why a store refuses, in the order in which a layer tests.
#[derive(Clone, Copy, PartialEq, Eq, Debug)]
pub enum Cause {
    // The cell is at or past the count.
    PastCount = 1,
    // The content to be written is 4,194,304 or more.
    TooWide = 2,
    // The cell is not fitted.
    NotFitted = 3,
}

impl Cause {
    // 1, 2 or 3.
    pub fn number(self) -> u8
        ensures { result ≡ cause_number self }
    {
        self as u8
    }
}

// The cell is numbered as the layer that raised the fault numbers it. Layers above pass a fault on whole.
#[derive(Clone, Copy, PartialEq, Eq, Debug)]
pub struct Fault {
    pub cause: Cause,
    pub layer: u8,
    pub cell: u32,
}

// The numbers of a fault as text: what stands behind the word `cause`, which is written in one piece with the words before it.
#[derive(Clone, Copy, PartialEq, Eq, Debug)]
pub struct FaultNumbers {
    pub fault: Fault,
}

// By hand: a derived text has no contract.
impl fmt::Display for FaultNumbers {
    ghost output = { λ n. Some (numbers_text n.fault) };

    fn fmt<W: fmt::Write>(&self, f: &mut fmt::Formatter<W>) -> fmt::Result {
        let Fault { cause, layer, cell } = self.fault;
        write!(f, "{} layer {layer} cell {cell}", cause.number())
    }
}

// By hand, as above.
impl fmt::Display for Fault {
    ghost output = { λ f. Some (fault_text f) };

    fn fmt<W: fmt::Write>(&self, f: &mut fmt::Formatter<W>) -> fmt::Result {
        let numbers = FaultNumbers { fault: *self };
        write!(f, "cause {numbers}")
    }
}
