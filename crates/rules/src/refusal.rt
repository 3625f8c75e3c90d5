// Refusals of the module's calls.
ghost use Rattle.std.specs.Prelude.{◌≡◌};
ghost use Rattle.rules.specs.Calls.{refusal_number, carried};

use stores::Fault;

// Why a call is refused, in the order in which it is tested.
#[derive(Clone, Copy, PartialEq, Eq, Debug)]
pub enum Refusal {
    // The address is 4,194,304 or more.
    PastBus,
    // The address is neither a word nor the control word of this module.
    NotOwned,
    // A byte was given to the control word, which takes words alone.
    ControlByte,
    // The store refused: its fault, whole, and the bus address as given.
    Store { address: u32, fault: Fault },
}

impl Refusal {
    // 5, 6, 7 or 8; by a match, since a variant that holds values cannot be numbered where it is declared.
    pub fn number(self) -> u8
        ensures { result ≡ refusal_number self }
    {
        match self {
            Refusal::PastBus => 5,
            Refusal::NotOwned => 6,
            Refusal::ControlByte => 7,
            Refusal::Store { .. } => 8,
        }
    }
}

// A store's answer, with its fault as the refusal of a call to that address.
pub fn carry<T>(address: u32, given: Result<T, Fault>) -> Result<T, Refusal>
    ensures { result ≡ carried address given }
{
    given.map_err(|fault| Refusal::Store { address, fault })
}
