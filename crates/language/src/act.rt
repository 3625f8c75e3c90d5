// The acts that a line of a job can ask for.
use crate::make::Make;
use codes::CodeName;

#[derive(Clone, Copy)]
pub enum Act {
    Code(CodeName),
    Store(Make),
    Place(AskedPlacement),
    Checks { word: u16 },
    Judge { data: u16, checks: u8 },
    Dati { address: u32 },
    Datip { address: u32 },
    Dato { address: u32, word: u16 },
    Datob { address: u32, byte: u8 },
    Strike { cell: u32, mask: u32 },
    Cell { cell: u32 },
}

// A placement as a line asks for it; whether there is one is for the card to say.
#[derive(Clone, Copy, PartialEq, Eq, Debug)]
pub struct AskedPlacement {
    pub capacity: u32,
    pub start: u32,
    pub control: u32,
}
