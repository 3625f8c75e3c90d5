// Making a placement, and finding what a bus address names to it.
ghost use Rattle.std.specs.Prelude.{◌≡◌};
ghost use Rattle.rules.specs.Targets.{block_of, made_placement, new_placement, misplaced_number, placed, target_of};

use crate::placement::Placement;
use crate::refusal::Refusal;
use codes::low_bits;

// No module has more words than this.
const MOST_WORDS: u32 = 524288;

// Capacities and starting words are multiples of this.
const BLOCK_WORDS: u32 = 8192;

// The words of the bus below the page of the device registers.
const MEMORY_WORDS: u32 = 1966080;

const MOST_CONTROL: u32 = 15;

// The bytes of the bus.
const BUS_BYTES: u32 = 4194304;

// The control word of number 0: octal address 17772100, which is this word of the bus.
const FIRST_CONTROL: u32 = 0o17772100 / 2;

// Why a placement is refused, in the order in which it is tested.
#[derive(Clone, Copy, PartialEq, Eq, Debug)]
pub enum Misplaced {
    // The capacity is 0, too large or no multiple of 8,192.
    Capacity = 1,
    // The start is no multiple of 8,192, or the words would end past the memory's part of the bus.
    Start = 2,
    // The control number is above 15.
    Control = 3,
}

impl Misplaced {
    // 1, 2 or 3.
    pub fn number(self) -> u8
        ensures { result ≡ misplaced_number self }
    {
        self as u8
    }
}

// What an address of the bus names in a module.
#[derive(Clone, Copy)]
pub enum Target {
    // The word of this number, counted from the module's first.
    Word(u32),
    ControlWord,
}

impl Placement {
    pub fn new(capacity: u32, start: u32, control: u32) -> Result<Placement, Misplaced>
        ensures { made_placement result ≡ new_placement capacity start control }
    {
        if capacity == 0 || capacity > MOST_WORDS || capacity % BLOCK_WORDS != 0 {
            return Err(Misplaced::Capacity);
        }
        if start % BLOCK_WORDS != 0 || start > MEMORY_WORDS - capacity {
            return Err(Misplaced::Start);
        }
        if control > MOST_CONTROL {
            return Err(Misplaced::Control);
        }
        Ok(Placement {
            capacity,
            start,
            control,
        })
    }

    pub fn capacity(&self) -> u32
        ensures { result ≡ (placed self.now).capacity }
    {
        self.capacity
    }

    // The block of a word of the module: bits 11 to 21 of its byte address.
    pub fn block(&self, word: u32) -> u16
        ensures { result ≡ block_of (placed self.now) word }
    {
        let address = 2 * (u64::from(self.start) + u64::from(word));
        low_bits((address >> 11) as u32, 11) as u16
    }

    // The word or control word at a bus address, whose bit 0 only tells the bytes of a word apart.
    pub fn target(&self, address: u32) -> Result<Target, Refusal>
        ensures { result ≡ target_of (placed self.now) address }
    {
        if address >= BUS_BYTES {
            return Err(Refusal::PastBus);
        }
        let word = address / 2;
        if word >= self.start && word - self.start < self.capacity {
            Ok(Target::Word(word - self.start))
        } else if word == FIRST_CONTROL + self.control {
            Ok(Target::ControlWord)
        } else {
            Err(Refusal::NotOwned)
        }
    }
}
