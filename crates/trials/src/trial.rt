// One transfer to a card in a given mode, and what can be seen of it afterwards.
use card::{Misplaced, Module, Placement, Refusal, Treatment};
use codes::{Am2960, pack};
use std::test::Fail;
use stores::{Bench, Flat};

// Control words of the modes. The latch holds 9 in diagnostic mode, from bits 5 to 10.
pub(crate) const NORMAL: u16 = 0;

pub(crate) const DIAGNOSTIC: u16 = 4 + 9 * 32;

pub(crate) const CORRECTION_OFF: u16 = 2;

pub(crate) const BOTH: u16 = 6 + 9 * 32;

// The first 16K are protected; without it they are not.
pub(crate) const PROTECTED: u16 = 8192;

// Strikes: of data bit 9, and of data bits 0 and 1.
pub(crate) const NO_ERROR: u32 = 0;

pub(crate) const SINGLE: u32 = 512;

pub(crate) const DOUBLE: u32 = 3;

pub(crate) const LATCH: u8 = 9;

// The word that stands in the cell, 512, with its checks.
pub(crate) const STORED: u16 = 512;

pub(crate) const CHECKS: u8 = 41;

// The syndromes of the strikes: the column of bit 9, and those of bits 0 and 1 joined.
pub(crate) const SYNDROME_SINGLE: u8 = 37;

pub(crate) const SYNDROME_DOUBLE: u8 = 5;

// The transfers that are tried.
#[derive(Clone, Copy)]
pub(crate) enum Trial {
    Read,
    Write(u16),
    // To the high byte.
    WriteByte(u8),
}

#[derive(Clone, Copy, PartialEq, Eq, Debug)]
pub(crate) struct Seen {
    // What a read answered; 0 for a write.
    pub(crate) word: u16,
    pub(crate) treatment: Treatment,
    pub(crate) single_error: bool,
    pub(crate) uncorrectable: bool,
    // The block and the syndrome of the log.
    pub(crate) logged: (u16, u8),
    pub(crate) latch: u8,
    pub(crate) content: u32,
}

// The block of the word that is tried, and a log that is clear.
pub(crate) const BLOCK: u16 = 8;

pub(crate) const NOTHING: (u16, u8) = (0, 0);

const CONTROL: u32 = 0o17772100;

const ADDRESS: u32 = 16384;

// The bits 5 to 11 of the control word after bits 14 and 2 are written as given, with the latch kept.
fn field(module: &mut Module<Flat<'_>, Am2960>, bits: u16) -> Result<u16, Fail> {
    module.dato(CONTROL, bits)?;
    Ok((module.dati(CONTROL)?.word >> 5) & 0x7f)
}

fn transfer(module: &mut Module<Flat<'_>, Am2960>, trial: Trial) -> Result<(u16, Treatment), Fail> {
    match trial {
        Trial::Read => {
            let read = module.dati(ADDRESS)?;
            Ok((read.word, read.treatment))
        }
        Trial::Write(word) => Ok((0, module.dato(ADDRESS, word)?)),
        Trial::WriteByte(byte) => Ok((0, module.datob(ADDRESS + 1, byte)?)),
    }
}

// What is seen where the cell was sound, or was not looked at: nothing is marked or logged.
pub(crate) fn unlogged(word: u16, latch: u8, content: u32) -> Seen {
    Seen {
        word,
        treatment: Treatment::Sound,
        single_error: false,
        uncorrectable: false,
        logged: NOTHING,
        latch,
        content,
    }
}

// What is seen of the word 512 struck twice: the cell stays as it is, and bit 15 is set.
pub(crate) fn uncorrectable(word: u16, logged: (u16, u8), latch: u8) -> Seen {
    Seen {
        word,
        treatment: Treatment::Bad,
        single_error: false,
        uncorrectable: true,
        logged,
        latch,
        content: pack(515, CHECKS),
    }
}

// Stores 512 in the first word of a card, strikes it, and makes the transfer in the mode that the control word asks for.
pub(crate) fn tried(control: u16, mask: u32, trial: Trial) -> Result<Seen, Fail> {
    let mut cells = [0; 2];
    let placement = Placement::new(8192, 8192, 0)?;
    let mut module = Module::new(placement, Flat::new(&mut cells), Am2960);
    module.dato(ADDRESS, STORED)?;
    module.upset(0, mask)?;
    module.dato(CONTROL, control)?;
    let (word, treatment) = transfer(&mut module, trial)?;
    let shown = module.dati(CONTROL)?.word;
    let content = module.content(0)?;
    let syndrome = (field(&mut module, 4 + 16384)? & 0x3f) as u8;
    let high = field(&mut module, 16384)?;
    let low = field(&mut module, 0)?;
    Ok(Seen {
        word,
        treatment,
        single_error: shown & 16 != 0,
        uncorrectable: shown & 32768 != 0,
        logged: ((high << 7) | low, syndrome),
        latch: if control & 4 != 0 {
            ((shown >> 5) & 0x3f) as u8
        } else {
            0
        },
        content,
    })
}
