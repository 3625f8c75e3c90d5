// The registers: the control word with its latch, and the log of an error.
ghost use Rattle.std.specs.Prelude.{◌≡◌};
ghost use Rattle.rules.specs.Control.{on, guarded, treatment, diagnostic, high_address, parity_enable};
ghost use Rattle.rules.specs.Registers.{cleared, field as shown_field, shown, examined_registers, with_control, control_written, latch_loaded, checks_latched, ReadsAsWritten};

use crate::answer::Treatment;
use crate::control::{Control, DIAGNOSTIC, HIGH_ADDRESS, PARITY_ENABLE};
use codes::{Verdict, low_bits};

// The block is address bits 11 to 21 of the word that was logged.
#[derive(Clone, Copy)]
pub struct Registers {
    control: Control,
    block: u16,
    syndrome: u8,
}

impl Registers {
    // All clear, as the power-up leaves them.
    pub fn new() -> Registers
        ensures { result ≡ cleared }
    {
        Registers {
            control: Control::new(),
            block: 0,
            syndrome: 0,
        }
    }

    // The control word as it is read.
    pub fn shown(&self) -> u16
        ensures { result ≡ shown self.now }
    {
        (self.field() << 5) | self.control.bits
    }

    // What bits 5 to 11 show.
    fn field(&self) -> u16
        ensures { result ≡ shown_field (on self.now.control.bits high_address) (on self.now.control.bits diagnostic) self.now }
    {
        let block = u32::from(self.block);
        let field = match (
            self.control.is_on(HIGH_ADDRESS),
            self.control.is_on(DIAGNOSTIC),
        ) {
            (false, false) => low_bits(block, 7),
            (true, false) => low_bits(block >> 7, 4),
            (false, true) => low_bits(u32::from(self.control.latch), 6),
            (true, true) => low_bits(u32::from(self.syndrome), 6),
        };
        field as u16
    }

    pub fn write_control(&mut self, word: u16)
        ensures leaves { self.new ≡ with_control self.old (control_written self.old.control word) }
        ensures reads { ReadsAsWritten self.new word }
    {
        self.control.write(word);
    }

    // Sets bit 4, the log and bit 15 by the verdict on the cell of a word, and answers its treatment.
    pub fn examine(&mut self, word: u32, verdict: Verdict, block: u16, syndrome: u8) -> Treatment
        ensures answers { result ≡ treatment self.old.control.bits (guarded self.old.control.bits word) verdict }
        ensures leaves { self.new ≡ examined_registers self.old (guarded self.old.control.bits word) verdict block syndrome }
    {
        let treatment = self.control.treat(word, verdict);
        if self.control.logs(word, treatment) {
            self.block = block;
            self.syndrome = syndrome;
        }
        self.control.mark(word, verdict);
        treatment
    }

    // Whether a word whose treatment is bad carries the parity mark.
    pub fn parity_enabled(&self) -> bool
        ensures { result ≡ on self.now.control.bits parity_enable }
    {
        self.control.is_on(PARITY_ENABLE)
    }

    // The latch takes the stored checks of a word that is read, where diagnostics may.
    pub fn load_latch(&mut self, word: u32, checks: u8)
        ensures { self.new ≡ with_control self.old (latch_loaded self.old.control (guarded self.old.control.bits word) checks) }
    {
        self.control.load_latch(word, checks);
    }

    // The latch, where a word is written with its checks in the place of the word's own.
    pub fn latched_checks(&self, word: u32) -> Option<u8>
        ensures { result ≡ checks_latched self.now.control (guarded self.now.control.bits word) }
    {
        self.control.latches(word).then_some(self.control.latch)
    }
}
