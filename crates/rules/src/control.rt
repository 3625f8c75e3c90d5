// The control word's own bits and the check latch, in one record.
ghost use Rattle.std.specs.Prelude.{◌≡◌};
ghost use Rattle.rules.specs.Control.{on, treatment, marks_single, logs, bits_after, latches, guarded};
ghost use Rattle.rules.specs.Registers.{control_of, control_written, latch_loaded};

use codes::{Verdict, low_bits};

// The bits of the control word.
pub(crate) const PARITY_ENABLE: u16 = 1 << 0;

pub(crate) const CORRECTION_OFF: u16 = 1 << 1;

pub(crate) const DIAGNOSTIC: u16 = 1 << 2;

pub(crate) const POINTER: u16 = 1 << 3;

pub(crate) const SINGLE_ERROR: u16 = 1 << 4;

pub(crate) const INHIBIT: u16 = 1 << 13;

pub(crate) const HIGH_ADDRESS: u16 = 1 << 14;

pub(crate) const UNCORRECTABLE: u16 = 1 << 15;

// These eight: the bits that are kept as they are written.
const KEPT_BITS: u16 = 0xe01f;

// The words of one half of the part that can be guarded.
const HALF_WORDS: u32 = 16384;

// The control word's bits, but for those of the field that it shows; and the check latch.
#[derive(Clone, Copy)]
pub(crate) struct Control {
    pub(crate) bits: u16,
    pub(crate) latch: u8,
}

impl Control {
    pub(crate) fn new() -> Control
        ensures { result ≡ control_of 0 0 }
    {
        Control { bits: 0, latch: 0 }
    }

    pub(crate) fn is_on(&self, bit: u16) -> bool
        ensures { result ≡ on self.now.bits bit }
    {
        self.bits & bit != 0
    }

    // Whether the word lies in the half that diagnostics leave alone.
    fn guards(&self, word: u32) -> bool
        ensures { result ≡ guarded self.now.bits word }
    {
        self.is_on(INHIBIT) && word / HALF_WORDS == u32::from(self.is_on(POINTER))
    }

    // What a verdict on the cell of a word comes to.
    pub(crate) fn treat(&self, word: u32, verdict: Verdict) -> Verdict
        ensures { result ≡ treatment self.now.bits (guarded self.now.bits word) verdict }
    {
        match verdict {
            Verdict::Mended if self.is_on(CORRECTION_OFF) && !self.guards(word) => Verdict::Bad,
            _ => verdict,
        }
    }

    // Whether a verdict on the cell of a word sets bit 4.
    fn marks_single(&self, word: u32, verdict: Verdict) -> bool
        ensures { result ≡ marks_single self.now.bits (guarded self.now.bits word) verdict }
    {
        matches!(verdict, Verdict::Mended)
            && !(self.is_on(CORRECTION_OFF) && !self.is_on(DIAGNOSTIC) && self.guards(word))
    }

    // Whether a treatment of the cell of a word is logged.
    pub(crate) fn logs(&self, word: u32, treatment: Verdict) -> bool
        ensures { result ≡ logs self.now.bits (guarded self.now.bits word) treatment }
    {
        if self.is_on(DIAGNOSTIC) || self.is_on(CORRECTION_OFF) && self.guards(word) {
            return false;
        }
        match treatment {
            Verdict::Sound => false,
            Verdict::Mended => !self.is_on(UNCORRECTABLE),
            Verdict::Bad => true,
        }
    }

    // Sets bit 4 and bit 15 by the verdict on the cell of a word.
    pub(crate) fn mark(&mut self, word: u32, verdict: Verdict)
        ensures { self.new ≡ control_of (bits_after self.old.bits (guarded self.old.bits word) verdict) self.old.latch }
    {
        let treatment = self.treat(word, verdict);
        if self.marks_single(word, verdict) {
            self.bits |= SINGLE_ERROR;
        }
        if matches!(treatment, Verdict::Bad) {
            self.bits |= UNCORRECTABLE;
        }
    }

    // Whether the checks of a word go to and from the latch.
    pub(crate) fn latches(&self, word: u32) -> bool
        ensures { result ≡ latches self.now.bits (guarded self.now.bits word) }
    {
        self.is_on(DIAGNOSTIC) && !self.guards(word)
    }

    // The latch takes the stored checks of a word that is read.
    pub(crate) fn load_latch(&mut self, word: u32, checks: u8)
        ensures { self.new ≡ latch_loaded self.old (guarded self.old.bits word) checks }
    {
        if self.latches(word) {
            self.latch = checks;
        }
    }

    pub(crate) fn write(&mut self, word: u16)
        ensures { self.new ≡ control_written self.old word }
    {
        self.bits = word & KEPT_BITS;
        if word & DIAGNOSTIC != 0 && word & HIGH_ADDRESS == 0 {
            self.latch = low_bits(u32::from(word >> 5), 6) as u8;
        }
    }
}
