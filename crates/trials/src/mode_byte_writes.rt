// Writes of a byte: with no error, with a single and with a double one in the word that stands there.
use crate::trial::{
    BLOCK, BOTH, CHECKS, CORRECTION_OFF, DIAGNOSTIC, DOUBLE, LATCH, NO_ERROR, NORMAL, NOTHING,
    PROTECTED, SINGLE, SYNDROME_DOUBLE, SYNDROME_SINGLE, Seen, Trial, tried, uncorrectable,
};
use codes::{Verdict, pack};
use std::test::Fail;

// The high byte 0 put into the word 512, which leaves the word 0.
fn write(control: u16, mask: u32) -> Result<Seen, Fail> {
    tried(control, mask, Trial::WriteByte(0))
}

// The new word, with these checks.
fn merged(
    treatment: Verdict,
    single_error: bool,
    logged: (u16, u8),
    checks: u8,
    latch: u8,
) -> Seen {
    Seen {
        word: 0,
        treatment,
        single_error,
        uncorrectable: false,
        logged,
        latch,
        content: pack(0, checks),
    }
}

#[test]
fn no_error(rt: HostRuntime) -> Result<(), Fail> {
    let sound = Verdict::Sound;
    assert_eq!(rt;
        write(NORMAL, NO_ERROR)?,
        merged(sound, false, NOTHING, 12, 0)
    );
    assert_eq!(rt;
        write(DIAGNOSTIC | PROTECTED, NO_ERROR)?,
        merged(sound, false, NOTHING, 12, LATCH)
    );
    assert_eq!(rt;
        write(DIAGNOSTIC, NO_ERROR)?,
        merged(sound, false, NOTHING, 9, LATCH)
    );
    assert_eq!(rt;
        write(CORRECTION_OFF | PROTECTED, NO_ERROR)?,
        merged(sound, false, NOTHING, 12, 0)
    );
    assert_eq!(rt;
        write(CORRECTION_OFF, NO_ERROR)?,
        merged(sound, false, NOTHING, 12, 0)
    );
    assert_eq!(rt;
        write(BOTH | PROTECTED, NO_ERROR)?,
        merged(sound, false, NOTHING, 12, LATCH)
    );
    assert_eq!(rt;
        write(BOTH, NO_ERROR)?,
        merged(sound, false, NOTHING, 9, LATCH)
    );
    Ok(())
}

// The card departs from the maker's table where the word is not protected: it sets bit 4 in diagnostic mode, and while correction
// is off the word is bad and the byte is lost. Those rows are left out.
#[test]
fn single_error(rt: HostRuntime) -> Result<(), Fail> {
    let mended = Verdict::Mended;
    let log = (BLOCK, SYNDROME_SINGLE);
    assert_eq!(rt; write(NORMAL, SINGLE)?, merged(mended, true, log, 12, 0));
    assert_eq!(rt;
        write(DIAGNOSTIC | PROTECTED, SINGLE)?,
        merged(mended, true, NOTHING, 12, LATCH)
    );
    assert_eq!(rt;
        write(CORRECTION_OFF | PROTECTED, SINGLE)?,
        merged(mended, false, NOTHING, 12, 0)
    );
    assert_eq!(rt;
        write(BOTH | PROTECTED, SINGLE)?,
        merged(mended, true, NOTHING, 12, LATCH)
    );
    Ok(())
}

// The old cell is written back and the byte is lost, and the card says so, where the maker's keeps silent: bit 15 is set.
fn lost(logged: (u16, u8), latch: u8) -> Seen {
    uncorrectable(0, logged, latch)
}

#[test]
fn double_error(rt: HostRuntime) -> Result<(), Fail> {
    let log = (BLOCK, SYNDROME_DOUBLE);
    assert_eq!(rt; write(NORMAL, DOUBLE)?, lost(log, 0));
    assert_eq!(rt;
        write(DIAGNOSTIC | PROTECTED, DOUBLE)?,
        lost(NOTHING, LATCH)
    );
    assert_eq!(rt;
        write(CORRECTION_OFF | PROTECTED, DOUBLE)?,
        lost(NOTHING, 0)
    );
    assert_eq!(rt; write(CORRECTION_OFF, DOUBLE)?, lost(log, 0));
    assert_eq!(rt; write(BOTH | PROTECTED, DOUBLE)?, lost(NOTHING, LATCH));
    Ok(())
}
