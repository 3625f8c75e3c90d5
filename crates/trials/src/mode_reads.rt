// Reads with no error, with a single one and with a double one.
use crate::trial::{
    BLOCK, BOTH, CHECKS, CORRECTION_OFF, DIAGNOSTIC, DOUBLE, LATCH, NO_ERROR, NORMAL, NOTHING,
    PROTECTED, SINGLE, STORED, SYNDROME_DOUBLE, SYNDROME_SINGLE, Seen, Trial, tried, uncorrectable,
    unlogged,
};
use codes::{Verdict, pack};
use std::test::Fail;

// A read with no error: the word is placed on the bus, and the latch holds what is given.
fn sound(latch: u8) -> Seen {
    unlogged(STORED, latch, pack(512, CHECKS))
}

fn read(control: u16, mask: u32) -> Result<Seen, Fail> {
    tried(control, mask, Trial::Read)
}

#[test]
fn no_error(rt: HostRuntime) -> Result<(), Fail> {
    assert_eq!(rt; read(NORMAL, NO_ERROR)?, sound(0));
    assert_eq!(rt; read(DIAGNOSTIC | PROTECTED, NO_ERROR)?, sound(LATCH));
    assert_eq!(rt;
        read(DIAGNOSTIC, NO_ERROR)?,
        sound(41),
        "the checks that were read are in the latch"
    );
    assert_eq!(rt; read(CORRECTION_OFF | PROTECTED, NO_ERROR)?, sound(0));
    assert_eq!(rt; read(CORRECTION_OFF, NO_ERROR)?, sound(0));
    assert_eq!(rt; read(BOTH | PROTECTED, NO_ERROR)?, sound(LATCH));
    assert_eq!(rt; read(BOTH, NO_ERROR)?, sound(41));
    Ok(())
}

// A read whose word is corrected.
fn corrected(single_error: bool, logged: (u16, u8), latch: u8) -> Seen {
    Seen {
        word: STORED,
        treatment: Verdict::Mended,
        single_error,
        uncorrectable: false,
        logged,
        latch,
        content: pack(0, CHECKS),
    }
}

// A read of a single error without correction.
fn uncorrected(logged: (u16, u8), latch: u8) -> Seen {
    Seen {
        word: 0,
        treatment: Verdict::Bad,
        single_error: true,
        uncorrectable: true,
        logged,
        latch,
        content: pack(0, CHECKS),
    }
}

#[test]
fn single_error(rt: HostRuntime) -> Result<(), Fail> {
    let log = (BLOCK, SYNDROME_SINGLE);
    assert_eq!(rt; read(NORMAL, SINGLE)?, corrected(true, log, 0));
    assert_eq!(rt;
        read(DIAGNOSTIC | PROTECTED, SINGLE)?,
        corrected(true, NOTHING, LATCH)
    );
    assert_eq!(rt; read(DIAGNOSTIC, SINGLE)?, corrected(true, NOTHING, 41));
    assert_eq!(rt;
        read(CORRECTION_OFF | PROTECTED, SINGLE)?,
        corrected(false, NOTHING, 0)
    );
    assert_eq!(rt; read(CORRECTION_OFF, SINGLE)?, uncorrected(log, 0));
    assert_eq!(rt;
        read(BOTH | PROTECTED, SINGLE)?,
        corrected(true, NOTHING, LATCH)
    );
    assert_eq!(rt; read(BOTH, SINGLE)?, uncorrected(NOTHING, 41));
    Ok(())
}

// A read of a double error.
fn bad(logged: (u16, u8), latch: u8) -> Seen {
    uncorrectable(STORED ^ 3, logged, latch)
}

// Of a protected word while correction alone is off the card logs nothing, where the maker's table does: that row is left out.
#[test]
fn double_error(rt: HostRuntime) -> Result<(), Fail> {
    let log = (BLOCK, SYNDROME_DOUBLE);
    assert_eq!(rt; read(NORMAL, DOUBLE)?, bad(log, 0));
    assert_eq!(rt; read(DIAGNOSTIC | PROTECTED, DOUBLE)?, bad(NOTHING, LATCH));
    assert_eq!(rt; read(DIAGNOSTIC, DOUBLE)?, bad(NOTHING, 41));
    assert_eq!(rt; read(CORRECTION_OFF, DOUBLE)?, bad(log, 0));
    assert_eq!(rt; read(BOTH | PROTECTED, DOUBLE)?, bad(NOTHING, LATCH));
    assert_eq!(rt; read(BOTH, DOUBLE)?, bad(NOTHING, 41));
    Ok(())
}
