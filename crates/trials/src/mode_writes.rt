// Writes of a word, which look at nothing that stood there.
use crate::trial::{
    BOTH, CORRECTION_OFF, DIAGNOSTIC, DOUBLE, LATCH, NORMAL, PROTECTED, Seen, Trial, tried,
    unlogged,
};
use codes::pack;
use std::test::Fail;

// The word 1 over a twice-struck word.
fn write(control: u16) -> Result<Seen, Fail> {
    tried(control, DOUBLE, Trial::Write(1))
}

// The word 1, with these checks.
fn written(checks: u8, latch: u8) -> Seen {
    unlogged(0, latch, pack(1, checks))
}

#[test]
fn whole_words(rt: HostRuntime) -> Result<(), Fail> {
    assert_eq!(rt; write(NORMAL)?, written(2, 0));
    assert_eq!(rt; write(DIAGNOSTIC | PROTECTED)?, written(2, LATCH));
    assert_eq!(rt; write(DIAGNOSTIC)?, written(9, LATCH), "the latch's checks");
    assert_eq!(rt; write(CORRECTION_OFF | PROTECTED)?, written(2, 0));
    assert_eq!(rt; write(CORRECTION_OFF)?, written(2, 0));
    assert_eq!(rt; write(BOTH | PROTECTED)?, written(2, LATCH));
    assert_eq!(rt; write(BOTH)?, written(9, LATCH));
    Ok(())
}
