// Worked examples of the two codes.
ghost use Rattle.std.specs.Prelude.{◌≡◌};
ghost use Rattle.std.specs.List.{AllByRecursion};
ghost use Rattle.codes.specs.Cells.{judgement};
ghost use Rattle.codes.specs.Examples.{Holds, worked_examples};

use crate::names::CodeName;
use crate::verdict::{Judgement, Verdict};

#[derive(Clone, Copy)]
pub enum Example {
    // A word and its checks.
    Checks(CodeName, u16, u8),
    // The data and checks of a cell, and its judgement.
    Judged(CodeName, u16, u8, Judgement),
}

// The worked examples, all of which hold.
pub fn worked_examples() -> [Example; 12]
    ensures listed { result ≡ worked_examples }
    ensures hold { AllByRecursion Holds result }
{
    table()
}

fn table() -> [Example; 12]
    ensures { result ≡ worked_examples }
{
    [
        Example::Checks(CodeName::Am2960, 0, 12),
        Example::Checks(CodeName::Am2960, 65535, 12),
        Example::Checks(CodeName::Am2960, 1, 2),
        Example::Checks(CodeName::Am2960, 512, 41),
        Example::Checks(CodeName::Parity, 0, 3),
        Example::Checks(CodeName::Parity, 1, 2),
        Example::Judged(CodeName::Am2960, 512, 12, judged(Verdict::Mended, 0, 37)),
        Example::Judged(CodeName::Am2960, 0, 13, judged(Verdict::Mended, 0, 1)),
        Example::Judged(CodeName::Am2960, 3, 12, judged(Verdict::Bad, 3, 5)),
        Example::Judged(CodeName::Am2960, 0, 0, judged(Verdict::Bad, 0, 12)),
        Example::Judged(CodeName::Am2960, 3, 14, judged(Verdict::Mended, 3, 7)),
        Example::Judged(CodeName::Parity, 1, 3, judged(Verdict::Bad, 1, 1)),
    ]
}

fn judged(verdict: Verdict, word: u16, syndrome: u8) -> Judgement
    ensures { result ≡ judgement verdict word syndrome }
{
    Judgement {
        verdict,
        word,
        syndrome,
    }
}
