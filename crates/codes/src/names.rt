// The two codes by name, for programs that choose one at run time.
ghost use Rattle.std.specs.Prelude.{◌≡◌};
ghost use Rattle.codes.specs.Names.{coding_of};

use crate::am2960::Am2960;
use crate::code::Code;
use crate::parity::ByteParity;
use crate::verdict::Judgement;

#[derive(Clone, Copy, PartialEq, Eq, Debug)]
pub enum CodeName {
    Am2960,
    Parity,
}

// Two matches, since the methods of a code take no `self`: no value, boxed or lent, stands for either code.
impl CodeName {
    pub fn checks(self, word: u16) -> u8
        ensures { result ≡ (coding_of self).checks word }
    {
        match self {
            CodeName::Am2960 => Am2960::checks(word),
            CodeName::Parity => ByteParity::checks(word),
        }
    }

    pub fn judge(self, cell: u32) -> Judgement
        ensures { result ≡ (coding_of self).judged cell }
    {
        match self {
            CodeName::Am2960 => Am2960::judge(cell),
            CodeName::Parity => ByteParity::judge(cell),
        }
    }
}
