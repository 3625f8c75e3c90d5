// What a read of the bus answers.
use codes::Verdict;

// What a verdict on a cell comes to under the control word: the verdict itself, but where correction is switched off
// mended becomes bad.
pub type Treatment = Verdict;

#[derive(Clone, Copy, PartialEq, Eq, Debug)]
pub struct WordRead {
    pub word: u16,
    pub treatment: Treatment,
    // Whether the bus is told of an uncorrectable error at the same time as the word.
    pub parity: bool,
}
