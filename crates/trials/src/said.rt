// The dialects of the job language, and what is wrong with a line.
use language::{Dialect, Expected, Wrong};

pub(crate) const DIALECTS: [Dialect; 2] = [Dialect::Stores, Dialect::Cards];

// What is wrong with a line, and its word that was found.
pub(crate) fn wrong<T>(expected: Expected, found: &[u8]) -> Result<T, Wrong<'_>> {
    Err(Wrong {
        expected,
        found: Some(found),
    })
}
