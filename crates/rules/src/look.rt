// What a look at the cell of a word finds.
use crate::answer::Treatment;

#[derive(Clone, Copy)]
pub struct Look {
    pub content: u32,
    pub treatment: Treatment,
    // The mended word where the treatment is mended, else the stored one.
    pub word: u16,
}
