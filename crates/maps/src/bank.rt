// A bank: a stretch of fitted cells.

#[derive(Clone, Copy, PartialEq, Eq, Debug)]
pub struct Bank {
    // The number of its first cell.
    pub offset: u32,
    // How many cells it has.
    pub length: u32,
}
