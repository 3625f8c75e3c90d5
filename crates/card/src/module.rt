// The memory module: where it stands, its store and code, and what it keeps.
use codes::Code;
use rules::{Placement, Registers, Tallies};
use stores::Store;

#[derive(Drop)]
pub struct Module<S: Store, C: Code> {
    pub(crate) placement: Placement,
    pub(crate) store: S,
    pub(crate) code: C,
    pub(crate) registers: Registers,
    pub(crate) tallies: Tallies,
    // The word that the next sweep begins at.
    pub(crate) place: u32,
}
