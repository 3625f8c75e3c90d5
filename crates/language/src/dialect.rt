// Which lines a job may have.

#[derive(Clone, Copy, PartialEq, Eq, Debug)]
pub enum Dialect {
    // Codes and a store by itself.
    Stores,
    // Also a card on the store: where it stands, and the calls of the bus.
    Cards,
}
