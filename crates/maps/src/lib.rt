// Bank maps, and the store that a bank map makes of any other.
#![tactic(auto)]

mod bank;
mod banks;
mod map;

pub use bank::Bank;
pub use banks::BankMap;
pub use banks::make::NoMap;
pub use map::Map;
