// A job as it runs, line by line: its head, then a store, then a card.
#![tactic(auto)]

mod card_job;
mod job;
mod stage;
mod store_job;

pub use card_job::CardJob;
pub use job::Job;
pub use stage::Stage;
pub use store_job::StoreJob;
