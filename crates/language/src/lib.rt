// The job language: a line as the act that it asks for, and what is wrong with a line as text.
#![tactic(auto)]

mod act;
mod dialect;
mod make;
mod parse;
mod parts;
mod store_line;
mod wrong;

pub use act::{Act, AskedPlacement};
pub use dialect::Dialect;
pub use lines::{Words, line_content, number};
pub use make::{AskedMap, BankList, Make};
pub use parse::parse_line;
pub use wrong::{Expected, Wrong, wrong_text};
