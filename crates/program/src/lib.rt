// Programs in rows of numbers: what a row says, which numbers are programs, and why the others are turned away.
#![tactic(auto)]

mod decoder;
mod fitting;
pub mod laws;
pub mod limits;
mod reach;
mod refusal;
mod row;
mod valid;
mod validation;

pub use fitting::FittingProgram;
pub use reach::{Table, reached_rows};
pub use refusal::Refusal;
pub use row::Row;
pub use valid::ValidProgram;
pub use validation::validate;
