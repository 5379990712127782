// Prices: what a program costs at most, said from its text, or why it isn't taken.
#![tactic(auto)]

mod done;
pub mod laws;
pub mod limits;
mod quotes;
mod table;

pub use done::Done;
pub use quotes::{price, quote};
pub use table::{Prices, row_prices};
