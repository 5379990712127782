// Runs of programs on a purse: every step is paid before it is done, and a run whose purse is too small changes nothing.
#![tactic(auto)]

mod admission;
mod arithmetic;
mod entries;
mod ran;
mod runner;

pub use entries::{execute, run_at_price, run_it};
pub use ran::{Ran, RunError};
