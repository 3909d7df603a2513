// Receivers: what the time of a hold can become. One trait says what a receiver means and how it
// takes a count of a unit; three kinds of number meet it.
#![tactic(auto)]

mod judged;
mod receiver;
mod run_counter;
mod signed;
mod sums;
#[cfg(test)]
mod tests;
mod unit_count;
mod unsigned;

pub use receiver::Receiver;
pub use run_counter::RunCounter;
pub use sums::take_all;
pub use unit_count::UnitCount;
