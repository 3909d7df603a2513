// Signed durations of whole nanoseconds: seconds and nanoseconds of one sign, and no wider number.
#![tactic(auto)]

mod cutting;
mod signed_duration;
mod sizes;
#[cfg(test)]
mod tests;

pub use signed_duration::SignedDuration;
