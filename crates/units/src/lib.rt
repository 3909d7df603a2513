// The words that every other crate speaks: the ten units of time with their table, the signs,
// and the one fault type with the number of each refusal.
#![tactic(auto)]

mod fault;
mod sign;
#[cfg(test)]
mod tests;
mod unit;

pub use fault::{Fault, Told};
pub use sign::Sign;
pub use unit::{
    MICROS_PER_SEC, MILLIS_PER_SEC, NANOS_PER_HOUR, NANOS_PER_MICRO, NANOS_PER_MILLI,
    NANOS_PER_MINUTE, NANOS_PER_SEC, SECS_PER_HOUR, SECS_PER_MINUTE, Unit,
};
