// Spreading: the time of the clock units goes down from Hour to Nanosecond until each unit holds no
// more than its limit.
#![tactic(auto)]

mod level;
mod limits;
mod spreading;
#[cfg(test)]
mod tests;

pub use limits::ClockLimits;
pub use spreading::spread;
