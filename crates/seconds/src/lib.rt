// Lines of seconds: each line read as a duration, and a report of all lines with their sum.
// A line is a number of seconds, with a fraction after a point or a comma if it has one.
#![tactic(auto)]

mod line;
mod report;
#[cfg(test)]
mod tests;

pub use line::read_seconds;
pub use report::add_up;
