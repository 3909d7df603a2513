// Spans: so many of each of the ten units, none above its limit in the table of units, under one sign.
// Setters that refuse a value past its limit, the set of the units that are not 0, equality, and the
// time of the clock units. No call can bring the magnitudes, the sign and the set of units apart.
#![tactic(auto)]

mod span;
#[cfg(test)]
mod tests;
mod unit_set;

pub use span::Span;
pub use unit_set::UnitSet;
