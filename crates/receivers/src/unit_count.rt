// So many of a unit, without sign.
use units::Unit;

#[derive(Clone, Copy, PartialEq, Eq, Debug)]
pub struct UnitCount {
    pub magnitude: u64,
    pub unit: Unit,
}
