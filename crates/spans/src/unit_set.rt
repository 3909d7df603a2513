// Sets of units, and the place of a unit among the ten.
ghost use Rattle.std.specs.Prelude.{◌≡◌, ◌<◌, ◌==◌, ◌≢◌};
ghost use Rattle.units.specs.Table.{code};
ghost use Rattle.units.specs.declared.unit.Unit.{Unit as TimeUnit};
ghost use Rattle.spans.specs.Bits.{bit, one_if, with_bit, number};

use units::Unit;

// Bit k stands for the unit of code k: ten flags in fixed memory.
#[derive(Clone, Copy, PartialEq, Eq, Debug)]
pub struct UnitSet {
    bits: u16,
}

// Where a unit stands in an array of ten, smallest first.
pub(crate) fn place(unit: Unit) -> usize
    ensures value { result ≡ code unit }
    ensures below { result < 10 }
{
    usize::from(unit.code())
}

// The bits with that of one unit put to 1 or to 0.
fn put(bits: u16, unit: Unit, present: bool) -> u16
    ensures { result ≡ with_bit bits (code unit) present }
{
    let mask = 1 << place(unit);
    if present { bits | mask } else { bits & !mask }
}

impl UnitSet {
    pub fn new() -> UnitSet
        ensures { number result ≡ 0 }
    {
        UnitSet { bits: 0 }
    }

    pub fn is_empty(self) -> bool
        ensures { result ≡ (number self == 0) }
    {
        self.bits == 0
    }

    pub fn contains(self, unit: Unit) -> bool
        ensures { result ≡ (bit (number self) (code unit) == 1) }
    {
        (self.bits >> place(unit)) % 2 == 1
    }

    // The set with the unit in it or not, and every other unit as before.
    #[tactic(auto, using(crate::proofs::Bitwise::bit_here, crate::proofs::Bitwise::bit_elsewhere, crate::proofs::Units::apart))]
    pub fn set(self, unit: Unit, present: bool) -> UnitSet
        ensures value { number result ≡ with_bit (number self) (code unit) present }
        ensures here { bit (number result) (code unit) ≡ one_if present }
        ensures elsewhere { (v : TimeUnit) → (v ≢ unit) → bit (number result) (code v) ≡ bit (number self) (code v) }
    {
        UnitSet {
            bits: put(self.bits, unit, present),
        }
    }
}
