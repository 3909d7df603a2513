// The zero span, and what a span holds.
ghost use Rattle.std.specs.Prelude.{◌≡◌, slice_index};
ghost use Rattle.units.specs.Table.{code};
ghost use Rattle.spans.specs.Bits.{number};
ghost use Rattle.spans.specs.Spans.{shown, zero, Told};

use super::Span;
use crate::unit_set::{UnitSet, place};
use units::{Sign, Unit};

impl Span {
    pub fn new() -> Span
        ensures { shown result ≡ zero }
    {
        Span {
            magnitudes: [0; 10],
            sign: Sign::Zero,
            units: UnitSet::new(),
        }
    }

    pub fn sign(&self) -> Sign
        ensures { result ≡ (shown self.now).sign }
    {
        self.sign
    }

    // The units whose magnitudes are not 0.
    #[tactic(auto, using(crate::proofs::Units::told))]
    pub fn units(&self) -> UnitSet
        ensures value { number result ≡ (shown self.now).bits }
        ensures told { Told self.now }
    {
        self.units
    }

    pub fn magnitude(&self, unit: Unit) -> u64
        ensures { result ≡ slice_index (shown self.now).magnitudes (code unit) }
    {
        self.magnitudes[place(unit)]
    }
}
