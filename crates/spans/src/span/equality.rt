// Equality of spans. The set of units tells nothing that the magnitudes do not. It is no derive,
// which would have no clauses.
ghost use Rattle.std.specs.Prelude.{◌≡◌};
ghost use Rattle.std.specs.Bool.{Decides};
ghost use Rattle.spans.specs.Spans.{shown, same, Sameness};
ghost use Rattle.std.specs.Cmp.Rules.{comparing};
ghost use Rattle.std.proofs.Common.{rules};

use super::Span;

impl PartialEq for Span {
    ghost eq = { same };

    ghost laws = { Prim.search (comparing, rules) };

    #[tactic(auto, using(crate::proofs::Sameness::sameness))]
    fn eq(&self, other: &Span) -> bool
        ensures value { result ≡ same self.now other.now }
        ensures decided { Decides result (shown self.now ≡ shown other.now) }
        ensures law { Sameness }
    {
        self.magnitudes == other.magnitudes && self.sign == other.sign
    }
}
