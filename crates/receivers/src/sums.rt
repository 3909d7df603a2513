// Counts of one sign, taken one after another.
ghost use Rattle.std.specs.Prelude.{◌≡◌, IfOk};
ghost use Rattle.std.specs.Result.{result_map_both};
ghost use Rattle.receivers.specs.Sums.{total_from, Summed};
ghost use Rattle.receivers.specs.Takes.{Accepts};

use crate::receiver::Receiver;
use crate::unit_count::UnitCount;
use units::Fault;

// A new receiver like another, once it has taken all the counts under one sign. The first refusal
// hands out none.
pub fn take_all<R: Receiver>(like: &R, counts: &[UnitCount], negative: bool) -> Result<R, Fault>
    ensures total { result_map_both R.total (λ f. f) result ≡ total_from (R.ends like.now) negative 0 counts.now }
    ensures ends { IfOk result (λ v. R.ends v ≡ R.ends like.now) }
    ensures exactly { Summed R.total (R.ends like.now) negative counts.now result }
    ensures each { Accepts }
{
    let mut receiver = like.renewed();
    for &count in counts {
        receiver.take(count, negative)?;
    }
    Ok(receiver)
}
