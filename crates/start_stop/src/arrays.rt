// Refusal 26: the arrays that are listed lie in their objects' spans.
ghost use Rattle.std.specs.Prelude.{◌≡◌};
ghost use Rattle.start_stop.specs.StartStop.{in_span, arrays_ok, arrays_verdict};
ghost use Rattle.start_stop.specs.Steps.Bound.{calls_by};

use crate::bound::Bound;
use crate::rows::Array;
use binder::Refused;
use words::refusal::Refusal;

impl Array {
    // Whether its words lie in a span, where there are any.
    #[tactic(auto, unfolding(crate::specs::StartStop::in_span))]
    fn is_inside(self, span: usize) -> bool
        ensures { result ≡ in_span span self }
    {
        self.count == 0 || self.count <= span / 8 && self.at <= span - 8 * self.count
    }
}

// The arrays of object `k`: a preinit array is the program's alone.
#[tactic(auto, unfolding(crate::specs::StartStop::arrays_ok))]
fn arrays_inside(set: &Bound, k: usize) -> bool
    ensures { result ≡ arrays_ok k (calls_by set.now k) }
{
    let span = set.span(k);
    let row = set.row(k);
    row.inits.is_inside(span)
        && row.finis.is_inside(span)
        && (k != 1 || row.preinits.is_inside(span))
}

// The objects of an order, one after another.
pub(crate) fn check_arrays(set: &Bound) -> Result<(), Refused>
    ensures { result ≡ arrays_verdict (calls_by set.now) set.now.order.now }
{
    for k in set.order {
        if !arrays_inside(set, *k as usize) {
            return Err(Refused::new(Refusal::Arrays, *k));
        }
    }
    Ok(())
}
