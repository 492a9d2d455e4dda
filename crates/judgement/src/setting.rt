// One setting of a direction.
ghost use Rattle.std.specs.Prelude.{◌≡◌};
ghost use Rattle.values.specs.Whole.{is_bounded};
ghost use Rattle.settings.specs.Judgement.{is_within, is_probability, is_time, is_positive, is_ge, is_window};
ghost use Rattle.judgement.specs.Scalars.{is_limit};

use numbers::MAX_EXACT;
use settings::{Ge, Window};

// From 0 to a bound; a NaN is not.
#[tactic(auto, using(numbers::specs::Laws::Literals::zero_is))]
fn is_within(bound: f64, x: f64) -> bool
    ensures { result ≡ is_within bound x }
{
    0.0 <= x && x <= bound
}

// From 0 to 1.
#[tactic(auto, using(numbers::specs::Laws::Literals::one_is))]
pub(crate) fn is_probability(x: f64) -> bool
    ensures { result ≡ is_probability x }
{
    is_within(1.0, x)
}

// From 0 to 999999999999999 milliseconds.
pub(crate) fn is_time(x: f64) -> bool
    ensures { result ≡ is_time x }
{
    is_within(999999999999999.0, x)
}

// At most 2^53.
pub(crate) fn is_bounded(n: u64) -> bool
    ensures { result ≡ is_bounded n }
{
    n <= MAX_EXACT
}

fn is_positive(n: u64) -> bool
    ensures { result ≡ is_positive n }
{
    n != 0 && is_bounded(n)
}

pub(crate) fn is_ge(ge: Option<Ge>) -> bool
    ensures { result ≡ is_ge ge }
{
    ge.is_none_or(|g| is_probability(g.p) && is_probability(g.r) && is_probability(g.h))
}

// A limit that is set is not 0, and at most 2^53.
pub(crate) fn is_limit(limit: Option<u64>) -> bool
    ensures { result ≡ is_limit limit }
{
    limit.is_none_or(is_positive)
}

// It ends after its start, and both bounds are at most 2^53; the start is, where the later end is.
pub(crate) fn is_window(w: Window) -> bool
    ensures { result ≡ is_window w }
{
    w.start_ms < w.end_ms && is_bounded(w.end_ms)
}
