ghost use Rattle.std.specs.Prelude.{◌≡◌};
ghost use Rattle.numbers.specs.Extremes.{chosen_of, maximum_of, minimum_of};

// The larger of x and y. A NaN gives way to the other; of two zeros it is the first.
pub fn maximum(x: f64, y: f64) -> f64
    ensures { result ≡ maximum_of x y }
{
    chosen(x < y, x, y)
}

// The smaller of x and y. A NaN gives way to the other; of two zeros it is the first.
pub fn minimum(x: f64, y: f64) -> f64
    ensures { result ≡ minimum_of x y }
{
    chosen(y < x, x, y)
}

// What is no NaN, and of two numbers y or x by the test. By hand, since std's `max` and `min` leave open which of two zeros they give.
#[tactic(auto, unfolding(crate::specs::Extremes::chosen_of))]
fn chosen(second: bool, x: f64, y: f64) -> f64
    ensures { result ≡ chosen_of second x y }
{
    if x.is_nan() {
        return y;
    }
    if y.is_nan() {
        return x;
    }
    if second { y } else { x }
}
