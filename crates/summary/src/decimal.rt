// Floats in decimal.
use crate::digits::Digits;
use std::fmt;

// The columns of a time: those of a count, and four more for the point and three places behind it.
const COLUMNS: usize = 16;

// A time with three places behind the point, its unit in the column where a count has it.
#[derive(Clone, Copy)]
pub struct Thousandths(pub f64);

impl fmt::Display for Thousandths {
    fn fmt<W: fmt::Write>(&self, f: &mut fmt::Formatter<W>) -> fmt::Result {
        let time = self.0;
        if time.is_nan() {
            write!(f, "{:>COLUMNS$}", "not a number")
        } else if time.is_infinite() {
            let word = if time < 0.0 { "-infinite" } else { "infinite" };
            write!(f, "{word:>COLUMNS$}")
        } else {
            write!(f, "{time:>COLUMNS$.3}")
        }
    }
}

// The float of these bits, which may be any, in at most fifteen digits: those that an option's value was written with.
#[derive(Clone, Copy)]
pub struct FifteenDigits(pub u64);

impl fmt::Display for FifteenDigits {
    fn fmt<W: fmt::Write>(&self, f: &mut fmt::Formatter<W>) -> fmt::Result {
        let exact = Digits::of(self.0);
        let digits = exact.rounded(exact.fifteen());
        if self.0 >> 63 == 1 {
            f.write_str("-")?;
        }
        // A zero is left out where it would be the sixteenth digit.
        let places = digits.behind_point();
        if places.len() < 15 {
            say_digits(f, digits.before_point())?;
        }
        if !places.is_empty() {
            f.write_str(".")?;
        }
        say_digits(f, places)
    }
}

fn say_digits<W: fmt::Write>(f: &mut fmt::Formatter<W>, digits: &[u8]) -> fmt::Result {
    for digit in digits {
        write!(f, "{digit}")?;
    }
    Ok(())
}
