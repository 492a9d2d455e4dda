// Floats as words.
ghost use Rattle.std.specs.Prelude.{Some};
ghost use Rattle.output.specs.Words.{bits_text};

use std::fmt;

// A float's bit pattern in 16 hexadecimal digits, or the word nan.
#[derive(Clone, Copy)]
pub struct Bits(pub f64);

impl fmt::Display for Bits {
    ghost output = { λ bits. Some (bits_text bits.0) };

    fn fmt<W: fmt::Write>(&self, f: &mut fmt::Formatter<W>) -> fmt::Result {
        if self.0.is_nan() {
            f.write_str("nan")
        } else {
            write!(f, "{:016x}", self.0.to_bits())
        }
    }
}
