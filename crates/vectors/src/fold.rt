// A number that floats were folded into.
use std::num;

#[derive(Clone, Copy)]
pub struct Fold(pub u64);

impl Fold {
    // With the bits of one float more.
    pub fn with(self, x: f64) -> Fold {
        Fold((self.0 ^ num::f64_to_bits_with_nan(x)).wrapping_mul(0x100_0000_01B3))
    }
}
