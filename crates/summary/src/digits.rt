// The decimal digits of a float, all of them: every float has at most 309 before the point and 1,074 behind it. By hand, since `Display` gives the shortest
// digits of a float or so many places, and not so many digits.
const LENGTH: usize = 1383;

// How many of them stand before the point.
const BEFORE: usize = 309;

// 2^52, which parts the bits of a float: below it stands the fraction, above it the exponent.
const FRACTIONS: u64 = 0x0010_0000_0000_0000;

// A digit is read modulo 10, so that no sum wraps whatever stands here.
#[derive(Clone, Copy)]
pub struct Digits {
    all: [u8; LENGTH],
}

impl Digits {
    // The digits of the float with these bits, without its sign.
    pub fn of(bits: u64) -> Self {
        let fraction = bits % FRACTIONS;
        let exponent = bits / FRACTIONS % 2048;
        if exponent == 0 {
            return Digits::whole(fraction).stepped(1074, Digits::halve);
        }
        let digits = Digits::whole(fraction + FRACTIONS);
        if exponent < 1075 {
            digits.stepped(1075 - exponent, Digits::halve)
        } else {
            digits.stepped(exponent - 1075, Digits::double)
        }
    }

    // The digits of a whole number.
    fn whole(n: u64) -> Self {
        let mut digits = Digits { all: [0u8; LENGTH] };
        let mut left = n;
        for digit in digits.all.iter_mut().take(BEFORE).rev() {
            *digit = (left % 10) as u8;
            left /= 10;
        }
        digits
    }

    // The digits after so many steps.
    fn stepped<F: Fn(&mut Self)>(mut self, times: u64, step: F) -> Self
        requires { F.IsAlwaysCallable step }
    {
        for _ in 0..times {
            step(&mut self);
        }
        self
    }

    fn halve(&mut self) {
        let mut is_odd = false;
        for digit in self.all.iter_mut() {
            let part = *digit % 10 + if is_odd { 10 } else { 0 };
            is_odd = part % 2 == 1;
            *digit = part / 2;
        }
    }

    fn double(&mut self) {
        let mut carries = false;
        for digit in self.all.iter_mut().rev() {
            let sum = *digit % 10 * 2 + u8::from(carries);
            carries = sum > 9;
            *digit = sum % 10;
        }
    }

    // The digits rounded to so many, to nearest, ties to even; all behind them are 0.
    pub fn rounded(mut self, count: usize) -> Self {
        let count = count.min(LENGTH);
        let (kept, behind) = self.all.split_at_mut(count);
        let mut carries = rounds_up(kept, behind);
        for digit in kept.iter_mut().rev() {
            let sum = *digit % 10 + u8::from(carries);
            carries = sum > 9;
            *digit = sum % 10;
        }
        behind.fill(0);
        self
    }

    // The digits before the point, from the first that is not 0 on, or the unit alone.
    pub fn before_point(&self) -> &[u8] {
        &self.all[self.zeros().min(BEFORE)..BEFORE]
    }

    // The digits behind the point, up to the last that is not 0.
    pub fn behind_point(&self) -> &[u8] {
        &self.all[BEFORE..self.used().clamp(BEFORE, LENGTH)]
    }

    // How many zeros stand before the first other digit, or before the unit.
    fn zeros(&self) -> usize {
        self.all
            .iter()
            .take(BEFORE - 1)
            .take_while(|digit| **digit == 0)
            .count()
    }

    // How many digits there are up to the last that is not 0 behind the point, or up to the unit.
    fn used(&self) -> usize {
        match self.all.iter().rposition(|digit| *digit > 0) {
            Some(last) => BEFORE.max(last.saturating_add(1)),
            None => BEFORE,
        }
    }

    // How many digits there are up to the fifteenth from the first that is not 0; of a number below 1, up to the fifteenth behind the point.
    pub fn fifteen(&self) -> usize {
        if matches!(self.before_point(), [0]) {
            BEFORE + 15
        } else {
            self.zeros().saturating_add(15)
        }
    }
}

// Whether what stands behind the kept digits is more than a half, or a half behind an odd digit.
fn rounds_up(kept: &[u8], behind: &[u8]) -> bool {
    match behind {
        [5, others @ ..] => {
            others.iter().any(|digit| *digit > 0)
                || kept.last().is_some_and(|digit| *digit % 2 == 1)
        }
        [next, ..] => *next > 5,
        [] => false,
    }
}
