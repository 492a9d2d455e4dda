// The bars of a histogram.
use std::fmt;

// The longest bar.
const COLUMNS: u64 = 40;

// The packets that a sign has to stand for, so that the bar of the fullest bucket is no longer than the longest.
pub fn packets_per_sign(fullest: u64) -> u64 {
    fullest.div_ceil(COLUMNS)
}

// The packets of a bucket in their column and their bar.
#[derive(Clone, Copy)]
pub struct Bar {
    pub packets: u64,
    pub per_sign: u64,
}

impl fmt::Display for Bar {
    fn fmt<W: fmt::Write>(&self, f: &mut fmt::Formatter<W>) -> fmt::Result {
        write!(f, "{:>12}", self.packets)?;
        if self.packets > 0 {
            f.write_str("  ")?;
        }
        for _ in 0..self.packets.div_ceil(self.per_sign.max(1)) {
            f.write_str("#")?;
        }
        Ok(())
    }
}
