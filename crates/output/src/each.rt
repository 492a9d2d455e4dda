// Lists as words.
use std::fmt;

// The entries of a list, each behind a blank.
#[derive(Clone, Copy)]
pub struct Each<'a, T>(pub &'a [T]);

impl<T: fmt::Display> fmt::Display for Each<'_, T> {
    fn fmt<W: fmt::Write>(&self, f: &mut fmt::Formatter<W>) -> fmt::Result {
        for entry in self.0 {
            write!(f, " {entry}")?;
        }
        Ok(())
    }
}
