// Answers written out.
use crate::Answered;
use numbers::Refusal;
use std::fmt::Display;
use std::io;
use std::io::Write;

// Writes what a call gives, or its refusal.
pub fn say<W: Write, T: Display + Drop>(out: &mut W, answer: Result<T, Refusal>) -> io::Result<()> {
    write!(out, "{}", Answered(answer))
}
