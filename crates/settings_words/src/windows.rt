// Blackouts and kills as words.
use options::{KillStyle, TcpKill, Window};
use std::fmt;

#[derive(Clone, Copy)]
pub struct Blackout(pub Window);

impl fmt::Display for Blackout {
    fn fmt<W: fmt::Write>(&self, f: &mut fmt::Formatter<W>) -> fmt::Result {
        write!(f, "b{}:{}", self.0.start_ms, self.0.end_ms)
    }
}

#[derive(Clone, Copy)]
pub struct Kill(pub TcpKill);

impl fmt::Display for Kill {
    fn fmt<W: fmt::Write>(&self, f: &mut fmt::Formatter<W>) -> fmt::Result {
        let window = self.0.window;
        let style = StyleName(self.0.style);
        write!(f, "k{}:{}:{style}", window.start_ms, window.end_ms)
    }
}

// A style by its name.
#[derive(Clone, Copy)]
struct StyleName(KillStyle);

impl fmt::Display for StyleName {
    fn fmt<W: fmt::Write>(&self, f: &mut fmt::Formatter<W>) -> fmt::Result {
        f.write_str(match self.0 {
            KillStyle::Rst => "rst",
            KillStyle::Hold => "hold",
        })
    }
}
