// The settings of a direction as words.
ghost use Rattle.std.specs.Iterator.{IsFinite};

use crate::windows::{Blackout, Kill};
use options::{DirectionConfig, Ge};
use output::Bits;
use std::fmt;

// The settings of a direction in brackets.
#[derive(Clone, Copy)]
pub struct Direction<'a>(pub &'a DirectionConfig);

impl<'a> fmt::Display for Direction<'a> {
    fn fmt<W: fmt::Write>(&self, f: &mut fmt::Formatter<W>) -> fmt::Result {
        f.write_str("[")?;
        self.say_losses_and_delays(f)?;
        self.say_limits(f)?;
        self.say_windows(f)?;
        f.write_str("]")
    }
}

impl<'a> Direction<'a> {
    fn say_losses_and_delays<W: fmt::Write>(&self, f: &mut fmt::Formatter<W>) -> fmt::Result {
        let settings = self.0;
        let ge = Optional(settings.ge.map(Chances));
        write!(f, "loss={} ge={ge}", Bits(settings.loss))?;
        write!(f, " delay={}", Bits(settings.delay_ms))?;
        write!(f, " jitter={}", Bits(settings.jitter_ms))?;
        write!(f, " reorder={}", Bits(settings.reorder_p))?;
        write!(f, " rdelay={}", Bits(settings.reorder_delay_ms))?;
        write!(f, " dup={}", Bits(settings.duplicate_p))
    }

    fn say_limits<W: fmt::Write>(&self, f: &mut fmt::Formatter<W>) -> fmt::Result {
        let settings = self.0;
        write!(f, " rate={}", Optional(settings.rate_bps))?;
        write!(f, " burst={}", settings.rate_burst_bytes)?;
        write!(f, " mtu={}", Optional(settings.mtu))?;
        write!(f, " nat={}", settings.nat_change_every_ms)
    }

    // Only the counted entries of each list.
    fn say_windows<W: fmt::Write>(&self, f: &mut fmt::Formatter<W>) -> fmt::Result {
        let settings = self.0;
        let blackouts = settings.blackouts.iter().take(settings.blackout_count);
        let kills = settings.tcp_kills.iter().take(settings.tcp_kill_count);
        say_entries(f, blackouts.copied().map(Blackout))?;
        say_entries(f, kills.copied().map(Kill))
    }
}

// Each entry behind a blank.
fn say_entries<W: fmt::Write, T: fmt::Display + Drop, I: Iterator<Item = T>>(
    f: &mut fmt::Formatter<W>,
    entries: I,
) -> fmt::Result
    requires can { I.can_next entries }
    requires ends { IsFinite (I.remaining entries) }
{
    for entry in entries {
        write!(f, " {entry}")?;
    }
    Ok(())
}

// A setting that may be absent.
#[derive(Clone, Copy)]
struct Optional<T>(Option<T>);

impl<T: fmt::Display> fmt::Display for Optional<T> {
    fn fmt<W: fmt::Write>(&self, f: &mut fmt::Formatter<W>) -> fmt::Result {
        match &self.0 {
            Some(setting) => write!(f, "{setting}"),
            None => f.write_str("none"),
        }
    }
}

// The chances of burst loss.
#[derive(Clone, Copy)]
struct Chances(Ge);

impl fmt::Display for Chances {
    fn fmt<W: fmt::Write>(&self, f: &mut fmt::Formatter<W>) -> fmt::Result {
        let ge = self.0;
        write!(f, "{}:{}:{}", Bits(ge.p), Bits(ge.r), Bits(ge.h))
    }
}
