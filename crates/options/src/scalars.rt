// The options that stand for the whole line.
// Values are read by closures, since a free function of another crate has no proof where it is passed by its name.
ghost use Rattle.std.specs.Prelude.{◌≡◌};
ghost use Rattle.options.specs.Scalars.{yes_of, verbose_of, mode_and_seed_of, duration_of, queue_cap_of, line_scalars_of};

use crate::config::{DEFAULT_QUEUE_CAP, DEFAULT_SEED};
use crate::mode::Mode;
use args::{has_flag, last_of};
use numbers::Refusal;
use values::{parse_bounded, parse_positive, parse_u64};

#[derive(Clone, Copy)]
pub struct LineScalars {
    pub mode: Mode,
    pub seed: u64,
    pub duration_ms: u64,
    pub queue_cap: usize,
    pub verbose: bool,
}

// Whether a value of verbose turns it on. One by one, since the proof closes neither with a match of byte strings of several lengths nor with `||`.
fn says_yes(v: &[u8]) -> bool
    ensures { result ≡ yes_of v.now }
{
    if v == b"1".as_slice() {
        return true;
    }
    if v == b"true".as_slice() {
        return true;
    }
    if v == b"yes".as_slice() {
        return true;
    }
    v == b"on".as_slice()
}

// The bare flag wins over values.
#[tactic(auto, unfolding(crate::specs::Scalars::verbose_of))]
fn verbose_at(text: &[u8]) -> bool
    ensures { result ≡ verbose_of text.now }
{
    has_flag(text) || last_of(text, b"", b"verbose").is_some_and(says_yes)
}

// The mode and the seed.
#[tactic(auto, unfolding(crate::specs::Scalars::mode_and_seed_of))]
fn mode_and_seed(text: &[u8]) -> Result<(Mode, u64), Refusal>
    ensures { result ≡ mode_and_seed_of text.now }
{
    let mode = last_of(text, b"", b"mode").map_or(Ok(Mode::Udp), Mode::parse)?;
    let seed = last_of(text, b"", b"seed").map_or(Ok(DEFAULT_SEED), |v| parse_u64(v))?;
    Ok((mode, seed))
}

#[tactic(auto, unfolding(crate::specs::Scalars::duration_of))]
fn duration_ms(text: &[u8]) -> Result<u64, Refusal>
    ensures { result ≡ duration_of text.now }
{
    last_of(text, b"", b"duration-ms").map_or(Ok(0), |v| parse_bounded(v))
}

// The capacity that a host is told.
#[tactic(auto, unfolding(crate::specs::Scalars::queue_cap_of))]
fn queue_cap(text: &[u8]) -> Result<u64, Refusal>
    ensures { result ≡ queue_cap_of text.now }
{
    last_of(text, b"", b"queue-cap").map_or(Ok(DEFAULT_QUEUE_CAP), |v| parse_positive(v))
}

#[tactic(auto, unfolding(crate::specs::Scalars::line_scalars_of))]
pub fn line_scalars(text: &[u8]) -> Result<LineScalars, Refusal>
    ensures { result ≡ line_scalars_of text.now }
{
    let (mode, seed) = mode_and_seed(text)?;
    let duration_ms = duration_ms(text)?;
    let cap = queue_cap(text)?;
    Ok(LineScalars {
        mode,
        seed,
        duration_ms,
        queue_cap: cap as usize,
        verbose: verbose_at(text),
    })
}
