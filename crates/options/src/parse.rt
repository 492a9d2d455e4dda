// The whole option text.
ghost use Rattle.std.specs.Prelude.{◌≡◌};
ghost use Rattle.options.specs.Parse.{any_high, unclosed_of, judged_text_of, config_of, parse_of};

use crate::config::Config;
use crate::direction::direction_of;
use crate::keys::Keys;
use crate::mode::other_mode;
use crate::scalars::line_scalars;
use numbers::Refusal;

// The longest option text in bytes.
const MOST_BYTES: usize = 16384;

fn any_high(s: &[u8]) -> bool
    ensures { result ≡ any_high s.now }
{
    s.iter().any(|b| *b > 127)
}

#[tactic(auto, unfolding(crate::specs::Parse::unclosed_of))]
fn unclosed(s: &[u8]) -> bool
    ensures { result ≡ unclosed_of s.now }
{
    s.last().is_some_and(|b| *b != 0)
}

// Judges the text as bytes, and then its argument list.
#[tactic(auto, unfolding(crate::specs::Parse::judged_text_of))]
fn judged_text(text: &[u8]) -> Result<(), Refusal>
    ensures { result ≡ judged_text_of text.now }
{
    if text.len() > MOST_BYTES {
        return Err(Refusal::TextLength);
    }
    if unclosed(text) {
        return Err(Refusal::TextEnd);
    }
    if any_high(text) {
        return Err(Refusal::Byte);
    }
    args::check(text)
}

// The settings that a text gives, or its first refusal.
#[tactic(auto, unfolding(crate::specs::Parse::config_of))]
fn config_of(text: &[u8]) -> Result<Config, Refusal>
    ensures { result ≡ config_of text.now }
{
    judged_text(text)?;
    let line = line_scalars(text)?;
    let c2s = direction_of(Keys {
        text,
        prefix: b"c2s-",
    })?;
    let s2c = direction_of(Keys {
        text,
        prefix: b"s2c-",
    })?;
    other_mode(line.mode, &c2s)?;
    other_mode(line.mode, &s2c)?;
    Ok(Config {
        mode: line.mode,
        seed: line.seed,
        duration_ms: line.duration_ms,
        verbose: line.verbose,
        queue_cap: line.queue_cap,
        c2s,
        s2c,
    })
}

// The settings that a text of any bytes gives. Beside a refusal stands `Config::default`, as document 01 has it, so that every answer has settings that refusal
// 29 lets through.
#[tactic(auto, unfolding(crate::specs::Parse::parse_of))]
pub fn parse_config(text: &[u8]) -> (Config, Result<(), Refusal>)
    ensures { result ≡ parse_of text.now }
{
    match config_of(text) {
        Ok(config) => (config, Ok(())),
        Err(refusal) => (Config::default(), Err(refusal)),
    }
}
