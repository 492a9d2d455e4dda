// What the windows of the settings say of an instant.
ghost use Rattle.std.specs.Prelude.{◌≡◌, length, take};
ghost use Rattle.steps.specs.Gate.{kill_gate_of, any_window_of, is_rst_of, kill_now_of};
ghost use Rattle.steps.specs.Laws.Entries.{CountedEntries};
ghost use Rattle.engine.specs.Engine.{gate_at_of};

use options::DirectionConfig;
use settings::{KillStyle, TcpKill, Window};
use steps::Gate;
use values::front;

// The counted kills.
fn kills(cfg: &DirectionConfig) -> &[TcpKill]
    ensures cut { result.now ≡ take cfg.now.tcp_kill_count cfg.now.tcp_kills }
    ensures counted { CountedEntries cfg.now.tcp_kills cfg.now.tcp_kill_count (length result.now) }
{
    front(&cfg.tcp_kills, cfg.tcp_kill_count)
}

// The counted blackouts.
fn blackouts(cfg: &DirectionConfig) -> &[Window]
    ensures cut { result.now ≡ take cfg.now.blackout_count cfg.now.blackouts }
    ensures counted { CountedEntries cfg.now.blackouts cfg.now.blackout_count (length result.now) }
{
    front(&cfg.blackouts, cfg.blackout_count)
}

// What the kills say of the instant.
#[tactic(auto, unfolding(steps::specs::Gate::kill_gate_of))]
fn kills_at(cfg: &DirectionConfig, now_ms: f64) -> Gate
    ensures { result ≡ kill_gate_of (take cfg.now.tcp_kill_count cfg.now.tcp_kills) now_ms }
{
    steps::kill_gate(kills(cfg), now_ms)
}

// Whether a blackout holds the instant.
#[tactic(auto, unfolding(steps::specs::Gate::any_window_of))]
pub(crate) fn blackout_at(cfg: &DirectionConfig, now_ms: f64) -> bool
    ensures { result ≡ any_window_of (take cfg.now.blackout_count cfg.now.blackouts) now_ms }
{
    steps::any_window(blackouts(cfg), now_ms)
}

// What the windows say of the instant: the kills first, then the blackouts.
#[tactic(auto, unfolding(crate::specs::Engine::gate_at_of, steps::specs::Gate::gate_of))]
pub(crate) fn gate_at(cfg: &DirectionConfig, now_ms: f64) -> Gate
    ensures { result ≡ gate_at_of cfg.now now_ms }
{
    match kills_at(cfg, now_ms) {
        Gate::Open if blackout_at(cfg, now_ms) => Gate::Blackout,
        kill => kill,
    }
}

// Whether the instant lies in the window of some kill of the style.
#[tactic(auto, unfolding(steps::specs::Gate::kill_now_of, steps::specs::Gate::is_rst_of))]
pub(crate) fn kill_at(cfg: &DirectionConfig, style: KillStyle, now_ms: f64) -> bool
    ensures { result ≡ kill_now_of (is_rst_of style) (take cfg.now.tcp_kill_count cfg.now.tcp_kills) now_ms }
{
    steps::kill_now(kills(cfg), style, now_ms)
}
