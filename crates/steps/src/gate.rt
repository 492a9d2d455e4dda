// What the windows of a direction say of an instant.
ghost use Rattle.std.specs.Prelude.{◌≡◌};
ghost use Rattle.steps.specs.Gate.{is_rst_of, style_gate_of, kill_gate_of, kill_now_of};

use settings::{KillStyle, TcpKill};

// No window stops a packet, or a kill resets or holds, or a blackout drops. Not an `Option` of a decision, in which a window could also lose a packet at random.
#[derive(Clone, Copy, Debug, PartialEq, Eq)]
pub enum Gate {
    Open,
    Reset,
    Held,
    Blackout,
}

impl From<KillStyle> for Gate {
    ghost from_gives = { λ style gate. gate ≡ style_gate_of style };

    #[tactic(auto, unfolding(crate::specs::Gate::style_gate_of))]
    fn from(style: KillStyle) -> Gate {
        match style {
            KillStyle::Rst => Gate::Reset,
            KillStyle::Hold => Gate::Held,
        }
    }
}

// What the first kill says whose window holds the instant. The loop breaks with its index: document 01 gives this place that form.
#[tactic(auto, unfolding(crate::specs::Gate::kill_gate_of))]
pub fn kill_gate(kills: &[TcpKill], now_ms: f64) -> Gate
    ensures { result ≡ kill_gate_of kills.now now_ms }
{
    let mut deciding = None;
    for i in 0..kills.len() {
        if kills[i].window.contains(now_ms) {
            deciding = Some(i);
            break;
        }
    }
    match deciding {
        Some(i) => Gate::from(kills[i].style),
        None => Gate::Open,
    }
}

// Whether the instant lies in the window of some kill of the style.
#[tactic(auto, unfolding(crate::specs::Gate::kill_now_of, crate::specs::Gate::is_rst_of))]
pub fn kill_now(kills: &[TcpKill], style: KillStyle, now_ms: f64) -> bool
    ensures { result ≡ kill_now_of (is_rst_of style) kills.now now_ms }
{
    kills
        .iter()
        .any(|k| k.style == style && k.window.contains(now_ms))
}
