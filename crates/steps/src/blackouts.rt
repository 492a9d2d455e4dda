ghost use Rattle.std.specs.Prelude.{◌≡◌};
ghost use Rattle.steps.specs.Gate.{any_window_of};

use settings::Window;

// Whether some window holds the instant.
#[tactic(auto, unfolding(crate::specs::Gate::any_window_of))]
pub fn any_window(windows: &[Window], now_ms: f64) -> bool
    ensures { result ≡ any_window_of windows.now now_ms }
{
    windows.iter().any(|w| w.contains(now_ms))
}
