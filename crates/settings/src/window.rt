// Windows of time.
ghost use Rattle.std.specs.Prelude.{◌≡◌};
ghost use Rattle.settings.specs.Windows.{no_window, contains_of, bounds_of, parse_window_of};

use crate::entries::Entry;
use numbers::Refusal;
use values::{parse_bounded, split_once, trim};

// The milliseconds from start_ms on and before end_ms.
#[derive(Clone, Copy, Debug, PartialEq, Eq)]
pub struct Window {
    pub start_ms: u64,
    pub end_ms: u64,
}

impl Window {
    // The window between two bounds, each with blanks around it or none.
    pub(crate) fn between(start: &[u8], end: &[u8]) -> Result<Window, Refusal>
        ensures { result ≡ bounds_of start.now end.now }
    {
        let start_ms = parse_bounded(trim(start))?;
        let end_ms = parse_bounded(trim(end))?;
        if end_ms <= start_ms {
            return Err(Refusal::Window);
        }
        Ok(Window { start_ms, end_ms })
    }

    // Whether the instant lies in the window.
    #[tactic(auto, unfolding(crate::specs::Windows::contains_of))]
    pub fn contains(self, t_ms: f64) -> bool
        ensures { result ≡ contains_of self t_ms }
    {
        numbers::float_of(self.start_ms) <= t_ms && t_ms < numbers::float_of(self.end_ms)
    }
}

impl Entry for Window {
    ghost parsed_of = { parse_window_of };

    ghost empty_of = { no_window };

    fn empty() -> Window {
        Window {
            start_ms: 0,
            end_ms: 0,
        }
    }

    // START:END.
    fn parse(v: &[u8]) -> Result<Window, Refusal> {
        let (start, end) = split_once(v, b':').ok_or(Refusal::Colon)?;
        Window::between(start, end)
    }
}
