// Windows in which connections are killed.
ghost use Rattle.std.specs.Prelude.{◌≡◌};
ghost use Rattle.settings.specs.Windows.{no_kill, parse_style_of, parse_kill_of};

use crate::entries::Entry;
use crate::window::Window;
use numbers::Refusal;
use values::three_parts;

// Whether a kill resets the connection, or holds its bytes back until the window ends.
#[derive(Clone, Copy, Debug, PartialEq, Eq)]
pub enum KillStyle {
    Rst,
    Hold,
}

#[derive(Clone, Copy, Debug, PartialEq, Eq)]
pub struct TcpKill {
    pub window: Window,
    pub style: KillStyle,
}

impl KillStyle {
    // The style that a kill's third part names. By `==`, since the proof does not close with a match of byte strings of two lengths.
    fn parse(v: &[u8]) -> Result<KillStyle, Refusal>
        ensures { result ≡ parse_style_of v.now }
    {
        if v == b"rst".as_slice() {
            Ok(KillStyle::Rst)
        } else if v == b"hold".as_slice() {
            Ok(KillStyle::Hold)
        } else {
            Err(Refusal::KillStyle)
        }
    }
}

impl Entry for TcpKill {
    ghost parsed_of = { parse_kill_of };

    ghost empty_of = { no_kill };

    fn empty() -> TcpKill {
        TcpKill {
            window: Window::empty(),
            style: KillStyle::Hold,
        }
    }

    // START:END:STYLE.
    fn parse(v: &[u8]) -> Result<TcpKill, Refusal> {
        let (start, end, style) = three_parts(v).ok_or(Refusal::KillParts)?;
        let window = Window::between(start, end)?;
        let style = KillStyle::parse(style)?;
        Ok(TcpKill { window, style })
    }
}
