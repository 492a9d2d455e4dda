// What the value of an option says: burst loss, a window or a kill, and the lists of windows and kills.
#![tactic(auto)]

mod entries;
mod ge;
mod kill;
mod window;

pub use entries::{Entries, Entry, entries_at};
pub use ge::Ge;
pub use kill::{KillStyle, TcpKill};
pub use window::Window;
