// Tables and the store that a host lends: reads and writes that are safe at every index.
#![tactic(auto)]

mod slots;
mod table;

pub use slots::{fill, part};
pub use table::{get, set};
