// What an arrival did to the queue, counted.
ghost use Rattle.std.specs.Prelude.{◌≡◌, ◌≤◌};
ghost use Rattle.admission.specs.Admitted.{with_copies, asked_of, copies_in, tallied_by, torn_by};

use numbers::Refusal;
use queue::Entered;

// The numbers of copies entered, overflowed and torn, and of resets.
#[derive(Clone, Copy)]
pub struct Admitted {
    pub entered: u64,
    pub overflowed: u64,
    pub torn: u64,
    pub resets: u64,
}

// So many copies entered and overflowed.
pub(crate) fn with_copies(entered: u64, overflowed: u64) -> Admitted
    ensures { result ≡ with_copies entered overflowed }
{
    Admitted {
        entered,
        overflowed,
        torn: 0,
        resets: 0,
    }
}

// How many copies a packet has.
fn asked(duplicated: bool) -> u64
    ensures { result ≡ asked_of duplicated }
{
    if duplicated { 2 } else { 1 }
}

// The copies that entered; those that did not have overflowed. Any other refusal than 28 means that state or memory was altered: 26.
#[tactic(auto, unfolding(crate::specs::Admitted::tallied_by, crate::specs::Admitted::copies_in))]
pub(crate) fn tallied(
    pushed: Result<Entered, Refusal>,
    duplicated: bool,
) -> Result<Admitted, Refusal>
    requires { copies_in pushed ≤ asked_of duplicated }
    ensures { result ≡ tallied_by pushed (asked_of duplicated) }
{
    let asked = asked(duplicated);
    match pushed {
        Ok(entered) => Ok(with_copies(entered.copies as u64, asked - entered.copies as u64)),
        Err(Refusal::Full) => Ok(with_copies(0, asked)),
        Err(_) => Err(Refusal::Keeping),
    }
}

// A reset, which has torn down the copies that were held.
#[tactic(auto, unfolding(crate::specs::Admitted::torn_by))]
pub(crate) fn torn(drained: Result<usize, Refusal>) -> Result<Admitted, Refusal>
    ensures { result ≡ torn_by drained }
{
    let copies = drained.map_err(|_| Refusal::Keeping)?;
    Ok(Admitted {
        entered: 0,
        overflowed: 0,
        torn: copies as u64,
        resets: 1,
    })
}
