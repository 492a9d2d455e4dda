// The benchmark's loop of the device, over memory that a driver in Rust lends.
#![tactic(auto)]

mod rounds;
mod sums;

use device::Device;
use queue::{Rows, RowsMut, Tree, TreeMut};

// The salt of the direction.
const SALT: u64 = 1;

// A device of the option text's c2s settings, with `cap` slots of `width` bytes, `count` arrivals of `length` bytes, and after each one the releases of all
// that is due. Returned is a sum of what entered, what left and what is reported at the end.
// The C interface: the driver in Rust passes each table as a pointer and a length, so each is a parameter.
#[unsafe(no_mangle)]
pub extern "C" fn bench_device(
    win: &mut [u32],
    free: &mut [u32],
    dues: &mut [f64],
    seqs: &mut [u64],
    arrivals: &mut [f64],
    routes: &mut [u64],
    copy_ids: &mut [u32],
    lengths: &mut [u32],
    store: &mut [u8],
    text: &[u8],
    source: &[u8],
    sent: &mut [u8],
    cap: usize,
    width: usize,
    length: u32,
    count: u64,
) -> u64 {
    let mut tree = TreeMut { win, dues, seqs };
    let mut rows = RowsMut {
        arrivals,
        routes,
        copy_ids,
        lengths,
        store,
    };
    let mut device = created(text, cap, width, tree.shared(), free, rows.shared());
    let sum = rounds::run(
        &mut device,
        &mut tree,
        free,
        &mut rows,
        source,
        sent,
        length,
        count,
    );
    sums::with_report(sum, device.report())
}

fn created(
    text: &[u8],
    cap: usize,
    width: usize,
    tree: Tree<'_>,
    free: &[u32],
    rows: Rows<'_>,
) -> Device {
    let (config, _) = options::parse_config(text);
    let seed = config.seed;
    let (device, _) = Device::create(config.c2s, seed, SALT, cap, width, tree, free, rows);
    device
}
