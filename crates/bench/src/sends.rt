// Fifty million packets are accounted, and a part of what was counted is printed, so that the work cannot be left out.
use accounts::SendAccountant;
use draws::Rng;
use std::io;
use std::io::Write;

// What is printed is taken out of the accountant first: where the accountant is lent to be printed, the loop takes 1.6 times as long, and the ratio to the
// Rust is not to rise.
pub fn run<W: Write>(out: &mut W) -> io::Result<()> {
    let mut rng = Rng::new(1);
    let mut accountant = SendAccountant::default();
    for _ in 0..50000000u32 {
        let (after, value) = rng.next_u64();
        rng = after;
        let latency_ms = (value % 16384) as f64 * 0.5;
        let (sent, _) = accountant.on_send((value % 2048) as usize, latency_ms);
        accountant = sent;
    }
    let l = accountant.latency;
    let hist = l.hist;
    let rising = l.min_ms < l.max_ms && l.max_ms < l.sum_ms;
    let (pkts, bytes) = (accountant.sent_pkts, accountant.sent_bytes);
    let (count, rising) = (l.count, u64::from(rising));
    let (shortest, longest) = (hist[0], hist[11]);
    writeln!(out, "{pkts}\n{bytes}\n{count}")?;
    writeln!(out, "{rising}\n{shortest}\n{longest}")
}
