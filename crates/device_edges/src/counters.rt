// Refusal 25: every call judges every counter and the next seq that are handed in.
use crate::configs;
use crate::host::Host;
use crate::packets::PACKET;
use device::Device;
use options::DirectionConfig;
use std::io;
use std::io::Write;

// The least number that no counter may have, 2^60: the tests' own figure, written apart from the code on purpose.
pub const TOO_MANY: u64 = 0x1000_0000_0000_0000;

// With a next seq of 2^60 - 1 both copies of a packet enter, and all calls after that are refused.
pub fn run<W: Write + Drop>(host: &mut Host<W>) -> io::Result<()> {
    counter(host, "rebinds", |device, n| device.engine.rebinds_done = n)?;
    counter(host, "received", |device, n| {
        device.engine.stats.received_pkts = n;
    })?;
    counter(host, "bucket", |device, n| {
        device.engine.stats.hist[11] = n;
    })?;
    counter(host, "sent", |device, n| device.accounts.sent_pkts = n)?;
    counter(host, "torn", |device, n| device.torn = n)?;
    counter(host, "next seq", |device, n| device.queue.next_seq = n)?;
    host.case("last seqs", |host| {
        host.open(configs::duplicates())?;
        host.device.queue.next_seq = TOO_MANY - 1;
        host.arrive(0.0, PACKET)?;
        each_call(host)
    })
}

// A counter with the least number that is refused by all calls, and with the one below it, which passes.
fn counter<W: Write + Drop, F: Fn(&mut Device, u64)>(
    host: &mut Host<W>,
    name: &str,
    set: F,
) -> io::Result<()>
    requires { F.IsAlwaysCallable set }
{
    for (number, n) in [("2^60", TOO_MANY), ("2^60 - 1", TOO_MANY - 1)] {
        let name = format!(in host.alloc; "{name} {number}")?;
        host.case(&name, |host| {
            host.open(DirectionConfig::default())?;
            set(&mut host.device, n);
            each_call(host)
        })?;
    }
    Ok(())
}

// The arrival is the last call, since no other one raises a counter.
fn each_call<W: Write + Drop>(host: &mut Host<W>) -> io::Result<()> {
    host.report()?;
    host.teardown()?;
    host.rebind(0.0)?;
    host.release(0.0)?;
    host.arrive(0.0, PACKET)?;
    host.tell_kept()
}
