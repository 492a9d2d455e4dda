// States and memory that were altered between calls. Document 01 leaves the answer free then; these are those that the definitions give.
use crate::configs;
use crate::host::Host;
use crate::packets::PACKET;
use device::Device;
use options::DirectionConfig;
use std::io;
use std::io::Write;

pub fn run<W: Write + Drop>(host: &mut Host<W>) -> io::Result<()> {
    altered(host, "held 1 of 0, arrive", too_many_held, |host| {
        host.arrive(0.0, PACKET)
    })?;
    altered(host, "held 1 of 0, release", too_many_held, |host| {
        host.release(0.0)
    })?;
    altered(host, "held 1 of 0, teardown", too_many_held, |host| {
        host.teardown()
    })?;
    length(host, "length 3000", 3000)?;
    length(host, "length 9217", 9217)?;
    altered(host, "settings nan, arrive", wrong_settings, |host| {
        host.arrive(0.0, PACKET)
    })?;
    altered(host, "settings nan, rebind", wrong_settings, |host| {
        host.rebind(0.0)
    })?;
    credit(host)
}

// Makes a call on a new device that was altered.
fn altered<W: Write + Drop, A: FnOnce(&mut Device), F: FnOnce(&mut Host<W>) -> io::Result<()>>(
    host: &mut Host<W>,
    name: &str,
    alter: A,
    call: F,
) -> io::Result<()>
    requires alter { A.IsAlwaysCallable alter }
    requires call { F.IsAlwaysCallable call }
{
    host.case(name, |host| {
        host.open(DirectionConfig::default())?;
        alter(&mut host.device);
        call(host)
    })
}

// More copies are said to be held than slots were used: 26.
fn too_many_held(device: &mut Device) {
    device.queue.held = 1;
}

// A delay of NaN makes a due that the queue refuses, and a rebind judges all settings: 26.
fn wrong_settings(device: &mut Device) {
    device.engine.cfg = configs::wrong();
}

// The held copy is said to have more bytes than a slot: 26.
fn length<W: Write + Drop>(host: &mut Host<W>, name: &str, n: u32) -> io::Result<()> {
    host.case(name, |host| {
        host.open(DirectionConfig::default())?;
        host.arrive(0.0, PACKET)?;
        host.memory.lengths.fill(n);
        host.release(0.0)
    })
}

// Of a NaN and the bucket's capacity the minimum is the capacity, so a credit of NaN is a full bucket, and the packet is due when it comes.
fn credit<W: Write + Drop>(host: &mut Host<W>) -> io::Result<()> {
    host.case("credit nan", |host| {
        host.open(configs::rate())?;
        host.device.engine.tokens = f64::NAN;
        host.arrive(5.0, PACKET)
    })
}
