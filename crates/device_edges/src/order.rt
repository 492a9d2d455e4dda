// The order of refusals in each call: 23, 21, 22, 25, those that apply.
use crate::counters::TOO_MANY;
use crate::host::Host;
use crate::packets::{LONGEST, PACKET, TOO_LONG};
use options::DirectionConfig;
use queue_calls::Table;
use std::io;
use std::io::Write;

pub fn run<W: Write + Drop>(host: &mut Host<W>) -> io::Result<()> {
    refused(host, "arrive 23 21 22 25", |host| {
        host.arrive(f64::NAN, &TOO_LONG)?;
        host.short = None;
        host.arrive(f64::NAN, &TOO_LONG)?;
        host.arrive(5.0, &TOO_LONG)?;
        host.arrive(5.0, &LONGEST)?;
        host.tell_kept()
    })?;
    refused(host, "release 23 21 25", |host| {
        host.release(f64::NAN)?;
        host.short = None;
        host.release(f64::NAN)?;
        host.release(5.0)?;
        host.tell_kept()
    })?;
    refused(host, "rebind 21 25", |host| {
        host.rebind(f64::NAN)?;
        host.rebind(5.0)?;
        host.tell_kept()
    })?;
    refused(host, "teardown 25", |host| {
        host.teardown()?;
        host.tell_kept()
    })?;
    refused(host, "report 25", |host| host.report())
}

// Makes calls on a device with one copy, 2^60 torn copies and a store without its last byte, and then has the copy leave at 5 ms.
fn refused<W: Write + Drop, F: FnOnce(&mut Host<W>) -> io::Result<()>>(
    host: &mut Host<W>,
    name: &str,
    calls: F,
) -> io::Result<()>
    requires { F.IsAlwaysCallable calls }
{
    host.case(name, |host| {
        host.open(DirectionConfig::default())?;
        host.arrive(5.0, PACKET)?;
        host.device.torn = TOO_MANY;
        host.short = Some(Table::Store);
        calls(host)?;
        host.short = None;
        host.device.torn = 0;
        host.report()?;
        host.release(5.0)?;
        host.report()
    })
}
