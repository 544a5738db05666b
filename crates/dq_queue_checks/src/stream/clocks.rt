//! The ticks of a clock.

use super::same;
use super::streams::{Letters, Seen, Task, fill, letters_and_task, stream_of};
use dq_stream::{MillisecondTicks, TickSource};
use std::cell::Cell;
use std::io;
use std::io::ErrorKind;
use std::process::Abort;
use std::sync::Wait;
use std::test::Fail;
use std::time::{Clock, Duration, Instant};

// Reads the nanoseconds that are set, and fails where none are.
#[derive(Drop)]
struct SetClock(Cell<Option<u64>>);

impl Clock for SetClock {
    fn monotonic(&self) -> io::Result<Duration> {
        match self.0.get() {
            Some(nanoseconds) => Ok(Duration::from_nanos(nanoseconds)),
            None => Err(ErrorKind::Other.into()),
        }
    }

    fn since_1970(&self) -> io::Result<Duration> {
        self.monotonic()
    }
}

// Each reading of the clock, and the tick that is told by it.
const READINGS: &[(Option<u64>, u64)] = &[
    (Some(5_000_700_000), 0),
    (Some(5_001_699_999), 0),
    (Some(5_001_700_000), 1),
    (Some(5_100_000_000), 99),
    (None, 99),
    (Some(5_050_000_000), 99),
    (Some(4_000_000_000), 99),
    (Some(6_000_700_000), 1000),
    (None, 1000),
    (Some(18_446_744_073_709_551_615), 18_446_744_068_708),
];

fn tells(rt: &impl Abort, clock: &SetClock, ticks: &mut MillisecondTicks<'_, SetClock>) {
    for (number, (reading, tick)) in READINGS.iter().enumerate() {
        clock.0.set(*reading);
        same(rt, number, ticks.now(), *tick);
    }
}

// promise: stream.tick-clock
#[test]
fn whole_milliseconds_that_never_go_back(rt: HostRuntime) -> Result<(), Fail> {
    let clock = SetClock(Cell::new(Some(5_000_700_000)));
    let mut ticks = MillisecondTicks::new(&clock)?;
    tells(&rt, &clock, &mut ticks);
    Ok(())
}

// promise: stream.tick-clock
#[test]
fn no_ticks_of_a_clock_that_fails(rt: HostRuntime) -> Result<(), Fail> {
    let clock = SetClock(Cell::new(None));
    same(&rt, "new", MillisecondTicks::new(&clock).is_err(), true);
    Ok(())
}

// promise: stream.tick-clock
#[test]
fn one_start_one_time(rt: HostRuntime) -> Result<(), Fail> {
    let clock = SetClock(Cell::new(Some(1_000_000)));
    let start = Instant::now(&clock)?;
    let mut first = MillisecondTicks::since(&clock, start);
    clock.0.set(Some(8_000_000));
    let mut second = MillisecondTicks::since(&clock, start);
    same(&rt, "now", (first.now(), second.now()), (7, 7));
    Ok(())
}

fn gives_by_a_clock<R: Abort + Wait>(rt: &R, queue: &Letters, task: &Task) -> Result<(), Fail> {
    let clock = SetClock(Cell::new(Some(0)));
    let ticks = MillisecondTicks::new(&clock)?;
    let mut stream = stream_of(rt, queue, 0, ticks)?;
    same(rt, "insert", fill(rt, queue, 0, &[('v', 2)]), Ok(()));
    task.sees(rt, &mut stream, 0, Seen::Waits);
    clock.0.set(Some(2_500_000));
    task.sees(rt, &mut stream, 2, Seen::Out('v', 2, 2));
    Ok(())
}

// promise: stream.tick-clock
#[test]
fn stream_by_a_clock(rt: HostRuntime) -> Result<(), Fail> {
    let (queue, task) = letters_and_task(&rt, &[])?;
    gives_by_a_clock(&rt, &queue, &task)
}
