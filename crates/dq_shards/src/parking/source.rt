//! Where the ticks of a stream come from.
ghost use Rattle.std.specs.Prelude.{◌≡◌, ℕ, ◌≤◌, ◌/◌, ◌-◌, ◌^◌, min, ⊤, IfOk};
ghost use Rattle.std.specs.Duration.{as_nanos};

use std::io;
use std::time::{Clock, Duration, Instant};

/// Says which tick it is.
///
/// ```
/// use hontkhale::streams::TickSource;
///
/// struct At(u64);
///
/// impl TickSource for At {
///     fn now(&mut self) -> u64 {
///         self.0
///     }
/// }
/// ```
pub trait TickSource: Drop {
    /// What it may answer, and what it is after that.
    ghost tells: { Self → ℕ → Self → Type 0 } = { λ _ _ _. ⊤ };

    /// The tick of this moment, of one millisecond. A stream asks it while its shard's lock is held,
    /// so it must not take that lock itself.
    fn now(&mut self) -> u64
        ensures { tells self.old result self.new };
}

/// The whole milliseconds since an instant. It never goes back. Sources that share one start tell one time.
///
/// ```
/// use hontkhale::streams::{MillisecondTicks, TickSource};
///
/// let mut ticks = MillisecondTicks::new();
/// let first = ticks.now();
/// assert!(first <= ticks.now());
/// ```
#[derive(Drop)]
pub struct MillisecondTicks<'c, C: Clock> {
    clock: &'c C,
    start: Instant,
    last: u64,
}

// The whole milliseconds of a length of time, or the greatest `u64`.
fn whole_milliseconds(length: Duration) -> u64
    ensures { result ≡ min (as_nanos length / 1_000_000) (2 ^ 64 - 1) }
{
    u64::try_from(length.as_millis()).unwrap_or(u64::MAX)
}

impl<'c, C: Clock> MillisecondTicks<'c, C> {
    /// The ticks since now. Refused where the clock fails.
    pub fn new(clock: &'c C) -> io::Result<MillisecondTicks<'c, C>>
        ensures { IfOk result (λ ticks. (ticks.clock ≡ clock.entry) × (ticks.last ≡ 0)) }
    {
        let start = Instant::now(clock)?;
        Ok(MillisecondTicks::since(clock, start))
    }

    /// The ticks since `start`, an instant of this clock.
    pub fn since(clock: &'c C, start: Instant) -> MillisecondTicks<'c, C>
        ensures { result ≡ record { clock = clock.entry; start = start; last = 0 } }
    {
        MillisecondTicks {
            clock,
            start,
            last: 0,
        }
    }
}

impl<'c, C: Clock> TickSource for MillisecondTicks<'c, C> {
    ghost tells = { λ old tick new. (old.last ≤ tick) × (new ≡ record old { last = tick }) };

    fn now(&mut self) -> u64 {
        if let Ok(elapsed) = self.start.elapsed(self.clock) {
            self.last = self.last.max(whole_milliseconds(elapsed));
        }
        self.last
    }
}
