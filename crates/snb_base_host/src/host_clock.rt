//! The clock of the system.

ghost use Rattle.std.specs.Prelude.{◌≡◌};
ghost use Rattle.snb_base.specs.Moments.{any_moment};

use snb_base::Clock;
use std::rt::Clock as SystemClock;
use std::sync::{OnceLock, Wait};
use std::thread;
use std::time::{Duration, Instant};

/// Milliseconds since it was first asked, by the system's clock that never goes back. To ask it is to
/// call `now`, `after` or `rest`. Where that clock can't be read it answers 0. It can answer any moment.
#[derive(Drop)]
pub struct HostClock<R> {
    rt: R,
    start: OnceLock<Instant>,
}

impl<R: SystemClock> HostClock<R> {
    /// A clock that nobody has asked yet.
    pub fn new(rt: R) -> HostClock<R>
        ensures { ⟦<HostClock<R> as Clock>⟧.moments result ≡ any_moment }
    {
        HostClock {
            rt,
            start: OnceLock::new(),
        }
    }

    // The moment at which it was first asked, which is now if nobody asked before. Of threads that ask
    // first together, one sets it; the others take theirs, which is the same within an instant.
    fn start(&self) -> Option<Instant> {
        if let Some(start) = self.start.get() {
            return Some(*start);
        }
        let now = Instant::now(&self.rt).ok()?;
        let _ = self.start.try_set(now);
        Some(now)
    }

    // The milliseconds since the start, if the system's clock could be read then and now.
    fn elapsed(&self) -> Option<u64> {
        let elapsed = self.start()?.elapsed(&self.rt).ok()?;
        u64::try_from(elapsed.as_millis()).ok()
    }
}

impl<R: SystemClock> Clock for HostClock<R> {
    ghost moments = { λ _. any_moment };

    fn now(&self) -> u64 {
        self.elapsed().unwrap_or(0)
    }

    fn after(&self, _reply: &[u8]) -> u64 {
        self.now()
    }

    fn rest<W: Wait>(&self, _rt: &W, until: u64) {
        let left = until.saturating_sub(self.now());
        thread::sleep(&self.rt, Duration::from_millis(left));
    }
}
