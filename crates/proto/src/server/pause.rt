//! How long a listener waits after connections that it can't accept.

ghost use Rattle.std.specs.Prelude.{◌≡◌, ◌*◌, min};

use std::thread;
use std::time::{Clock, Duration};

/// The first wait, in milliseconds.
const LEAST: u32 = 10;

/// The longest wait, in milliseconds.
const MOST: u32 = 1000;

/// The wait after the next connection that can't be accepted, in milliseconds.
#[derive(Drop)]
pub struct Pause {
    next: u32,
}

impl Pause {
    /// The first wait: nothing has failed.
    pub fn new() -> Self
        ensures { result.next ≡ 10 }
    {
        Pause { next: LEAST }
    }

    /// Waits, and doubles the next wait, up to one second.
    pub fn wait(&mut self, clock: &impl Clock)
        ensures { self.new.next ≡ min (self.old.next * 2) 1000 }
    {
        thread::sleep(clock, Duration::from_millis(u64::from(self.next)));
        self.next = self.next.saturating_mul(2).min(MOST);
    }

    /// Resets the next wait to the first, after an accepted connection.
    pub fn reset(&mut self)
        ensures { self.new.next ≡ 10 }
    {
        self.next = LEAST;
    }
}
