//! Gates that bands enter: one that counts how often, and one in which all of them must meet.

use metric::Gate;
use std::sync::atomic::{AtomicBool, AtomicU64, Ordering};
use std::thread;

/// How often a band checks whether another one has entered.
const MOST_TURNS: u32 = 50_000_000;

/// A gate that all workers pass.
pub struct Open;

impl Gate for Open {
    fn enter(&self, _band: u8) {}
}

/// Counts how often each band entered.
#[derive(Drop)]
pub struct Counts {
    bands: [AtomicU64; 17],
}

impl Counts {
    pub fn new() -> Self {
        Counts {
            bands: std::array::from_fn(|_| AtomicU64::new(0)),
        }
    }

    /// How often this band entered.
    pub fn of(&self, band: usize) -> u64 {
        self.bands
            .get(band)
            .map_or(0, |count| count.load(Ordering::SeqCst))
    }
}

impl Gate for Counts {
    fn enter(&self, band: u8) {
        if let Some(count) = self.bands.get(usize::from(band)) {
            count.fetch_add(1, Ordering::SeqCst);
        }
    }
}

/// A gate in which each of this many bands waits until all others have entered.
#[derive(Drop)]
pub struct Meeting {
    entered: Counts,
    bands: u8,
    alone: AtomicBool,
}

impl Meeting {
    pub fn of(bands: u8) -> Self {
        Meeting {
            entered: Counts::new(),
            bands,
            alone: AtomicBool::new(false),
        }
    }

    /// Whether a band waited for another one in vain.
    pub fn was_alone(&self) -> bool {
        self.alone.load(Ordering::SeqCst)
    }

    /// How often this band entered.
    pub fn entries(&self, band: usize) -> u64 {
        self.entered.of(band)
    }
}

impl Gate for Meeting {
    fn enter(&self, band: u8) {
        self.entered.enter(band);
        for other in 0..usize::from(self.bands) {
            if !is_seen(&self.entered, other + 1) {
                self.alone.store(true, Ordering::SeqCst);
            }
        }
    }
}

/// Waits until this band has entered, but not forever.
fn is_seen(entered: &Counts, band: usize) -> bool {
    for _ in 0..MOST_TURNS {
        if entered.of(band) > 0 {
            return true;
        }
        thread::yield_now();
    }
    false
}
