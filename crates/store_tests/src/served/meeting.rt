//! Streams that wait for each other: all workers of a pool serve at once, and none holds the lock
//! while it writes a reply.

ghost use Rattle.std.specs.Prelude.{◌≡◌, None};

use super::{SQUARE, pool_in, setting};
use crate::compare::same;
use crate::opened::blank;
use metric::{ReadFault, Sink, Source, Stream, WriteFault};
use proto::Streams;
use std::marker::Brand;
use std::sync::atomic::{AtomicU64, Ordering};
use std::test::Fail;
use std::thread;

/// How often a stream checks whether the others have come this far.
const MOST_TURNS: u32 = 50_000_000;

/// What the streams signal to each other and to the test: which of four have come, one bit each;
/// what the two have started or done, or 0; and what was written.
#[derive(Drop)]
struct Signals {
    come: AtomicU64,
    first_replies: AtomicU64,
    first_replied: AtomicU64,
    first_waits: AtomicU64,
    second_painted: AtomicU64,
    second_bade: AtomicU64,
    right_bytes: AtomicU64,
    wrong_texts: AtomicU64,
}

/// Waits for a signal of at least this, but not forever.
fn is_seen(signal: &AtomicU64, least: u64) -> bool {
    for _ in 0..MOST_TURNS {
        if least <= signal.load(Ordering::SeqCst) {
            return true;
        }
        thread::yield_now();
    }
    false
}

/// All of four have come.
const ALL: u64 = 0b1111;

/// Which stream this is: the first or the second of two that meet at the first one's reply, or
/// after it was taken; or the one of four with this bit.
#[derive(Clone, Copy, PartialEq)]
enum Role {
    First,
    Second,
    FirstReplied,
    SecondAfter,
    OneOfFour(u64),
}

/// One of the streams: the bytes left to read and to write, and how many lines were started and
/// replies given.
#[derive(Drop)]
struct Meeting<'a> {
    signals: &'a Signals,
    role: Role,
    left: &'static [u8],
    lines: u32,
    expected: &'static [u8],
    replies: u32,
    failed_reads: u64,
    failed_writes: u64,
}

impl<'a> Meeting<'a> {
    /// A stream that paints some cells and quits.
    fn new(signals: &'a Signals, role: Role, left: &'static [u8], expected: &'static [u8]) -> Self
        ensures { (result.failed_reads ≡ 0) × (result.failed_writes ≡ 0) }
    {
        Meeting {
            signals,
            role,
            left,
            lines: 0,
            expected,
            replies: 0,
            failed_reads: 0,
            failed_writes: 0,
        }
    }

    /// Whether the next byte may be read. The first stream's second line waits for the second
    /// stream's BYE. The second stream's first line waits for the first stream's reply: until it is
    /// about to be written, or until it was taken and the first stream's wait has started. One of
    /// four comes, and waits for the others.
    fn may_read(&self) -> bool {
        match (self.role, self.lines) {
            (Role::First, 1) => is_seen(&self.signals.second_bade, 1),
            (Role::FirstReplied, 1) => {
                self.signals.first_waits.store(1, Ordering::SeqCst);
                is_seen(&self.signals.second_bade, 1)
            }
            (Role::SecondAfter, 0) => {
                is_seen(&self.signals.first_replied, 1) && is_seen(&self.signals.first_waits, 1)
            }
            (Role::Second, 0) => is_seen(&self.signals.first_replies, 1),
            (Role::OneOfFour(bit), 0) => {
                self.signals.come.fetch_or(bit, Ordering::SeqCst);
                is_seen(&self.signals.come, ALL)
            }
            _ => true,
        }
    }

    /// Whether the next reply may be written: the first stream's first reply waits until the second
    /// stream has painted, which it can't if the lock is held over a reply.
    fn may_write(&self) -> bool {
        match (self.role, self.replies) {
            (Role::First, 0) => {
                self.signals.first_replies.store(1, Ordering::SeqCst);
                is_seen(&self.signals.second_painted, 1)
            }
            (Role::Second, _) => {
                self.signals.second_painted.store(1, Ordering::SeqCst);
                true
            }
            _ => true,
        }
    }

    /// Signals that a reply was taken: the first stream's first one, and the second stream's BYE.
    fn tell_taken(&self) {
        match self.role {
            Role::FirstReplied => self.signals.first_replied.store(1, Ordering::SeqCst),
            Role::Second | Role::SecondAfter if self.expected.is_empty() => {
                self.signals.second_bade.store(1, Ordering::SeqCst);
            }
            _ => {}
        }
    }

    /// Takes the next byte, and counts the line that it ends.
    fn take(&mut self) -> Option<u8>
        ensures reads { self.new.failed_reads ≡ self.old.failed_reads }
        ensures writes { self.new.failed_writes ≡ self.old.failed_writes }
    {
        let (byte, others) = self.left.split_first()?;
        self.left = others;
        if *byte == b'\n' {
            self.lines = self.lines.saturating_add(1);
        }
        Some(*byte)
    }
}

impl Source for Meeting<'_> {
    ghost rest = { λ _. None };

    ghost failed_reads = { λ s. s.failed_reads };

    ghost written = { λ s. (None, s.failed_writes) };

    fn next_byte(&mut self) -> Result<Option<u8>, ReadFault> {
        if !self.may_read() {
            self.failed_reads += 1;
            return Err(ReadFault);
        }
        Ok(self.take())
    }

    fn failed_reads(&self) -> u64 {
        self.failed_reads
    }
}

impl Sink for Meeting<'_> {
    ghost held = { λ _. None };

    ghost failed_writes = { λ s. s.failed_writes };

    ghost unread = { λ s. (None, s.failed_reads) };

    fn write_all(&mut self, bytes: &[u8]) -> Result<(), WriteFault> {
        if !self.may_write() {
            self.failed_writes += 1;
            return Err(WriteFault);
        }
        match self.expected.strip_prefix(bytes) {
            Some(others) => {
                let count = bytes.len() as u64;
                self.signals.right_bytes.fetch_add(count, Ordering::SeqCst);
                self.expected = others;
            }
            None => {
                self.signals.wrong_texts.fetch_add(1, Ordering::SeqCst);
            }
        }
        self.replies = self.replies.saturating_add(1);
        self.tell_taken();
        Ok(())
    }

    fn flush(&mut self) -> Result<(), WriteFault> {
        Ok(())
    }

    fn failed_writes(&self) -> u64 {
        self.failed_writes
    }
}

impl Stream for Meeting<'_> {
    ghost use Rattle.std.specs.Prelude.{refl};
    ghost use Rattle.metric.specs.Wire.{silent};

    ghost wire = { λ s. silent s.failed_reads s.failed_writes };

    ghost shown = { λ s. refl };

    ghost reading = { λ s. refl };

    ghost writing = { λ s. refl };
}

/// What is read, and what is to be written.
type Talk = (Role, &'static [u8], &'static [u8]);

/// Two streams.
const TWO: [Talk; 2] = [
    (Role::First, b"PAINT 0 0 1 1\nQUIT\n", b"OK 1 1\nBYE\n"),
    (Role::Second, b"PAINT 0 0 2 1\nQUIT\n", b"OK 2 1\nBYE\n"),
];

/// Two streams; the second starts after the first one's reply was taken.
const TAKEN: [Talk; 2] = [
    (
        Role::FirstReplied,
        b"PAINT 0 0 1 1\nQUIT\n",
        b"OK 1 1\nBYE\n",
    ),
    (
        Role::SecondAfter,
        b"PAINT 0 0 2 1\nQUIT\n",
        b"OK 2 1\nBYE\n",
    ),
];

/// As many streams as a pool has workers: each waits for all others before its first line. Their
/// answers aren't checked.
const FOUR: [Talk; 4] = [
    (Role::OneOfFour(1), b"PAINT 0 0 1 1\nQUIT\nREVERT\n", b""),
    (Role::OneOfFour(2), b"PAINT 0 0 1 1\nQUIT\nREVERT\n", b""),
    (Role::OneOfFour(4), b"PAINT 0 0 1 1\nQUIT\nREVERT\n", b""),
    (Role::OneOfFour(8), b"PAINT 0 0 1 1\nQUIT\nREVERT\n", b""),
];

/// Streams that come in order.
#[derive(Drop)]
struct Talks<'a> {
    signals: &'a Signals,
    talks: &'static [Talk],
    given: usize,
}

impl<'a> Streams for Talks<'a> {
    type S = Meeting<'a>;

    ghost fresh = { λ stream. stream.failed_reads ≡ 0 };

    fn next(&mut self) -> Option<Meeting<'a>> {
        let (role, left, expected) = *self.talks.get(self.given)?;
        self.given = self.given.saturating_add(1);
        Some(Meeting::new(self.signals, role, left, expected))
    }
}

#[test]
fn connections_meet(rt: HostRuntime) -> Result<(), Fail> {
    for talks in [TWO.as_slice(), TAKEN.as_slice(), FOUR.as_slice()] {
        let sessions = talks.len() as u32;
        let blank = blank(&rt, rt.alloc(), setting(2, sessions), SQUARE)?;
        let signals = Signals {
            come: AtomicU64::new(0),
            first_replies: AtomicU64::new(0),
            first_replied: AtomicU64::new(0),
            first_waits: AtomicU64::new(0),
            second_painted: AtomicU64::new(0),
            second_bade: AtomicU64::new(0),
            right_bytes: AtomicU64::new(0),
            wrong_texts: AtomicU64::new(0),
        };
        let streams = Talks {
            signals: &signals,
            talks,
            given: 0,
        };
        let (entries, _) = pool_in::<Brand, _, _>(&rt, rt.alloc(), blank, streams)?;
        same(&rt, entries, talks.len(), "entries");
        if talks.len() == 2 {
            let wrong = signals.wrong_texts.load(Ordering::SeqCst);
            same(&rt, wrong, 0, "wrong texts");
            let right = signals.right_bytes.load(Ordering::SeqCst);
            same(&rt, right, 22, "right bytes");
        }
    }
    Ok(())
}
