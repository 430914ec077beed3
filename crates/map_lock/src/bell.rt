//! Bells: who finds nothing to do sleeps until there may be something.
//!
//! Who sleeps has first heard the bell, then made a turn, and sleeps at what it heard. Who rings has made its turn
//! before. So a sleeper's turn is behind the ringer's, or it has heard less than was rung and doesn't fall asleep, or
//! it is woken.
ghost use Rattle.std.specs.Prelude.{◌≡◌, ◌%◌, ◌^◌};

use std::sync::Wait;
use std::sync::atomic::AtomicU64;
use std::sync::atomic::Ordering::SeqCst;
use std::time::Duration;

// How often a lull is listened for at most.
const LISTENS: u32 = 50;

/// A bell that threads sleep by.
#[derive(Drop)]
pub(crate) struct Bell {
    rings: AtomicU64,
    sleepers: AtomicU64,
    listeners: AtomicU64,
}

impl Bell {
    /// A bell that hasn't rung, and that nobody sleeps by.
    pub(crate) fn new() -> Bell {
        Bell {
            rings: AtomicU64::new(0),
            sleepers: AtomicU64::new(0),
            listeners: AtomicU64::new(0),
        }
    }

    /// How often it has rung.
    pub(crate) fn heard(&self) -> u64 {
        self.rings.load(SeqCst)
    }

    /// Sleeps until it is rung, where it hasn't rung since this was heard. It may also wake for no reason.
    pub(crate) fn sleep<R: Wait>(&self, rt: &R, heard: u64) {
        self.sleepers.fetch_add(1, SeqCst);
        self.rings.park(rt, low_half(heard));
        self.sleepers.fetch_sub(1, SeqCst);
    }

    /// Where it has rung since this was heard, waits until it rings no more, for some milliseconds at most. It answers
    /// what was heard last. Meanwhile rings wake nobody: who listens makes its turn behind them.
    pub(crate) fn lull<R: Wait>(&self, rt: &R, heard: u64) -> u64 {
        let mut latest = self.heard();
        if latest == heard {
            return latest;
        }
        self.listeners.fetch_add(1, SeqCst);
        for _ in 0..LISTENS {
            self.rings
                .park_timeout(rt, low_half(latest), Duration::from_micros(100));
            let now = self.heard();
            if now == latest {
                break;
            }
            latest = now;
        }
        self.listeners.fetch_sub(1, SeqCst);
        latest
    }

    /// Rings for one sleeper, who is to wake another where it finds something to do.
    pub(crate) fn ring(&self) {
        self.rings.fetch_add(1, SeqCst);
        if self.listeners.load(SeqCst) == 0 {
            self.wake_another();
        }
    }

    /// Rings for one sleeper where there may be something to do.
    pub(crate) fn ring_where(&self, something: bool) {
        if something {
            self.ring();
        }
    }

    /// Rings for all sleepers.
    pub(crate) fn ring_for_all(&self) {
        self.rings.fetch_add(1, SeqCst);
        self.rings.wake_all();
    }

    /// Wakes one sleeper, if there is one.
    pub(crate) fn wake_another(&self) {
        if self.sleepers.load(SeqCst) != 0 {
            self.rings.wake_one();
        }
    }
}

/// The low half of a word, which the system compares where a thread falls asleep.
pub(crate) fn low_half(word: u64) -> u32
    ensures { result ≡ word % 2 ^ 32 }
{
    (word % 0x1_0000_0000) as u32
}
