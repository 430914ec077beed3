//! Workers in reserve: of those that there are, only so many take jobs at a time.
use crate::bell::low_half;
use std::sync::Wait;
use std::sync::atomic::AtomicU64;
use std::sync::atomic::Ordering::SeqCst;

// What stands for all workers. Each half of it is far beyond their number, so that the half which the system compares
// changes too, also where some were called up one by one meanwhile.
const ALL: u64 = 0x8000_0000_8000_0000;

/// How many workers have come, and how many of them are called up, in the order in which they came. The others sleep.
#[derive(Drop)]
pub(crate) struct Reserve {
    come: AtomicU64,
    called: AtomicU64,
}

impl Reserve {
    /// A reserve of which so many are called up at once.
    pub(crate) fn new(called: u32) -> Reserve {
        Reserve {
            come: AtomicU64::new(0),
            called: AtomicU64::new(u64::from(called)),
        }
    }

    /// Sleeps until the worker of this place is called up, and answers the place. A worker that has none yet has come
    /// now.
    pub(crate) fn wait<R: Wait>(&self, rt: &R, place: Option<u64>) -> u64 {
        let place = match place {
            Some(place) => place,
            None => self.come.fetch_add(1, SeqCst),
        };
        for _ in rt.forever() {
            let called = self.called.load(SeqCst);
            if place < called {
                return place;
            }
            self.called.park(rt, low_half(called));
        }
        unreachable!()
    }

    /// Calls up one more, for one that ends.
    pub(crate) fn call_one(&self) {
        self.called.fetch_add(1, SeqCst);
        self.called.wake_all();
    }

    /// Calls up all.
    pub(crate) fn call_all(&self) {
        self.called.store(ALL, SeqCst);
        self.called.wake_all();
    }
}
