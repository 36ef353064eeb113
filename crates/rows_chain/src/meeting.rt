//! Threads that wait for each other.
use parties::{Gate, Watch};
use std::sync::atomic::{AtomicU64, Ordering};
use std::thread;

// How many turns one waits for the other before it gives up.
const TURNS: u64 = 10_000_000;

/// Who has come to where they wait for the other, and whether one gave up waiting.
#[derive(Drop)]
pub struct Meeting {
    first: AtomicU64,
    second: AtomicU64,
    gave_up: AtomicU64,
}

impl Meeting {
    pub fn new() -> Meeting {
        Meeting {
            first: AtomicU64::new(0),
            second: AtomicU64::new(0),
            gave_up: AtomicU64::new(0),
        }
    }

    /// Whether nobody gave up waiting.
    pub fn met(&self) -> bool {
        self.gave_up.load(Ordering::SeqCst) == 0
    }

    /// Waits until the first has come.
    pub fn await_first(&self) {
        self.wait(&self.first);
    }

    /// The second has come.
    pub fn second_comes(&self) {
        self.second.store(1, Ordering::SeqCst);
    }

    fn wait(&self, other: &AtomicU64) {
        if !comes(other) {
            self.gave_up.store(1, Ordering::SeqCst);
        }
    }
}

// Whether one comes within the turns.
fn comes(flag: &AtomicU64) -> bool {
    for _ in 0..TURNS {
        if flag.load(Ordering::SeqCst) != 0 {
            return true;
        }
        thread::yield_now();
    }
    false
}

/// The first job comes first, and waits for the second; any other comes second, and waits for the first.
impl Gate for Meeting {
    fn enter(&self, job: usize) {
        if job == 0 {
            self.first.store(1, Ordering::SeqCst);
            self.wait(&self.second);
        } else {
            self.second_comes();
            self.await_first();
        }
    }

    fn leave(&self, _job: usize) {}
}

/// A party comes first with its first call, and waits for the second then.
impl Watch for Meeting {
    fn answered(&self) {
        if self.first.swap(1, Ordering::SeqCst) == 0 {
            self.wait(&self.second);
        }
    }

    fn ended(&self) {}
}
