//! How far a play is, on standard error.
use marlowe_commands::Watch;
use std::rt::Clock;
use std::sync::atomic::{AtomicU64, Ordering};
use std::time::Instant;

// Milliseconds from one showing to the next.
const PAUSE: u64 = 100;

/// Shows on standard error how many entries the history has and how many plans have ended, at most ten times a second. It is
/// for a terminal: each showing is written over the one before.
#[derive(Drop)]
pub struct Progress<'r, R> {
    rt: &'r R,
    // When it began, where something is to be shown.
    start: Option<Instant>,
    // The milliseconds after that from which something may be shown again.
    due: AtomicU64,
    entries: AtomicU64,
    ended: AtomicU64,
}

impl<'r, R: Clock + Eprint> Progress<'r, R> {
    /// Shows how far a play is that begins now, if wanted.
    pub fn new(rt: &'r R, shown: bool) -> Progress<'r, R> {
        let start = if shown { Instant::now(rt).ok() } else { None };
        Progress {
            rt,
            start,
            due: AtomicU64::new(PAUSE),
            entries: AtomicU64::new(0),
            ended: AtomicU64::new(0),
        }
    }

    // Whether something may be shown now: then nothing may be for a while.
    fn is_due(&self) -> bool {
        let Some(start) = self.start else {
            return false;
        };
        let Ok(elapsed) = start.elapsed(self.rt) else {
            return false;
        };
        let now = u64::try_from(elapsed.as_millis()).unwrap_or(u64::MAX);
        let due = self.due.load(Ordering::SeqCst);
        let next = now.saturating_add(PAUSE);
        due <= now
            && self
                .due
                .compare_exchange(due, next, Ordering::SeqCst, Ordering::SeqCst)
                .is_ok()
    }

    fn show(&self) {
        if self.is_due() {
            let entries = self.entries.load(Ordering::SeqCst);
            let ended = self.ended.load(Ordering::SeqCst);
            let _ = eprint!(self.rt; "\r{entries} entries, {ended} plans ended");
        }
    }

    /// Takes away what is shown, once the play is over.
    pub fn clear(&self) {
        if self.start.is_some() && self.due.load(Ordering::SeqCst) != PAUSE {
            let _ = eprint!(self.rt; "\r\x1b[K");
        }
    }
}

impl<R: Clock + Eprint> Watch for Progress<'_, R> {
    fn answered(&self) {
        self.entries.fetch_add(1, Ordering::SeqCst);
        self.show();
    }

    fn ended(&self) {
        self.ended.fetch_add(1, Ordering::SeqCst);
        self.show();
    }
}
