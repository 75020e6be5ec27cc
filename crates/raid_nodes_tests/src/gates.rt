//! A gate at which two servers wait for one another, and one that holds the monitor up.

use raid_link::Gate;
use std::hint;
use std::sync::atomic::{AtomicU64, Ordering};

/// How often a server looks whether the other has come.
const TURNS: u32 = 10_000_000;

/// At its first step each of the servers 2 and 3, those of the sites 1 and 2, waits until the other has come to its own.
#[derive(Drop)]
pub struct Meeting {
    first: AtomicU64,
    second: AtomicU64,
    gave_up: AtomicU64,
}

impl Meeting {
    /// Neither has come.
    pub fn new() -> Meeting {
        Meeting {
            first: AtomicU64::new(0),
            second: AtomicU64::new(0),
            gave_up: AtomicU64::new(0),
        }
    }

    /// Whether both have come.
    pub fn have_come(&self) -> bool {
        self.first.load(Ordering::SeqCst) == 1 && self.second.load(Ordering::SeqCst) == 1
    }

    /// How often one of them has waited in vain.
    pub fn gave_up(&self) -> u64 {
        self.gave_up.load(Ordering::SeqCst)
    }
}

impl Gate for Meeting {
    fn at(&self, server: u16, step: u64) {
        if step > 0 || server < 2 || server > 3 {
            return;
        }
        let (mine, other) = if server == 2 {
            (&self.first, &self.second)
        } else {
            (&self.second, &self.first)
        };
        mine.store(1, Ordering::SeqCst);
        for _ in 0..TURNS {
            if other.load(Ordering::SeqCst) == 1 {
                return;
            }
            hint::spin_loop();
        }
        self.gave_up.fetch_add(1, Ordering::SeqCst);
    }
}

/// How often the monitor looks whether so many steps were taken.
const LOOKS: u32 = 100_000;

/// At its first step the monitor waits until the other servers have taken so many steps, or for a while, where they don't come to so many.
#[derive(Drop)]
pub struct Late {
    held: u64,
    taken: AtomicU64,
}

impl Late {
    /// No step was taken yet.
    pub fn new(held: u64) -> Late {
        Late {
            held,
            taken: AtomicU64::new(0),
        }
    }
}

impl Gate for Late {
    fn at(&self, server: u16, step: u64) {
        if server > 0 {
            self.taken.fetch_add(1, Ordering::SeqCst);
            return;
        }
        if step > 0 {
            return;
        }
        for _ in 0..LOOKS {
            if self.taken.load(Ordering::SeqCst) >= self.held {
                return;
            }
            hint::spin_loop();
        }
    }
}
