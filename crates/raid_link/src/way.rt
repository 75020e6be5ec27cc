use std::sync::atomic::{AtomicU64, Ordering};

/// How many letters are on their way, as servers on threads tell one another. It only says when it is time to end a turn: no contract
/// speaks of it, and a wrong count costs a round.
#[derive(Drop)]
pub struct OnTheWay {
    count: AtomicU64,
}

impl OnTheWay {
    /// So many letters are on their way.
    pub fn new(count: u64) -> OnTheWay {
        OnTheWay {
            count: AtomicU64::new(count),
        }
    }

    /// So many more letters are to be sent.
    pub fn add(&self, count: u64) {
        self.count.fetch_add(count, Ordering::SeqCst);
    }

    /// So many letters were taken, and what they made a server send was sent.
    pub fn sub(&self, count: u64) {
        self.count.fetch_sub(count, Ordering::SeqCst);
    }

    /// Whether no letter is on its way.
    pub fn is_none(&self) -> bool {
        self.count.load(Ordering::SeqCst) == 0
    }
}
