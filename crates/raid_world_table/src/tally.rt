//! How many schedules there were, and how many ended otherwise than they were to.

/// Counts of schedules.
#[derive(Clone, Copy, Debug)]
pub struct Tally {
    pub schedules: u32,
    pub picks: usize,
    pub differ: u32,
}

impl Tally {
    /// No schedule was run.
    pub fn new() -> Tally {
        Tally {
            schedules: 0,
            picks: 0,
            differ: 0,
        }
    }

    /// Counts a schedule of so many picks.
    pub fn count(&mut self, picks: usize, is_alike: bool) {
        self.schedules = self.schedules.saturating_add(1);
        self.picks = self.picks.saturating_add(picks);
        if !is_alike {
            self.differ = self.differ.saturating_add(1);
        }
    }

    /// Counts what another one has counted.
    pub fn add(&mut self, other: Tally) {
        self.schedules = self.schedules.saturating_add(other.schedules);
        self.picks = self.picks.saturating_add(other.picks);
        self.differ = self.differ.saturating_add(other.differ);
    }
}
