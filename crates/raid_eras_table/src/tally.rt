//! How many answers there were, and how many are not those of the lines.

/// Counts of answers.
#[derive(Clone, Copy, Debug)]
pub struct Tally {
    pub answers: u32,
    pub differ: u32,
}

impl Tally {
    pub fn new() -> Tally {
        Tally {
            answers: 0,
            differ: 0,
        }
    }

    /// Counts an answer.
    pub fn count(&mut self, same: bool) {
        self.answers = self.answers.saturating_add(1);
        if !same {
            self.differ = self.differ.saturating_add(1);
        }
    }
}
