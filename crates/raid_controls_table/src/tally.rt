//! What controllers have said, and how often it differs from what stands in the lines.

use raid_base::{Refusal, Verdict};

/// Counts of answers.
#[derive(Clone, Copy, Debug)]
pub struct Tally {
    pub grants: u32,
    pub waits: u32,
    pub lates: u32,
    pub invalids: u32,
    pub cycles: u32,
    /// Answers that are no verdicts.
    pub more: u32,
    /// Answers that are not those of the lines.
    pub differ: u32,
}

impl Tally {
    pub fn new() -> Tally {
        Tally {
            grants: 0,
            waits: 0,
            lates: 0,
            invalids: 0,
            cycles: 0,
            more: 0,
            differ: 0,
        }
    }

    /// Compares an answer.
    fn compare(&mut self, same: bool) {
        if !same {
            self.differ = self.differ.saturating_add(1);
        }
    }

    /// Counts a verdict, and compares it.
    pub fn verdict(&mut self, said: Verdict, wanted: Verdict) {
        let count = match said {
            Verdict::Grant => &mut self.grants,
            Verdict::Wait => &mut self.waits,
            Verdict::Reject(Refusal::Late) => &mut self.lates,
            Verdict::Reject(Refusal::Invalid) => &mut self.invalids,
            Verdict::Reject(Refusal::Cycle) => &mut self.cycles,
        };
        *count = count.saturating_add(1);
        self.compare(said == wanted);
    }

    /// Counts a yes or no, and compares it.
    pub fn answer(&mut self, said: bool, wanted: bool) {
        self.more = self.more.saturating_add(1);
        self.compare(said == wanted);
    }
}
