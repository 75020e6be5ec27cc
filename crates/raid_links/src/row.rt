ghost use Rattle.std.specs.Prelude.{◌≡◌, ◌==◌, ◌<◌, ◌≤◌, ◌+◌, true, false, is_none, if◌then◌else◌, drop, List, [], ◌∷◌, ◌++◌, length, replicate, slice_get, slice_set, slice_index_or, IfOk, IfSome, OnOk, OnErr};
ghost use Rattle.std.specs.List.{list_all};
ghost use Rattle.raid_links.specs.First.{IsFirstSender, has_letter};
ghost use Rattle.raid_message.specs.declared.letter.Letter.{Letter};

use crate::queue::Queue;
use raid_base::NoMemory;
use raid_message::Letter;
use std::alloc::Global;
use std::marker::Model;

/// The links to one server, by sender. Contracts see the list of their letters. `busy` counts the links that hold a letter.
#[derive(Drop, Debug)]
pub struct Row {
    queues: Vec<Queue>,
    busy: usize,
}

impl Model for Row {
    ghost use Rattle.std.specs.Prelude.{List, ◌≡◌, count_by};
    ghost use Rattle.raid_message.specs.declared.letter.Letter.{Letter};
    ghost use Rattle.raid_links.specs.First.{has_letter};

    ghost Value = { List (List Letter) };

    ghost view = { λ r. r.queues.items };

    ghost invariant = { λ r. r.busy ≡ count_by has_letter r.queues.items };
}

/// So many empty queues.
fn queues(alloc: Global, servers: usize) -> Result<Vec<Queue>, NoMemory>
    ensures { IfOk result (λ qs. qs.items ≡ replicate servers []) }
{
    let mut queues = Vec::new(alloc);
    for _ in 0..servers {
        queues.push(Queue::new(alloc))?;
    }
    Ok(queues)
}

/// Whether a letter is on the link.
fn has_letter(queue: &Queue) -> bool
    ensures { result ≡ has_letter queue.now }
{
    !queue.is_empty()
}

/// How many links hold a letter, once one that held some, or none, holds some, or none.
fn recount(busy: usize, before: bool, after: bool) -> usize
    requires one { before ≡ true → 1 ≤ busy }
    requires more { before ≡ false → busy < 18446744073709551615 }
    ensures { result + (if before then 1 else 0) ≡ busy + (if after then 1 else 0) }
{
    match (before, after) {
        (true, false) => busy - 1,
        (false, true) => busy + 1,
        _ => busy,
    }
}

impl Row {
    /// Empty links from so many servers.
    #[tactic(auto, using(crate::proofs::Busy::none_of_new))]
    pub fn new(alloc: Global, servers: usize) -> Result<Row, NoMemory>
        ensures { IfOk result (λ r. r ≡ replicate servers []) }
    {
        let queues = queues(alloc, servers)?;
        Ok(Row { queues, busy: 0 })
    }

    /// From how many servers there are links.
    pub fn len(&self) -> usize
        ensures { result ≡ length self.now }
    {
        self.queues.len()
    }

    /// Whether no letter of the sender waits; there is none of a sender without a link.
    pub fn is_empty(&self, from: usize) -> bool
        ensures { result ≡ (length (slice_index_or self.now from []) == 0) }
    {
        from >= self.queues.len() || self.queues[from].is_empty()
    }

    /// Puts a letter at the end of the sender's link. After want of memory the links are as they were.
    pub fn push(&mut self, from: usize, letter: Letter) -> Result<(), NoMemory>
        requires { from < length self.old }
        ensures ok { OnOk result (self.new ≡ slice_set self.old from (slice_index_or self.old from [] ++ letter ∷ [])) }
        ensures err { OnErr result (self.new ≡ self.old) }
    {
        let busy = recount(self.busy, has_letter(&self.queues[from]), true);
        self.queues[from].push(letter)?;
        self.busy = busy;
        Ok(())
    }

    /// Takes the front letter of the sender's link; None exactly where there is none.
    pub fn pop(&mut self, from: usize) -> Option<Letter>
        ensures front { result ≡ slice_get (slice_index_or self.old from []) 0 }
        ensures rest { self.new ≡ slice_set self.old from (drop 1 (slice_index_or self.old from [])) }
    {
        if from >= self.queues.len() {
            return None;
        }
        let before = has_letter(&self.queues[from]);
        let letter = self.queues[from].pop();
        let after = has_letter(&self.queues[from]);
        self.busy = recount(self.busy, before, after);
        letter
    }

    /// The least sender with a letter on its link; None exactly where there is none. Looks at no link where none holds a letter.
    #[tactic(auto, using(crate::proofs::Busy::none_busy))]
    pub fn first(&self) -> Option<usize>
        ensures first { IfSome result (λ k. IsFirstSender self.now k) }
        ensures some { IfSome result (λ k. (k < length self.now) × ((length (slice_index_or self.now k []) == 0) ≡ false)) }
        ensures none { is_none result ≡ list_all (λ queue. length queue == 0) self.now }
    {
        if self.busy == 0 {
            return None;
        }
        first_full(&self.queues)
    }
}

/// The place of the first queue with a letter.
fn first_full(queues: &[Queue]) -> Option<usize>
    ensures first { IfSome result (λ k. IsFirstSender queues.now k) }
    ensures some { IfSome result (λ k. (k < length queues.now) × ((length (slice_index_or queues.now k []) == 0) ≡ false)) }
    ensures none { is_none result ≡ list_all (λ queue. length queue == 0) queues.now }
{
    for (k, queue) in queues.iter().enumerate() {
        if !queue.is_empty() {
            return Some(k);
        }
    }
    None
}
