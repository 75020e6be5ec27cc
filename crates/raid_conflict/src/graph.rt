ghost use Rattle.std.specs.Prelude.{◌≡◌, ◌≤◌, vec_len, false, ℕ, List, [], ◌∷◌, ◌++◌, IfOk, OnOk, OnErr};
ghost use Rattle.raid_base.specs.declared.entry.Noted.{Noted};
ghost use Rattle.raid_conflict.specs.Listed.{noted_as, Extends, reaches_before};
ghost use Rattle.raid_rules.specs.History.{has_ended};
ghost use Rattle.raid_rules.specs.Committed.{IsOrderOf};
ghost use Rattle.raid_rules.specs.Verdicts.{asked, asker, closes_cycle};
ghost use Rattle.raid_conflict.specs.Tables as words;
ghost use Rattle.raid_conflict.specs.Live.{Stands, Within, live};

use crate::found::Found;
use crate::state::State;
use crate::{arrange, closing, running, search};
use raid_base::{Ask, Entry, NoMemory, Txn};
use raid_rules::order::Order;
use std::alloc::Global;
use std::marker::Model;

/// The conflict graph. It stands for a list of noted entries, as a controller stands for a view: each promise
/// below is for every list that it stands for and that meets the condition named there.
#[derive(Drop, Debug)]
pub struct Graph {
    state: State,
    found: Found,
}

impl Model for Graph {
    ghost use Rattle.std.specs.Prelude.{◌≡◌, ◌≤◌, [], vec_len};
    ghost use Rattle.raid_conflict.specs.declared.state.State.{State};
    ghost use Rattle.raid_conflict.specs.Live.{Within};

    ghost Value = { State };

    ghost view = { λ g. g.state };

    ghost invariant = { λ g. (g.found.0 ≡ []) × (vec_len g.state.tables.own ≤ g.found.1) × Within g.found.1 g.state.running.list.items };
}

/// How many places an entry needs in the search: up to its transaction where it is a Read or Commit.
fn places_of(entry: &Entry) -> usize
    ensures { result ≡ words.places_of entry.now }
{
    match entry {
        Entry::Read { txn, .. } | Entry::Commit { txn, .. } => txn.0 as usize + 1,
        _ => 0,
    }
}

/// How many transactions are live: a search from those that run finds them.
fn count_live(state: &State, found: &mut Found) -> usize
    requires empty { found.old.0 ≡ [] }
    requires places { vec_len state.now.tables.own ≤ found.old.1 }
    requires within { Within found.old.1 state.now.running.list.items }
    ensures live { (view : List Noted) → Stands state.now view → result ≡ live view }
    ensures empty { found.new.0 ≡ [] }
    ensures places { found.new.1 ≡ found.old.1 }
{
    search::reach_all(&state.tables, found, state.running.list.as_slice());
    let count = found.len();
    found.clear();
    count
}

impl Graph {
    /// The graph of the empty list, with room for so many transactions and items at first. Every call answers for
    /// all transactions and items, whatever the two numbers were. Want of memory is the only error.
    pub fn new(alloc: Global, transactions: u32, items: u32) -> Result<Graph, NoMemory>
        ensures { IfOk result (λ g. Stands g []) }
    {
        let state = State::new(alloc, transactions, items)?;
        let mut found = Found::new(alloc);
        found.make_places(transactions as usize + 1)?;
        Ok(Graph { state, found })
    }

    /// Notes an entry under its number and with its transaction's stamp, 0 where it has none, after each list that
    /// it extends. After want of memory the graph stands for each list that it stood for.
    pub fn note(&mut self, at: u32, stamp: u32, entry: &Entry) -> Result<(), NoMemory>
        ensures ok { OnOk result ((view : List Noted) → Stands self.old view → Extends view (noted_as at stamp entry.now) → Stands self.new (view ++ noted_as at stamp entry.now ∷ [])) }
        ensures err { OnErr result ((view : List Noted) → Stands self.old view → Stands self.new view) }
    {
        self.found.make_places(places_of(entry))?;
        self.found.make_places(running::place_of(entry) + 1)?;
        self.state.note(at, entry)
    }

    /// Whether the transaction reaches one whose stamp is less, over each list without a Commit or Abort of it.
    /// A transaction without a Begin in the list has the stamp 0.
    pub fn reaches_before(&mut self, txn: Txn, before: u32) -> bool
        ensures answer { (view : List Noted) → Stands self.old view → has_ended view txn ≡ false → result ≡ reaches_before view txn before }
        ensures stands { (view : List Noted) → Stands self.old view → Stands self.new view }
    {
        search::reach(&self.state.tables, &mut self.found, txn);
        let answer = closing::any_before(&self.state.tables, self.found.as_slice(), before);
        self.found.clear();
        answer
    }

    /// Whether the edges have a cycle through the asking transaction once the asked action is the last, over each
    /// list without a Commit or Abort of the asking transaction.
    pub fn would_close(&mut self, ask: &Ask) -> bool
        ensures answer { (view : List Noted) → Stands self.old view → has_ended view (asker (asked ask.now)) ≡ false → result ≡ closes_cycle view (asked ask.now) }
        ensures stands { (view : List Noted) → Stands self.old view → Stands self.new view }
    {
        search::reach(&self.state.tables, &mut self.found, closing::asker(ask));
        let answer = closing::closes(&self.state.tables, &self.found, ask);
        self.found.clear();
        answer
    }

    /// The order of the committed transactions, over each list that the graph stands for: whole, with the serial
    /// order, or cyclic, exactly where they have a cycle of conflicts. Want of memory is the only error.
    pub fn order(&self, alloc: Global) -> Result<Order, NoMemory>
        ensures { IfOk result (λ order. (view : List Noted) → Stands self.now view → IsOrderOf view order) }
    {
        arrange::arranged(alloc, &self.state.tables)
    }

    /// How many transactions are live, over each list: those with a Begin, Read or Commit there that aren't aborted,
    /// and have no Commit or are reached by one that has neither a Commit nor an Abort. What the others did is
    /// settled: no conflict to come can put them into a cycle. They are found by a search, as what a transaction
    /// reaches is. Takes no memory.
    pub fn live(&mut self) -> usize
        ensures answer { (view : List Noted) → Stands self.old view → result ≡ live view }
        ensures stands { (view : List Noted) → Stands self.old view → Stands self.new view }
    {
        count_live(&self.state, &mut self.found)
    }

    /// Forgets all entries: the graph stands for the empty list. Takes no memory.
    pub fn clear(&mut self)
        ensures { Stands self.new [] }
    {
        self.state.clear();
    }
}
