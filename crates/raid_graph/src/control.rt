ghost use Rattle.std.specs.Prelude.{◌≡◌, List, [], ◌∷◌, ◌++◌, IfOk, OnOk, OnErr};
ghost use Rattle.raid_base.specs.declared.entry.Noted.{Noted};
ghost use Rattle.raid_base.specs.declared.verdict.Kind.TheVariants as kinds;
ghost use Rattle.raid_base.specs.declared.verdict.Structure.TheVariants.{Native};
ghost use Rattle.raid_control.specs.Carried.{IsCarry};
ghost use Rattle.raid_conflict.specs.Listed.{Extends};
ghost use Rattle.raid_graph.specs.Known.{Known};

use raid_base::{Ask, Entry, Kind, NoMemory, Noted, Pairs, Refusal, Structure, Txn, Verdict};
use raid_conflict::Graph;
use raid_control::{Carry, Controller};
use raid_tables::{Commits, Running, is_backward};
use std::alloc::Global;

/// Judges by the conflict graph of its view.
#[derive(Drop, Debug)]
pub struct GraphControl {
    alloc: Global,
    transactions: u32,
    items: u32,
    graph: Graph,
    running: Running,
    commits: Commits,
}

impl GraphControl {
    /// A controller that stands for the empty view, with room for so many transactions and items at first. Every call answers for all
    /// transactions and items, whatever the two numbers were.
    pub fn new(alloc: Global, transactions: u32, items: u32) -> Result<GraphControl, NoMemory>
        ensures kind { IfOk result (λ c. ⟦<GraphControl as Controller>⟧.kind_of c ≡ kinds.Graph) }
        ensures structure { IfOk result (λ c. ⟦<GraphControl as Controller>⟧.structure_of c ≡ Native) }
        ensures empty { IfOk result (λ c. ⟦<GraphControl as Controller>⟧.stands c []) }
    {
        let graph = Graph::new(alloc, transactions, items)?;
        let running = Running::new(alloc, transactions)?;
        let commits = Commits::new(alloc, items)?;
        Ok(GraphControl {
            alloc,
            transactions,
            items,
            graph,
            running,
            commits,
        })
    }

    /// Takes the memory for noting an entry in all tables, then notes it.
    fn add(&mut self, at: u32, stamp: u32, entry: &Entry) -> Result<(), NoMemory>
        ensures ok { OnOk result ((view : List Noted) → Known self.old view → Extends view (record { at = at; stamp = stamp; entry = entry.now }) → Known self.new (view ++ record { at = at; stamp = stamp; entry = entry.now } ∷ [])) }
        ensures err { OnErr result ((view : List Noted) → Known self.old view → Known self.new view) }
    {
        self.running.reserve(entry)?;
        self.commits.reserve(entry)?;
        self.graph.note(at, stamp, entry)?;
        self.running.note(at, stamp, entry);
        self.commits.note(at, stamp, entry);
        Ok(())
    }

    /// Adds the entries in order, where they are a carry.
    fn add_all(&mut self, entries: &[Noted]) -> Result<(), NoMemory>
        ensures { OnOk result (Known self.old [] → IsCarry entries.now → Known self.new entries.now) }
    {
        for noted in entries {
            self.add(noted.at, noted.stamp, &noted.entry)?;
        }
        Ok(())
    }
}

impl Controller for GraphControl {
    ghost stands = { λ c view. Known c view };

    ghost kind_of = { λ _. kinds.Graph };

    ghost structure_of = { λ _. Native };

    fn kind(&self) -> Kind {
        Kind::Graph
    }

    fn structure(&self) -> Structure {
        Structure::Native
    }

    fn judge(&mut self, ask: &Ask) -> Verdict {
        if self.graph.would_close(ask) {
            Verdict::Reject(Refusal::Cycle)
        } else {
            Verdict::Grant
        }
    }

    fn note(&mut self, at: u32, stamp: u32, entry: &Entry) -> Result<(), NoMemory> {
        self.add(at, stamp, entry)
    }

    fn backward(&self, txn: Txn) -> bool {
        is_backward(&self.running, &self.commits, txn)
    }

    fn blocks(&self, _reader: Txn, _writer: Txn, _writes: &Pairs) -> bool {
        false
    }

    fn carry(&self, alloc: Global) -> Result<Carry, NoMemory> {
        self.running.carry(alloc)
    }

    fn load(&mut self, carry: &Carry) -> Result<(), NoMemory> {
        // The entries are added to a controller of their own, so that want of memory at a later one leaves this as it was.
        let mut loaded = GraphControl::new(self.alloc, self.transactions, self.items)?;
        loaded.add_all(carry.as_slice())?;
        *self = loaded;
        Ok(())
    }

    fn set_kind(&mut self, _kind: Kind) -> bool {
        false
    }

    fn clear(&mut self) {
        self.graph.clear();
        self.running.clear();
        self.commits.clear();
    }
}
