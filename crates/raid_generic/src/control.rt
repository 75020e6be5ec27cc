ghost use Rattle.std.specs.Prelude.{◌≡◌, not, List, [], ◌∷◌, ◌++◌, count_by, IfOk, OnOk, OnErr};
ghost use Rattle.raid_base.specs.declared.entry.Noted.{Noted};
ghost use Rattle.raid_base.specs.declared.verdict.Structure.TheVariants.{GenericState};
ghost use Rattle.raid_rules.specs.Entries.{is_read};
ghost use Rattle.raid_rules.specs.History.{has_ended};
ghost use Rattle.raid_rules.specs.Order.{Fits};
ghost use Rattle.raid_rules.specs.Verdicts.{asked, lock_verdict, stamp_verdict, valid_verdict, graph_verdict};
ghost use Rattle.raid_control.specs.Carried.{IsCarry};
ghost use Rattle.raid_conflict.specs.Listed.{Extends};
ghost use Rattle.raid_generic.specs.Known.{Known};

use raid_base::{Ask, Entry, Kind, NoMemory, Noted, Pairs, Refusal, Structure, Txn, Verdict};
use raid_conflict::Graph;
use raid_control::{Carry, Controller};
use raid_tables::{Commits, Readers, Running, Stamps, is_backward, is_invalid};
use std::alloc::Global;

/// Judges by any of the four kinds, over the tables of all of them: for each item its running readers, the largest stamps that read and
/// wrote it, and the number of the last Commit that wrote it; what the running transactions have done; and the conflict graph.
#[derive(Drop, Debug)]
pub struct GenericControl {
    alloc: Global,
    transactions: u32,
    items: u32,
    kind: Kind,
    graph: Graph,
    running: Running,
    readers: Readers,
    stamps: Stamps,
    commits: Commits,
}

impl GenericControl {
    /// A controller of this kind that stands for the empty view, with room for so many transactions and items at first. Every call
    /// answers for all transactions and items, whatever the two numbers were.
    pub fn new(
        alloc: Global,
        kind: Kind,
        transactions: u32,
        items: u32,
    ) -> Result<GenericControl, NoMemory>
        ensures kind { IfOk result (λ c. ⟦<GenericControl as Controller>⟧.kind_of c ≡ kind) }
        ensures structure { IfOk result (λ c. ⟦<GenericControl as Controller>⟧.structure_of c ≡ GenericState) }
        ensures empty { IfOk result (λ c. ⟦<GenericControl as Controller>⟧.stands c []) }
    {
        let graph = Graph::new(alloc, transactions, items)?;
        let running = Running::new(alloc, transactions)?;
        let readers = Readers::new(alloc, items)?;
        let stamps = Stamps::new(alloc, items)?;
        let commits = Commits::new(alloc, items)?;
        Ok(GenericControl {
            alloc,
            transactions,
            items,
            kind,
            graph,
            running,
            readers,
            stamps,
            commits,
        })
    }

    /// How many Reads there are in the view of transactions that haven't ended there. Takes no memory.
    pub fn kept(&self) -> usize
        ensures { (view : List Noted) → ⟦<GenericControl as Controller>⟧.stands self.now view → result ≡ count_by (λ n. is_read (λ t x s. not (has_ended view t)) n.entry) view }
    {
        self.running.kept()
    }

    /// Takes the memory for noting an entry in all tables, then notes it.
    fn add(&mut self, at: u32, stamp: u32, entry: &Entry) -> Result<(), NoMemory>
        ensures kind { self.new.kind ≡ self.old.kind }
        ensures ok { OnOk result ((view : List Noted) → Known self.old view → Extends view (record { at = at; stamp = stamp; entry = entry.now }) → Known self.new (view ++ record { at = at; stamp = stamp; entry = entry.now } ∷ [])) }
        ensures err { OnErr result ((view : List Noted) → Known self.old view → Known self.new view) }
    {
        self.running.reserve(entry)?;
        self.readers.reserve(entry)?;
        self.stamps.reserve(entry)?;
        self.commits.reserve(entry)?;
        self.graph.note(at, stamp, entry)?;
        self.readers.note(&self.running, at, stamp, entry);
        self.running.note(at, stamp, entry);
        self.stamps.note(at, stamp, entry);
        self.commits.note(at, stamp, entry);
        Ok(())
    }

    /// Adds the entries in order, where they are a carry.
    fn add_all(&mut self, entries: &[Noted]) -> Result<(), NoMemory>
        ensures kind { self.new.kind ≡ self.old.kind }
        ensures ok { OnOk result (Known self.old [] → IsCarry entries.now → Known self.new entries.now) }
    {
        for noted in entries {
            self.add(noted.at, noted.stamp, &noted.entry)?;
        }
        Ok(())
    }

    fn judge_by_locks(&self, ask: &Ask) -> Verdict
        ensures { (view : List Noted) → Known self.now view → result ≡ lock_verdict view (asked ask.now) }
    {
        match ask {
            Ask::Read { .. } => Verdict::Grant,
            Ask::Commit { txn, writes, .. } => {
                if self.readers.is_held(&self.running, *txn, writes.as_slice()) {
                    Verdict::Wait
                } else {
                    Verdict::Grant
                }
            }
        }
    }

    fn judge_by_stamps(&self, ask: &Ask) -> Verdict
        ensures { (view : List Noted) → Known self.now view → result ≡ stamp_verdict view (asked ask.now) }
    {
        if self.stamps.is_late(ask) {
            Verdict::Reject(Refusal::Late)
        } else {
            Verdict::Grant
        }
    }

    fn judge_by_validation(&self, ask: &Ask) -> Verdict
        ensures { (view : List Noted) → Known self.now view → Fits view (asked ask.now) → result ≡ valid_verdict view (asked ask.now) }
    {
        match ask {
            Ask::Read { .. } => Verdict::Grant,
            Ask::Commit { txn, .. } => {
                if is_invalid(&self.running, &self.commits, *txn) {
                    Verdict::Reject(Refusal::Invalid)
                } else {
                    Verdict::Grant
                }
            }
        }
    }

    fn judge_by_graph(&mut self, ask: &Ask) -> Verdict
        ensures kind { self.new.kind ≡ self.old.kind }
        ensures answers { (view : List Noted) → Known self.old view → Fits view (asked ask.now) → result ≡ graph_verdict view (asked ask.now) }
        ensures keeps { (view : List Noted) → Known self.old view → Known self.new view }
    {
        if self.graph.would_close(ask) {
            Verdict::Reject(Refusal::Cycle)
        } else {
            Verdict::Grant
        }
    }
}

impl Controller for GenericControl {
    ghost stands = { λ c view. Known c view };

    ghost kind_of = { λ c. c.kind };

    ghost structure_of = { λ _. GenericState };

    fn kind(&self) -> Kind {
        self.kind
    }

    fn structure(&self) -> Structure {
        Structure::GenericState
    }

    fn judge(&mut self, ask: &Ask) -> Verdict {
        match self.kind {
            Kind::Lock => self.judge_by_locks(ask),
            Kind::Stamp => self.judge_by_stamps(ask),
            Kind::Valid => self.judge_by_validation(ask),
            Kind::Graph => self.judge_by_graph(ask),
        }
    }

    fn note(&mut self, at: u32, stamp: u32, entry: &Entry) -> Result<(), NoMemory> {
        self.add(at, stamp, entry)
    }

    fn backward(&self, txn: Txn) -> bool {
        is_backward(&self.running, &self.commits, txn)
    }

    fn blocks(&self, reader: Txn, writer: Txn, writes: &Pairs) -> bool {
        match self.kind {
            Kind::Lock => self
                .readers
                .is_blocked_by(&self.running, reader, writer, writes.as_slice()),
            Kind::Stamp | Kind::Valid | Kind::Graph => false,
        }
    }

    fn carry(&self, alloc: Global) -> Result<Carry, NoMemory> {
        self.running.carry(alloc)
    }

    fn load(&mut self, carry: &Carry) -> Result<(), NoMemory> {
        // The entries are added to a controller of their own, so that want of memory at a later one leaves this as it was.
        let mut loaded = GenericControl::new(self.alloc, self.kind, self.transactions, self.items)?;
        loaded.add_all(carry.as_slice())?;
        *self = loaded;
        Ok(())
    }

    fn set_kind(&mut self, kind: Kind) -> bool {
        self.kind = kind;
        true
    }

    fn clear(&mut self) {
        self.graph.clear();
        self.running.clear();
        self.readers.clear();
        self.stamps.clear();
        self.commits.clear();
    }
}
