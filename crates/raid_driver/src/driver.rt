ghost use Rattle.std.specs.Prelude.{◌≡◌, ◌<◌, [], true, false, IsTrue, IfOk, OnOk, OnErr, if◌then◌else◌};
ghost use Rattle.raid_legal.specs.Seen.{attempt};
ghost use Rattle.raid_driver.specs.Drive as words;
ghost use Rattle.raid_driver.specs.Drive.{Ascends, turn, txns_of, done_of, reads_of, writes_of, may_ask, begin, begin_next, next_txn, start, give, noting, lose, ended, cleared, again};

use crate::task::Task;
use crate::{homes, tasks};
use raid_base::{NoMemory, Pairs, Site, Txn, TxnList};
use raid_message::Outs;
use raid_program::Program;
use raid_workload::Workload;
use std::alloc::Global;
use std::marker::Model;

/// The programs that run at one site.
///
/// It begins transactions, lets each program go on with the values that come for it, and puts into `outs` what
/// the sequencer is to hear of it: Begin, ReadAsk and EndAsk. A program that is done waits here until its transaction
/// has ended; what follows from it is a matter of the site.
///
/// A program is run again from its start with all its answers whenever a new one comes, so nothing is kept of a
/// run, and every call holds for whatever workload it is given. A program has at most 32 statements.
///
/// A call that takes a workload or memory and is refused memory leaves the driver finished: each later call of that
/// kind answers NoMemory, and what its lists hold is worth nothing, as is what it had put into `outs`.
#[derive(Drop, Debug)]
pub struct Driver {
    site: Site,
    next: u32,
    tasks: Vec<Task>,
    running: TxnList,
    prepared: TxnList,
    finished: bool,
    /// The program of a transaction that the workload doesn't have.
    blank: Program,
    /// What a transaction that isn't done has read and writes.
    nothing: Pairs,
    alloc: Global,
}

impl Model for Driver {
    ghost use Rattle.std.specs.Prelude.{◌≡◌, [], false};
    ghost use Rattle.raid_driver.specs.Drive.{Drive, Keeps};

    ghost Value = { Drive };

    ghost view = { λ d. record { site = d.site; next = d.next; running = d.tasks.items; finished = d.finished } };

    ghost invariant = { λ d. (d.finished ≡ false → Keeps d.tasks.items d.running d.prepared) × (d.blank ≡ []) × (d.nothing ≡ []) };
}

impl Driver {
    /// No program runs. The transaction that begins next is the least one whose home the site is.
    pub fn new(alloc: Global, workload: &Workload, site: Site) -> Result<Driver, NoMemory>
        ensures { IfOk result (λ d. d ≡ words.opened workload.now site) }
    {
        Ok(Driver {
            site,
            next: homes::following(workload, site, 0),
            tasks: Vec::new(alloc),
            running: TxnList::new(alloc),
            prepared: TxnList::new(alloc),
            finished: false,
            blank: Program::new(alloc),
            nothing: Pairs::new(alloc),
            alloc,
        })
    }

    /// Whether a call was refused memory.
    pub fn is_finished(&self) -> bool
        ensures { result ≡ self.now.finished }
    {
        self.finished
    }

    /// Whether each running program may ask once more: none has asked 4,294,967,295 times.
    pub fn may_ask(&self) -> bool
        ensures { result ≡ may_ask self.now.running }
    {
        tasks::may_ask(self.tasks.as_slice())
    }

    /// Begins a transaction: the sequencer is told, and its program goes on.
    fn begin(
        &mut self,
        alloc: Global,
        workload: &Workload,
        txn: Txn,
        outs: &mut Outs,
    ) -> Result<(), NoMemory>
        ensures ok { OnOk result (turn self.new outs.new ≡ begin workload.now (turn self.old outs.old) txn) }
        ensures live { OnOk result (self.old.finished ≡ false) }
        ensures err { OnErr result (self.new.finished ≡ true) }
        ensures quiet { self.old.finished ≡ true → outs.new ≡ outs.old }
    {
        if self.finished {
            return Err(NoMemory);
        }
        self.finished = true;
        let program = homes::program_at(workload, &self.blank, txn);
        tasks::begin(&mut self.tasks, alloc, program, txn, outs)?;
        self.running = tasks::txns(alloc, self.tasks.as_slice())?;
        self.prepared = tasks::done_txns(alloc, self.tasks.as_slice())?;
        self.finished = false;
        Ok(())
    }

    /// Begins the next transaction, if one is left, and answers which that was, however many run already.
    pub fn begin_next(
        &mut self,
        alloc: Global,
        workload: &Workload,
        outs: &mut Outs,
    ) -> Result<Option<Txn>, NoMemory>
        ensures ok { OnOk result (turn self.new outs.new ≡ begin_next workload.now (turn self.old outs.old)) }
        ensures which { IfOk result (λ t. t ≡ next_txn self.old) }
        ensures live { OnOk result (self.old.finished ≡ false) }
        ensures err { OnErr result (self.new.finished ≡ true) }
        ensures quiet { self.old.finished ≡ true → outs.new ≡ outs.old }
    {
        if self.finished {
            return Err(NoMemory);
        }
        if self.next == 0 {
            return Ok(None);
        }
        let txn = Txn(self.next);
        self.next = homes::following(workload, self.site, self.next);
        self.begin(alloc, workload, txn, outs)?;
        Ok(Some(txn))
    }

    /// Begins transactions until as many run as may at once, or none is left.
    pub fn start(
        &mut self,
        alloc: Global,
        workload: &Workload,
        outs: &mut Outs,
    ) -> Result<(), NoMemory>
        ensures ok { OnOk result (turn self.new outs.new ≡ start workload.now (turn self.old outs.old)) }
        ensures live { OnOk result (self.old.finished ≡ false) }
        ensures err { OnErr result (self.new.finished ≡ true) }
        ensures quiet { self.old.finished ≡ true → outs.new ≡ outs.old }
    {
        if self.finished {
            return Err(NoMemory);
        }
        let free = (workload.together as usize).saturating_sub(self.tasks.len());
        for _ in 0..free {
            self.begin_next(alloc, workload, outs)?;
        }
        Ok(())
    }

    /// Takes a value for an ask: the transaction's program goes on where that is its outstanding ask, and else
    /// nothing changes. To be called where each program may ask once more.
    pub fn value(
        &mut self,
        workload: &Workload,
        txn: Txn,
        ask: u32,
        value: i64,
        outs: &mut Outs,
    ) -> Result<(), NoMemory>
        requires { IsTrue (may_ask self.old.running) }
        ensures ok { OnOk result (turn self.new outs.new ≡ give workload.now (turn self.old outs.old) txn ask value) }
        ensures live { OnOk result (self.old.finished ≡ false) }
        ensures err { OnErr result (self.new.finished ≡ true) }
        ensures quiet { self.old.finished ≡ true → outs.new ≡ outs.old }
    {
        if self.finished {
            return Err(NoMemory);
        }
        self.finished = true;
        let program = homes::program_at(workload, &self.blank, txn);
        tasks::give(
            self.tasks.as_mut_slice(),
            self.alloc,
            program,
            txn,
            ask,
            value,
            outs,
        )?;
        self.prepared = tasks::done_txns(self.alloc, self.tasks.as_slice())?;
        self.finished = false;
        Ok(())
    }

    /// Notes that another site serves the transaction's ask, where that ask is outstanding; does nothing on a driver
    /// that is finished. Takes no memory.
    pub fn serving(&mut self, txn: Txn, ask: u32, site: Site)
        ensures { self.new ≡ (if self.old.finished then self.old else noting self.old txn ask site) }
    {
        if !self.finished {
            tasks::note(self.tasks.as_mut_slice(), txn, ask, site);
        }
    }

    /// Lets each program ask again whose read the site was to serve, under its next number, least transaction
    /// first. To be called where each program may ask once more.
    pub fn down(&mut self, site: Site, outs: &mut Outs) -> Result<(), NoMemory>
        requires { IsTrue (may_ask self.old.running) }
        ensures ok { OnOk result (turn self.new outs.new ≡ lose site (turn self.old outs.old)) }
        ensures live { OnOk result (self.old.finished ≡ false) }
        ensures err { OnErr result (self.new.finished ≡ true) }
        ensures quiet { self.old.finished ≡ true → outs.new ≡ outs.old }
    {
        if self.finished {
            return Err(NoMemory);
        }
        self.finished = true;
        tasks::lose(self.tasks.as_mut_slice(), site, outs)?;
        self.finished = false;
        Ok(())
    }

    /// Ends the transaction, if it runs. Takes no memory.
    pub fn ended(&mut self, txn: Txn)
        ensures { self.new ≡ ended self.old txn }
    {
        tasks::remove(&mut self.tasks, txn);
        self.running.remove(txn);
        self.prepared.remove(txn);
    }

    /// Drops every running program, and makes the transaction with this number the next one, none where it is 0.
    /// Takes no memory.
    pub fn reset(&mut self, next: u32)
        ensures { self.new ≡ cleared self.old next }
    {
        self.tasks.clear();
        self.running.clear();
        self.prepared.clear();
        self.next = next;
    }

    /// Ends the transaction, and begins the next attempt at its program.
    pub fn again(
        &mut self,
        alloc: Global,
        workload: &Workload,
        txn: Txn,
        outs: &mut Outs,
    ) -> Result<(), NoMemory>
        requires { attempt workload.now txn < workload.now.restarts }
        ensures ok { OnOk result (turn self.new outs.new ≡ again workload.now (turn self.old outs.old) txn) }
        ensures live { OnOk result (self.old.finished ≡ false) }
        ensures err { OnErr result (self.new.finished ≡ true) }
        ensures quiet { self.old.finished ≡ true → outs.new ≡ outs.old }
    {
        self.ended(txn);
        let next = Txn(txn.0 + workload.programs.len() as u32);
        self.begin(alloc, workload, next, outs)
    }

    /// The transactions that run here, ascending. Of a finished driver nothing is said.
    pub fn running(&self) -> &TxnList
        ensures is { self.now.finished ≡ false → result.now ≡ txns_of self.now.running }
        ensures ascends { self.now.finished ≡ false → Ascends result.now }
    {
        &self.running
    }

    /// Those of them whose programs are done, ascending. Of a finished driver nothing is said.
    pub fn prepared(&self) -> &TxnList
        ensures is { self.now.finished ≡ false → result.now ≡ done_of self.now.running }
        ensures ascends { self.now.finished ≡ false → Ascends result.now }
    {
        &self.prepared
    }

    /// What the transaction's program read, in order; nothing where it isn't done.
    pub fn reads(&self, txn: Txn) -> &Pairs
        ensures { result.now ≡ reads_of self.now.running txn }
    {
        match tasks::place_of(self.tasks.as_slice(), txn) {
            Some(k) => self.tasks[k].reads(&self.nothing),
            None => &self.nothing,
        }
    }

    /// What the transaction's program writes, in the order of first write; nothing where it isn't done.
    pub fn writes(&self, txn: Txn) -> &Pairs
        ensures { result.now ≡ writes_of self.now.running txn }
    {
        match tasks::place_of(self.tasks.as_slice(), txn) {
            Some(k) => self.tasks[k].writes(&self.nothing),
            None => &self.nothing,
        }
    }
}
