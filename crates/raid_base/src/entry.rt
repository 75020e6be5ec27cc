use crate::list::{Duplicate, Listed};
use crate::names::{Item, NoMemory, Site, Txn};
use crate::pairs::Pairs;
use crate::request::Request;
use crate::sites::{Sites, Vector};
use crate::verdict::{Kind, Method};
use std::alloc::Global;

/// Why a transaction was aborted. Each abort has exactly one cause.
#[derive(Clone, Copy, Debug, PartialEq, Eq)]
pub enum Cause {
    /// A `stop if` of its program held.
    Own,
    /// A sum or difference of its program left i64.
    Overflow,
    /// Timestamp ordering: a transaction with a larger stamp came first.
    Late,
    /// Validation: an item that it read was written since it began.
    Invalid,
    /// Graph testing: the action would have put it on a cycle.
    Cycle,
    /// Locking: its commit would have closed a cycle of waits.
    Deadlock,
    /// The switch with this number, counted from 1, named it on its abort list.
    SwitchOff(u8),
    /// Its home went down.
    HomeDown,
    /// A holder of a written item has another session than the request's vector says; the present vector.
    Stale(Vector),
    /// No site could serve the read, or none could take the write.
    NoCopy,
}

/// What an aborted transaction wanted: `Ended` with its reads for Own and Overflow, `Nothing` for SwitchOff
/// and HomeDown, and else the action that was refused.
#[derive(Drop, Debug)]
pub enum Act {
    Nothing,
    Ended(Pairs),
    Read(Item),
    Commit(Request),
}

/// What a site says to a Prepare: yes, or no with the session that the letter named and the site's own.
#[derive(Clone, Copy, Debug, PartialEq, Eq)]
pub enum Answer {
    Yes,
    No { named: u32, own: u32 },
}

/// One entry of the history. The number of an entry is its place in the history, counted from 1.
#[derive(Drop, Debug)]
pub enum Entry {
    /// A transaction begins at its home; the entry's number is its stamp.
    Begin {
        txn: Txn,
        home: Site,
    },
    /// A transaction reads the copy of an item at a site.
    Read {
        txn: Txn,
        item: Item,
        site: Site,
    },
    /// A commit request has to wait for locks.
    Wait {
        txn: Txn,
        request: Request,
    },
    /// A transaction commits; its writes are applied at the sites named.
    Commit {
        txn: Txn,
        request: Request,
        applied: Sites,
    },
    /// A transaction is aborted.
    Abort {
        txn: Txn,
        cause: Cause,
        act: Act,
    },
    /// A site acknowledges that it applied a transaction's writes.
    Ack {
        txn: Txn,
        site: Site,
    },
    /// The switch with this number, counted from 1, brings in a controller of another kind.
    SwitchOn {
        switch: u8,
        kind: Kind,
        method: Method,
    },
    /// A suffix-sufficient switch is over; the old controller leaves.
    SwitchEnd {
        switch: u8,
    },
    /// A site is down.
    Down {
        site: Site,
    },
    /// A site is up again, in a new session.
    Up {
        site: Site,
        session: u32,
    },
    /// The copy of an item at a site has been brought to the version, and is unlocked. A version is the
    /// number of the Commit that wrote it, 0 for the initial value.
    Clear {
        site: Site,
        item: Item,
        version: u32,
    },
}

/// A history: its entries, numbered from 1.
pub type Entries = Listed<Entry>;

/// An entry as a controller sees it: its number, and its transaction's stamp.
#[derive(Drop, Debug)]
pub struct Noted {
    pub at: u32,
    pub stamp: u32,
    pub entry: Entry,
}

impl Duplicate for Act {
    fn copy(&self, alloc: Global) -> Result<Act, NoMemory> {
        match self {
            Act::Nothing => Ok(Act::Nothing),
            Act::Ended(reads) => {
                let reads = reads.copy(alloc)?;
                Ok(Act::Ended(reads))
            }
            Act::Read(item) => Ok(Act::Read(*item)),
            Act::Commit(request) => {
                let request = request.copy(alloc)?;
                Ok(Act::Commit(request))
            }
        }
    }
}

impl Duplicate for Entry {
    fn copy(&self, alloc: Global) -> Result<Entry, NoMemory> {
        match *self {
            Entry::Begin { txn, home } => Ok(Entry::Begin { txn, home }),
            Entry::Read { txn, item, site } => Ok(Entry::Read { txn, item, site }),
            Entry::Wait { txn, ref request } => {
                let request = request.copy(alloc)?;
                Ok(Entry::Wait { txn, request })
            }
            Entry::Commit {
                txn,
                ref request,
                applied,
            } => {
                let request = request.copy(alloc)?;
                Ok(Entry::Commit {
                    txn,
                    request,
                    applied,
                })
            }
            Entry::Abort {
                txn,
                cause,
                ref act,
            } => {
                let act = act.copy(alloc)?;
                Ok(Entry::Abort { txn, cause, act })
            }
            Entry::Ack { txn, site } => Ok(Entry::Ack { txn, site }),
            Entry::SwitchOn {
                switch,
                kind,
                method,
            } => Ok(Entry::SwitchOn {
                switch,
                kind,
                method,
            }),
            Entry::SwitchEnd { switch } => Ok(Entry::SwitchEnd { switch }),
            Entry::Down { site } => Ok(Entry::Down { site }),
            Entry::Up { site, session } => Ok(Entry::Up { site, session }),
            Entry::Clear {
                site,
                item,
                version,
            } => Ok(Entry::Clear {
                site,
                item,
                version,
            }),
        }
    }
}
