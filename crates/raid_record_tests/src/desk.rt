ghost use Rattle.std.specs.Prelude.{◌≡◌};
ghost use Rattle.raid_record.specs.Turns.{may_send};

use raid_base::{Act, Cause, Entry, Item, NoMemory, Pairs, Request, Site, Sites, Txn, Vector};
use raid_message::{Message, Outs};
use raid_record::{Record, homes, notes, sends};
use raid_workload::Workload;
use std::alloc::Global;

pub const X: Item = Item(0);

pub const Y: Item = Item(1);

/// Programs 1 and 3 have site 1 as their home; item x is at all sites.
const THREE_SITES: &str =
    "workload 2\nsites 3 together 2\nrestarts 1\nitem x 5 at 1 2 3\nitem y 7 at 2 3\nopen lock native\nprogram 1\nread y r0\nwrite x r0\nend\nprogram 2\nwrite x 1\nend\nprogram 1\nwrite x 3\nend\ndone\n";

/// What comes next.
#[derive(Clone, Copy)]
pub enum Step {
    /// The transaction begins.
    Begin(u32),
    /// Its ask with this number for y is served by the site.
    Read(u32, u32, u8),
    /// It commits a write of x, applied at these sites.
    Commit(u32, Sites),
    /// It is aborted for a deadlock.
    Abort(u32),
    Down(u8),
    Up(u8, u32),
    /// The copy of x to the site is no longer under way.
    Close(u8),
}

/// What a letter says.
#[derive(Clone, Copy, Debug, PartialEq, Eq)]
pub enum Said {
    ReadDo(u32, u32, u8, u32),
    Serving(u32, u32, u8),
    Apply(u32, u32),
    Done(u32),
    Drop(u32, bool),
    Down(u8),
    Up(u8, u32),
    /// The sessions of the three sites, and which transaction is next.
    Welcome(u32, u32, u32, u32),
    Copy(Item, u8, u32),
    Ends(u32),
    Other,
}

/// A letter: to which server, to which session of it, and what it says.
#[derive(Clone, Copy, Debug, PartialEq, Eq)]
pub struct Sent(pub u16, pub u32, pub Said);

/// The workload of the text. Where it is none, memory is said to be refused.
fn workload(alloc: Global) -> Result<Workload, NoMemory> {
    if THREE_SITES.len() > 1000 {
        return Err(NoMemory);
    }
    raid_text::parse(alloc, THREE_SITES.as_bytes()).map_err(|_| NoMemory)
}

fn request(alloc: Global) -> Result<Request, NoMemory> {
    let mut reads = Pairs::new(alloc);
    reads.push((Y, 7))?;
    let mut writes = Pairs::new(alloc);
    writes.push((X, 7))?;
    Ok(Request {
        reads,
        writes,
        under: Vector {
            count: 3,
            sessions: [1, 1, 0, 0, 0, 0, 0, 0],
        },
    })
}

fn entry(alloc: Global, workload: &Workload, step: Step) -> Result<Entry, NoMemory> {
    match step {
        Step::Begin(txn) => Ok(Entry::Begin {
            txn: Txn(txn),
            home: homes::home(workload, Txn(txn)),
        }),
        Step::Read(txn, _, site) => Ok(Entry::Read {
            txn: Txn(txn),
            item: Y,
            site: Site(site),
        }),
        Step::Commit(txn, applied) => Ok(Entry::Commit {
            txn: Txn(txn),
            request: request(alloc)?,
            applied,
        }),
        Step::Abort(txn) => Ok(Entry::Abort {
            txn: Txn(txn),
            cause: Cause::Deadlock,
            act: Act::Commit(request(alloc)?),
        }),
        Step::Down(site) => Ok(Entry::Down { site: Site(site) }),
        Step::Up(site, session) => Ok(Entry::Up {
            site: Site(site),
            session,
        }),
        Step::Close(_) => Err(NoMemory),
    }
}

fn is_sent(workload: &Workload, entry: &Entry) -> bool
    ensures { result ≡ may_send workload.now entry.now }
{
    match entry {
        Entry::Up { site, .. } => 1 <= site.0 && site.0 <= workload.sites,
        _ => true,
    }
}

/// The home begins another one next.
fn begin(record: &mut Record, workload: &Workload, entry: &Entry) -> Result<(), NoMemory> {
    if let Entry::Begin { txn, .. } = entry {
        if !homes::is_known(workload, *txn) {
            return Err(NoMemory);
        }
        record.nexts.begin(workload, &record.history, *txn);
    }
    Ok(())
}

/// The tables that letters are made from note the entry, and it is sent for and put into the history. Where the parts may not be given
/// the entry, memory is said to be refused.
fn enter(
    record: &mut Record,
    workload: &Workload,
    ask: u32,
    entry: Entry,
    outs: &mut Outs,
) -> Result<(), NoMemory> {
    let placed = record.history.len();
    if placed >= 100 || !record.history.may_push(&entry) || !record.locks.may_note(&entry) {
        return Err(NoMemory);
    }
    if !is_sent(workload, &entry) {
        return Err(NoMemory);
    }
    record.locks.note(&entry)?;
    begin(record, workload, &entry)?;
    notes::turn_left(&mut record.left, workload, &entry)?;
    notes::turn_copiers(&mut record.copiers, &entry);
    let vector = record.locks.vector();
    sends::sends(
        workload,
        vector,
        &record.nexts,
        placed + 1,
        ask,
        &entry,
        outs,
    )?;
    if record.history.len() >= 100 || !record.history.may_push(&entry) {
        return Err(NoMemory);
    }
    record.history.push(entry)
}

fn close(record: &mut Record, site: u8) -> Result<(), NoMemory> {
    if site < 1 || site > 8 {
        return Err(NoMemory);
    }
    record.close_copy(Site(site), X);
    Ok(())
}

/// Does a step, and then what follows every letter.
fn make(
    record: &mut Record,
    alloc: Global,
    workload: &Workload,
    step: Step,
    outs: &mut Outs,
) -> Result<(), NoMemory> {
    let before = record.history.ends();
    match step {
        Step::Close(site) => close(record, site)?,
        Step::Read(_, ask, _) => enter(record, workload, ask, entry(alloc, workload, step)?, outs)?,
        _ => enter(record, workload, 0, entry(alloc, workload, step)?, outs)?,
    }
    record.send_copies(workload, outs)?;
    record.send_ends(before, outs)
}

fn made(
    alloc: Global,
    workload: &Workload,
    steps: &[Step],
    outs: &mut Outs,
) -> Result<Record, NoMemory> {
    let mut record = Record::new(alloc, workload)?;
    for step in steps {
        make(&mut record, alloc, workload, *step, outs)?;
    }
    Ok(record)
}

fn session(vector: Vector, site: u8) -> u32 {
    sends::session_of(vector, Site(site))
}

fn told(message: &Message) -> Said {
    match message {
        Message::ReadDo {
            txn,
            ask,
            home,
            home_session,
            ..
        } => Said::ReadDo(txn.0, *ask, home.0, *home_session),
        Message::Serving { txn, ask, site } => Said::Serving(txn.0, *ask, site.0),
        Message::Apply { txn, number } => Said::Apply(txn.0, *number),
        Message::Done { txn } => Said::Done(txn.0),
        Message::Drop { txn, again } => Said::Drop(txn.0, *again),
        Message::DownNote { site } => Said::Down(site.0),
        Message::UpNote { site, session } => Said::Up(site.0, *session),
        Message::Welcome { vector, next } => Said::Welcome(
            session(*vector, 1),
            session(*vector, 2),
            session(*vector, 3),
            *next,
        ),
        Message::CopyDo {
            item,
            target,
            target_session,
        } => Said::Copy(*item, target.0, *target_session),
        Message::Ends { count } => Said::Ends(*count),
        _ => Said::Other,
    }
}

/// What is sent in the steps, without the first letters, so many.
pub fn sent_after(alloc: Global, steps: &[Step], letters: usize) -> Result<Vec<Sent>, NoMemory> {
    let workload = workload(alloc)?;
    let mut outs = Outs::new(alloc);
    made(alloc, &workload, steps, &mut outs)?;
    let mut all = Vec::new(alloc);
    for place in letters..outs.len() {
        let (server, to, message) = outs.get(place);
        all.push(Sent(*server, *to, told(message)))?;
    }
    Ok(all)
}

/// Which transactions may begin after the steps, ascending.
pub fn beginners(alloc: Global, steps: &[Step]) -> Result<Vec<u32>, NoMemory> {
    let workload = workload(alloc)?;
    let record = made(alloc, &workload, steps, &mut Outs::new(alloc))?;
    let mut all = Vec::new(alloc);
    for number in 0..10 {
        if record.may_begin(&workload, Txn(number)) {
            all.push(number)?;
        }
    }
    Ok(all)
}

/// How long the history is once the first transaction was placed, and how much that sends.
pub fn after_first(alloc: Global) -> Result<(u32, usize), NoMemory> {
    let workload = workload(alloc)?;
    let mut record = Record::new(alloc, &workload)?;
    let mut outs = Outs::new(alloc);
    if !record.may_begin(&workload, Txn(1)) {
        return Err(NoMemory);
    }
    let home = homes::home(&workload, Txn(1));
    let entry = Entry::Begin { txn: Txn(1), home };
    record.place(alloc, &workload, 0, entry, &mut outs)?;
    Ok((record.history.len(), outs.len()))
}
