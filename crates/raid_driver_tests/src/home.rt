use raid_base::{Cause, Item, NoMemory, Site, Txn, attempt_of};
use raid_driver::Driver;
use raid_message::{Message, Outs};
use raid_workload::Workload;
use std::alloc::Global;

pub const X: Item = Item(0);

pub const Y: Item = Item(1);

/// Programs 1, 3, 4 and 5 have site 1 as their home.
const FIVE_PROGRAMS: &str =
    "workload 2\nsites 2 together 2\nrestarts 1\nitem x 5 at 1 2\nitem y 7 at 1 2\nopen lock native\nprogram 1\nread x r0\nwrite y r0 + 1\nend\nprogram 2\nwrite x 1\nend\nprogram 1\nwrite x 3\nread x r0\nend\nprogram 1\nread y r0\nstop if r0 < 9\nend\nprogram 1\nread x r0\nwrite y 9223372036854775807 + r0\nend\ndone\n";

/// A call of the driver of site 1.
#[derive(Clone, Copy)]
pub enum Call {
    Start,
    BeginNext,
    Value(u32, u32, i64),
    Serving(u32, u32, u8),
    Down(u8),
    Ended(u32),
    Reset(u32),
    Again(u32),
}

/// What the driver sends, all of it to the sequencer; an EndAsk with the one pair that was read.
#[derive(Clone, Copy, Debug, PartialEq, Eq)]
pub enum Sent {
    Begin(u32),
    Ask(u32, u32, Item),
    End(u32, Cause, Item, i64),
    Other,
}

/// The workload of the text. Where it is none, memory is said to be refused.
fn workload(alloc: Global) -> Result<Workload, NoMemory> {
    if FIVE_PROGRAMS.len() > 1000 {
        return Err(NoMemory);
    }
    raid_text::parse(alloc, FIVE_PROGRAMS.as_bytes()).map_err(|_| NoMemory)
}

/// Begins the next attempt, where one is left.
fn again(
    driver: &mut Driver,
    alloc: Global,
    workload: &Workload,
    txn: u32,
    outs: &mut Outs,
) -> Result<(), NoMemory> {
    let programs = workload.programs.len() as u32;
    if programs == 0 || txn == 0 || attempt_of(Txn(txn), programs) >= workload.restarts as u32 {
        return Err(NoMemory);
    }
    driver.again(alloc, workload, Txn(txn), outs)
}

/// Makes a call.
fn make(
    driver: &mut Driver,
    alloc: Global,
    workload: &Workload,
    made: Call,
    outs: &mut Outs,
) -> Result<(), NoMemory> {
    if !driver.may_ask() {
        return Err(NoMemory);
    }
    match made {
        Call::Start => driver.start(alloc, workload, outs),
        Call::BeginNext => {
            driver.begin_next(alloc, workload, outs)?;
            Ok(())
        }
        Call::Value(txn, ask, value) => driver.value(workload, Txn(txn), ask, value, outs),
        Call::Serving(txn, ask, site) => {
            driver.serving(Txn(txn), ask, Site(site));
            Ok(())
        }
        Call::Down(site) => driver.down(Site(site), outs),
        Call::Ended(txn) => {
            driver.ended(Txn(txn));
            Ok(())
        }
        Call::Reset(next) => {
            driver.reset(next);
            Ok(())
        }
        Call::Again(txn) => again(driver, alloc, workload, txn, outs),
    }
}

/// Makes the calls, and puts what they send into `outs`.
fn driven(alloc: Global, calls: &[Call], outs: &mut Outs) -> Result<Driver, NoMemory> {
    let workload = workload(alloc)?;
    let mut driver = Driver::new(alloc, &workload, Site(1))?;
    for made in calls {
        make(&mut driver, alloc, &workload, *made, outs)?;
    }
    Ok(driver)
}

/// What a message says.
fn told(message: &Message) -> Sent {
    match message {
        Message::Begin { txn } => Sent::Begin(txn.0),
        Message::ReadAsk { txn, ask, item } => Sent::Ask(txn.0, *ask, *item),
        Message::EndAsk { txn, cause, reads } => match reads.as_slice() {
            [(item, value)] => Sent::End(txn.0, *cause, *item, *value),
            _ => Sent::Other,
        },
        _ => Sent::Other,
    }
}

/// What is sent in the calls.
pub fn all_sent(alloc: Global, calls: &[Call]) -> Result<Vec<Sent>, NoMemory> {
    let mut outs = Outs::new(alloc);
    driven(alloc, calls, &mut outs)?;
    let mut all = Vec::new(alloc);
    for (server, session, message) in outs.as_slice() {
        if *server == 1 && *session == 0 {
            all.push(told(message))?;
        } else {
            all.push(Sent::Other)?;
        }
    }
    Ok(all)
}

/// Whether these run after the calls, and those are prepared.
pub fn runs(
    alloc: Global,
    calls: &[Call],
    running: &[Txn],
    prepared: &[Txn],
) -> Result<bool, NoMemory> {
    let driver = driven(alloc, calls, &mut Outs::new(alloc))?;
    Ok(
        !driver.is_finished()
            && driver.running().as_slice() == running
            && driver.prepared().as_slice() == prepared,
    )
}

/// Whether after the calls the transaction has read and writes this.
pub fn is_done(
    alloc: Global,
    calls: &[Call],
    txn: Txn,
    reads: &[(Item, i64)],
    writes: &[(Item, i64)],
) -> Result<bool, NoMemory> {
    let driver = driven(alloc, calls, &mut Outs::new(alloc))?;
    Ok(driver.reads(txn).as_slice() == reads && driver.writes(txn).as_slice() == writes)
}
