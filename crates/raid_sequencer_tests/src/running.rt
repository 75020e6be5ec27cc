//! A sequencer that begins with the controller for `once`.

ghost use Rattle.std.specs.Prelude.{◌≡◌, true, [], IfOk};
ghost use Rattle.raid_force.specs.Lasting.{AreClear, are_whole};
ghost use Rattle.raid_sequencer.specs.Runs.{Runs, workload_of};

use crate::counting::{Counting, Counts};
use raid_base::{Ask, Kind, NoMemory, Pairs, Structure, Txn, Verdict};
use raid_control::{Controller, Rack, Slot};
use raid_full_rack::{Controllers, full_rack};
use raid_letter_lines::{Step, add_line};
use raid_sequencer::Sequencer;
use raid_workload::Workload;
use std::alloc::Global;
use std::test::Fail;

/// The first commit is followed by a switch, at which the controller that the sequencer began with leaves.
const WORKLOAD: &str =
    "workload 1\nsites 1 together 3\nitem x 0 at 1\nitem y 0 at 1\nopen lock native\nswitch valid by convert after 1\nprogram 1\nend\nprogram 1\nend\nprogram 1\nend\ndone\n";

/// Three transactions begin.
const BEGINS: [&str; 3] = ["> 2 1 0 begin 1", "> 2 1 0 begin 2", "> 2 1 0 begin 3"];

/// The first one writes y.
const FIRST_COMMIT: [&str; 1] = ["> 2 1 0 commitask 1 - 1=1 1"];

/// The second one reads x, and the third one overwrites it: by validation the second may not commit any more.
const OVERWRITE: [&str; 2] = ["> 2 1 0 readask 2 1 0", "> 2 1 0 commitask 3 - 0=5 1"];

/// How often the controller for once was called and dropped.
#[derive(Clone, Copy, Debug, PartialEq, Eq)]
struct Counted {
    calls: u64,
    drops: u64,
}

impl Counted {
    fn so_far(counts: &Counts) -> Counted {
        Counted {
            calls: counts.calls(),
            drops: counts.drops(),
        }
    }
}

/// What has come of a sequencer.
#[derive(Drop)]
struct After {
    begun: Counted,
    switched: Counted,
    closed: Counted,
    entries: u32,
    /// The rack that it gave back: whether that is whole, how many slots it has, and what its validation says to a commit of the second
    /// transaction.
    whole: bool,
    slots: usize,
    verdict: Option<Verdict>,
}

/// The workload of the text. Where it is none, memory is said to be refused.
fn workload(alloc: Global) -> Result<Workload, NoMemory> {
    if WORKLOAD.len() > 1000 {
        return Err(NoMemory);
    }
    raid_text::parse(alloc, WORKLOAD.as_bytes()).map_err(|_| NoMemory)
}

/// The rack with a slot for once in front.
fn with_first(mut rack: Rack, control: Box<dyn Controller>) -> Result<Rack, NoMemory>
    requires stands { stands control [] }
    requires clear { AreClear ⟦<dyn Controller as Controller>⟧ rack.slots.items }
    ensures { IfOk result (λ r. AreClear ⟦<dyn Controller as Controller>⟧ r.slots.items) }
{
    let slot = Slot {
        once: true,
        control,
    };
    match rack.slots.insert(0, slot) {
        Ok(()) => Ok(rack),
        Err(_) => Err(NoMemory),
    }
}

/// Hears the letter of a line, if it is one of a server.
fn hear(
    alloc: Global,
    workload: &Workload,
    server: &mut Sequencer,
    line: &str,
) -> Result<(), NoMemory>
    requires runs { Runs ⟦<dyn Controller as Controller>⟧ server.old }
    requires workload { workload_of server.old ≡ workload.now }
    ensures runs { Runs ⟦<dyn Controller as Controller>⟧ server.new }
    ensures workload { workload_of server.new ≡ workload.now }
{
    let mut steps: Vec<Step> = Vec::new(alloc);
    add_line(alloc, &mut steps, line).map_err(|_| NoMemory)?;
    let Some(step) = steps.last() else {
        return Err(NoMemory);
    };
    let from = step.heard.from;
    if from >= u16::from(workload.sites) + 2 || server.heard() >= 1000 {
        return Err(NoMemory);
    }
    let _sent = server.hear(alloc, from, &step.heard.letter)?;
    Ok(())
}

/// Hears the letters of the lines.
fn hear_all(
    alloc: Global,
    workload: &Workload,
    server: &mut Sequencer,
    lines: &[&str],
) -> Result<(), NoMemory>
    requires runs { Runs ⟦<dyn Controller as Controller>⟧ server.old }
    requires workload { workload_of server.old ≡ workload.now }
    ensures runs { Runs ⟦<dyn Controller as Controller>⟧ server.new }
    ensures workload { workload_of server.new ≡ workload.now }
{
    for line in lines {
        hear(alloc, workload, server, line)?;
    }
    Ok(())
}

/// What the validation of a cleared rack says to a commit of the second transaction, which wants to write nothing.
fn ask(alloc: Global, rack: &mut Rack) -> Option<Verdict>
    requires { AreClear ⟦<dyn Controller as Controller>⟧ rack.old.slots.items }
{
    let mut slot = rack.take(Kind::Valid, Structure::Native)?;
    let nothing = Pairs::new(alloc);
    let said = slot.control.judge(&Ask::Commit {
        txn: Txn(2),
        stamp: 2,
        reads: &nothing,
        writes: &nothing,
    });
    rack.give_back(slot);
    Some(said)
}

/// Lets a sequencer with this rack hear all letters, and closes it.
fn hear_with(alloc: Global, rack: Rack, counts: &Counts) -> Result<After, NoMemory>
    requires whole { are_whole ⟦<dyn Controller as Controller>⟧ rack.slots.items ≡ true }
    requires clear { AreClear ⟦<dyn Controller as Controller>⟧ rack.slots.items }
{
    let workload = workload(alloc)?;
    let mut server = Sequencer::new(alloc, &workload, rack)?;
    hear_all(alloc, &workload, &mut server, &BEGINS)?;
    let begun = Counted::so_far(counts);
    hear_all(alloc, &workload, &mut server, &FIRST_COMMIT)?;
    let switched = Counted::so_far(counts);
    hear_all(alloc, &workload, &mut server, &OVERWRITE)?;
    if server.is_finished() {
        return Err(NoMemory);
    }
    let entries = server.history().len();
    let mut rack = server.close();
    let closed = Counted::so_far(counts);
    Ok(After {
        begun,
        switched,
        closed,
        entries,
        whole: rack.is_whole(),
        slots: rack.slots.len(),
        verdict: ask(alloc, &mut rack),
    })
}

/// Does so with a full rack that has a controller for once in front.
fn run(alloc: Global) -> Result<After, NoMemory> {
    let counts = Counts::new(alloc)?;
    let once = Counting::new(alloc, &counts)?;
    let made = Controllers::new(alloc)?;
    let full = full_rack(
        alloc,
        made.lock,
        made.stamp,
        made.valid,
        made.graph,
        made.first,
        made.second,
    )?;
    let rack = with_first(full, once)?;
    if !rack.is_whole() {
        return Err(NoMemory);
    }
    hear_with(alloc, rack, &counts)
}

#[test]
fn a_controller_for_once_serves_first_and_leaves_at_the_switch(
    rt: HostRuntime,
) -> Result<(), Fail> {
    let after = run(rt.alloc())?;
    assert!(rt; after.begun.calls >= 3);
    assert_eq!(rt; after.begun.drops, 0);
    assert!(rt; after.switched.calls > after.begun.calls);
    assert_eq!(rt; after.switched.drops, 1);
    assert_eq!(rt; after.closed, after.switched);
    assert_eq!(rt; after.entries, 7);
    Ok(())
}

#[test]
fn a_closed_sequencer_gives_the_rack_back_whole_and_cleared(rt: HostRuntime) -> Result<(), Fail> {
    let after = run(rt.alloc())?;
    assert!(rt; after.whole);
    assert_eq!(rt; after.slots, 6);
    assert_eq!(rt; after.verdict, Some(Verdict::Grant));
    Ok(())
}
