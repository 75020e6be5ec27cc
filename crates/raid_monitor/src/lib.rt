//! The monitor: it stops sites and lets them return as the workload says, and announces each stop.
#![tactic(auto)]

ghost use Rattle.std.specs.Prelude.{◌≡◌, ◌≤◌, ◌+◌, ◌++◌, ◌-◌, nat_le, map, drop, take_while, length, [], ◌∷◌, OnOk, OnErr, IfOk, if◌then◌else◌};
ghost use Rattle.raid_workload.specs.declared.workload.Event.{Event};
ghost use Rattle.raid_base.specs.Sites.{site};
ghost use Rattle.raid_message.specs.declared.letter.Message.TheVariants as letters;
ghost use Rattle.raid_steps.specs.Monitor as steps;

use raid_base::{NoMemory, Site};
use raid_message::{Letter, Message, Outs};
use raid_workload::{Event, Workload};
use std::alloc::Global;
use std::marker::Model;

/// The monitor of a workload. Contracts see how many of the workload's site events it has sent out.
///
/// Events go out in the order of the workload, each as soon as the sequencer has told that so many transactions have ended as its
/// trigger says.
#[derive(Drop, Debug)]
pub struct Monitor {
    fired: usize,
}

impl Model for Monitor {
    ghost use Rattle.std.specs.Prelude.{ℕ};

    ghost Value = { ℕ };

    ghost view = { λ m. m.fired };
}

/// What an event sends its site.
fn event_out(event: Event) -> (u16, u32, Message)
    ensures { result ≡ steps.event_out event }
{
    let message = if event.stop {
        Message::Stop
    } else {
        Message::Return
    };
    (event.site.0 as u16 + 1, 0, message)
}

/// How many events at the front are due once so many transactions have ended.
fn count_due(events: &[Event], count: u32) -> usize
    ensures due { result ≡ length (take_while (λ (e : Event). nat_le e.trigger count) events.now) }
    ensures few { result ≤ length events.now }
{
    for (k, event) in events.iter().enumerate() {
        if event.trigger > count {
            return k;
        }
    }
    events.len()
}

/// Sends out these events.
fn send_all(events: &[Event], outs: &mut Outs) -> Result<(), NoMemory>
    ensures { OnOk result (outs.new ≡ outs.old ++ map steps.event_out events.now) }
{
    for event in events {
        outs.push(event_out(*event))?;
    }
    Ok(())
}

/// Sends out the events that are due, of those that are left after so many, and answers how many have been sent out then.
fn fire(events: &[Event], fired: usize, count: u32, outs: &mut Outs) -> Result<usize, NoMemory>
    ensures sent { OnOk result (outs.new ≡ outs.old ++ map steps.event_out (take_while (λ (e : Event). nat_le e.trigger count) (drop fired events.now))) }
    ensures fired { IfOk result (λ n. n ≡ fired + length (take_while (λ (e : Event). nat_le e.trigger count) (drop fired events.now))) }
{
    if fired >= events.len() {
        return Ok(fired);
    }
    let left = &events[fired..];
    let due = count_due(left, count);
    send_all(&left[..due], outs)?;
    Ok(fired + due)
}

/// What the sequencer is told of a site that has stopped: which session that ended.
fn halted_out(from: u16, session: u32) -> (u16, u32, Message)
    requires sender { from ≤ 9 }
    requires least { 2 ≤ from }
    ensures { result ≡ (1, 0, letters.Down (site (from - 1)) session) }
{
    let site = Site(from as u8 - 1);
    (1, 0, Message::Down { site, session })
}

impl Monitor {
    /// The monitor before any letter: nothing was sent out.
    pub fn new() -> Monitor
        ensures { result ≡ 0 }
    {
        Monitor { fired: 0 }
    }

    /// The sequencer tells that so many transactions have ended: the events that this triggers go out.
    fn ends(&mut self, workload: &Workload, count: u32, outs: &mut Outs) -> Result<(), NoMemory>
        requires none { outs.old ≡ [] }
        ensures ok { OnOk result (record { state = self.new; outs = outs.new } ≡ steps.ends_row workload.now self.old count) }
        ensures err { OnErr result (self.new ≡ self.old) }
    {
        self.fired = fire(workload.events.as_slice(), self.fired, count, outs)?;
        Ok(())
    }

    /// The monitor's step, given the sender's server number: what it sends for the letter. An Ends of the sequencer (server 1) sends
    /// out the events that it triggers, a Halted of a site tells the sequencer which session ended; every other letter is dropped.
    /// After want of memory the monitor is as it was.
    pub fn hear(
        &mut self,
        alloc: Global,
        workload: &Workload,
        from: u16,
        letter: &Letter,
    ) -> Result<Outs, NoMemory>
        requires sender { from ≤ 9 }
        ensures ok { IfOk result (λ outs. record { state = self.new; outs = outs } ≡ steps.hear_monitor workload.now self.old from letter.now) }
        ensures err { OnErr result (self.new ≡ self.old) }
    {
        let mut outs = Outs::new(alloc);
        match &letter.message {
            Message::Ends { count } => {
                if from == 1 {
                    self.ends(workload, *count, &mut outs)?;
                }
            }
            Message::Halted => {
                if from >= 2 {
                    outs.push(halted_out(from, letter.from))?;
                }
            }
            _ => {}
        }
        Ok(outs)
    }
}
