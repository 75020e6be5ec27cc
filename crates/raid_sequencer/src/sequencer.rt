ghost use Rattle.std.specs.Prelude.{◌≡◌, ◌<◌, ◌≤◌, ◌+◌, true, false, List, length, IfOk, OnOk, OnErr};
ghost use Rattle.raid_rules.specs.declared.order.Order.TheVariants.{Whole};
ghost use Rattle.raid_rules.specs.Conflict.{serial_order};
ghost use Rattle.raid_rules.specs.History.{noted};
ghost use Rattle.raid_steps.specs.State as states;
ghost use Rattle.raid_steps.specs.Sequencer.{hear_sequencer};
ghost use Rattle.raid_steps.specs.World.{first_servers};
ghost use Rattle.raid_force.specs.Lasting.{AreClear, are_whole};
ghost use Rattle.raid_sequencer.specs.Runs as words;
ghost use Rattle.raid_sequencer.specs.Runs.{Tells, Runs, IsRacked};

use crate::hearing;
use crate::parts::Parts;
use raid_base::{Duplicate, NoMemory};
use raid_control::{Controller, Rack};
use raid_force::Force;
use raid_history::History;
use raid_message::{Letter, Outs};
use raid_record::Record;
use raid_rules::order::Order;
use raid_workload::Workload;
use std::alloc::Global;

/// The sequencer: it decides each admission, each abort with its cause, and each switch, one letter at a time.
///
/// It makes no controller: all come from its rack, and go back to it. After want of memory it is finished: each later step answers
/// NoMemory.
#[derive(Drop)]
pub struct Sequencer {
    workload: Workload,
    parts: Parts,
    /// How many letters it has heard.
    heard: u32,
    finished: bool,
}

impl Sequencer {
    /// The sequencer of a workload, with a whole rack of cleared controllers, before any letter. It keeps a copy of the workload.
    /// Want of memory is the only error; the rack is dropped then.
    pub fn new(alloc: Global, workload: &Workload, rack: Rack) -> Result<Sequencer, NoMemory>
        requires whole { are_whole ⟦<dyn Controller as Controller>⟧ rack.slots.items ≡ true }
        requires clear { AreClear ⟦<dyn Controller as Controller>⟧ rack.slots.items }
        ensures tells { IfOk result (λ q. Tells q (first_servers workload.now).sequencer) }
        ensures runs { IfOk result (λ q. Runs ⟦<dyn Controller as Controller>⟧ q) }
        ensures workload { IfOk result (λ q. words.workload_of q ≡ workload.now) }
        ensures heard { IfOk result (λ q. words.heard q ≡ 0) }
        ensures goes_on { IfOk result (λ q. words.is_finished q ≡ false) }
    {
        let record = Record::new(alloc, workload)?;
        let own = workload.copy(alloc)?;
        Ok(Sequencer {
            workload: own,
            parts: Parts {
                record,
                force: Force::new(alloc, workload, rack),
            },
            heard: 0,
            finished: false,
        })
    }

    /// The sequencer's step, given the sender's server number: what it sends for the letter.
    pub fn hear(&mut self, alloc: Global, from: u16, letter: &Letter) -> Result<Outs, NoMemory>
        requires runs { Runs ⟦<dyn Controller as Controller>⟧ self.old }
        requires sender { from < (words.workload_of self.old).sites + 2 }
        requires few { words.heard self.old < 1000000000 }
        ensures state { OnOk result ((s : states.Sequencer) → Tells self.old s → Tells self.new (hear_sequencer (words.workload_of self.old) s from letter.now).state) }
        ensures outs { IfOk result (λ outs. (s : states.Sequencer) → Tells self.old s → outs ≡ (hear_sequencer (words.workload_of self.old) s from letter.now).outs) }
        ensures runs { Runs ⟦<dyn Controller as Controller>⟧ self.new }
        ensures workload { words.workload_of self.new ≡ words.workload_of self.old }
        ensures heard { OnOk result (words.heard self.new ≡ words.heard self.old + 1) }
        ensures before { OnOk result (words.is_finished self.old ≡ false) }
        ensures after { OnOk result (words.is_finished self.new ≡ false) }
        ensures finished { OnErr result (words.is_finished self.new ≡ true) }
    {
        if self.finished {
            return Err(NoMemory);
        }
        // Taken back where the step has come to its end.
        self.finished = true;
        let mut outs = Outs::new(alloc);
        hearing::hear(
            &mut self.parts,
            alloc,
            &self.workload,
            from,
            letter,
            &mut outs,
        )?;
        self.heard += 1;
        self.finished = false;
        Ok(outs)
    }

    /// All that was placed so far: fewer entries than can be numbered.
    pub fn history(&self) -> &History
        ensures is { (s : states.Sequencer) → Tells self.now s → result.now ≡ s.history }
        ensures short { Runs ⟦<dyn Controller as Controller>⟧ self.now → words.is_finished self.now ≡ false → words.heard self.now ≤ 1000000000 → length result.now < 4294967295 }
    {
        &self.parts.record.history
    }

    /// The serial order of the committed transactions. Want of memory is the only error: they never have a cycle.
    pub fn order(&self, alloc: Global) -> Result<Order, NoMemory>
        requires runs { Runs ⟦<dyn Controller as Controller>⟧ self.now }
        requires goes_on { words.is_finished self.now ≡ false }
        ensures { IfOk result (λ order. (s : states.Sequencer) → Tells self.now s → order ≡ Whole (serial_order (noted s.history))) }
    {
        let order = self.parts.record.graph.order(alloc)?;
        Ok(order)
    }

    /// The rack with all controllers back in it and cleared; but those for `once` that were taken are dropped. Takes no memory.
    pub fn close(self) -> Rack
        requires racked { IsRacked ⟦<dyn Controller as Controller>⟧ self }
        ensures whole { are_whole ⟦<dyn Controller as Controller>⟧ result.slots.items ≡ true }
        ensures clear { AreClear ⟦<dyn Controller as Controller>⟧ result.slots.items }
    {
        let parts = self.parts;
        let force = parts.force;
        force.close()
    }

    /// How many letters it has heard.
    pub fn heard(&self) -> u32
        ensures { result ≡ words.heard self.now }
    {
        self.heard
    }

    /// Whether it was refused memory.
    pub fn is_finished(&self) -> bool
        ensures { result ≡ words.is_finished self.now }
    {
        self.finished
    }
}
