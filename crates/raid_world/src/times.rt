//! Each server's clock and journal.
ghost use Rattle.std.specs.Prelude.{◌≡◌, ◌<◌, ◌+◌, ◌-◌, ◌^◌, min, max, List, [], ◌∷◌, ◌++◌, length, replicate, slice_set, slice_index, slice_index_or, IfOk, OnOk};
ghost use Rattle.raid_message.specs.declared.letter.Step.{Step};
ghost use Rattle.raid_world.specs.Stands.{most_steps};

use raid_base::NoMemory;
use raid_message::Step;
use std::alloc::Global;
use std::marker::Model;

/// The steps of one server, first step first. Contracts see their list.
#[derive(Drop, Debug)]
pub struct Journal {
    steps: Vec<Step>,
}

impl Model for Journal {
    ghost use Rattle.std.specs.Prelude.{List};
    ghost use Rattle.raid_message.specs.declared.letter.Step.{Step};

    ghost Value = { List Step };

    ghost view = { λ j. j.steps.items };
}

impl Journal {
    /// The journal of a server that has taken no step.
    fn new(alloc: Global) -> Journal
        ensures { result ≡ [] }
    {
        Journal {
            steps: Vec::new(alloc),
        }
    }

    /// How many steps the server has taken.
    fn len(&self) -> usize
        ensures { result ≡ length self.now }
    {
        self.steps.len()
    }

    /// Adds a step.
    fn push(&mut self, step: Step) -> Result<(), NoMemory>
        ensures { OnOk result (self.new ≡ self.old ++ step ∷ []) }
    {
        self.steps.push(step)?;
        Ok(())
    }
}

/// The clock and the journal of each server, by its number.
#[derive(Drop, Debug)]
pub struct Times {
    clocks: Vec<u64>,
    journals: Vec<Journal>,
}

/// So many empty journals.
fn journals(alloc: Global, servers: usize) -> Result<Vec<Journal>, NoMemory>
    ensures { IfOk result (λ js. js.items ≡ replicate servers []) }
{
    let mut journals = Vec::new(alloc);
    for _ in 0..servers {
        journals.push(Journal::new(alloc))?;
    }
    Ok(journals)
}

/// The largest number of steps that one of the journals has.
fn most(journals: &[Journal]) -> usize
    ensures { result ≡ most_steps journals.now }
{
    let mut most = 0;
    for journal in journals {
        most = most.max(journal.len());
    }
    most
}

impl Times {
    /// So many servers, none of which has taken a step.
    pub fn new(alloc: Global, servers: usize) -> Result<Times, NoMemory>
        ensures clocks { IfOk result (λ t. t.clocks.items ≡ replicate servers 0) }
        ensures journals { IfOk result (λ t. t.journals.items ≡ replicate servers []) }
    {
        let clocks = vec![in alloc; 0; servers]?;
        let journals = journals(alloc, servers)?;
        Ok(Times { clocks, journals })
    }

    /// The clock of a server's next step, for a letter that was sent at this clock. A clock at its greatest value stays there.
    pub fn next(&self, server: u16, sent: u64) -> u64
        requires { server < length self.now.clocks.items }
        ensures { result ≡ min (1 + max (slice_index self.now.clocks.items server) sent) (2 ^ 64 - 1) }
    {
        self.clocks[server as usize].max(sent).saturating_add(1)
    }

    /// Notes a step of a server: it becomes the last in its journal, and the server's clock is that of the step.
    pub fn note(&mut self, server: u16, step: Step) -> Result<(), NoMemory>
        requires clocks { server < length self.old.clocks.items }
        requires journals { server < length self.old.journals.items }
        ensures clocks { OnOk result (self.new.clocks.items ≡ slice_set self.old.clocks.items server step.clock) }
        ensures journals { OnOk result (self.new.journals.items ≡ slice_set self.old.journals.items server (slice_index_or self.old.journals.items server [] ++ step ∷ [])) }
    {
        self.journals[server as usize].push(step)?;
        self.clocks[server as usize] = step.clock;
        Ok(())
    }

    /// The largest number of steps that one server has taken.
    pub fn most(&self) -> usize
        ensures { result ≡ most_steps self.now.journals.items }
    {
        most(&self.journals)
    }
}
