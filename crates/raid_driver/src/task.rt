ghost use Rattle.std.specs.Prelude.{◌≡◌, ◌<◌, ◌+◌, ◌++◌, ◌∷◌, [], IfOk, OnOk};
ghost use Rattle.raid_program.specs.Course.{IsOf};
ghost use Rattle.raid_program.specs.Run.{outcome_of, given};
ghost use Rattle.raid_message.specs.declared.letter.Message.TheVariants.{EndAsk};
ghost use Rattle.raid_driver.specs.declared.task.Doing.TheVariants.{Over};
ghost use Rattle.raid_driver.specs.Drive as words;
ghost use Rattle.raid_driver.specs.Drive.{come_to, come_to_outs, gone, gone_outs, gave, gave_outs, lost, lost_outs, noted_at, fresh};

use crate::answers::Answers;
use raid_base::{Cause, Item, NoMemory, Pairs, Site, Txn};
use raid_message::{Message, Outs};
use raid_program::{Outcome, Program, Run, Want};
use std::alloc::Global;

/// What a running program is about.
#[derive(Drop, Debug)]
pub enum Doing {
    /// It waits for an item's value.
    Asking {
        /// The number of the ask that is outstanding: how often the transaction has asked by now.
        ask: u32,
        item: Item,
        /// The other site that was told to serve it, if one is known.
        server: Option<Site>,
    },
    /// It is done.
    Done {
        /// What it read, in order.
        reads: Pairs,
        /// What it writes, in the order of first write, each item once.
        writes: Pairs,
    },
    /// It has ended by itself, and the sequencer was told.
    Over,
}

/// A program that runs.
#[derive(Drop, Debug)]
pub struct Task {
    pub txn: Txn,
    /// The values that it was given.
    pub answers: Answers,
    /// How often it has asked.
    pub asks: u32,
    pub doing: Doing,
}

/// The server number of the sequencer.
const SEQUENCER: u16 = 1;

/// Gives a run the answers until it ends, or wants a value that isn't among them.
fn finish(run: &mut Run, program: &Program, answers: &Answers) -> Want
    requires of { IsOf run.old program.now }
    requires start { run.old.reads ≡ [] }
    ensures { outcome_of program.now (given answers.now) ≡ record { end = result; reads = run.new.reads; writes = run.new.writes } }
{
    loop {
        let want = run.next(program);
        let Want::Read(item) = want else {
            return want;
        };
        let Some(value) = answers.value(item) else {
            return want;
        };
        run.give(value);
    }
}

/// The outcome of the program on the answers.
fn outcome(alloc: Global, program: &Program, answers: &Answers) -> Result<Outcome, NoMemory>
    ensures { IfOk result (λ o. o ≡ outcome_of program.now (given answers.now)) }
{
    let mut run = Run::new(alloc, program)?;
    let end = finish(&mut run, program, answers);
    run.outcome(alloc, end)
}

/// Tells the sequencer.
pub fn tell(outs: &mut Outs, message: Message) -> Result<(), NoMemory>
    ensures { OnOk result (outs.new ≡ outs.old ++ (1, 0, message) ∷ []) }
{
    outs.push((SEQUENCER, 0, message))
}

impl Task {
    /// A program that has just begun.
    pub fn new(alloc: Global, txn: Txn) -> Task
        ensures { result ≡ fresh txn }
    {
        Task {
            txn,
            answers: Answers::new(alloc),
            asks: 0,
            doing: Doing::Over,
        }
    }

    /// Asks for an item, under the next number.
    fn ask(&mut self, item: Item, outs: &mut Outs) -> Result<(), NoMemory>
        requires { self.old.asks + 1 < 4294967296 }
        ensures txn { self.new.txn ≡ self.old.txn }
        ensures ok { OnOk result (self.new ≡ words.asking self.old item) }
        ensures outs { OnOk result (outs.new ≡ outs.old ++ words.ask_out self.old item ∷ []) }
    {
        self.asks += 1;
        self.doing = Doing::Asking {
            ask: self.asks,
            item,
            server: None,
        };
        tell(
            outs,
            Message::ReadAsk {
                txn: self.txn,
                ask: self.asks,
                item,
            },
        )
    }

    /// Ends by itself, which the sequencer is told, with what was read.
    fn end_by(&mut self, cause: Cause, reads: Pairs, outs: &mut Outs) -> Result<(), NoMemory>
        ensures txn { self.new.txn ≡ self.old.txn }
        ensures ok { OnOk result (self.new ≡ record (self.old) { doing = Over }) }
        ensures outs { OnOk result (outs.new ≡ outs.old ++ (1, 0, EndAsk self.old.txn cause reads) ∷ []) }
    {
        self.doing = Doing::Over;
        tell(
            outs,
            Message::EndAsk {
                txn: self.txn,
                cause,
                reads,
            },
        )
    }

    /// Does what follows from an outcome.
    fn come_to(&mut self, outcome: Outcome, outs: &mut Outs) -> Result<(), NoMemory>
        requires { self.old.asks + 1 < 4294967296 }
        ensures txn { self.new.txn ≡ self.old.txn }
        ensures ok { OnOk result (self.new ≡ come_to self.old outcome outcome.end) }
        ensures outs { OnOk result (outs.new ≡ outs.old ++ come_to_outs self.old outcome outcome.end) }
    {
        let Outcome { end, reads, writes } = outcome;
        match end {
            Want::Read(item) => self.ask(item, outs),
            Want::Done => {
                self.doing = Doing::Done { reads, writes };
                Ok(())
            }
            Want::Own => self.end_by(Cause::Own, reads, outs),
            Want::Overflow => self.end_by(Cause::Overflow, reads, outs),
        }
    }

    /// Goes on with the answers, to the next read or the end.
    pub fn go_on(
        &mut self,
        alloc: Global,
        program: &Program,
        outs: &mut Outs,
    ) -> Result<(), NoMemory>
        requires { self.old.asks + 1 < 4294967296 }
        ensures txn { self.new.txn ≡ self.old.txn }
        ensures ok { OnOk result (self.new ≡ gone program.now self.old) }
        ensures outs { OnOk result (outs.new ≡ outs.old ++ gone_outs program.now self.old) }
    {
        let outcome = outcome(alloc, program, &self.answers)?;
        self.come_to(outcome, outs)
    }

    /// The item that is asked for under this number, if one is.
    fn asked(&self, ask: u32) -> Option<Item>
        ensures { result ≡ words.asked ask self.now.doing }
    {
        match &self.doing {
            Doing::Asking {
                ask: outstanding,
                item,
                ..
            } => {
                if *outstanding == ask {
                    Some(*item)
                } else {
                    None
                }
            }
            Doing::Done { .. } | Doing::Over => None,
        }
    }

    /// Takes a value for an ask, and goes on; does nothing where another ask is outstanding, or none.
    pub fn give(
        &mut self,
        alloc: Global,
        program: &Program,
        ask: u32,
        value: i64,
        outs: &mut Outs,
    ) -> Result<(), NoMemory>
        requires { self.old.asks + 1 < 4294967296 }
        ensures txn { self.new.txn ≡ self.old.txn }
        ensures ok { OnOk result (self.new ≡ gave program.now ask value self.old) }
        ensures outs { OnOk result (outs.new ≡ outs.old ++ gave_outs program.now ask value self.old) }
    {
        let Some(item) = self.asked(ask) else {
            return Ok(());
        };
        self.answers.put(item, value)?;
        self.go_on(alloc, program, outs)
    }

    /// Notes the site that serves an ask, where that ask is outstanding.
    pub fn note(&mut self, ask: u32, site: Site)
        ensures { self.new ≡ record (self.old) { doing = noted_at ask site self.old.doing } }
    {
        if let Doing::Asking {
            ask: outstanding,
            item,
            ..
        } = self.doing
        {
            if outstanding == ask {
                self.doing = Doing::Asking {
                    ask,
                    item,
                    server: Some(site),
                };
            }
        }
    }

    /// The item that the site was to serve to the program, if it was.
    fn awaited(&self, site: Site) -> Option<Item>
        ensures { result ≡ words.awaited site self.now.doing }
    {
        match &self.doing {
            Doing::Asking {
                item,
                server: Some(server),
                ..
            } => { if *server == site { Some(*item) } else { None } }
            Doing::Asking { .. } | Doing::Done { .. } | Doing::Over => None,
        }
    }

    /// Asks again for what the site was to serve, if it was to serve something.
    pub fn lose(&mut self, site: Site, outs: &mut Outs) -> Result<(), NoMemory>
        requires { self.old.asks + 1 < 4294967296 }
        ensures txn { self.new.txn ≡ self.old.txn }
        ensures ok { OnOk result (self.new ≡ lost site self.old) }
        ensures outs { OnOk result (outs.new ≡ outs.old ++ lost_outs site self.old) }
    {
        match self.awaited(site) {
            Some(item) => self.ask(item, outs),
            None => Ok(()),
        }
    }

    /// Whether the program is done.
    pub fn is_done(&self) -> bool
        ensures { result ≡ words.is_done self.now.doing }
    {
        matches!(&self.doing, Doing::Done { .. })
    }

    /// What it read where it is done, and else nothing.
    pub fn reads<'a>(&'a self, nothing: &'a Pairs) -> &'a Pairs
        requires { nothing.now ≡ [] }
        ensures { result.now ≡ words.reads_in self.now.doing }
    {
        match &self.doing {
            Doing::Done { reads, .. } => reads,
            Doing::Asking { .. } | Doing::Over => nothing,
        }
    }

    /// What it writes where it is done, and else nothing.
    pub fn writes<'a>(&'a self, nothing: &'a Pairs) -> &'a Pairs
        requires { nothing.now ≡ [] }
        ensures { result.now ≡ words.writes_in self.now.doing }
    {
        match &self.doing {
            Doing::Done { writes, .. } => writes,
            Doing::Asking { .. } | Doing::Over => nothing,
        }
    }
}
