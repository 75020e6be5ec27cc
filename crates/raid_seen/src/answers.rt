//! The values that a program was given, and what it makes of them.

ghost use Rattle.std.specs.Prelude.{◌≡◌, [], OnOk, IfOk};
ghost use Rattle.raid_base.specs.Find.{first_of};
ghost use Rattle.raid_program.specs.Run.{put, given, outcome_of};
ghost use Rattle.raid_program.specs.Course.{IsOf};

use raid_base::{Item, NoMemory};
use raid_program::{Program, Run, Want};
use std::alloc::Global;
use std::marker::Model;

/// The values that a program was given, each item once. Contracts see a list of pairs.
#[derive(Drop, Debug)]
pub struct Answers {
    held: Vec<(Item, i64)>,
}

impl Model for Answers {
    ghost use Rattle.std.specs.Prelude.{List, ℤ};
    ghost use Rattle.raid_base.specs.declared.names.Item.{Item};

    ghost Value = { List (Item × ℤ) };

    ghost view = { λ a. a.held.items };
}

/// The value of the first pair of an item, if there is one.
fn value_in(pairs: &[(Item, i64)], item: Item) -> Option<i64>
    ensures { result ≡ first_of item pairs.now }
{
    for (other, value) in pairs {
        if *other == item {
            return Some(*value);
        }
    }
    None
}

/// Puts the item's value in place of its old one, or at the end.
fn put(pairs: &mut Vec<(Item, i64)>, item: Item, value: i64) -> Result<(), NoMemory>
    ensures { OnOk result (pairs.new.items ≡ put pairs.old.items item value) }
{
    for k in 0..pairs.len() {
        if pairs[k].0 == item {
            pairs[k] = (item, value);
            return Ok(());
        }
    }
    pairs.push((item, value))?;
    Ok(())
}

impl Answers {
    /// No values.
    pub fn new(alloc: Global) -> Answers
        ensures { result ≡ [] }
    {
        Answers {
            held: Vec::new(alloc),
        }
    }

    /// Adds a value, in place of the item's old one. After want of memory the answers are worth nothing.
    pub fn put(&mut self, item: Item, value: i64) -> Result<(), NoMemory>
        ensures { OnOk result (self.new ≡ put self.old item value) }
    {
        put(&mut self.held, item, value)
    }

    /// All of them.
    pub fn as_slice(&self) -> &[(Item, i64)]
        ensures { result.now ≡ self.now }
    {
        self.held.as_slice()
    }
}

/// Gives a run the answers until it ends, or wants a value that isn't among them.
fn finish(run: &mut Run, program: &Program, answers: &[(Item, i64)]) -> Want
    requires of { IsOf run.old program.now }
    requires start { run.old.reads ≡ [] }
    ensures { outcome_of program.now (given answers.now) ≡ record { end = result; reads = run.new.reads; writes = run.new.writes } }
{
    loop {
        let want = run.next(program);
        let Want::Read(item) = want else {
            return want;
        };
        let Some(value) = value_in(answers, item) else {
            return want;
        };
        run.give(value);
    }
}

/// How the program ends on the answers, and its run, which has its reads and writes.
pub fn course(
    alloc: Global,
    program: &Program,
    answers: &[(Item, i64)],
) -> Result<(Want, Run), NoMemory>
    ensures { IfOk result (λ c. outcome_of program.now (given answers.now) ≡ record { end = c.0; reads = c.1.reads; writes = c.1.writes }) }
{
    let mut run = Run::new(alloc, program)?;
    let end = finish(&mut run, program, answers);
    Ok((end, run))
}
