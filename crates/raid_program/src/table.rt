ghost use Rattle.std.specs.Prelude.{◌≡◌, ◌<◌, [], length, vec_capacity, IfOk, OnOk, OnErr, All, if◌then◌else◌, Some};
ghost use Rattle.raid_base.specs.declared.names.Item.{Item};
ghost use Rattle.raid_base.specs.Names.{is_item};
ghost use Rattle.raid_program.specs.Run.{values, given, outcome_of, serially, written};
ghost use Rattle.raid_program.specs.Course.{IsOf};

use crate::program::{Outcome, Program, Want};
use crate::run::Run;
use raid_base::{Item, NoMemory, Pairs};
use std::alloc::Global;
use std::marker::Model;

/// A table of items with values, on which programs run one after another: the serial machine.
///
/// Contracts see the table as its values by the items' numbers, and read it by `values`, which gives an item's
/// value.
#[derive(Drop, Debug)]
pub struct Table {
    held: Vec<Option<i64>>,
}

impl Model for Table {
    ghost use Rattle.std.specs.Prelude.{List, Option, ℤ};

    ghost Value = { List (Option ℤ) };

    ghost view = { λ t. t.held.items };
}

/// A number that is larger than those of all the items.
fn bound(pairs: &[(Item, i64)]) -> usize
    ensures { All (λ p. p.0.0 < result) pairs.now }
{
    let mut bound = 0;
    for (item, _) in pairs {
        bound = bound.max(item.0 as usize + 1);
    }
    bound
}

/// Gives an item a value, in the room that there is.
fn set(held: &mut Vec<Option<i64>>, item: Item, value: i64)
    requires { item.0 < vec_capacity held.old }
    ensures is { (x : Item) → values held.new.items x ≡ (if is_item x item then Some value else values held.old.items x) }
    ensures room { vec_capacity held.new ≡ vec_capacity held.old }
{
    let place = item.0 as usize;
    while held.len() <= place {
        held.push_reserved(None);
    }
    held[place] = Some(value);
}

/// Gives the items the values of their first pairs, in the room that there is.
fn set_all(held: &mut Vec<Option<i64>>, pairs: &[(Item, i64)])
    requires { All (λ p. p.0.0 < vec_capacity held.old) pairs.now }
    ensures { (x : Item) → values held.new.items x ≡ written (values held.old.items) pairs.now x }
{
    for k in (0..pairs.len()).rev() {
        let (item, value) = pairs[k];
        set(held, item, value);
    }
}

impl Table {
    /// The table in which each item of the pairs has the value of its first pair, and no other item has one.
    pub fn new(alloc: Global, pairs: &Pairs) -> Result<Table, NoMemory>
        ensures { IfOk result (λ t. values t ≡ given pairs.now) }
    {
        let mut table = Table {
            held: Vec::new(alloc),
        };
        table.apply(pairs.as_slice())?;
        Ok(table)
    }

    /// Gives each item of the pairs the value of its first pair. After want of memory the table is as it was.
    fn apply(&mut self, pairs: &[(Item, i64)]) -> Result<(), NoMemory>
        ensures ok { OnOk result (values self.new ≡ written (values self.old) pairs.now) }
        ensures err { OnErr result (self.new ≡ self.old) }
    {
        let missing = bound(pairs).saturating_sub(self.held.len());
        self.held.reserve(missing)?;
        set_all(&mut self.held, pairs);
        Ok(())
    }

    /// Gives a run the table's values until it ends, or wants a value that the table doesn't have.
    fn finish(&self, run: &mut Run, program: &Program) -> Want
        requires of { IsOf run.old program.now }
        requires start { run.old.reads ≡ [] }
        ensures { outcome_of program.now (values self.now) ≡ record { end = result; reads = run.new.reads; writes = run.new.writes } }
    {
        loop {
            let want = run.next(program);
            let Want::Read(item) = want else {
                return want;
            };
            let Some(value) = self.value(item) else {
                return want;
            };
            run.give(value);
        }
    }

    /// Runs the program on the table's values. Where it is done, its writes become the table's values; else,
    /// and after want of memory, the table stays as it was.
    pub fn run(&mut self, alloc: Global, program: &Program) -> Result<Outcome, NoMemory>
        ensures outcome { IfOk result (λ o. o ≡ outcome_of program.now (values self.old)) }
        ensures table { OnOk result (values self.new ≡ serially (values self.old) program.now) }
        ensures err { OnErr result (self.new ≡ self.old) }
    {
        let mut run = Run::new(alloc, program)?;
        let end = self.finish(&mut run, program);
        let outcome = run.outcome(alloc, end)?;
        if let Want::Done = end {
            self.apply(run.writes())?;
        }
        Ok(outcome)
    }

    /// The item's value; None exactly where it has none.
    pub fn value(&self, item: Item) -> Option<i64>
        ensures { result ≡ values self.now item }
    {
        let place = item.0 as usize;
        if place < self.held.len() {
            self.held[place]
        } else {
            None
        }
    }
}
