ghost use Rattle.std.specs.Prelude.{◌≡◌, ◌<◌, ◌≤◌, ◌+◌, List, [], ◌∷◌, ◌++◌, length, vec_len, vec_capacity, Some, None, Ok, Err, IsTrue, IsSome, IfOk, IfErr, IfSome, OnOk, MatchResult, MatchOption};
ghost use Rattle.raid_base.specs.Find.{first_of};
ghost use Rattle.raid_program.specs.declared.program.Statement.{Statement};
ghost use Rattle.raid_program.specs.declared.program.Statement.TheVariants as statements;
ghost use Rattle.raid_program.specs.Form.{is_formed, is_expr};
ghost use Rattle.raid_program.specs.Run.{put, known, given, asks_for, outcome_of};
ghost use Rattle.raid_program.specs.Course.{IsOf, progress, Passes, Stops};

use crate::program::{Expr, Outcome, Program, Statement, Want};
use crate::sum::Registers;
use raid_base::{Item, NoMemory, Pairs};
use std::alloc::Global;
use std::marker::Model;

/// The most statements that a program has.
const MOST: usize = 32;

/// A run of a program, which asks for the values that it reads one at a time.
///
/// It stands at a place of the program. Everything that it decides depends on the program and on the values
/// that it was given, as contracts say by [`next`](Run::next).
#[derive(Drop, Debug)]
pub struct Run {
    place: usize,
    registers: Registers,
    reads: Vec<(Item, i64)>,
    writes: Vec<(Item, i64)>,
    asked: Option<Item>,
    register: u8,
}

impl Model for Run {
    ghost use Rattle.std.specs.Prelude.{◌≡◌, ◌<◌, ◌≤◌, vec_len, vec_capacity, is_some, true};
    ghost use Rattle.raid_program.specs.Course.{Course};

    ghost Value = { Course };

    ghost view = { λ r. record { place = r.place; registers = r.registers; reads = r.reads.items; writes = r.writes.items; asked = r.asked; register = r.register } };

    ghost invariant = { λ r. (vec_len r.reads ≤ r.place) × (vec_len r.writes ≤ r.place) × (r.place ≤ 32) × (32 ≤ vec_capacity r.reads) × (32 ≤ vec_capacity r.writes) × (r.register < 16) × (is_some r.asked ≡ true → r.place < 32) };
}

/// The value of the first pair of an item, if there is one.
fn value_in(pairs: &[(Item, i64)], item: Item) -> Option<i64>
    ensures { result ≡ first_of item pairs.now }
{
    for (other, value) in pairs {
        if *other == item {
            return Some(*value);
        }
    }
    None
}

/// Puts the item's value in place of its old one, or at the end.
fn put(pairs: &mut Vec<(Item, i64)>, item: Item, value: i64)
    requires { vec_len pairs.old < vec_capacity pairs.old }
    ensures is { pairs.new.items ≡ put pairs.old.items item value }
    ensures len { vec_len pairs.new ≤ vec_len pairs.old + 1 }
    ensures room { vec_capacity pairs.new ≡ vec_capacity pairs.old }
{
    for k in 0..pairs.len() {
        if pairs[k].0 == item {
            pairs[k] = (item, value);
            return;
        }
    }
    pairs.push_reserved((item, value));
}

/// The pairs as a list of their own.
fn pairs_of(alloc: Global, pairs: &[(Item, i64)]) -> Result<Pairs, NoMemory>
    ensures { IfOk result (λ copied. copied ≡ pairs.now) }
{
    let mut copied = Pairs::new(alloc);
    copied.push_all(pairs)?;
    Ok(copied)
}

impl Run {
    /// A run at the program's first statement, with all the room that it needs.
    pub fn new(alloc: Global, program: &Program) -> Result<Run, NoMemory>
        ensures of { IfOk result (λ r. IsOf r program.now) }
        ensures reads { IfOk result (λ r. r.reads ≡ []) }
        ensures writes { IfOk result (λ r. r.writes ≡ []) }
        ensures asked { IfOk result (λ r. r.asked ≡ None) }
    {
        let reads = Vec::with_capacity(alloc, MOST)?;
        let writes = Vec::with_capacity(alloc, MOST)?;
        Ok(Run {
            place: 0,
            registers: [0; 16],
            reads,
            writes,
            asked: None,
            register: 0,
        })
    }

    /// The value that the program wrote, or else read, before.
    fn known(&self, item: Item) -> Option<i64>
        ensures { result ≡ known (progress self.now) item }
    {
        match value_in(self.writes.as_slice(), item) {
            Some(value) => Some(value),
            None => value_in(self.reads.as_slice(), item),
        }
    }

    /// Passes a read where its item's value is known, and else waits for it.
    fn read(&mut self, item: Item, reg: u8) -> Result<(), Want>
        requires place { self.old.place < 32 }
        requires register { reg < 16 }
        requires idle { self.old.asked ≡ None }
        ensures { MatchResult result (λ _. Passes self.old self.new (statements.Read item reg)) (λ want. Stops self.old self.new (statements.Read item reg) want) }
    {
        match self.known(item) {
            Some(value) => {
                self.registers[reg as usize] = value;
                self.place += 1;
                Ok(())
            }
            None => {
                self.asked = Some(item);
                self.register = reg;
                Err(Want::Read(item))
            }
        }
    }

    /// Passes a write where the expression has a value.
    fn write(&mut self, item: Item, expr: &Expr) -> Result<(), Want>
        requires place { self.old.place < 32 }
        requires formed { IsTrue (is_expr expr.now) }
        requires idle { self.old.asked ≡ None }
        ensures { MatchResult result (λ _. Passes self.old self.new (statements.Write item expr.now)) (λ want. Stops self.old self.new (statements.Write item expr.now) want) }
    {
        let Some(value) = expr.value(&self.registers) else {
            return Err(Want::Overflow);
        };
        put(&mut self.writes, item, value);
        self.place += 1;
        Ok(())
    }

    /// Passes a `stop if` that doesn't hold.
    fn stop_if(&mut self, left: &Expr, right: &Expr) -> Result<(), Want>
        requires place { self.old.place < 32 }
        requires left { IsTrue (is_expr left.now) }
        requires right { IsTrue (is_expr right.now) }
        requires idle { self.old.asked ≡ None }
        ensures { MatchResult result (λ _. Passes self.old self.new (statements.StopIf left.now right.now)) (λ want. Stops self.old self.new (statements.StopIf left.now right.now) want) }
    {
        let Some(left) = left.value(&self.registers) else {
            return Err(Want::Overflow);
        };
        let Some(right) = right.value(&self.registers) else {
            return Err(Want::Overflow);
        };
        if left < right {
            return Err(Want::Own);
        }
        self.place += 1;
        Ok(())
    }

    /// Passes a statement, or stops before it.
    fn step(&mut self, statement: &Statement) -> Result<(), Want>
        requires place { self.old.place < 32 }
        requires formed { IsTrue (is_formed statement.now) }
        requires idle { self.old.asked ≡ None }
        ensures { MatchResult result (λ _. Passes self.old self.new statement.now) (λ want. Stops self.old self.new statement.now want) }
    {
        match statement {
            Statement::Read { item, reg } => self.read(*item, *reg),
            Statement::Write { item, expr } => self.write(*item, expr),
            Statement::StopIf { left, right } => self.stop_if(left, right),
        }
    }

    /// Goes on to the next read of an item that was neither read nor written before, or to the end of the
    /// program, and tells which. Until a value is given it tells the same again.
    ///
    /// What it tells, and the reads and writes that the run then has, are the outcome of the program on the
    /// values given so far. Takes no memory.
    pub fn next(&mut self, program: &Program) -> Want
        requires { IsOf self.old program.now }
        ensures outcome { outcome_of program.now (given self.old.reads) ≡ record { end = result; reads = self.new.reads; writes = self.new.writes } }
        ensures reads { self.new.reads ≡ self.old.reads }
        ensures asked { self.new.asked ≡ asks_for result }
        ensures of { IsOf self.new program.now }
    {
        self.asked = None;
        while self.place < program.len() {
            match self.step(program.get(self.place)) {
                Ok(()) => {}
                Err(want) => return want,
            }
        }
        Want::Done
    }

    /// Gives the value that the last [`next`](Run::next) asked for. At most 32 values are given to a run. Takes
    /// no memory.
    pub fn give(&mut self, value: i64)
        requires { IsSome self.old.asked }
        ensures reads { IfSome self.old.asked (λ x. self.new.reads ≡ self.old.reads ++ (x, value) ∷ []) }
        ensures most { length self.new.reads ≤ 32 }
        ensures writes { self.new.writes ≡ self.old.writes }
        ensures asked { self.new.asked ≡ None }
        ensures of { (p : List Statement) → IsOf self.old p → IsOf self.new p }
    {
        if let Some(item) = self.asked {
            self.reads.push_reserved((item, value));
            self.registers[self.register as usize] = value;
            self.place += 1;
            self.asked = None;
        }
    }

    /// The values that were given, in order, each with the item that was asked for.
    pub fn reads(&self) -> &[(Item, i64)]
        ensures { result.now ≡ self.now.reads }
    {
        self.reads.as_slice()
    }

    /// The writes so far, in the order of first write, each item once with its last value.
    pub fn writes(&self) -> &[(Item, i64)]
        ensures { result.now ≡ self.now.writes }
    {
        self.writes.as_slice()
    }

    /// The outcome of a run that ended so, with reads and writes of its own.
    pub fn outcome(&self, alloc: Global, end: Want) -> Result<Outcome, NoMemory>
        ensures { IfOk result (λ o. o ≡ record { end = end; reads = self.now.reads; writes = self.now.writes }) }
    {
        let reads = pairs_of(alloc, self.reads.as_slice())?;
        let writes = pairs_of(alloc, self.writes.as_slice())?;
        Ok(Outcome { end, reads, writes })
    }
}
