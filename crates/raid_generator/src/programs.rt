ghost use Rattle.std.specs.Prelude.{◌≡◌, ◌≤◌, ◌<◌, IfOk, pos};
ghost use Rattle.raid_generator.specs.Made as made;

use crate::draws::Draws;
use raid_base::{Item, Listed, NoMemory, Site};
use raid_program::{Expr, Program, Statement, Term};
use raid_workload::{Homed, Programs};
use std::alloc::Global;

/// An expression of one term.
fn alone(alloc: Global, term: Term) -> Expr
    ensures { result ≡ made.alone term }
{
    Expr {
        first: term,
        rest: Listed::new(alloc),
    }
}

/// A register with the amount added, or taken away.
fn changed(alloc: Global, reg: u8, plus: bool, amount: u32) -> Result<Expr, NoMemory>
    ensures { IfOk result (λ expr. expr ≡ made.changed reg plus amount) }
{
    let mut expr = alone(alloc, Term::Reg(reg));
    expr.rest.push((plus, Term::Value(i64::from(amount))))?;
    Ok(expr)
}

/// An amount goes from one item to another, unless the first has less.
fn transfer(alloc: Global, from: Item, to: Item, amount: u32) -> Result<Program, NoMemory>
    ensures { IfOk result (λ program. program ≡ made.transfer from to amount) }
{
    let mut program = Program::new(alloc);
    program.push(Statement::Read { item: from, reg: 0 })?;
    program.push(Statement::Read { item: to, reg: 1 })?;
    program.push(Statement::StopIf {
        left: alone(alloc, Term::Reg(0)),
        right: alone(alloc, Term::Value(i64::from(amount))),
    })?;
    let expr = changed(alloc, 0, false, amount)?;
    program.push(Statement::Write { item: from, expr })?;
    let expr = changed(alloc, 1, true, amount)?;
    program.push(Statement::Write { item: to, expr })?;
    Ok(program)
}

/// The transfer that three draws choose.
fn chosen(alloc: Global, first: u32, second: u32, third: u32) -> Result<Program, NoMemory>
    ensures { IfOk result (λ program. program ≡ made.chosen first second third) }
{
    let from = first % 1024;
    let to = (from + 1 + second % 1023) % 1024;
    transfer(alloc, Item(from as u16), Item(to as u16), 1 + third % 50)
}

/// So many programs, at the four sites in turn.
pub fn programs(alloc: Global, seed: u32, count: u32) -> Result<Programs, NoMemory>
    ensures { IfOk result (λ programs. programs ≡ made.programs_from seed 0 count) }
{
    let mut draws = Draws { state: seed };
    let mut programs = Listed::new(alloc);
    for k in 0..count {
        let first = draws.draw();
        let second = draws.draw();
        let third = draws.draw();
        let program = chosen(alloc, first, second, third)?;
        let home = Site(1 + (k % 4) as u8);
        programs.push(Homed { home, program })?;
    }
    Ok(programs)
}
