//! The statements of a program.

ghost use Rattle.std.specs.Prelude.{◌≡◌, [], IfOk, IsTrue, OnOk};
ghost use Rattle.raid_program.specs.Form.{is_formed};
ghost use Rattle.raid_scan.specs.Words.{words_of};
ghost use Rattle.raid_tokens.specs.Reading.{Tells};
ghost use Rattle.raid_text.specs.Statements.{item_at, ends, sign_at, step_at, steps_at, expr_at, read_at, write_at, stop_if_at, statement_line};
ghost use Rattle.raid_text.specs.Names.{names_of};
ghost use Rattle.raid_text.specs.Outcome.{Gives};

use crate::error::LineError;
use crate::names::Names;
use crate::state::State;
use raid_base::{Item, Listed};
use raid_program::{Expr, Statement, Term, Terms};
use raid_scan::next_word;
use raid_tokens::{
    Fault, is_word, take_end, take_keyword, take_name, take_register, take_term, take_word,
};
use std::alloc::Global;

/// The item whose name stands next.
#[tactic(auto, unfolding(crate::specs::Statements::item_at))]
fn take_item<'a>(names: &Names<'a>, line: &'a [u8]) -> Result<(Item, &'a [u8]), Fault>
    ensures { Tells (λ x. (x.0, words_of x.1.now)) result (item_at names.now (words_of line.now)) }
{
    let (name, rest) = take_name(line)?;
    match names.place_of(name) {
        Some(place) => Ok((Item(place as u16), rest)),
        None => Err(Fault::Item),
    }
}

/// Whether an expression ends here.
#[tactic(auto, unfolding(crate::specs::Statements::ends))]
fn ends(compared: bool, line: &[u8]) -> bool
    ensures { result ≡ ends compared (words_of line.now) }
{
    match next_word(line) {
        None => true,
        Some((word, _)) => compared && is_word(word, b"<"),
    }
}

/// The sign that stands next, true for plus.
#[tactic(auto, unfolding(crate::specs::Statements::sign_at))]
fn take_sign(line: &[u8]) -> Result<(bool, &[u8]), Fault>
    ensures { Tells (λ x. (x.0, words_of x.1.now)) result (sign_at (words_of line.now)) }
{
    let (word, rest) = take_word(line)?;
    if is_word(word, b"+") {
        Ok((true, rest))
    } else if is_word(word, b"-") {
        Ok((false, rest))
    } else {
        Err(Fault::Token)
    }
}

/// A sign and the term behind it.
#[tactic(auto, unfolding(crate::specs::Statements::step_at))]
fn take_step(line: &[u8]) -> Result<((bool, Term), &[u8]), Fault>
    ensures { Tells (λ x. (x.0, words_of x.1.now)) result (step_at (words_of line.now)) }
{
    let (plus, rest) = take_sign(line)?;
    let (term, rest) = take_term(rest)?;
    Ok(((plus, term), rest))
}

/// The further terms of an expression, at most seven.
#[tactic(auto, unfolding(crate::specs::Statements::steps_at))]
fn take_steps(alloc: Global, compared: bool, line: &[u8]) -> Result<(Terms, &[u8]), LineError>
    ensures { Gives (λ x. (x.0, words_of x.1.now)) result (steps_at compared [] 7 (words_of line.now)) }
{
    let mut steps: Terms = Listed::new(alloc);
    let mut rest = line;
    for _ in 0..7u32 {
        if ends(compared, rest) {
            return Ok((steps, rest));
        }
        let (step, after) = take_step(rest)?;
        steps.push(step)?;
        rest = after;
    }
    if ends(compared, rest) {
        Ok((steps, rest))
    } else {
        Err(LineError::Fault(Fault::Token))
    }
}

/// The expression that stands next.
#[tactic(auto, unfolding(crate::specs::Statements::expr_at))]
fn take_expr(alloc: Global, compared: bool, line: &[u8]) -> Result<(Expr, &[u8]), LineError>
    ensures { Gives (λ x. (x.0, words_of x.1.now)) result (expr_at compared (words_of line.now)) }
{
    let (first, rest) = take_term(line)?;
    let (steps, rest) = take_steps(alloc, compared, rest)?;
    Ok((Expr { first, rest: steps }, rest))
}

/// The words of a read behind the first.
#[tactic(auto, unfolding(crate::specs::Statements::read_at))]
fn take_read<'a>(names: &Names<'a>, line: &'a [u8]) -> Result<Statement, Fault>
    ensures { Tells (λ x. x) result (read_at names.now (words_of line.now)) }
{
    let (item, rest) = take_item(names, line)?;
    let (reg, rest) = take_register(rest)?;
    take_end(rest)?;
    Ok(Statement::Read { item, reg })
}

/// The words of a write behind the first.
#[tactic(auto, unfolding(crate::specs::Statements::write_at))]
fn take_write<'a>(alloc: Global, names: &Names<'a>, line: &'a [u8]) -> Result<Statement, LineError>
    ensures { Gives (λ x. x) result (write_at names.now (words_of line.now)) }
{
    let (item, rest) = take_item(names, line)?;
    let (expr, rest) = take_expr(alloc, false, rest)?;
    take_end(rest)?;
    Ok(Statement::Write { item, expr })
}

/// The words of a `stop if` behind the first.
#[tactic(auto, unfolding(crate::specs::Statements::stop_if_at))]
fn take_stop_if(alloc: Global, line: &[u8]) -> Result<Statement, LineError>
    ensures { Gives (λ x. x) result (stop_if_at (words_of line.now)) }
{
    let rest = take_keyword(line, b"if")?;
    let (left, rest) = take_expr(alloc, true, rest)?;
    let rest = take_keyword(rest, b"<")?;
    let (right, rest) = take_expr(alloc, false, rest)?;
    take_end(rest)?;
    Ok(Statement::StopIf { left, right })
}

/// A line `read NAME REG`.
#[tactic(auto, unfolding(crate::specs::Statements::statement_line))]
pub fn read_line<'a>(state: &mut State, names: &Names<'a>, line: &'a [u8]) -> Result<(), LineError>
    ensures line { Gives (λ _. state.new) result (statement_line state.old (read_at names.now (words_of line.now))) }
    ensures items { OnOk result (state.new.items ≡ state.old.items) }
{
    if state.program.len() >= 32 {
        return Err(LineError::Fault(Fault::Many));
    }
    let statement = take_read(names, line)?;
    state.program.push(statement)?;
    Ok(())
}

/// A line `write NAME EXPR`.
#[tactic(auto, unfolding(crate::specs::Statements::statement_line))]
pub fn write_line<'a>(
    alloc: Global,
    state: &mut State,
    names: &Names<'a>,
    line: &'a [u8],
) -> Result<(), LineError>
    ensures line { Gives (λ _. state.new) result (statement_line state.old (write_at names.now (words_of line.now))) }
    ensures items { OnOk result (state.new.items ≡ state.old.items) }
{
    if state.program.len() >= 32 {
        return Err(LineError::Fault(Fault::Many));
    }
    let statement = take_write(alloc, names, line)?;
    state.program.push(statement)?;
    Ok(())
}

/// A line `stop if EXPR < EXPR`.
#[tactic(auto, unfolding(crate::specs::Statements::statement_line))]
pub fn stop_if_line(alloc: Global, state: &mut State, line: &[u8]) -> Result<(), LineError>
    ensures line { Gives (λ _. state.new) result (statement_line state.old (stop_if_at (words_of line.now))) }
    ensures items { OnOk result (state.new.items ≡ state.old.items) }
{
    if state.program.len() >= 32 {
        return Err(LineError::Fault(Fault::Many));
    }
    let statement = take_stop_if(alloc, line)?;
    state.program.push(statement)?;
    Ok(())
}
