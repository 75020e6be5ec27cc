//! Letters, with what a server sends when it hears them.

use crate::messages::{Heard, letter_in, message_in};
use crate::words::Words;
use anyhow::{Result, bail};
use raid_message::Outs;
use std::alloc::{AllocError, Global};

/// A letter, and what is sent then.
#[derive(Drop, Debug)]
pub struct Step {
    pub heard: Heard,
    pub sent: Outs,
}

/// Adds what a line tells: a letter, or one more that is sent upon the last one. False where it is another line.
pub fn add_line(alloc: Global, steps: &mut Vec<Step>, line: &str) -> Result<bool> {
    let mut words = Words::new(line);
    match words.word() {
        ">" => {
            let heard = letter_in(alloc, &mut words)?;
            let sent = Outs::new(alloc);
            steps.push(Step { heard, sent })?;
        }
        "<" => match steps.last_mut() {
            Some(step) => step.sent.push(message_in(alloc, &mut words)?)?,
            None => bail!("sent before a letter was heard"),
        },
        _ => return Ok(false),
    }
    Ok(true)
}

/// Whether the same is sent, in the same order.
pub fn are_alike(alloc: Global, said: &Outs, wanted: &Outs) -> Result<bool, AllocError> {
    let said = format!(in alloc; "{said:?}")?;
    let wanted = format!(in alloc; "{wanted:?}")?;
    Ok(said.as_str() == wanted.as_str())
}
