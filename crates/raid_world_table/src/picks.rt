//! The picks of a line.

use anyhow::{Result, bail};
use raid_message::Pick;
use std::alloc::Global;

/// The pick that a word tells: the server that takes the letter, `<`, and the one that sent it, both by number.
fn pick(word: &str) -> Result<Pick> {
    let Some((server, from)) = word.split_once('<') else {
        bail!("no pick");
    };
    Ok(Pick {
        server: server.parse::<u16>()?,
        from: from.parse::<u16>()?,
    })
}

/// The picks that the words tell, with single spaces between them.
pub fn picks(alloc: Global, words: &str) -> Result<Vec<Pick>> {
    let mut picks = Vec::new(alloc);
    for word in words.split(' ') {
        picks.push(pick(word)?)?;
    }
    Ok(picks)
}
