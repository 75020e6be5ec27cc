//! The messages of letters.

use crate::words::Words;
use anyhow::{Result, bail};
use raid_base::{Answer, Request};
use raid_message::{Letter, Message};
use std::alloc::Global;

/// A letter, with its sender's server number.
#[derive(Drop, Debug)]
pub struct Heard {
    pub from: u16,
    pub letter: Letter,
}

/// The letter that a line tells, behind its first word.
pub fn letter_in(alloc: Global, words: &mut Words) -> Result<Heard> {
    let from = words.server()?;
    let session = words.number()?;
    let to = words.number()?;
    let message = message(alloc, words)?;
    let letter = Letter {
        clock: 0,
        from: session,
        to,
        message,
    };
    Ok(Heard { from, letter })
}

/// What is sent as a line tells, behind its first word: the addressee's server number, its `to`, and the message.
pub fn message_in(alloc: Global, words: &mut Words) -> Result<(u16, u32, Message)> {
    let server = words.server()?;
    let to = words.number()?;
    let message = message(alloc, words)?;
    Ok((server, to, message))
}

/// The message that the words say.
fn message(alloc: Global, words: &mut Words) -> Result<Message> {
    let word = words.word();
    let message = match word {
        "stop" => Message::Stop,
        "return" => Message::Return,
        "halted" => Message::Halted,
        "hello" => Message::Hello,
        "down" => Message::Down {
            site: words.site()?,
            session: words.number()?,
        },
        "ends" => Message::Ends {
            count: words.number()?,
        },
        "value" | "prepare" | "vote" | "copyvalue" => between_sites(alloc, word, words)?,
        "begin" | "readask" | "commitask" | "endask" | "ack" | "copydone" => {
            to_sequencer(alloc, word, words)?
        }
        _ => of_sequencer(word, words)?,
    };
    if !words.is_empty() {
        bail!("a word too many");
    }
    Ok(message)
}

/// A message of the sequencer to a site.
fn of_sequencer(word: &str, words: &mut Words) -> Result<Message> {
    let message = match word {
        "welcome" => Message::Welcome {
            vector: words.vector()?,
            next: words.number()?,
        },
        "readdo" => Message::ReadDo {
            txn: words.txn()?,
            ask: words.number()?,
            item: words.item()?,
            home: words.site()?,
            home_session: words.number()?,
        },
        "serving" => Message::Serving {
            txn: words.txn()?,
            ask: words.number()?,
            site: words.site()?,
        },
        "apply" => Message::Apply {
            txn: words.txn()?,
            number: words.number()?,
        },
        "done" => Message::Done { txn: words.txn()? },
        "drop" => Message::Drop {
            txn: words.txn()?,
            again: words.answer()?,
        },
        _ => note(word, words)?,
    };
    Ok(message)
}

/// A message of the sequencer to a site, about another one.
fn note(word: &str, words: &mut Words) -> Result<Message> {
    let message = match word {
        "downnote" => Message::DownNote {
            site: words.site()?,
        },
        "upnote" => Message::UpNote {
            site: words.site()?,
            session: words.number()?,
        },
        "copydo" => Message::CopyDo {
            item: words.item()?,
            target: words.site()?,
            target_session: words.number()?,
        },
        _ => bail!("no message"),
    };
    Ok(message)
}

/// A message of a site to the sequencer.
fn to_sequencer(alloc: Global, word: &str, words: &mut Words) -> Result<Message> {
    let message = match word {
        "begin" => Message::Begin { txn: words.txn()? },
        "readask" => Message::ReadAsk {
            txn: words.txn()?,
            ask: words.number()?,
            item: words.item()?,
        },
        "commitask" => Message::CommitAsk {
            txn: words.txn()?,
            request: request(alloc, words)?,
        },
        "endask" => Message::EndAsk {
            txn: words.txn()?,
            cause: words.cause()?,
            reads: words.pairs(alloc)?,
        },
        "ack" => Message::Ack { txn: words.txn()? },
        "copydone" => Message::CopyDone {
            item: words.item()?,
            version: words.number()?,
        },
        _ => bail!("no message"),
    };
    Ok(message)
}

/// What a commit asks for.
fn request(alloc: Global, words: &mut Words) -> Result<Request> {
    Ok(Request {
        reads: words.pairs(alloc)?,
        writes: words.pairs(alloc)?,
        under: words.vector()?,
    })
}

/// A message of a site to another one.
fn between_sites(alloc: Global, word: &str, words: &mut Words) -> Result<Message> {
    let message = match word {
        "value" => Message::Value {
            txn: words.txn()?,
            ask: words.number()?,
            value: words.value()?,
        },
        "prepare" => Message::Prepare {
            txn: words.txn()?,
            writes: words.pairs(alloc)?,
        },
        "vote" => Message::Vote {
            txn: words.txn()?,
            answer: vote(words)?,
        },
        "copyvalue" => Message::CopyValue {
            item: words.item()?,
            value: words.value()?,
            version: words.number()?,
        },
        _ => bail!("no message"),
    };
    Ok(message)
}

/// What a site says to a Prepare.
fn vote(words: &mut Words) -> Result<Answer> {
    if words.answer()? {
        return Ok(Answer::Yes);
    }
    Ok(Answer::No {
        named: words.number()?,
        own: words.number()?,
    })
}
