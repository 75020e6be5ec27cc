ghost use Rattle.std.specs.Prelude.{◌≡◌, ◌++◌, ◌∷◌, [], IfOk, OnOk};
ghost use Rattle.std.specs.Fmt.{decimal};
ghost use Rattle.raid_scan.specs.Words.{joined};
ghost use Rattle.raid_text.specs.Spelling.{kind_word, method_word, switch_words};
ghost use Rattle.raid_advise.specs.Added.{switch};
ghost use Rattle.raid_app.specs.Lines as lines;

use itoa::Buffer;
use raid_advise::Advice;
use raid_base::{Bytes, Kind, Method, NoMemory};
use raid_check::Finding;
use raid_tokens::Fault;
use std::alloc::Global;

/// How the program is called.
pub const USAGE_LINE: &[u8] =
    b"usage: raid run [--brief] | raid make --seed N --count N | raid check | raid advise --last N\n";

/// What is said of a text of more bytes than there may be.
pub const TOO_LONG_LINE: &[u8] = b"refused too long\n";

/// The line that refuses a text: the line of its first fault, counted from 1, with the fault's number and word.
pub fn fault_line(alloc: Global, line: u32, fault: Fault) -> Result<Bytes, NoMemory>
    ensures { IfOk result (λ text. text ≡ lines.fault_line line fault) }
{
    let mut text = Bytes::new(alloc);
    text.push_all(b"refused line ")?;
    text.push_all(Buffer::new().format(line).as_bytes())?;
    text.push_all(b" fault ")?;
    text.push_all(Buffer::new().format(fault.number()).as_bytes())?;
    text.push_all(b" ")?;
    text.push_all(fault.word())?;
    text.push_all(b"\n")?;
    Ok(text)
}

/// The bytes, in a list of their own.
pub fn copied(alloc: Global, bytes: &[u8]) -> Result<Bytes, NoMemory>
    ensures { IfOk result (λ text. text ≡ bytes.now) }
{
    let mut text = Bytes::new(alloc);
    text.push_all(bytes)?;
    Ok(text)
}

/// The line that refuses a report: its first line that doesn't fit, counted from 1.
pub fn unfit_line(alloc: Global, line: u32) -> Result<Bytes, NoMemory>
    ensures { IfOk result (λ text. text ≡ lines.unfit_line line) }
{
    numbered(alloc, b"refused report line ", line)
}

/// The line that tells what was found of a report.
pub fn finding_line(alloc: Global, finding: Finding) -> Result<Bytes, NoMemory>
    ensures { IfOk result (λ text. text ≡ lines.finding_line finding) }
{
    match finding {
        Finding::Sound => copied(alloc, b"sound\n"),
        Finding::Legal(number) => numbered(alloc, b"fails legal at ", number),
        Finding::Serial => copied(alloc, b"fails serial\n"),
        Finding::Copies => copied(alloc, b"fails copies\n"),
        Finding::Finished => copied(alloc, b"fails finished\n"),
    }
}

/// The line that tells what is advised: `keep`, or the line that the workload's text is to get.
pub fn advice_line(alloc: Global, advice: Advice) -> Result<Bytes, NoMemory>
    ensures { IfOk result (λ text. text ≡ lines.advice_line advice) }
{
    match advice {
        Advice::Keep => copied(alloc, b"keep\n"),
        Advice::Switch {
            kind,
            method,
            after,
        } => switch_line(alloc, kind, method, after),
    }
}

/// The line of a switch in a workload's text.
fn switch_line(alloc: Global, kind: Kind, method: Method, after: u32) -> Result<Bytes, NoMemory>
    ensures { IfOk result (λ text. text ≡ lines.line (joined (switch_words (switch kind method after)))) }
{
    let mut text = copied(alloc, b"switch ")?;
    text.push_all(kind_word(kind))?;
    text.push_all(b" by ")?;
    text.push_all(method_word(method))?;
    text.push_all(b" after ")?;
    text.push_all(Buffer::new().format(after).as_bytes())?;
    text.push_all(b"\n")?;
    Ok(text)
}

/// The word of a kind in a workload's text.
fn kind_word(kind: Kind) -> &'static [u8]
    ensures { result.now ≡ kind_word kind }
{
    match kind {
        Kind::Lock => b"lock",
        Kind::Stamp => b"stamp",
        Kind::Valid => b"valid",
        Kind::Graph => b"graph",
    }
}

/// The word of a method in a workload's text.
fn method_word(method: Method) -> &'static [u8]
    ensures { result.now ≡ method_word method }
{
    match method {
        Method::Generic => b"generic",
        Method::Convert => b"convert",
        Method::Suffix => b"suffix",
    }
}

/// A line that ends in a number.
fn numbered(alloc: Global, words: &[u8], number: u32) -> Result<Bytes, NoMemory>
    ensures { IfOk result (λ text. text ≡ lines.line (words.now ++ decimal number)) }
{
    let mut text = copied(alloc, words)?;
    text.push_all(Buffer::new().format(number).as_bytes())?;
    text.push_all(b"\n")?;
    Ok(text)
}
