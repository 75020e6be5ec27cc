//! The summary of a report.

ghost use Rattle.std.specs.Prelude.{◌≡◌, ◌+ℤ◌, ◌∷◌, ◌++◌, FitsSigned, IfOk, OnOk};
ghost use Rattle.std.specs.Fmt.{decimal};
ghost use Rattle.std.specs.Int.{w64, w128};
ghost use Rattle.raid_report.specs.Brief.{is_end, ends, total, counts_words, total_words, summary_words, brief_of};
ghost use Rattle.raid_report.specs.Spelling.{spaced, line_text};

use crate::put::put_word;
use itoa::Buffer;
use raid_base::{Bytes, Entry, Item, NoMemory, Report};
use raid_workload::Workload;
use std::alloc::Global;

fn is_end(entry: &Entry) -> bool
    ensures { result ≡ is_end entry.now }
{
    matches!(entry, Entry::Commit { .. } | Entry::Abort { .. })
}

/// How many transactions have ended.
fn ends(entries: &[Entry]) -> usize
    ensures { result ≡ ends entries.now }
{
    let mut ended = 0;
    for entry in entries {
        ended += usize::from(is_end(entry));
    }
    ended
}

fn value_of(pair: &(Item, i64)) -> i64
    ensures value { result ≡ pair.now.1 }
    ensures fits { FitsSigned w64 result }
{
    pair.1
}

fn plus(total: i128, value: i64) -> i128
    requires { FitsSigned w128 (total +ℤ value) }
    ensures sum { result ≡ total +ℤ value }
    ensures fits { FitsSigned w128 result }
{
    total + i128::from(value)
}

/// The sum of the values. It fits, since a list has fewer than 2^64 values of 64 bits.
fn total(finals: &[(Item, i64)]) -> i128
    ensures { result ≡ total finals.now }
{
    let mut total = 0;
    for pair in finals {
        total = plus(total, value_of(pair));
    }
    total
}

fn put_count(out: &mut Bytes, n: usize) -> Result<(), NoMemory>
    ensures { OnOk result (out.new ≡ out.old ++ (32 ∷ decimal n)) }
{
    put_word(out, Buffer::new().format(n).as_bytes())
}

fn put_total(out: &mut Bytes, n: i128) -> Result<(), NoMemory>
    ensures { OnOk result (out.new ≡ out.old ++ spaced (total_words n)) }
{
    put_word(out, b"total")?;
    put_word(out, Buffer::new().format(n).as_bytes())
}

fn put_counts(out: &mut Bytes, programs: usize, ended: usize) -> Result<(), NoMemory>
    ensures { OnOk result (out.new ≡ out.old ++ spaced (counts_words programs ended)) }
{
    put_count(out, programs)?;
    put_word(out, b"ended")?;
    put_count(out, ended)
}

fn put_summary(out: &mut Bytes, programs: usize, ended: usize, total: i128) -> Result<(), NoMemory>
    ensures { OnOk result (out.new ≡ out.old ++ line_text (summary_words programs ended total)) }
{
    out.push_all(b"transactions")?;
    put_counts(out, programs, ended)?;
    put_total(out, total)?;
    out.push(b'\n')
}

/// The summary of a report: how many transactions the workload has, how many have ended, and the sum of the
/// final values. Want of memory is the only error.
pub fn brief(alloc: Global, workload: &Workload, report: &Report) -> Result<Bytes, NoMemory>
    ensures { IfOk result (λ text. text ≡ brief_of workload.now report.now) }
{
    let mut out = Bytes::new(alloc);
    let ended = ends(report.entries.as_slice());
    let total = total(report.finals.as_slice());
    put_summary(&mut out, workload.programs.len(), ended, total)?;
    Ok(out)
}
