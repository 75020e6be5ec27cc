//! A report from its text.

ghost use Rattle.std.specs.Prelude.{◌≡◌, ◌+◌, ◌-◌, ◌<◌, ◌≤◌, ◌^◌, ◌==◌, ◌∷◌, ◌++◌, ℕ, [], List, length, map, Some, None, OnOk, IfOk, IfErr};
ghost use Rattle.raid_base.specs.Names.{has_site};
ghost use Rattle.raid_report.specs.Known.{places, held_at};
ghost use Rattle.raid_base.specs.declared.report.Report.{Report};
ghost use Rattle.raid_report.specs.Drafts.{opening};
ghost use Rattle.raid_report.specs.Beginnings.{IsTextOf, IsGiven, IsRefusal};
ghost use Rattle.raid_report.specs.Outcome.{ended, outcome_of, Answers, refusal_of};

use crate::draft::{Draft, Place};
use crate::error::LineError;
use crate::known::Known;
use crate::lines::take_line;
use raid_base::{CopyList, Entries, Item, Listed, NoMemory, Pairs, Report, Site, TxnList};
use raid_pieces::next_line;
use raid_workload::{ItemLine, Workload};
use std::alloc::Global;
use thiserror::Error;

/// Why a text is not read.
#[derive(Clone, Copy, Debug, PartialEq, Eq, Error)]
pub enum ReportRefused {
    /// Memory was refused.
    #[error("no memory")]
    NoMemory,
    /// The text is no report's print. The line, counted from 1, is the first that doesn't fit, or one past
    /// the last where all fit.
    #[error("line {0} doesn't fit")]
    Line(u32),
}

impl From<NoMemory> for ReportRefused {
    ghost use Rattle.raid_report.specs.declared.reading.ReportRefused.TheVariants as refusals;

    ghost from_gives = { λ _ e. e ≡ refusals.NoMemory };

    fn from(_: NoMemory) -> ReportRefused {
        ReportRefused::NoMemory
    }
}

type Places = Listed<(Site, Item)>;

fn is_held(line: &ItemLine, site: Site) -> bool
    requires least { 1 ≤ site.0 }
    requires most { site.0 ≤ 8 }
    ensures { result ≡ has_site line.now.holders site }
{
    line.holders.contains(site)
}

/// Adds the places of the copies at a site.
fn push_places(slots: &mut Places, workload: &Workload, site: Site) -> Result<(), NoMemory>
    requires least { 1 ≤ site.0 }
    requires most { site.0 ≤ 8 }
    ensures { OnOk result (slots.new ≡ slots.old ++ map (λ x. (site, x)) (held_at workload.now site)) }
{
    let mut place = 0;
    for line in workload.items.as_slice() {
        if is_held(line, site) {
            slots.push((site, Item(place)))?;
        }
        place += 1;
    }
    Ok(())
}

/// The places of all copies, by site, then item.
fn places(alloc: Global, workload: &Workload) -> Result<Places, NoMemory>
    ensures { IfOk result (λ p. p ≡ places workload.now) }
{
    let mut slots = Places::new(alloc);
    for before in 0..workload.sites {
        push_places(&mut slots, workload, Site(before + 1))?;
    }
    Ok(slots)
}

fn opening(alloc: Global) -> Draft
    ensures { result ≡ opening }
{
    Draft {
        place: Place::Start,
        entries: Entries::new(alloc),
        order: TxnList::new(alloc),
        finals: Pairs::new(alloc),
        copies: CopyList::new(alloc),
    }
}

fn refusal(number: u32, error: LineError) -> ReportRefused
    ensures { result ≡ refusal_of number error }
{
    match error {
        LineError::Memory => ReportRefused::NoMemory,
        LineError::Unfit => ReportRefused::Line(number),
    }
}

#[tactic(auto, unfolding(crate::specs::Outcome::ended))]
fn finish(draft: Draft, number: u32, rest: &[u8]) -> Result<Report, ReportRefused>
    ensures { Answers result (ended number draft (length rest.now == 0)) }
{
    if !rest.is_empty() || !matches!(draft.place, Place::Over) {
        return Err(ReportRefused::Line(number));
    }
    Ok(Report {
        entries: draft.entries,
        order: draft.order,
        finals: draft.finals,
        copies: draft.copies,
    })
}

/// What the readers of the lines make of a text.
fn read_lines(alloc: Global, workload: &Workload, text: &[u8]) -> Result<Report, ReportRefused>
    requires { length text.now < 2 ^ 32 - 1 }
    ensures { Answers result (outcome_of workload.now text.now) }
{
    let known = Known::new(alloc, workload)?;
    let slots = places(alloc, workload)?;
    let mut draft = opening(alloc);
    let mut number = 1;
    let mut rest = text;
    while let Some((line, after)) = next_line(rest) {
        if let Err(error) = take_line(alloc, &known, slots.as_slice(), &mut draft, line) {
            return Err(refusal(number, error));
        }
        number += 1;
        rest = after;
    }
    finish(draft, number, rest)
}

/// The report whose text this is, for a report of the workload. The text has to be as [`print`](crate::print)
/// gives it, to the byte.
pub fn parse(alloc: Global, workload: &Workload, text: &[u8]) -> Result<Report, ReportRefused>
    requires { length text.now < 2 ^ 32 - 1 }
    // What is given is a report of the workload, and the text is its print.
    ensures reads { IfOk result (IsTextOf workload.now text.now) }
    // The report whose text it is, is given, unless memory is refused.
    ensures only { (r : Report) → IsTextOf workload.now text.now r → IsGiven r result }
    // A refusal of the text names the first line that doesn't fit.
    ensures refused { IfErr result (IsRefusal workload.now text.now) }
{
    read_lines(alloc, workload, text)
}
