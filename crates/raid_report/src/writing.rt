//! The lines of a report, one after another.

ghost use Rattle.std.specs.Prelude.{◌≡◌, ◌+◌, ◌-◌, ◌<◌, ◌≤◌, ◌^◌, ℕ, List, [], ◌∷◌, ◌++◌, length, map, codes, OnOk, IfOk};
ghost use Rattle.std.specs.Fmt.{decimal};
ghost use Rattle.std.specs.List.{AllByRecursion};
ghost use Rattle.raid_report.specs.Known.{KnowsTxn, KnowsItem, KnowsPair, KnowsCopy, KnowsRequest, KnowsAct, IsActOf, IsEntryOf, IsReportOf};
ghost use Rattle.raid_report.specs.Spelling.{request_words, act_words, cause_words, entry_words, entry_lines, txns_words, order_words, final_words, copy_words, spelling, spaced, line_text, text_of, print_of};

use crate::put::{
    kind_word, method_word, put_digits, put_name, put_number, put_pairs, put_set, put_site,
    put_txn, put_value, put_vector, put_word,
};
use raid_base::{
    Act, Bytes, Cause, CopyLine, Entry, Item, Kind, Method, NoMemory, Report, Request, Site, Sites,
    Txn,
};
use raid_workload::Workload;
use std::alloc::Global;

fn put_request(out: &mut Bytes, workload: &Workload, request: &Request) -> Result<(), NoMemory>
    requires { KnowsRequest workload.now request.now }
    ensures { OnOk result (out.new ≡ out.old ++ spaced (request_words workload.now request.now)) }
{
    put_word(out, b"reads")?;
    put_pairs(out, workload, &request.reads)?;
    put_word(out, b"writes")?;
    put_pairs(out, workload, &request.writes)?;
    put_word(out, b"under")?;
    put_vector(out, request.under)
}

fn put_cause(out: &mut Bytes, cause: &Cause) -> Result<(), NoMemory>
    ensures { OnOk result (out.new ≡ out.old ++ spaced (cause_words cause.now)) }
{
    match cause {
        Cause::Own => put_word(out, b"own"),
        Cause::Overflow => put_word(out, b"overflow"),
        Cause::Late => put_word(out, b"late"),
        Cause::Invalid => put_word(out, b"invalid"),
        Cause::Cycle => put_word(out, b"cycle"),
        Cause::Deadlock => put_word(out, b"deadlock"),
        Cause::SwitchOff(switch) => {
            put_word(out, b"switchoff")?;
            put_number(out, u32::from(*switch))
        }
        Cause::HomeDown => put_word(out, b"homedown"),
        Cause::Stale(vector) => {
            put_word(out, b"stale")?;
            put_vector(out, *vector)
        }
        Cause::NoCopy => put_word(out, b"nocopy"),
    }
}

fn put_act(out: &mut Bytes, workload: &Workload, act: &Act) -> Result<(), NoMemory>
    requires { KnowsAct workload.now act.now }
    ensures { OnOk result (out.new ≡ out.old ++ spaced (act_words workload.now act.now)) }
{
    match act {
        Act::Nothing => Ok(()),
        Act::Ended(reads) => {
            put_word(out, b"reads")?;
            put_pairs(out, workload, reads)
        }
        Act::Read(item) => {
            put_word(out, b"read")?;
            put_name(out, workload, *item)
        }
        Act::Commit(request) => {
            put_word(out, b"commit")?;
            put_request(out, workload, request)
        }
    }
}

fn put_begin(out: &mut Bytes, workload: &Workload, txn: Txn, home: Site) -> Result<(), NoMemory>
    requires { KnowsTxn workload.now txn }
    ensures { OnOk result (out.new ≡ out.old ++ spaced (entry_words workload.now (Entry.Begin txn home))) }
{
    put_word(out, b"begin")?;
    put_txn(out, workload, txn)?;
    put_word(out, b"at")?;
    put_site(out, home)
}

fn put_read(
    out: &mut Bytes,
    workload: &Workload,
    txn: Txn,
    item: Item,
    site: Site,
) -> Result<(), NoMemory>
    requires txn { KnowsTxn workload.now txn }
    requires item { KnowsItem workload.now item }
    ensures { OnOk result (out.new ≡ out.old ++ spaced (entry_words workload.now (Entry.Read txn item site))) }
{
    put_word(out, b"read")?;
    put_txn(out, workload, txn)?;
    put_name(out, workload, item)?;
    put_word(out, b"at")?;
    put_site(out, site)
}

fn put_wait(
    out: &mut Bytes,
    workload: &Workload,
    txn: Txn,
    request: &Request,
) -> Result<(), NoMemory>
    requires txn { KnowsTxn workload.now txn }
    requires request { KnowsRequest workload.now request.now }
    ensures { OnOk result (out.new ≡ out.old ++ spaced (entry_words workload.now (Entry.Wait txn request.now))) }
{
    put_word(out, b"wait")?;
    put_txn(out, workload, txn)?;
    put_request(out, workload, request)
}

fn put_commit(
    out: &mut Bytes,
    workload: &Workload,
    txn: Txn,
    request: &Request,
    applied: Sites,
) -> Result<(), NoMemory>
    requires txn { KnowsTxn workload.now txn }
    requires request { KnowsRequest workload.now request.now }
    ensures { OnOk result (out.new ≡ out.old ++ spaced (entry_words workload.now (Entry.Commit txn request.now applied))) }
{
    put_word(out, b"commit")?;
    put_txn(out, workload, txn)?;
    put_request(out, workload, request)?;
    put_word(out, b"applied")?;
    put_set(out, applied)
}

fn put_abort(
    out: &mut Bytes,
    workload: &Workload,
    txn: Txn,
    cause: &Cause,
    act: &Act,
) -> Result<(), NoMemory>
    requires txn { KnowsTxn workload.now txn }
    requires act { IsActOf workload.now cause.now act.now }
    ensures { OnOk result (out.new ≡ out.old ++ spaced (entry_words workload.now (Entry.Abort txn cause.now act.now))) }
{
    put_word(out, b"abort")?;
    put_txn(out, workload, txn)?;
    put_cause(out, cause)?;
    put_act(out, workload, act)
}

fn put_ack(out: &mut Bytes, workload: &Workload, txn: Txn, site: Site) -> Result<(), NoMemory>
    requires { KnowsTxn workload.now txn }
    ensures { OnOk result (out.new ≡ out.old ++ spaced (entry_words workload.now (Entry.Ack txn site))) }
{
    put_word(out, b"ack")?;
    put_txn(out, workload, txn)?;
    put_site(out, site)
}

fn put_switch_on(
    out: &mut Bytes,
    workload: &Workload,
    switch: u8,
    kind: Kind,
    method: Method,
) -> Result<(), NoMemory>
    ensures { OnOk result (out.new ≡ out.old ++ spaced (entry_words workload.now (Entry.SwitchOn switch kind method))) }
{
    put_word(out, b"switchon")?;
    put_number(out, u32::from(switch))?;
    put_word(out, kind_word(kind))?;
    put_word(out, method_word(method))
}

fn put_switch_end(out: &mut Bytes, workload: &Workload, switch: u8) -> Result<(), NoMemory>
    ensures { OnOk result (out.new ≡ out.old ++ spaced (entry_words workload.now (Entry.SwitchEnd switch))) }
{
    put_word(out, b"switchend")?;
    put_number(out, u32::from(switch))
}

fn put_down(out: &mut Bytes, workload: &Workload, site: Site) -> Result<(), NoMemory>
    ensures { OnOk result (out.new ≡ out.old ++ spaced (entry_words workload.now (Entry.Down site))) }
{
    put_word(out, b"down")?;
    put_site(out, site)
}

fn put_up(out: &mut Bytes, workload: &Workload, site: Site, session: u32) -> Result<(), NoMemory>
    ensures { OnOk result (out.new ≡ out.old ++ spaced (entry_words workload.now (Entry.Up site session))) }
{
    put_word(out, b"up")?;
    put_site(out, site)?;
    put_word(out, b"session")?;
    put_number(out, session)
}

fn put_clear(
    out: &mut Bytes,
    workload: &Workload,
    site: Site,
    item: Item,
    version: u32,
) -> Result<(), NoMemory>
    requires { KnowsItem workload.now item }
    ensures { OnOk result (out.new ≡ out.old ++ spaced (entry_words workload.now (Entry.Clear site item version))) }
{
    put_word(out, b"clear")?;
    put_site(out, site)?;
    put_name(out, workload, item)?;
    put_word(out, b"at")?;
    put_number(out, version)
}

fn put_entry(out: &mut Bytes, workload: &Workload, entry: &Entry) -> Result<(), NoMemory>
    requires { IsEntryOf workload.now entry.now }
    ensures { OnOk result (out.new ≡ out.old ++ spaced (entry_words workload.now entry.now)) }
{
    match entry {
        Entry::Begin { txn, home } => put_begin(out, workload, *txn, *home),
        Entry::Read { txn, item, site } => put_read(out, workload, *txn, *item, *site),
        Entry::Wait { txn, request } => put_wait(out, workload, *txn, request),
        Entry::Commit {
            txn,
            request,
            applied,
        } => put_commit(out, workload, *txn, request, *applied),
        Entry::Abort { txn, cause, act } => put_abort(out, workload, *txn, cause, act),
        Entry::Ack { txn, site } => put_ack(out, workload, *txn, *site),
        Entry::SwitchOn {
            switch,
            kind,
            method,
        } => put_switch_on(out, workload, *switch, *kind, *method),
        Entry::SwitchEnd { switch } => put_switch_end(out, workload, *switch),
        Entry::Down { site } => put_down(out, workload, *site),
        Entry::Up { site, session } => put_up(out, workload, *site, *session),
        Entry::Clear {
            site,
            item,
            version,
        } => put_clear(out, workload, *site, *item, *version),
    }
}

fn entry_line(
    out: &mut Bytes,
    workload: &Workload,
    number: u32,
    entry: &Entry,
) -> Result<(), NoMemory>
    requires { IsEntryOf workload.now entry.now }
    ensures { OnOk result (out.new ≡ out.old ++ line_text (decimal number ∷ entry_words workload.now entry.now)) }
{
    put_digits(out, number)?;
    put_entry(out, workload, entry)?;
    out.push(b'\n')
}

fn put_entries(out: &mut Bytes, workload: &Workload, entries: &[Entry]) -> Result<(), NoMemory>
    requires few { length entries.now < 2 ^ 32 - 1 }
    requires known { AllByRecursion (IsEntryOf workload.now) entries.now }
    ensures { OnOk result (out.new ≡ out.old ++ text_of (entry_lines workload.now 1 entries.now)) }
{
    let mut number = 1;
    for entry in entries {
        entry_line(out, workload, number, entry)?;
        number += 1;
    }
    Ok(())
}

fn put_txns(out: &mut Bytes, workload: &Workload, txns: &[Txn]) -> Result<(), NoMemory>
    requires { AllByRecursion (KnowsTxn workload.now) txns.now }
    ensures { OnOk result (out.new ≡ out.old ++ spaced (txns_words workload.now txns.now)) }
{
    if txns.is_empty() {
        return put_word(out, b"-");
    }
    for txn in txns {
        put_txn(out, workload, *txn)?;
    }
    Ok(())
}

fn order_line(out: &mut Bytes, workload: &Workload, order: &[Txn]) -> Result<(), NoMemory>
    requires { AllByRecursion (KnowsTxn workload.now) order.now }
    ensures { OnOk result (out.new ≡ out.old ++ line_text (order_words workload.now order.now)) }
{
    out.push_all(b"order")?;
    put_txns(out, workload, order)?;
    out.push(b'\n')
}

fn final_line(out: &mut Bytes, workload: &Workload, item: Item, value: i64) -> Result<(), NoMemory>
    requires { KnowsItem workload.now item }
    ensures { OnOk result (out.new ≡ out.old ++ line_text (final_words workload.now (item, value))) }
{
    out.push_all(b"final")?;
    put_name(out, workload, item)?;
    put_value(out, value)?;
    out.push(b'\n')
}

fn put_finals(out: &mut Bytes, workload: &Workload, finals: &[(Item, i64)]) -> Result<(), NoMemory>
    requires { AllByRecursion (KnowsPair workload.now) finals.now }
    ensures { OnOk result (out.new ≡ out.old ++ text_of (map (final_words workload.now) finals.now)) }
{
    for (item, value) in finals {
        final_line(out, workload, *item, *value)?;
    }
    Ok(())
}

fn copy_line(out: &mut Bytes, workload: &Workload, copy: CopyLine) -> Result<(), NoMemory>
    requires { KnowsItem workload.now copy.item }
    ensures { OnOk result (out.new ≡ out.old ++ line_text (copy_words workload.now copy)) }
{
    out.push_all(b"copy")?;
    put_site(out, copy.site)?;
    put_name(out, workload, copy.item)?;
    put_value(out, copy.value)?;
    put_number(out, copy.version)?;
    out.push(b'\n')
}

fn put_copies(out: &mut Bytes, workload: &Workload, copies: &[CopyLine]) -> Result<(), NoMemory>
    requires { AllByRecursion (KnowsCopy workload.now) copies.now }
    ensures { OnOk result (out.new ≡ out.old ++ text_of (map (copy_words workload.now) copies.now)) }
{
    for copy in copies {
        copy_line(out, workload, *copy)?;
    }
    Ok(())
}

fn first_line(out: &mut Bytes, workload: &Workload) -> Result<(), NoMemory>
    ensures { OnOk result (out.new ≡ out.old ++ line_text (codes "report" ∷ decimal workload.now.version ∷ [])) }
{
    out.push_all(b"report")?;
    put_number(out, u32::from(workload.version))?;
    out.push(b'\n')
}

fn put_report(out: &mut Bytes, workload: &Workload, report: &Report) -> Result<(), NoMemory>
    requires few { length report.now.entries < 2 ^ 32 - 1 }
    requires report { IsReportOf workload.now report.now }
    ensures { OnOk result (out.new ≡ out.old ++ print_of workload.now report.now) }
{
    first_line(out, workload)?;
    put_entries(out, workload, report.entries.as_slice())?;
    order_line(out, workload, report.order.as_slice())?;
    put_finals(out, workload, report.finals.as_slice())?;
    put_copies(out, workload, report.copies.as_slice())?;
    out.push_all(b"done\n")
}

/// The text of a report. Want of memory is the only error.
pub fn print(alloc: Global, workload: &Workload, report: &Report) -> Result<Bytes, NoMemory>
    requires few { length report.now.entries < 2 ^ 32 - 1 }
    requires report { IsReportOf workload.now report.now }
    ensures { IfOk result (λ text. text ≡ print_of workload.now report.now) }
{
    let mut out = Bytes::new(alloc);
    put_report(&mut out, workload, report)?;
    Ok(out)
}
