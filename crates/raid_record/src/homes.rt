//! The homes of transactions, and which each home begins next.

ghost use Rattle.std.specs.Prelude.{◌≡◌, ◌≤◌, ◌<◌, ◌-◌, ◌==◌, ◌&&◌, not, true, false, List, length, slice_index, IfOk, if◌then◌else◌};
ghost use Rattle.std.specs.Option.{option_map_or};
ghost use Rattle.raid_base.specs.declared.names.Site.{Site};
ghost use Rattle.raid_base.specs.declared.entry.Entry.TheVariants as entries;
ghost use Rattle.raid_base.specs.declared.entry.Noted.{Noted};
ghost use Rattle.raid_base.specs.Names.{is_site, is_txn, has_txn};
ghost use Rattle.raid_workload.specs.declared.workload.Workload.{Workload};
ghost use Rattle.raid_workload.specs.Parts as parts;
ghost use Rattle.raid_rules.specs.History as rules;
ghost use Rattle.raid_legal.specs.Seen as seen;
ghost use Rattle.raid_record.specs.Keeps.{next_past, AreNext};

use raid_base::{NoMemory, Site, Txn};
use raid_history::History;
use raid_workload::Workload;
use std::alloc::Global;
use std::marker::Model;

/// The home of a transaction; site 0 where the workload has no program.
pub fn home(workload: &Workload, txn: Txn) -> Site
    ensures { result ≡ parts.home workload.now txn }
{
    let programs = workload.programs.len();
    if programs == 0 {
        return Site(0);
    }
    workload
        .programs
        .get(txn.0.saturating_sub(1) as usize % programs)
        .home
}

/// Which attempt at its program a transaction is, counted from 0.
pub fn attempt(workload: &Workload, txn: Txn) -> u32
    ensures { result ≡ seen.attempt workload.now txn }
{
    let programs = workload.programs.len();
    if programs == 0 {
        return 0;
    }
    (txn.0.saturating_sub(1) as usize / programs) as u32
}

/// Whether the transaction is one of the workload's.
pub fn is_known(workload: &Workload, txn: Txn) -> bool
    ensures { result ≡ has_txn (parts.txns workload.now) txn }
{
    let attempts = workload.restarts as usize + 1;
    1 <= txn.0 && txn.0 as usize <= workload.programs.len() * attempts
}

/// Whether the program is one of the site's, and its transaction hasn't begun.
fn is_open(history: &History, home: Site, site: Site, txn: Txn) -> bool
    ensures { result ≡ (is_site site home && not (rules.has_begun (rules.noted history.now) txn)) }
{
    home == site && history.stamp(txn) == 0
}

/// The site's least first attempt past a number that hasn't begun; 0 where none is left. No earlier program is looked at.
fn next_past(workload: &Workload, history: &History, site: Site, after: u32) -> u32
    ensures { result ≡ next_past workload.now (rules.noted history.now) site after }
{
    for k in after as usize..workload.programs.len() {
        let txn = Txn(k as u32 + 1);
        if is_open(history, workload.programs.get(k).home, site, txn) {
            return txn.0;
        }
    }
    0
}

/// The number of the transaction that each site begins next, by site; 0 where none is left. Contracts see the list of the numbers.
#[derive(Drop, Debug)]
pub struct Nexts {
    numbers: Vec<u32>,
}

impl Model for Nexts {
    ghost use Rattle.std.specs.Prelude.{List, ℕ, ◌≡◌, length};

    ghost Value = { List ℕ };

    ghost view = { λ n. n.numbers.items };

    ghost invariant = { λ n. length n.numbers.items ≡ 8 };
}

/// What each of the eight sites begins next.
fn numbers_of(alloc: Global, workload: &Workload, history: &History) -> Result<Vec<u32>, NoMemory>
    ensures count { IfOk result (λ n. length n.items ≡ 8) }
    ensures next { IfOk result (λ n. AreNext workload.now n.items (rules.noted history.now)) }
{
    let mut numbers = Vec::new(alloc);
    for number in 1..9 {
        numbers.push(next_past(workload, history, Site(number), 0))?;
    }
    Ok(numbers)
}

/// What the home begins next once the transaction has begun, given what it began next.
fn following(workload: &Workload, history: &History, home: Site, number: u32, txn: Txn) -> u32
    ensures { result ≡ (if number == txn.0 then next_past workload.now (rules.noted history.now) home txn.0 else number) }
{
    if number == txn.0 {
        next_past(workload, history, home, txn.0)
    } else {
        number
    }
}

impl Nexts {
    /// What each site begins next after the history.
    pub fn new(alloc: Global, workload: &Workload, history: &History) -> Result<Nexts, NoMemory>
        ensures { IfOk result (λ n. AreNext workload.now n (rules.noted history.now)) }
    {
        let numbers = numbers_of(alloc, workload, history)?;
        Ok(Nexts { numbers })
    }

    /// The number of the transaction that the site begins next.
    pub fn number(&self, site: Site) -> u32
        requires least { 1 ≤ site.0 }
        requires most { site.0 ≤ 8 }
        ensures { result ≡ slice_index self.now (site.0 - 1) }
    {
        self.numbers[site.0 as usize - 1]
    }

    /// Whether the transaction is what the site begins next.
    pub fn is_next(&self, site: Site, txn: Txn) -> bool
        requires least { 1 ≤ site.0 }
        requires most { site.0 ≤ 8 }
        requires counted { 1 ≤ txn.0 }
        ensures { (w : Workload) (p : List Noted) → AreNext w self.now p → result ≡ option_map_or (is_txn txn) (seen.next_of w p site) false }
    {
        self.number(site) == txn.0
    }

    /// A transaction of the workload begins after the history: where it was what its home begins next, the one that follows is that now.
    pub fn begin(&mut self, workload: &Workload, history: &History, txn: Txn)
        requires { has_txn (parts.txns workload.now) txn ≡ true }
        ensures { (home : Site) → AreNext workload.now self.old (rules.noted history.now) → AreNext workload.now self.new (rules.add (rules.noted history.now) (entries.Begin txn home)) }
    {
        let home = home(workload, txn);
        let place = home.0 as usize - 1;
        self.numbers[place] = following(workload, history, home, self.numbers[place], txn);
    }
}
