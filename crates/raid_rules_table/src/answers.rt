//! A view with its questions, and how many answers of the plain program differ.

ghost use Rattle.std.specs.Prelude.{◌≤◌};

use anyhow::{Result, bail};
use raid_base::{
    Ask, Duplicate, Entry, Kind, Listed, Noted, Placement, Refusal, Site, Txn, Verdict,
};
use raid_conflict::Graph;
use raid_rules::order::{Order, order_of};
use raid_rules::{conflict, judge, note, sessions};
use raid_view_lines::entries;
use raid_view_lines::words::{self, Head, Word};
use std::alloc::Global;

/// The kinds, in the order in which a line has their verdicts.
const KINDS: [Kind; 4] = [Kind::Lock, Kind::Stamp, Kind::Valid, Kind::Graph];

/// What has been heard of a view.
#[derive(Drop)]
pub struct Table {
    /// The view's number.
    pub view: u32,
    sites: u8,
    placement: Placement,
    entries: Listed<Noted>,
    /// The verdicts of all asks, a letter each: grant, wait, late, invalid or cycle.
    pub verdicts: String,
    /// How many other answers were compared.
    pub more: u32,
    /// How many answers differ.
    pub differ: u32,
    ghost few: { sites ≤ 8 },
}

/// The letter of a verdict.
fn letter(verdict: Verdict) -> char {
    match verdict {
        Verdict::Grant => 'g',
        Verdict::Wait => 'w',
        Verdict::Reject(Refusal::Late) => 'l',
        Verdict::Reject(Refusal::Invalid) => 'i',
        Verdict::Reject(Refusal::Cycle) => 'c',
    }
}

impl Table {
    pub fn new(alloc: Global) -> Table {
        Table {
            view: 0,
            sites: 0,
            placement: Listed::new(alloc),
            entries: Listed::new(alloc),
            verdicts: String::new(alloc),
            more: 0,
            differ: 0,
        }
    }

    /// Begins a view.
    fn begin(&mut self, alloc: Global, line: &[Word]) -> Result<()> {
        let view = words::number(line, 1)?;
        let site = words::site(line, 2)?;
        let mut table = Table::new(alloc);
        table.view = view;
        table.sites = site.0;
        *self = table;
        Ok(())
    }

    /// Counts an answer, and whether it differs.
    fn compare(&mut self, same: bool) {
        self.more = self.more.saturating_add(1);
        if !same {
            self.differ = self.differ.saturating_add(1);
        }
    }

    /// Compares the verdict of a kind on an ask.
    fn judge(&mut self, alloc: Global, kind: Kind, ask: &Ask, wanted: Verdict) -> Result<()> {
        let verdict = judge::verdict(alloc, kind, self.entries.as_slice(), ask)?;
        self.verdicts.push(letter(verdict))?;
        if verdict != wanted {
            self.differ = self.differ.saturating_add(1);
        }
        Ok(())
    }

    /// Compares the verdicts on an ask with those that stand from a place of the line on: those of all kinds, or of one that is named.
    fn ask(&mut self, alloc: Global, ask: &Ask, line: &[Word], place: usize) -> Result<()> {
        self.verdicts.push(' ')?;
        if let Some(kind) = named_kind(line, place) {
            let wanted = words::verdict(line, place.saturating_add(1))?;
            return self.judge(alloc, kind, ask, wanted);
        }
        for (k, kind) in KINDS.iter().enumerate() {
            let wanted = words::verdict(line, place.saturating_add(k))?;
            self.judge(alloc, *kind, ask, wanted)?;
        }
        Ok(())
    }

    /// Compares the verdicts on a read.
    fn ask_read(&mut self, alloc: Global, line: &[Word]) -> Result<()> {
        let ask = Ask::Read {
            txn: words::txn(line, 1)?,
            stamp: words::number(line, 2)?,
            item: words::item(line, 3)?,
        };
        self.ask(alloc, &ask, line, 4)
    }

    /// Compares the verdicts on a commit.
    fn ask_commit(&mut self, alloc: Global, line: &[Word]) -> Result<()> {
        let txn = words::txn(line, 1)?;
        let stamp = words::number(line, 2)?;
        let reads = Listed::new(alloc);
        let from = if named_kind(line, 3).is_some() { 5 } else { 7 };
        let writes = entries::pairs(alloc, line, from, line.len())?;
        let ask = Ask::Commit {
            txn,
            stamp,
            reads: &reads,
            writes: &writes,
        };
        self.ask(alloc, &ask, line, 3)
    }

    /// Compares who blocks whom.
    fn blocks(&mut self, alloc: Global, line: &[Word]) -> Result<()> {
        let reader = words::txn(line, 1)?;
        let writer = words::txn(line, 2)?;
        let wanted = words::answer(line, 3)?;
        let writes = entries::pairs(alloc, line, 4, line.len())?;
        let blocks = judge::blocks(self.entries.as_slice(), reader, writer, writes.as_slice());
        self.compare(blocks == wanted);
        Ok(())
    }

    /// Compares who is backward.
    fn backward(&mut self, line: &[Word]) -> Result<()> {
        let backward = judge::is_backward(self.entries.as_slice(), words::txn(line, 1)?);
        self.compare(backward == words::answer(line, 2)?);
        Ok(())
    }

    /// Compares the vector.
    fn vector(&mut self, line: &[Word]) -> Result<()> {
        let vector = sessions::vector(self.sites, self.entries.as_slice());
        for number in 1..=self.sites {
            let wanted = words::number(line, usize::from(number))?;
            self.compare(vector.session(Site(number)) == wanted);
        }
        Ok(())
    }

    /// Compares what a site owes.
    fn owes(&mut self, line: &[Word]) -> Result<()> {
        let site = words::site(line, 1)?;
        let owes = sessions::owes(self.entries.as_slice(), site, words::txn(line, 2)?);
        self.compare(owes == words::answer(line, 3)?);
        Ok(())
    }

    /// Compares whether a copy is locked.
    fn locked(&mut self, line: &[Word]) -> Result<()> {
        let site = words::site(line, 1)?;
        let item = words::item(line, 2)?;
        let locked = sessions::is_locked(&self.placement, self.entries.as_slice(), site, item);
        self.compare(locked == words::answer(line, 3)?);
        Ok(())
    }

    /// Compares where an item is read.
    fn source(&mut self, line: &[Word]) -> Result<()> {
        let item = words::item(line, 1)?;
        let home = words::site(line, 2)?;
        let source = sessions::source_for(
            &self.placement,
            self.sites,
            self.entries.as_slice(),
            item,
            home,
        );
        let number = match source {
            Some(site) => u32::from(site.0),
            None => 0,
        };
        self.compare(number == words::number(line, 3)?);
        Ok(())
    }

    /// Compares the order, the plain program's and the conflict graph's: the serial order, or that there is a cycle.
    fn order(&mut self, alloc: Global, line: &[Word], cyclic: bool) -> Result<()> {
        let plain = order_of(alloc, self.entries.as_slice())?;
        self.compare(is_so(&plain, line, cyclic)?);
        let graph = graph_order(alloc, self.entries.as_slice())?;
        self.compare(is_so(&graph, line, cyclic)?);
        Ok(())
    }

    /// Compares whether the conflicts lead from one transaction to another.
    fn leads(&mut self, alloc: Global, line: &[Word]) -> Result<()> {
        let (from, to) = (words::txn(line, 1)?, words::txn(line, 2)?);
        let edges = conflict::edges(alloc, self.entries.as_slice())?;
        let leads = conflict::leads(alloc, edges.as_slice(), from, to)?;
        self.compare(leads == words::answer(line, 3)?);
        Ok(())
    }

    /// Compares the numbers and stamps of the entries with those that they have as a whole history.
    fn noted(&mut self, alloc: Global) -> Result<()> {
        let view = self.entries.as_slice();
        let mut entries = Listed::new(alloc);
        for noted in view {
            entries.push(noted.entry.copy(alloc)?)?;
        }
        if entries.len() > 1_000_000 {
            bail!("too many entries");
        }
        let whole = note::noted(alloc, entries.as_slice())?;
        let mut same = true;
        for (noted, again) in view.iter().zip(whole.as_slice()) {
            same = same && noted.at == again.at && noted.stamp == again.stamp;
            if let Entry::Begin { txn, .. } = &noted.entry {
                same = same && note::stamp(view, *txn) == noted.at;
            }
        }
        self.compare(same);
        Ok(())
    }

    /// Takes a line, and answers what it says.
    pub fn hear(&mut self, alloc: Global, line: &[Word]) -> Result<Head> {
        let head = words::line_head(line)?;
        match head {
            Head::View => self.begin(alloc, line)?,
            Head::Holders => self.placement.push(entries::sites(line, 1)?)?,
            Head::Entry => self.entries.push(entries::noted(alloc, line)?)?,
            Head::AskRead => self.ask_read(alloc, line)?,
            Head::AskCommit => self.ask_commit(alloc, line)?,
            Head::Blocks => self.blocks(alloc, line)?,
            Head::Backward => self.backward(line)?,
            Head::Vector => self.vector(line)?,
            Head::Owes => self.owes(line)?,
            Head::Locked => self.locked(line)?,
            Head::Source => self.source(line)?,
            Head::Order => self.order(alloc, line, false)?,
            Head::Cyclic => self.order(alloc, line, true)?,
            Head::Leads => self.leads(alloc, line)?,
            Head::Noted => self.noted(alloc)?,
            Head::Carried | Head::Suffix | Head::Due => bail!("no line of such a view"),
            Head::End => {}
        }
        Ok(head)
    }
}

/// The order that the conflict graph tells, once it was told of the entries.
fn graph_order(alloc: Global, entries: &[Noted]) -> Result<Order> {
    let mut graph = Graph::new(alloc, 0, 0)?;
    for noted in entries {
        graph.note(noted.at, noted.stamp, &noted.entry)?;
    }
    Ok(graph.order(alloc)?)
}

/// The kind that stands at a place, if one does.
fn named_kind(line: &[Word], place: usize) -> Option<Kind> {
    match line.get(place) {
        Some(Word::Kind(kind)) => Some(*kind),
        _ => None,
    }
}

/// Whether the order is what the line says.
fn is_so(order: &Order, line: &[Word], cyclic: bool) -> Result<bool> {
    match order {
        Order::Whole(order) => Ok(!cyclic && is_listed_so(order.as_slice(), line)?),
        Order::Cyclic(cycle) => Ok(cyclic && is_cycle_so(cycle.as_slice(), line)?),
    }
}

/// Whether the line names no transaction of the cycle, or all of them.
fn is_cycle_so(cycle: &[Txn], line: &[Word]) -> Result<bool> {
    if line.len() == 1 {
        return Ok(true);
    }
    let mut same = cycle.len().saturating_add(1) == line.len();
    for place in 1..line.len() {
        same = same && conflict::is_listed(cycle, words::txn(line, place)?);
    }
    Ok(same)
}

/// Whether the line lists these transactions, in this order.
fn is_listed_so(order: &[Txn], line: &[Word]) -> Result<bool> {
    if order.len().saturating_add(1) != line.len() {
        return Ok(false);
    }
    for (k, txn) in order.iter().enumerate() {
        if words::txn(line, k.saturating_add(1))? != *txn {
            return Ok(false);
        }
    }
    Ok(true)
}
