ghost use Rattle.std.specs.Prelude.{◌≡◌, ◌==◌, ◌<◌, ◌≤◌, ◌&&◌, ◌||◌, not, ℕ, [], ◌∷◌, ◌++◌, filter, map, length, vec_len, vec_capacity, slice_index_or, IfOk, OnOk, OnErr, if◌then◌else◌};
ghost use Rattle.raid_base.specs.declared.names.Txn.{Txn};
ghost use Rattle.raid_base.specs.declared.names.Site.{Site};
ghost use Rattle.raid_base.specs.declared.entry.Entry.TheVariants as entries;
ghost use Rattle.raid_base.specs.Names.{is_txn, is_site, has_txn, has_site};
ghost use Rattle.raid_faillock.specs.Sets.{has_at};
ghost use Rattle.raid_faillock.specs.Debts.{owes_in, AreListed, DebtsTurn, DebtsAlike};

use raid_base::{Item, Listed, NoMemory, Request, Site, Sites, Txn};
use raid_session::{union, without};
use std::alloc::Global;

/// What is owed, by the transactions' numbers: which sites owe an acknowledgement, and which items were written. `unpaid` lists the
/// transactions of which a site owes one.
///
/// What a transaction wrote is kept when all have acknowledged it, since a list of entries may have it commit again.
#[derive(Drop, Debug)]
pub struct Debts {
    pub owed: Vec<Sites>,
    pub wrote: Vec<Listed<Item>>,
    pub unpaid: Vec<Txn>,
}

/// The set at a place of a table, empty past the end.
pub fn sites_at(table: &[Sites], place: usize) -> Sites
    ensures { result ≡ slice_index_or table.now place [] }
{
    if place < table.len() {
        table[place]
    } else {
        Sites::none()
    }
}

/// Makes a place in a table of sets, which is empty where it is new. After want of memory too the table says what it said.
fn grow_sets(table: &mut Vec<Sites>, place: usize) -> Result<(), NoMemory>
    ensures ok { OnOk result (place < vec_len table.new) }
    ensures same { (k : ℕ) → slice_index_or table.new.items k [] ≡ slice_index_or table.old.items k [] }
{
    while table.len() <= place {
        table.push(Sites::none())?;
    }
    Ok(())
}

/// Makes a place in a table of lists, which is empty where it is new. After want of memory too the table says what it said.
fn grow_lists(alloc: Global, table: &mut Vec<Listed<Item>>, place: usize) -> Result<(), NoMemory>
    ensures ok { OnOk result (place < vec_len table.new) }
    ensures same { (k : ℕ) → slice_index_or table.new.items k [] ≡ slice_index_or table.old.items k [] }
{
    while table.len() <= place {
        table.push(Listed::new(alloc))?;
    }
    Ok(())
}

/// Adds the items.
fn push_items(list: &mut Listed<Item>, items: &[Item]) -> Result<(), NoMemory>
    ensures { OnOk result (list.new ≡ list.old ++ items.now) }
{
    for item in items {
        list.push(*item)?;
    }
    Ok(())
}

/// Adds the items of the writes.
fn push_written(list: &mut Listed<Item>, writes: &[(Item, i64)]) -> Result<(), NoMemory>
    ensures { OnOk result (list.new ≡ list.old ++ map (λ p. p.0) writes.now) }
{
    for (item, _) in writes {
        list.push(*item)?;
    }
    Ok(())
}

/// The items, and those of the writes.
fn with_written(
    alloc: Global,
    items: &[Item],
    writes: &[(Item, i64)],
) -> Result<Listed<Item>, NoMemory>
    ensures { IfOk result (λ list. list ≡ items.now ++ map (λ p. p.0) writes.now) }
{
    let mut list = Listed::new(alloc);
    push_items(&mut list, items)?;
    push_written(&mut list, writes)?;
    Ok(list)
}

/// These sites owe the transaction's acknowledgement, too.
fn owe(owed: &mut Vec<Sites>, txn: Txn, applied: Sites)
    requires { txn.0 < vec_len owed.old }
    ensures { (s : Site) (t : Txn) → 1 ≤ s.0 → s.0 ≤ 8 → has_at owed.new.items t.0 s ≡ (has_at owed.old.items t.0 s || (is_txn t txn && has_site applied s)) }
{
    let place = txn.0 as usize;
    owed[place] = union(sites_at(owed.as_slice(), place), applied);
}

/// The site no longer owes the transaction's acknowledgement.
fn pay(owed: &mut Vec<Sites>, txn: Txn, site: Site)
    requires least { 1 ≤ site.0 }
    requires most { site.0 ≤ 8 }
    ensures { (s : Site) (t : Txn) → has_at owed.new.items t.0 s ≡ (has_at owed.old.items t.0 s && not (is_txn t txn && is_site s site)) }
{
    let place = txn.0 as usize;
    if place < owed.len() {
        owed[place] = without(sites_at(owed.as_slice(), place), site);
    }
}

/// The site no longer owes the acknowledgement of any of the transactions.
fn pay_all(owed: &mut Vec<Sites>, txns: &[Txn], site: Site)
    requires least { 1 ≤ site.0 }
    requires most { site.0 ≤ 8 }
    ensures { (s : Site) (t : Txn) → has_at owed.new.items t.0 s ≡ (has_at owed.old.items t.0 s && not (has_txn txns.now t && is_site s site)) }
{
    for txn in txns {
        pay(owed, *txn, site);
    }
}

/// Lists the transaction, where it was applied anywhere.
fn list(unpaid: &mut Vec<Txn>, txn: Txn, applied: Sites)
    requires { vec_len unpaid.old < vec_capacity unpaid.old }
    ensures { unpaid.new.items ≡ (if length applied == 0 then unpaid.old.items else unpaid.old.items ++ txn ∷ []) }
{
    if !applied.is_empty() {
        unpaid.push_reserved(txn);
    }
}

/// Takes out the transactions of which no site owes an acknowledgement.
fn forget(unpaid: &mut Vec<Txn>, owed: &[Sites])
    ensures { unpaid.new.items ≡ filter (λ t. not (length (slice_index_or owed.now t.0 []) == 0)) unpaid.old.items }
{
    unpaid.retain(|txn| !sites_at(owed, txn.0 as usize).is_empty());
}

impl Debts {
    /// Nothing is owed.
    pub fn new(alloc: Global) -> Debts
        ensures owed { result.owed.items ≡ [] }
        ensures wrote { result.wrote.items ≡ [] }
        ensures unpaid { result.unpaid.items ≡ [] }
    {
        Debts {
            owed: Vec::new(alloc),
            wrote: Vec::new(alloc),
            unpaid: Vec::new(alloc),
        }
    }

    /// Whether the site owes the transaction's acknowledgement.
    pub fn owes(&self, site: Site, txn: Txn) -> bool
        requires least { 1 ≤ site.0 }
        requires most { site.0 ≤ 8 }
        ensures { result ≡ owes_in self.now site txn }
    {
        sites_at(self.owed.as_slice(), txn.0 as usize).contains(site)
    }

    /// The items that the transaction's Commits wrote.
    pub fn items_of(&self, txn: Txn) -> &[Item]
        ensures { result.now ≡ slice_index_or self.now.wrote.items txn.0 [] }
    {
        let place = txn.0 as usize;
        if place < self.wrote.len() {
            self.wrote[place].as_slice()
        } else {
            &[]
        }
    }

    /// The transaction's writes were applied at these sites. After want of memory the tables say what they said.
    pub fn commit(
        &mut self,
        alloc: Global,
        txn: Txn,
        request: &Request,
        applied: Sites,
    ) -> Result<(), NoMemory>
        requires { AreListed self.old }
        ensures ok { OnOk result (DebtsTurn self.old self.new (entries.Commit txn request.now applied)) }
        ensures err { OnErr result (DebtsAlike self.old self.new) }
    {
        let place = txn.0 as usize;
        grow_sets(&mut self.owed, place)?;
        grow_lists(alloc, &mut self.wrote, place)?;
        self.unpaid.reserve(1)?;
        let wrote = with_written(alloc, self.items_of(txn), request.writes.as_slice())?;
        self.wrote[place] = wrote;
        owe(&mut self.owed, txn, applied);
        list(&mut self.unpaid, txn, applied);
        Ok(())
    }

    /// The site acknowledges the transaction's writes.
    pub fn ack(&mut self, txn: Txn, site: Site)
        requires listed { AreListed self.old }
        requires least { 1 ≤ site.0 }
        requires most { site.0 ≤ 8 }
        ensures { DebtsTurn self.old self.new (entries.Ack txn site) }
    {
        pay(&mut self.owed, txn, site);
        forget(&mut self.unpaid, self.owed.as_slice());
    }

    /// The site is down, and owes nothing.
    pub fn down(&mut self, site: Site)
        requires listed { AreListed self.old }
        requires least { 1 ≤ site.0 }
        requires most { site.0 ≤ 8 }
        ensures { DebtsTurn self.old self.new (entries.Down site) }
    {
        pay_all(&mut self.owed, self.unpaid.as_slice(), site);
        forget(&mut self.unpaid, self.owed.as_slice());
    }
}
