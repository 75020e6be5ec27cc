//! The edges of the conflict graph, and where its paths lead.

ghost use Rattle.std.specs.Prelude.{◌≡◌, [], ◌∷◌, ◌++◌, true, not, filter, map, OnOk, IfOk};
ghost use Rattle.raid_base.specs.Names.{has_txn};
ghost use Rattle.raid_rules.specs.History.{has_aborted};
ghost use Rattle.raid_rules.specs.Conflict as words;
ghost use Rattle.raid_rules.specs.Verdicts as verdicts;

use crate::note;
use raid_base::{Ask, Entry, Item, Listed, NoMemory, Noted, Txn, TxnList};
use std::alloc::Global;

/// An action: a read at its Read, a write at its transaction's Commit. `at` is the entry's number, `by` the
/// transaction, and `writes` tells a write from a read.
#[derive(Clone, Copy, Debug, PartialEq, Eq)]
pub struct Action {
    pub at: u64,
    pub by: Txn,
    pub item: Item,
    pub writes: bool,
}

/// Edges, each from its first transaction to its second.
pub type Pairs = Listed<(Txn, Txn)>;

/// Adds a write of each of the items. What it holds after want of memory is not said.
fn push_writes(
    actions: &mut Listed<Action>,
    at: u64,
    by: Txn,
    writes: &[(Item, i64)],
) -> Result<(), NoMemory>
    ensures { OnOk result (actions.new ≡ actions.old ++ map (λ p. record { at = at; by = by; item = p.0; writes = true }) writes.now) }
{
    for (item, _) in writes {
        actions.push(Action {
            at,
            by,
            item: *item,
            writes: true,
        })?;
    }
    Ok(())
}

/// Adds the writes of a transaction's Commit, none where it is aborted in the view.
fn push_commit(
    actions: &mut Listed<Action>,
    view: &[Noted],
    at: u64,
    by: Txn,
    writes: &[(Item, i64)],
) -> Result<(), NoMemory>
    ensures { OnOk result (actions.new ≡ actions.old ++ filter (λ a. not (has_aborted view.now a.by)) (map (λ p. record { at = at; by = by; item = p.0; writes = true }) writes.now)) }
{
    if note::has_aborted(view, by) {
        Ok(())
    } else {
        push_writes(actions, at, by, writes)
    }
}

/// Adds the actions of an entry, none where its transaction is aborted in the view.
fn push_actions(actions: &mut Listed<Action>, view: &[Noted], noted: &Noted) -> Result<(), NoMemory>
    ensures { OnOk result (actions.new ≡ actions.old ++ filter (λ a. not (has_aborted view.now a.by)) (words.acts noted.now noted.now.entry)) }
{
    let at = u64::from(noted.at);
    match &noted.entry {
        Entry::Read { txn, item, .. } => {
            if note::has_aborted(view, *txn) {
                Ok(())
            } else {
                actions.push(Action {
                    at,
                    by: *txn,
                    item: *item,
                    writes: false,
                })
            }
        }
        Entry::Commit { txn, request, .. } => {
            push_commit(actions, view, at, *txn, request.writes.as_slice())
        }
        _ => Ok(()),
    }
}

/// The actions of the transactions that aren't aborted, in order.
pub fn actions(alloc: Global, view: &[Noted]) -> Result<Listed<Action>, NoMemory>
    ensures { IfOk result (λ all. all ≡ words.actions view.now) }
{
    let mut actions = Listed::new(alloc);
    for noted in view {
        push_actions(&mut actions, view, noted)?;
    }
    Ok(actions)
}

/// The largest number in the view, 0 where it is empty.
pub fn last_number(view: &[Noted]) -> u32
    ensures { result ≡ verdicts.last_number view.now }
{
    let mut last = 0;
    for noted in view {
        last = noted.at.max(last);
    }
    last
}

/// Adds the action that is asked, none where its transaction is aborted in the view.
fn push_asked(
    actions: &mut Listed<Action>,
    view: &[Noted],
    at: u64,
    ask: &Ask,
) -> Result<(), NoMemory>
    ensures { OnOk result (actions.new ≡ actions.old ++ filter (λ a. not (has_aborted view.now a.by)) (words.acts (verdicts.as_noted at (verdicts.asked ask.now)) (verdicts.as_entry (verdicts.asked ask.now)))) }
{
    match ask {
        Ask::Read { txn, item, .. } => {
            if note::has_aborted(view, *txn) {
                Ok(())
            } else {
                actions.push(Action {
                    at,
                    by: *txn,
                    item: *item,
                    writes: false,
                })
            }
        }
        Ask::Commit { txn, writes, .. } => push_commit(actions, view, at, *txn, writes.as_slice()),
    }
}

/// The actions of a view with the asked action as its last.
fn actions_with(alloc: Global, view: &[Noted], ask: &Ask) -> Result<Listed<Action>, NoMemory>
    ensures { IfOk result (λ all. all ≡ words.actions (verdicts.with_action view.now (verdicts.asked ask.now))) }
{
    let mut actions = actions(alloc, view)?;
    push_asked(&mut actions, view, u64::from(last_number(view)) + 1, ask)?;
    Ok(actions)
}

/// Whether the first action stands before the second and conflicts with it: they are on one item, by two
/// transactions, and one of them is a write.
pub fn precedes(first: &Action, second: &Action) -> bool
    ensures { result ≡ words.precedes first.now second.now }
{
    first.at < second.at
        && first.item == second.item
        && (first.writes || second.writes)
        && first.by != second.by
}

/// Adds the edges that start at one action.
fn push_edges(edges: &mut Pairs, first: &Action, actions: &[Action]) -> Result<(), NoMemory>
    ensures { OnOk result (edges.new ≡ edges.old ++ map (λ b. (first.now.by, b.by)) (filter (words.precedes first.now) actions.now)) }
{
    for second in actions {
        if precedes(first, second) {
            edges.push((first.by, second.by))?;
        }
    }
    Ok(())
}

/// The edges among actions, one for each two that conflict.
pub fn edges_among(alloc: Global, actions: &[Action]) -> Result<Pairs, NoMemory>
    ensures { IfOk result (λ es. es ≡ words.edges_among actions.now) }
{
    let mut edges = Listed::new(alloc);
    for first in actions {
        push_edges(&mut edges, first, actions)?;
    }
    Ok(edges)
}

/// The edges of a view.
pub fn edges(alloc: Global, view: &[Noted]) -> Result<Pairs, NoMemory>
    ensures { IfOk result (λ es. es ≡ words.edges view.now) }
{
    let actions = actions(alloc, view)?;
    edges_among(alloc, actions.as_slice())
}

/// The transaction that asks.
fn asker(ask: &Ask) -> Txn
    ensures { result ≡ verdicts.asker (verdicts.asked ask.now) }
{
    match ask {
        Ask::Read { txn, .. } => *txn,
        Ask::Commit { txn, .. } => *txn,
    }
}

/// Whether the edges have a cycle through the asking transaction once its action is the view's last.
pub fn closes_cycle(alloc: Global, view: &[Noted], ask: &Ask) -> Result<bool, NoMemory>
    ensures { IfOk result (λ b. b ≡ verdicts.closes_cycle view.now (verdicts.asked ask.now)) }
{
    let actions = actions_with(alloc, view, ask)?;
    let edges = edges_among(alloc, actions.as_slice())?;
    leads(alloc, edges.as_slice(), asker(ask), asker(ask))
}

/// Whether the transaction is in the list.
pub fn is_listed(listed: &[Txn], txn: Txn) -> bool
    ensures { result ≡ has_txn listed.now txn }
{
    listed.iter().any(|other| *other == txn)
}

/// Where the edges from a transaction and from the found ones lead.
fn targets(
    alloc: Global,
    pairs: &[(Txn, Txn)],
    txn: Txn,
    found: &[Txn],
) -> Result<TxnList, NoMemory>
    ensures { IfOk result (λ ts. ts ≡ words.targets pairs.now (txn ∷ found.now)) }
{
    let mut targets = Listed::new(alloc);
    for (from, to) in pairs {
        if *from == txn || is_listed(found, *from) {
            targets.push(*to)?;
        }
    }
    Ok(targets)
}

/// The transactions that one reaches by a path of edges, by as many rounds as there are edges.
pub fn reached(alloc: Global, pairs: &[(Txn, Txn)], txn: Txn) -> Result<TxnList, NoMemory>
    ensures { IfOk result (λ ts. ts ≡ words.reached pairs.now txn) }
{
    let mut found = Listed::new(alloc);
    for _round in pairs {
        found = targets(alloc, pairs, txn, found.as_slice())?;
    }
    Ok(found)
}

/// Whether a path of edges leads from one transaction to another.
pub fn leads(alloc: Global, pairs: &[(Txn, Txn)], from: Txn, to: Txn) -> Result<bool, NoMemory>
    ensures { IfOk result (λ b. b ≡ words.leads pairs.now from to) }
{
    let found = reached(alloc, pairs, from)?;
    Ok(is_listed(found.as_slice(), to))
}
