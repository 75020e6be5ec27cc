ghost use Rattle.std.specs.Prelude.{◌≡◌, ◌≤◌, ◌<◌, ◌-◌, ◌||◌, ◌↔◌, ℕ, true, [], vec_len, length, slice_index_or};
ghost use Rattle.std.specs.Bool.{OnTrue, OnFalse};
ghost use Rattle.raid_base.specs.declared.names.Txn.{Txn};
ghost use Rattle.raid_base.specs.Names.{has_txn};
ghost use Rattle.raid_rules.specs.declared.conflict.Action.{Action};
ghost use Rattle.raid_rules.specs.Conflict.{Path};
ghost use Rattle.raid_conflict.specs.Found.{Longer};
ghost use Rattle.raid_conflict.specs.Live.{Reached, Within};
ghost use Rattle.raid_conflict.specs.Search as words;
ghost use Rattle.raid_conflict.specs.Tables.{chain_at, chains_against};

use crate::found::Found;
use crate::tables::Tables;
use raid_base::Txn;
use raid_rules::conflict::{self, Action};

/// Whether the second action stands after the first and conflicts with it, and its transaction has a place and
/// isn't aborted.
fn is_against(tables: &Tables, action: &Action, other: &Action) -> bool
    ensures { result ≡ words.is_against tables.now action.now other.now }
{
    conflict::precedes(action, other)
        && !tables.mark(other.by).aborted
        && (other.by.0 as usize) < tables.own.len()
}

/// Finds the transactions of those of the actions that stand after one, and conflict with it.
fn find_after(tables: &Tables, found: &mut Found, action: &Action, others: &[Action])
    requires { vec_len tables.now.own ≤ found.old.1 }
    ensures found { (v : Txn) → has_txn found.new.0 v ≡ (has_txn found.old.0 v || words.is_after tables.now action.now others.now v) }
    ensures longer { Longer found.old.0 found.new.0 }
    ensures places { found.new.1 ≡ found.old.1 }
{
    for other in others {
        if is_against(tables, action, other) {
            found.add(other.by);
        }
    }
}

/// Whether the action before this place has a larger number, if there is one.
fn is_later(actions: &[Action], place: usize, at: u64) -> bool
    requires { place ≤ length actions.now }
    ensures some { OnTrue result (0 < place) }
    ensures yes { OnTrue result ((d : Action) → at < (slice_index_or actions.now (place - 1) d).at) }
    ensures no { OnFalse result ((d : Action) → 0 < place → (slice_index_or actions.now (place - 1) d).at ≤ at) }
{
    place > 0 && actions[place - 1].at > at
}

/// The actions at the end that all have larger numbers. Where numbers ascend, no others do, and the rest of a long
/// chain is not looked at.
fn latest(actions: &[Action], at: u64) -> &[Action]
    ensures { result.now ≡ words.latest at actions.now }
{
    let mut start = actions.len();
    while is_later(actions, start, at) {
        start -= 1;
    }
    &actions[start..]
}

/// Finds the transactions to which an action leads. Each action that is looked at stands after it and, unless it is
/// of the same transaction, conflicts with it. So it belongs to that transaction, to one that is found here, or to one
/// that is aborted, whose reads stay in the chains and are passed over. One action before those ends the look.
fn find_from(tables: &Tables, found: &mut Found, action: &Action)
    requires { vec_len tables.now.own ≤ found.old.1 }
    ensures found { (v : Txn) → has_txn found.new.0 v ≡ (has_txn found.old.0 v || words.is_after tables.now action.now (words.latest action.now.at (chain_at (chains_against tables.now action.now) action.now.item.0)) v) }
    ensures longer { Longer found.old.0 found.new.0 }
    ensures places { found.new.1 ≡ found.old.1 }
{
    match tables.chains_against(action).get(action.item.0 as usize) {
        Some(chain) => {
            find_after(
                tables,
                found,
                action,
                latest(chain.actions.as_slice(), action.at),
            )
        }
        None => {}
    }
}

/// Finds the transactions to which the actions lead.
fn find_all(tables: &Tables, found: &mut Found, actions: &[Action])
    requires { vec_len tables.now.own ≤ found.old.1 }
    ensures found { (v : Txn) → has_txn found.new.0 v ≡ (has_txn found.old.0 v || words.leads_on tables.now actions.now v) }
    ensures longer { Longer found.old.0 found.new.0 }
    ensures places { found.new.1 ≡ found.old.1 }
{
    for action in actions {
        find_from(tables, found, action);
    }
}

/// Finds the transactions to which edges from one lead.
fn step(tables: &Tables, found: &mut Found, txn: Txn)
    requires { vec_len tables.now.own ≤ found.old.1 }
    ensures found { (v : Txn) → has_txn found.new.0 v ≡ (has_txn found.old.0 v || words.is_step tables.now txn v) }
    ensures longer { Longer found.old.0 found.new.0 }
    ensures places { found.new.1 ≡ found.old.1 }
{
    if tables.mark(txn).aborted {
        return;
    }
    match tables.own.get(txn.0 as usize) {
        Some(chain) => find_all(tables, found, chain.actions.as_slice()),
        None => {}
    }
}

/// Finds the transactions that one reaches, by paths of one step or more.
pub fn reach(tables: &Tables, found: &mut Found, from: Txn)
    requires empty { found.old.0 ≡ [] }
    requires places { vec_len tables.now.own ≤ found.old.1 }
    ensures reached { (v : Txn) → (has_txn found.new.0 v ≡ true) ↔ Path (words.Step tables.now) from v }
    ensures places { found.new.1 ≡ found.old.1 }
{
    step(tables, found, from);
    let mut next = 0;
    while next < found.len() {
        let txn = found.get(next);
        step(tables, found, txn);
        next += 1;
    }
}

/// Finds the transactions.
fn find_each(found: &mut Found, txns: &[Txn])
    requires { Within found.old.1 txns.now }
    ensures found { (v : Txn) → has_txn found.new.0 v ≡ (has_txn found.old.0 v || has_txn txns.now v) }
    ensures places { found.new.1 ≡ found.old.1 }
{
    for txn in txns {
        found.add(*txn);
    }
}

/// Finds the transactions and all that they reach.
pub fn reach_all(tables: &Tables, found: &mut Found, from: &[Txn])
    requires empty { found.old.0 ≡ [] }
    requires places { vec_len tables.now.own ≤ found.old.1 }
    requires within { Within found.old.1 from.now }
    ensures reached { (v : Txn) → (has_txn found.new.0 v ≡ true) ↔ Reached tables.now from.now v }
    ensures places { found.new.1 ≡ found.old.1 }
{
    find_each(found, from);
    let mut next = 0;
    while next < found.len() {
        let reached = found.get(next);
        step(tables, found, reached);
        next += 1;
    }
}
