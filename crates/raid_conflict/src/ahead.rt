ghost use Rattle.std.specs.Prelude.{◌≡◌, true, ◌&&◌, ◌<◌};
ghost use Rattle.std.specs.List.{list_any};
ghost use Rattle.raid_conflict.specs.Arrange as words;
ghost use Rattle.raid_conflict.specs.Found.{is_marked};
ghost use Rattle.raid_conflict.specs.Tables.{chain_at};

use crate::tables::Tables;
use raid_base::Txn;
use raid_rules::conflict::{self, Action};

/// Whether the transaction is marked.
pub fn is_left(left: &[bool], txn: Txn) -> bool
    ensures { result ≡ is_marked left.now txn }
{
    match left.get(txn.0 as usize) {
        Some(mark) => *mark,
        None => false,
    }
}

/// Whether another action stands before one and conflicts with it, and its transaction is left and isn't aborted.
fn is_ahead(tables: &Tables, left: &[bool], action: &Action, other: &Action) -> bool
    ensures { result ≡ words.is_ahead tables.now left.now action.now other.now }
{
    conflict::precedes(other, action) && !tables.mark(other.by).aborted && is_left(left, other.by)
}

/// Whether one of the actions does so. Those of a chain ascend by number: the first that stands no longer before it
/// ends the look.
fn any_ahead(tables: &Tables, left: &[bool], action: &Action, others: &[Action]) -> bool
    ensures { result ≡ list_any (words.is_ahead tables.now left.now action.now) (words.earliest action.now.at others.now) }
{
    others
        .iter()
        .take_while(|other| other.at < action.at)
        .any(|other| is_ahead(tables, left, action, other))
}

/// Whether one of the actions on its item does so.
fn is_behind(tables: &Tables, left: &[bool], action: &Action) -> bool
    ensures { result ≡ words.is_behind tables.now left.now action.now }
{
    match tables.items.get(action.item.0 as usize) {
        Some(chain) => any_ahead(tables, left, action, chain.actions.as_slice()),
        None => false,
    }
}

/// Whether this is so of one of the actions.
fn any_behind(tables: &Tables, left: &[bool], actions: &[Action]) -> bool
    ensures { result ≡ list_any (words.is_behind tables.now left.now) actions.now }
{
    actions.iter().any(|action| is_behind(tables, left, action))
}

/// Whether an edge from one that is left leads to the transaction.
pub fn waits(tables: &Tables, left: &[bool], txn: Txn) -> bool
    ensures { result ≡ words.waits tables.now left.now txn }
{
    if tables.mark(txn).aborted {
        return false;
    }
    match tables.own.get(txn.0 as usize) {
        Some(chain) => any_behind(tables, left, chain.actions.as_slice()),
        None => false,
    }
}

/// The transaction of the first of the actions that stands before one, conflicts with it, and is left.
fn first_ahead(tables: &Tables, left: &[bool], action: &Action, others: &[Action]) -> Txn
    requires { list_any (words.is_ahead tables.now left.now action.now) others.now ≡ true }
    ensures ahead { words.is_ahead_of tables.now left.now result action.now others.now ≡ true }
    ensures left { is_marked left.now result ≡ true }
{
    for other in others {
        if is_ahead(tables, left, action, other) {
            return other.by;
        }
    }
    unreachable!()
}

/// The transaction of the first on its item that does so.
fn first_on(tables: &Tables, left: &[bool], action: &Action) -> Txn
    requires { list_any (words.is_ahead tables.now left.now action.now) (chain_at tables.now.items.items action.now.item.0) ≡ true }
    ensures ahead { words.is_ahead_of tables.now left.now result action.now (chain_at tables.now.items.items action.now.item.0) ≡ true }
    ensures left { is_marked left.now result ≡ true }
{
    match tables.items.get(action.item.0 as usize) {
        Some(chain) => first_ahead(tables, left, action, chain.actions.as_slice()),
        None => unreachable!(),
    }
}

/// The first transaction that is left and from which an edge leads to these actions.
#[tactic(auto, using(crate::proofs::Earliest::any_earliest))]
fn first_behind(tables: &Tables, left: &[bool], actions: &[Action]) -> Txn
    requires { list_any (words.is_behind tables.now left.now) actions.now ≡ true }
    ensures kept { words.is_kept_by tables.now left.now result actions.now ≡ true }
    ensures left { is_marked left.now result ≡ true }
{
    for action in actions {
        if is_behind(tables, left, action) {
            return first_on(tables, left, action);
        }
    }
    unreachable!()
}

/// The first transaction that is left and from which an edge leads to this one, which is left too.
pub fn waited_for(tables: &Tables, left: &[bool], txn: Txn) -> Txn
    requires waits { words.waits tables.now left.now txn ≡ true }
    requires left { is_marked left.now txn ≡ true }
    ensures joined { words.Joined tables.now left.now result txn }
{
    match tables.own.get(txn.0 as usize) {
        Some(chain) => first_behind(tables, left, chain.actions.as_slice()),
        None => unreachable!(),
    }
}
