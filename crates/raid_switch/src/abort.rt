ghost use Rattle.std.specs.Prelude.{◌≡◌, false, ◌&&◌, List, All, IfOk};
ghost use Rattle.raid_base.specs.declared.entry.Noted.{Noted};
ghost use Rattle.raid_rules.specs.History.{has_ended};
ghost use Rattle.raid_rules.specs.Views as words;

use crate::eras::Control;
use raid_base::{Kind, Method, NoMemory, Txn, TxnList};
use std::alloc::Global;

/// Whether a switch by this method to this kind aborts the backward transactions.
fn aborts_backward(method: Method, to: Kind) -> bool
    ensures { result ≡ words.aborts_backward method to }
{
    match method {
        Method::Generic => match to {
            Kind::Lock | Kind::Stamp => true,
            Kind::Valid | Kind::Graph => false,
        },
        Method::Convert => true,
        Method::Suffix => false,
    }
}

/// Whether the switch aborts a transaction, which hasn't ended in the view.
fn is_aborted(aborts: bool, old: &Control, txn: Txn) -> bool
    ensures { (view : List Noted) → stands old.now view → has_ended view txn ≡ false → result ≡ (aborts && words.is_backward view txn) }
{
    aborts && old.backward(txn)
}

/// Whom of the running transactions a switch by this method to this kind aborts, in their order: those that are backward over a view
/// that the old controller stands for, where such a switch aborts those. Want of memory is the only error.
pub fn abort_list(
    alloc: Global,
    method: Method,
    to: Kind,
    old: &Control,
    running: &TxnList,
) -> Result<TxnList, NoMemory>
    ensures { IfOk result (λ ts. (view : List Noted) → stands old.now view → All (λ t. has_ended view t ≡ false) running.now → ts ≡ words.abort_list method to view running.now) }
{
    let mut off = TxnList::new(alloc);
    let aborts = aborts_backward(method, to);
    for txn in running.as_slice() {
        if is_aborted(aborts, old, *txn) {
            off.push(*txn)?;
        }
    }
    Ok(off)
}
