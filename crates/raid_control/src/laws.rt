//! What holds of controllers by their trait alone.

ghost use Rattle.std.specs.Prelude.{◌≡◌, List, filter, not};
ghost use Rattle.raid_base.specs.declared.names.Txn.{Txn};
ghost use Rattle.raid_base.specs.declared.entry.Noted.{Noted};
ghost use Rattle.raid_rules.specs.Verdicts.{asked};
ghost use Rattle.raid_rules.specs.Order.{Fits, IsInOrder, is_of};
ghost use Rattle.raid_control.specs.Carried.{IsCarry, carried};

use crate::controller::Controller;
use raid_base::{Ask, Verdict};

/// The verdicts of two controllers on one ask. Where both are of one kind and stand for one view that the ask fits, they answer alike,
/// whatever their structures: a native controller and the generic state can't be told apart by their verdicts.
pub fn judge_alike(
    first: &mut dyn Controller,
    second: &mut dyn Controller,
    ask: &Ask,
) -> (Verdict, Verdict)
    requires kind { kind_of first.old ≡ kind_of second.old }
    ensures alike { (view : List Noted) → stands first.old view → stands second.old view → Fits view (asked ask.now) → result.0 ≡ result.1 }
    ensures first { (view : List Noted) → stands first.old view → stands first.new view }
    ensures second { (view : List Noted) → stands second.old view → stands second.new view }
{
    (first.judge(ask), second.judge(ask))
}

/// What is carried from a view in order may be carried: it is in order itself, and stays so without one transaction's entries.
pub fn kept_are_a_carry()
    ensures carried { (view : List Noted) → IsInOrder view → IsCarry (carried view) }
    ensures without { (c : List Noted) (t : Txn) → IsCarry c → IsCarry (filter (λ n. not (is_of t n.entry)) c) }
{}
