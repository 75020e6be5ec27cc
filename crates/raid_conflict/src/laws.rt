//! Laws of the graph's definitions. Each is the contract of a function with an empty body, which proves it.

ghost use Rattle.std.specs.Prelude.{◌≡◌, true, false, List};
ghost use Rattle.raid_base.specs.declared.names.Txn.{Txn};
ghost use Rattle.raid_base.specs.declared.entry.Noted.{Noted};
ghost use Rattle.raid_base.specs.declared.verdict.Kind.{Kind};
ghost use Rattle.raid_rules.specs.History.{has_ended};
ghost use Rattle.raid_rules.specs.Last.{acts_by};
ghost use Rattle.raid_rules.specs.Order.{MayNote, Follows};
ghost use Rattle.raid_conflict.specs.Listed.{Extends};

/// What a controller may note after a view, the graph may note too; and so it is with an entry that follows in
/// a whole history, if who reads or commits there has not ended.
pub fn entries_extend()
    ensures noted { (kind : Kind) (view : List Noted) (n : Noted) → MayNote kind view n → Extends view n }
    ensures follows { (view : List Noted) (n : Noted) → Follows view n → ((t : Txn) → acts_by t n.entry ≡ true → has_ended view t ≡ false) → Extends view n }
{}
