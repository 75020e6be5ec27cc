//! Questions that take two tables to answer.

ghost use Rattle.std.specs.Prelude.{◌≡◌, ◌&&◌, not, nat_lt, false, List, slice_index};
ghost use Rattle.std.specs.List.{list_any};
ghost use Rattle.raid_base.specs.declared.entry.Noted.{Noted};
ghost use Rattle.raid_rules.specs.History.{has_ended};
ghost use Rattle.raid_rules.specs.Verdicts as verdicts;
ghost use Rattle.raid_rules.specs.Views as views;
ghost use Rattle.raid_tables.specs.Running.{KnowsRunning};
ghost use Rattle.raid_tables.specs.Commits.{KnowsCommits};

use crate::commits::Commits;
use crate::running::{Running, Seen};
use raid_base::Txn;

/// Whether an item was written with a larger number than that of its Read.
fn any_overwritten(reads: &[Seen], commits: &Commits) -> bool
    ensures { result ≡ list_any (λ s. nat_lt s.number (slice_index commits.now.numbers.items s.item.0)) reads.now }
{
    reads
        .iter()
        .any(|seen| seen.number < commits.last(seen.item))
}

/// Whether an item was written with a number above the limit.
fn any_past(reads: &[Seen], commits: &Commits, limit: u32) -> bool
    ensures { result ≡ list_any (λ s. nat_lt limit (slice_index commits.now.numbers.items s.item.0)) reads.now }
{
    reads.iter().any(|seen| limit < commits.last(seen.item))
}

/// Whether the transaction, not ended, has read what another has overwritten since.
pub fn is_backward(running: &Running, commits: &Commits, txn: Txn) -> bool
    ensures { (view : List Noted) → KnowsRunning running.now view → KnowsCommits commits.now view → result ≡ (not (has_ended view txn) && views.is_backward view txn) }
{
    !running.has_ended(txn) && any_overwritten(running.reads(txn), commits)
}

/// Whether an item that the transaction, not ended, has read was written since its Begin, or ever where the view has none of it.
pub fn is_invalid(running: &Running, commits: &Commits, txn: Txn) -> bool
    ensures { (view : List Noted) → KnowsRunning running.now view → KnowsCommits commits.now view → has_ended view txn ≡ false → result ≡ verdicts.is_invalid view txn }
{
    any_past(running.reads(txn), commits, running.began(txn))
}
