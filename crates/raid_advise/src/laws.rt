//! Laws of advice.

ghost use Rattle.std.specs.Prelude.{ℕ, List, IsTrue};
ghost use Rattle.raid_base.specs.declared.entry.Entry.{Entry};
ghost use Rattle.raid_workload.specs.declared.workload.Switch.{Switch};
ghost use Rattle.raid_workload.specs.declared.workload.Workload.{Workload};
ghost use Rattle.raid_legal.specs.Legal.{Legal};
ghost use Rattle.raid_advise.specs.Added.{may_be_added, ReadsWith};
ghost use Rattle.raid_advise.specs.Advice.{Advises};

use raid_text::print_reads;

/// After a legal history of a workload, the switch that is advised may be added to it; and the workload with
/// that switch reads, as it is written, as itself.
pub fn advised_switches_may_be_added()
    ensures added { (w : Workload) (h : List Entry) (last : ℕ) (s : Switch) →
        Legal w h → Advises w h last s → IsTrue (may_be_added w s) }
    ensures read { (w : Workload) (h : List Entry) (last : ℕ) (s : Switch) →
        Legal w h → Advises w h last s → ReadsWith w s }
{
    print_reads();
}
