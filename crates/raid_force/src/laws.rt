//! What holds of the switches to come.

ghost use Rattle.std.specs.Prelude.{◌≡◌, ℕ, ◌+◌, true, false, List};
ghost use Rattle.raid_base.specs.declared.entry.Entry.{Entry};
ghost use Rattle.raid_base.specs.declared.entry.Entry.TheVariants.{SwitchOn};
ghost use Rattle.raid_base.specs.declared.verdict.Kind.{Kind};
ghost use Rattle.raid_base.specs.declared.verdict.Method.{Method};
ghost use Rattle.raid_workload.specs.declared.workload.Workload.{Workload};
ghost use Rattle.raid_workload.specs.Rules.{is_kind, is_method_for};
ghost use Rattle.raid_rules.specs.History.{noted};
ghost use Rattle.raid_legal.specs.InForce.{in_force};
ghost use Rattle.raid_placed.specs.Placed.{Placed, Placeable};

/// A SwitchOn that may be placed has the number after that of the last one; it is to another kind than the one in force, by a method for the
/// workload's structure.
pub fn switches_go_elsewhere()
    ensures number { (w : Workload) (h : List Entry) (k : ℕ) (to : Kind) (method : Method) → Placed w h → Placeable w (noted h) (SwitchOn k to method) → k ≡ (in_force w (noted h)).switches + 1 }
    ensures other { (w : Workload) (h : List Entry) (k : ℕ) (to : Kind) (method : Method) → Placed w h → Placeable w (noted h) (SwitchOn k to method) → is_kind (in_force w (noted h)).kind to ≡ false }
    ensures fits { (w : Workload) (h : List Entry) (k : ℕ) (to : Kind) (method : Method) → Placed w h → Placeable w (noted h) (SwitchOn k to method) → is_method_for w.structure method ≡ true }
{}
