//! Laws of the workload text.

ghost use Rattle.std.specs.Prelude.{List, ℕ, ◌≡◌, ◌⊎◌};
ghost use Rattle.raid_tokens.specs.declared.fault.Fault.{Fault};
ghost use Rattle.raid_workload.specs.declared.workload.Workload.{Workload};
ghost use Rattle.raid_text.specs.Outcome.{Reads, IsFirstFault};
ghost use Rattle.raid_text.specs.Spelling.{print_of};

/// What is written for a workload reads as that workload.
pub fn print_reads()
    ensures { (w : Workload) → Reads (print_of w) w }
{}

/// A text says one workload at most.
pub fn one_reading()
    ensures { (text : List ℕ) (v w : Workload) → Reads text v → Reads text w → v ≡ w }
{}

/// Each text says a workload, which keeps every rule by its type, or has a first fault.
pub fn one_of_both()
    ensures { (text : List ℕ) → ((w : Workload) × Reads text w) ⊎ ((line : ℕ) × (fault : Fault) × IsFirstFault text line fault) }
{}

/// No text says a workload and has a first fault.
pub fn never_both()
    ensures { (text : List ℕ) (w : Workload) (line : ℕ) (fault : Fault) → Reads text w → IsFirstFault text line fault → ⊥ }
{}
