//! What holds of all reports and their texts. Each law is the contract of a function that does nothing.

ghost use Rattle.std.specs.Prelude.{◌≡◌};
ghost use Rattle.raid_base.specs.declared.report.Report.{Report};
ghost use Rattle.raid_workload.specs.declared.workload.Workload.{Workload};
ghost use Rattle.raid_report.specs.Known.{IsReportOf};
ghost use Rattle.raid_report.specs.Spelling.{print_of};
ghost use Rattle.raid_report.specs.Typed.{IsHeld};

/// No two reports of a workload have one text.
pub fn print_tells_apart()
    ensures { (w : Workload) (r v : Report) → IsReportOf w r → IsHeld r → IsReportOf w v → IsHeld v → print_of w r ≡ print_of w v → r ≡ v }
{}
