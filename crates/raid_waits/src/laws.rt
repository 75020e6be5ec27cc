ghost use Rattle.std.specs.Prelude.{◌≡◌, List};
ghost use Rattle.raid_base.specs.declared.names.Txn.{Txn};
ghost use Rattle.raid_base.specs.declared.request.Request.{Request};
ghost use Rattle.raid_base.specs.declared.entry.Noted.{Noted};
ghost use Rattle.raid_workload.specs.declared.workload.Workload.{Workload};
ghost use Rattle.raid_rules.specs.History.{waiting, is_waiting};
ghost use Rattle.raid_legal.specs.Answers.{blocks, closes_waits};
ghost use Rattle.raid_waits.specs.Waiting.{is_among, closes_by};

/// Over the transactions that wait in a history, by who blocks whom there, a request closes a cycle exactly where the rules say that it
/// does.
pub fn closing_is_that_of_histories()
    ensures waits { (p : List Noted) (t : Txn) → is_among (waiting p) t ≡ is_waiting p t }
    ensures closes { (w : Workload) (p : List Noted) (t : Txn) (request : Request) → closes_by (λ u r writes. blocks w p u r writes) (waiting p) t request ≡ closes_waits w p t request }
{}
