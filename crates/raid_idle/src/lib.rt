//! That every run in which no letter is left is finished, and so its report is sound.
//!
//! Whatever was to be done had a letter on its way that would bring it, or was lost with a site. So where no letter is left nothing is left to do.
//! The laws below it say so of what programs ask, of votes, of reads, of copies, of Acks and of what may begin. The functions do nothing: each is a
//! law, and its contract says it.
#![tactic(auto)]

ghost use Rattle.std.specs.Prelude.{◌≡◌, true, List};
ghost use Rattle.raid_workload.specs.declared.workload.Workload.{Workload};
ghost use Rattle.raid_message.specs.declared.letter.Pick.{Pick};
ghost use Rattle.raid_steps.specs.World.{run, report, is_idle};
ghost use Rattle.raid_legal.specs.Sound.{Sound};
ghost use Rattle.raid_legal.specs.Switched.{Finished};

/// Where no letter is left on any link, the run is finished: nobody runs or waits, each transaction has begun or needn't, no copy at an up site could
/// be renewed, and no site owes an Ack.
pub fn idle_runs_are_finished()
    ensures { (w : Workload) (schedule : List Pick) → is_idle (run w schedule) ≡ true → Finished w (report w (run w schedule).servers).entries }
{}

/// And so its report is sound.
pub fn idle_runs_are_sound()
    ensures { (w : Workload) (schedule : List Pick) → is_idle (run w schedule) ≡ true → Sound w (report w (run w schedule).servers) }
{}
