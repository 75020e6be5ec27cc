//! How many picks are more than any run should have.
ghost use Rattle.std.specs.Prelude.{◌≡◌, ◌≤◌, ◌+◌, ◌*◌, length};
ghost use Rattle.raid_steps.specs.World as steps;

use raid_workload::Workload;

/// How often a program is taken up at most.
fn starts(workload: &Workload) -> u64
    ensures is { result ≡ (workload.now.restarts + 1) * length workload.now.programs + workload.now.together * length workload.now.events }
    ensures few { result ≤ 1000000 }
{
    let again = (u64::from(workload.restarts) + 1) * workload.programs.len() as u64;
    let lost = u64::from(workload.together) * workload.events.len() as u64;
    again + lost
}

/// How many letters one program makes at most.
fn letters(workload: &Workload) -> u64
    ensures is { result ≡ 132 + 6 * length workload.now.events + 4 * workload.now.sites }
    ensures few { result ≤ 1000 }
{
    132 + 6 * workload.events.len() as u64 + 4 * u64::from(workload.sites)
}

/// How many letters one event makes at most beside those of programs.
fn stops(workload: &Workload) -> u64
    ensures is { result ≡ length workload.now.events * (workload.now.sites + 2) }
    ensures few { result ≤ 1000 }
{
    workload.events.len() as u64 * (u64::from(workload.sites) + 2)
}

/// How many letters copies make at most.
fn renewals(workload: &Workload) -> u64
    ensures is { result ≡ 3 * workload.now.sites * length workload.now.items * length workload.now.events }
    ensures few { result ≤ 2000000 }
{
    let copies = 3 * u64::from(workload.sites) * workload.items.len() as u64;
    copies * workload.events.len() as u64
}

/// A number of picks that no run of the workload should come to. Takes no memory.
pub fn rounds(workload: &Workload) -> u64
    ensures { result ≡ steps.rounds workload.now }
{
    let made = starts(workload) * letters(workload);
    1 + u64::from(workload.sites) + made + stops(workload) + renewals(workload)
}
