ghost use Rattle.std.specs.Prelude.{◌≡◌, []};
ghost use Rattle.raid_workload.specs.Parts as parts;
ghost use Rattle.raid_steps.specs.Programs as steps;

use raid_base::{Site, Txn};
use raid_program::Program;
use raid_workload::Workload;

/// The number of the first attempt that the site begins after the transaction with this number, 0 where none is
/// left. No earlier program is looked at.
pub fn following(workload: &Workload, site: Site, after: u32) -> u32
    ensures { result ≡ steps.following workload.now site after }
{
    for k in after as usize..workload.programs.len() {
        if workload.programs.get(k).home == site {
            return k as u32 + 1;
        }
    }
    0
}

/// The program of a transaction; the blank one where the workload has none.
pub fn program_at<'a>(workload: &'a Workload, blank: &'a Program, txn: Txn) -> &'a Program
    requires { blank.now ≡ [] }
    ensures { result.now ≡ parts.program workload.now txn }
{
    let programs = workload.programs.len();
    if programs == 0 {
        return blank;
    }
    &workload
        .programs
        .get(txn.0.saturating_sub(1) as usize % programs)
        .program
}
