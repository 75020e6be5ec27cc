//! The homes of transactions, and whether they are up.

ghost use Rattle.std.specs.Prelude.{◌≡◌, ◌≤◌, true};
ghost use Rattle.std.specs.List.{list_all};
ghost use Rattle.raid_base.specs.Names.{has_txn};
ghost use Rattle.raid_workload.specs.Parts as parts;
ghost use Rattle.raid_rules.specs.Sessions as rules;

use raid_base::{Site, Txn, Vector};
use raid_workload::Workload;

/// The home of a transaction; site 0 where the workload has no program.
pub fn home(workload: &Workload, txn: Txn) -> Site
    ensures { result ≡ parts.home workload.now txn }
{
    let programs = workload.programs.len();
    if programs == 0 {
        return Site(0);
    }
    workload
        .programs
        .get(txn.0.saturating_sub(1) as usize % programs)
        .home
}

/// Whether the transaction is one of the workload's.
pub fn is_known(workload: &Workload, txn: Txn) -> bool
    ensures { result ≡ has_txn (parts.txns workload.now) txn }
{
    let attempts = workload.restarts as usize + 1;
    1 <= txn.0 && txn.0 as usize <= workload.programs.len() * attempts
}

/// The home of a transaction of the workload, which is one of the eight sites that there can be.
pub fn known_home(workload: &Workload, txn: Txn) -> Site
    requires { has_txn (parts.txns workload.now) txn ≡ true }
    ensures is { result ≡ parts.home workload.now txn }
    ensures least { 1 ≤ result.0 }
    ensures most { result.0 ≤ 8 }
{
    home(workload, txn)
}

/// Whether a site is up in the vector. Site 0, which isn't one, is taken for site 1.
pub fn is_up(vector: Vector, site: Site) -> bool
    ensures { result ≡ rules.is_site_up vector site }
{
    vector.session(Site(site.0.max(1))) > 0
}

/// Whether each of the workload's sites is up in the vector.
#[tactic(auto, using(crate::proofs::Rules::few_sites))]
pub fn are_all_up(workload: &Workload, vector: Vector) -> bool
    ensures { result ≡ list_all (rules.is_site_up vector) (parts.sites workload.now) }
{
    for number in 1..workload.sites + 1 {
        if !is_up(vector, Site(number)) {
            return false;
        }
    }
    true
}
