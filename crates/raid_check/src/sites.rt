//! Stops and returns that are due.

ghost use Rattle.std.specs.Prelude.{◌≡◌, ◌+◌, ◌&&◌, not, nat_le, List, count_by, if◌then◌else◌};
ghost use Rattle.raid_base.specs.Names.{is_site};
ghost use Rattle.raid_base.specs.declared.entry.Noted.{Noted};
ghost use Rattle.raid_workload.specs.declared.workload.Event.{Event};
ghost use Rattle.raid_rules.specs.History as rules;
ghost use Rattle.raid_legal.specs.Legal as words;
ghost use Rattle.raid_faillock.specs.Stands.{is_of_sites};

use raid_base::Site;
use raid_workload::{Event, Workload};

/// Whether the event is such a one of the site, and has had its trigger.
fn is_due(event: Event, stop: bool, site: Site, ends: u32) -> bool
    ensures { result ≡ (is_site site event.site && (if event.stop then stop else not stop) && nat_le event.trigger ends) }
{
    event.site == site && event.stop == stop && event.trigger <= ends
}

/// How many of the events are.
fn count_due(events: &[Event], stop: bool, site: Site, ends: u32) -> usize
    ensures { result ≡ count_by (λ (e : Event). is_site site e.site && (if e.stop then stop else not stop) && nat_le e.trigger ends) events.now }
{
    let mut count = 0;
    for event in events {
        if is_due(*event, stop, site, ends) {
            count += 1;
        }
    }
    count
}

/// How many of the workload's stops of the site, or else of its returns, have had their trigger once so many transactions have ended.
pub fn due(workload: &Workload, stop: bool, site: Site, ends: u32) -> usize
    ensures { (p : List Noted) → ends ≡ rules.ends p → result ≡ words.due workload.now p stop site }
{
    count_due(workload.events.as_slice(), stop, site, ends)
}

/// Whether the site is one of the workload's.
pub fn has_site(workload: &Workload, site: Site) -> bool
    ensures { result ≡ is_of_sites workload.now.sites site }
{
    1 <= site.0 && site.0 <= workload.sites
}
