//! A site that hears a sequence of letters.

ghost use Rattle.raid_site.specs.Server.{IsRun};

use anyhow::{Result, bail};
use raid_base::Site;
use raid_letter_lines::{Step, Words, are_alike};
use raid_site::SiteServer;
use raid_workload::Workload;

/// The most letters that a server may hear.
const MOST: u32 = 1_000_000_000;

/// Whether the site's copies are those of the words: VALUE@VERSION of each, by item.
fn has_copies(rt: &HostRuntime, server: &SiteServer, words: &mut Words) -> Result<bool> {
    for line in server.copies().copy_lines(rt.alloc())?.as_slice() {
        let copy = format!(in rt.alloc(); "{}@{}", line.value, line.version)?;
        if words.word() != copy.as_str() {
            println!(rt; "item {} has the copy {}", line.item.0, copy.as_str())?;
            return Ok(false);
        }
    }
    Ok(words.is_empty())
}

/// Whether a site is up, and its session.
pub type State = (bool, u32);

/// Whether the site is as it is wanted to be, if that is said.
fn is_in(rt: &HostRuntime, server: &SiteServer, wanted: Option<State>) -> Result<bool> {
    let state = (server.is_up(), server.session());
    let alike = wanted.is_none() || wanted == Some(state);
    if !alike {
        println!(rt; "it is up: {}, in session {}", state.0, state.1)?;
    }
    Ok(alike)
}

/// Whether the site sends what is wanted at a letter.
fn sends_alike(
    rt: &HostRuntime,
    workload: &Workload,
    server: &mut SiteServer,
    step: &Step,
) -> Result<bool>
    requires { IsRun workload.now server.old }
    ensures { IsRun workload.now server.new }
{
    let heard = &step.heard;
    if heard.from > 9 || server.heard() >= MOST {
        bail!("no letter of a server");
    }
    let sent = server.hear(rt.alloc(), workload, heard.from, &heard.letter)?;
    let alike = are_alike(rt.alloc(), &sent, &step.sent)?;
    if !alike {
        println!(rt; "after {heard:?} it sends {sent:?}")?;
    }
    Ok(alike)
}

/// Whether the site sends what is wanted at each letter, and is in this state and has these copies in the end.
pub fn hears_alike(
    rt: &HostRuntime,
    workload: &Workload,
    site: Site,
    steps: &[Step],
    state: Option<State>,
    copies: &mut Words,
) -> Result<bool> {
    if site.0 < 1 || site.0 > workload.sites {
        bail!("no site of the workload");
    }
    let mut server = SiteServer::new(rt.alloc(), workload, site)?;
    for step in steps {
        if !sends_alike(rt, workload, &mut server, step)? {
            return Ok(false);
        }
    }
    Ok(is_in(rt, &server, state)? && has_copies(rt, &server, copies)?)
}
