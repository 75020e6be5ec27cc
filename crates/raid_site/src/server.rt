//! The server of a site: one letter, one step.

ghost use Rattle.std.specs.Prelude.{◌≡◌, ◌≤◌, ◌<◌, ◌+◌, true, false, IfOk, OnOk, OnErr};
ghost use Rattle.raid_steps.specs.World.{first_site, copy_lines};
ghost use Rattle.raid_steps.specs.Site.{hear_site};
ghost use Rattle.raid_workload.specs.declared.workload.Workload.{Workload};
ghost use Rattle.raid_access.specs.Stock.{lines};
ghost use Rattle.raid_site.specs.Server as words;
ghost use Rattle.raid_site.specs.Server.{IsRun};

use crate::letters;
use crate::parts::Parts;
use crate::table::all_down;
use raid_access::Copies;
use raid_base::{NoMemory, Site};
use raid_driver::Driver;
use raid_message::{Letter, Outs};
use raid_vote::Ballots;
use raid_workload::Workload;
use std::alloc::Global;

/// The server of one site.
///
/// Want of memory leaves it finished: each later `hear` answers NoMemory and changes nothing. Otherwise `hear` fails only where
/// memory is refused.
#[derive(Drop, Debug)]
pub struct SiteServer {
    parts: Parts,
    /// How many letters it has heard.
    heard: u32,
    finished: bool,
}

impl SiteServer {
    /// The server of a site of the workload as before any letter: up in its first session, with the initial values. Want of memory
    /// is the only error.
    pub fn new(alloc: Global, workload: &Workload, site: Site) -> Result<SiteServer, NoMemory>
        requires least { 1 ≤ site.0 }
        requires most { site.0 ≤ workload.now.sites }
        ensures state { IfOk result (λ s. words.state_of s ≡ first_site workload.now site) }
        ensures heard { IfOk result (λ s. words.heard s ≡ 0) }
        ensures live { IfOk result (λ s. words.is_finished s ≡ false) }
        ensures run { IfOk result (λ s. IsRun workload.now s) }
    {
        let mut driver = Driver::new(alloc, workload, site)?;
        driver.reset(0);
        let parts = Parts {
            site,
            up: true,
            session: 1,
            vector: all_down(workload.sites),
            copies: Copies::new(alloc, site, workload)?,
            driver,
            ballots: Ballots::new(alloc, workload.together)?,
        };
        Ok(SiteServer {
            parts,
            heard: 0,
            finished: false,
        })
    }

    /// Takes a letter of the server with this number, 0 to 9, and gives what is sent for it. To be called where fewer than
    /// 1,000,000,000 letters were heard. Want of memory is the only error.
    pub fn hear(
        &mut self,
        alloc: Global,
        workload: &Workload,
        from: u16,
        letter: &Letter,
    ) -> Result<Outs, NoMemory>
        requires run { IsRun workload.now self.old }
        requires sender { from ≤ 9 }
        requires few { words.heard self.old < 1000000000 }

        ensures step { IfOk result (λ outs. words.turn self.new outs ≡ hear_site workload.now (words.state_of self.old) from letter.now) }
        ensures count { OnOk result (words.heard self.new ≡ words.heard self.old + 1) }
        ensures run { IsRun workload.now self.new }

        ensures before { OnOk result (words.is_finished self.old ≡ false) }
        ensures after { OnOk result (words.is_finished self.new ≡ false) }
        ensures finished { OnErr result (words.is_finished self.new ≡ true) }
        ensures quiet { words.is_finished self.old ≡ true → self.new ≡ self.old }
    {
        if self.finished {
            return Err(NoMemory);
        }
        self.finished = true;
        let mut outs = Outs::new(alloc);
        letters::hear(&mut self.parts, alloc, workload, from, letter, &mut outs)?;
        self.heard += 1;
        self.finished = false;
        Ok(outs)
    }

    /// The site's copies, up or not.
    pub fn copies(&self) -> &Copies
        ensures is { result.now ≡ words.stock_of self.now }
        ensures lines { words.is_finished self.now ≡ false → (w : Workload) → IsRun w self.now
            → lines result.now ≡ copy_lines (words.state_of self.now) }
    {
        &self.parts.copies
    }

    /// The site's session; of a stopped site the one that ended.
    pub fn session(&self) -> u32
        ensures { result ≡ (words.state_of self.now).session }
    {
        self.parts.session
    }

    /// Whether the site is up.
    pub fn is_up(&self) -> bool
        ensures { result ≡ (words.state_of self.now).up }
    {
        self.parts.up
    }

    /// How many letters it has heard.
    pub fn heard(&self) -> u32
        ensures { result ≡ words.heard self.now }
    {
        self.heard
    }

    /// Whether it was refused memory.
    pub fn is_finished(&self) -> bool
        ensures { result ≡ words.is_finished self.now }
    {
        self.finished
    }
}
