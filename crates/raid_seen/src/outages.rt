//! How often each site has gone down and come up.

ghost use Rattle.std.specs.Prelude.{◌≡◌, ◌<◌, ◌+◌, [], vec_len, OnOk, if◌then◌else◌};
ghost use Rattle.raid_base.specs.declared.names.Site.{Site};
ghost use Rattle.raid_base.specs.Names.{is_site};
ghost use Rattle.raid_seen.specs.Tables.{outage_of, turn_outage};

use raid_base::{Entry, NoMemory, Site};
use std::alloc::Global;
use std::marker::Model;

/// How a site has fared.
#[derive(Clone, Copy, Debug)]
pub struct Outage {
    /// How often it has gone down.
    pub downs: u32,
    /// How often it has come up again.
    pub ups: u32,
    /// Its last session, also where it is down.
    pub session: u32,
    /// The number of the last entry by which it went down, 0 where there is none.
    pub fell: u32,
}

/// A site that has never gone down.
const UNBROKEN: Outage = Outage {
    downs: 0,
    ups: 0,
    session: 1,
    fell: 0,
};

/// How each site has fared, by its number; unbroken past the end. Contracts see the list of the rows.
#[derive(Drop, Debug)]
pub struct Outages {
    rows: Vec<Outage>,
}

impl Model for Outages {
    ghost use Rattle.std.specs.Prelude.{List};
    ghost use Rattle.raid_seen.specs.declared.outages.Outage.{Outage};

    ghost Value = { List Outage };

    ghost view = { λ o. o.rows.items };
}

/// Makes a place, of a site that has never gone down where it is new.
fn grow(rows: &mut Vec<Outage>, place: usize) -> Result<(), NoMemory>
    ensures ok { OnOk result (place < vec_len rows.new) }
    ensures same { (s : Site) → outage_of rows.new.items s ≡ outage_of rows.old.items s }
{
    while rows.len() <= place {
        rows.push(UNBROKEN)?;
    }
    Ok(())
}

impl Outages {
    /// No site has gone down.
    pub fn new(alloc: Global) -> Outages
        ensures { result ≡ [] }
    {
        Outages {
            rows: Vec::new(alloc),
        }
    }

    /// How the site has fared.
    pub fn get(&self, site: Site) -> Outage
        ensures { result ≡ outage_of self.now site }
    {
        let place = site.0 as usize;
        if place < self.rows.len() {
            self.rows[place]
        } else {
            UNBROKEN
        }
    }

    /// The site goes down by the entry with this number.
    fn down(&mut self, site: Site, number: u32) -> Result<(), NoMemory>
        requires { (outage_of self.old site).downs < 4294967295 }
        ensures { OnOk result ((s : Site) → outage_of self.new s ≡ (if is_site s site then record (outage_of self.old s) { downs = (outage_of self.old s).downs + 1; fell = number } else outage_of self.old s)) }
    {
        let place = site.0 as usize;
        grow(&mut self.rows, place)?;
        self.rows[place].downs += 1;
        self.rows[place].fell = number;
        Ok(())
    }

    /// The site comes up in a session.
    fn up(&mut self, site: Site, session: u32) -> Result<(), NoMemory>
        requires { (outage_of self.old site).ups < 4294967295 }
        ensures { OnOk result ((s : Site) → outage_of self.new s ≡ (if is_site s site then record (outage_of self.old s) { ups = (outage_of self.old s).ups + 1; session = session } else outage_of self.old s)) }
    {
        let place = site.0 as usize;
        grow(&mut self.rows, place)?;
        self.rows[place].ups += 1;
        self.rows[place].session = session;
        Ok(())
    }

    /// Does what the entry, which has this number, says of a site. After want of memory the outages are worth nothing.
    pub fn turn(&mut self, number: u32, entry: &Entry) -> Result<(), NoMemory>
        requires downs { (s : Site) → (outage_of self.old s).downs < 4294967295 }
        requires ups { (s : Site) → (outage_of self.old s).ups < 4294967295 }
        ensures { OnOk result ((s : Site) → outage_of self.new s ≡ turn_outage number s (outage_of self.old s) entry.now) }
    {
        match entry {
            Entry::Down { site } => self.down(*site, number),
            Entry::Up { site, session } => self.up(*site, *session),
            Entry::Begin { .. }
            | Entry::Read { .. }
            | Entry::Wait { .. }
            | Entry::Commit { .. }
            | Entry::Abort { .. }
            | Entry::Ack { .. }
            | Entry::SwitchOn { .. }
            | Entry::SwitchEnd { .. }
            | Entry::Clear { .. } => Ok(()),
        }
    }
}
