ghost use Rattle.std.specs.Prelude.{◌≡◌, ◌≤◌, ◌-◌, max, length, replicate, slice_index, slice_set};
ghost use Rattle.raid_base.specs.Sites.{session};

use raid_base::{Site, Vector};
use raid_session::after_up;
use std::marker::Model;

/// For each site the largest session whose end was announced, 0 where none was. Contracts see the list of these sessions, by site.
#[derive(Drop, Debug)]
pub struct Announced {
    sessions: Vector,
}

impl Model for Announced {
    ghost use Rattle.std.specs.Prelude.{List, ℕ};

    ghost Value = { List ℕ };

    ghost view = { λ a. a.sessions };
}

impl Announced {
    /// No end of a session of these sites was announced.
    pub fn new(sites: u8) -> Announced
        requires { sites ≤ 8 }
        ensures { result ≡ replicate sites 0 }
    {
        let sessions = Vector {
            count: sites,
            sessions: [0; 8],
        };
        Announced { sessions }
    }

    /// The largest session of the site whose end was announced, 0 where none was.
    pub fn session(&self, site: Site) -> u32
        requires { 1 ≤ site.0 }
        ensures { result ≡ slice_index self.now (site.0 - 1) }
    {
        self.sessions.session(site)
    }

    /// The end of a session of the site is announced.
    pub fn announce(&mut self, site: Site, session: u32)
        requires least { 1 ≤ site.0 }
        requires most { site.0 ≤ length self.old }
        ensures { self.new ≡ slice_set self.old (site.0 - 1) (max session (slice_index self.old (site.0 - 1))) }
    {
        let last = self.sessions.session(site);
        self.sessions = after_up(self.sessions, site, session.max(last));
    }
}
