use raid_access::Copies;
use raid_base::{Site, Vector};
use raid_driver::Driver;
use raid_vote::Ballots;

/// What a site is made of.
#[derive(Drop, Debug)]
pub struct Parts {
    /// Which site it is.
    pub site: Site,
    /// Whether it is up.
    pub up: bool,
    /// Its session; of a stopped site the one that ended.
    pub session: u32,
    /// The vector that it knows.
    pub vector: Vector,
    pub copies: Copies,
    pub driver: Driver,
    /// The votes that are awaited. A ballot counts where its program is done.
    pub ballots: Ballots,
}
