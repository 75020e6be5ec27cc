ghost use Rattle.std.specs.Prelude.{◌≡◌, ◌≤◌, [], ◌==◌, ◌||◌, filter, length};
ghost use Rattle.raid_base.specs.Names.{is_site, has_site};
ghost use Rattle.raid_base.specs.Sites.{all_sites, session};

use crate::names::Site;
use std::marker::Model;

/// A set of sites. Bit `s - 1` of the number stands for site `s`; contracts see the set as the ascending
/// list of its sites.
#[derive(Clone, Copy, Debug, PartialEq, Eq)]
pub struct Sites(pub u8);

impl Model for Sites {
    ghost use Rattle.std.specs.Prelude.{List, ◌<◌, ◌^◌};
    ghost use Rattle.raid_base.specs.declared.names.Site.{Site};
    ghost use Rattle.raid_base.specs.Sites.{sites_of, bits_of, bits_back};

    ghost Value = { List Site };

    ghost view = { λ s. sites_of s.0 };

    ghost invariant = { λ s. s.0 < 2 ^ 8 };

    ghost inverse = { λ s. record { 0 = bits_of s } };

    ghost inverse_ok = { λ s h i. record { 0 = bits_back s.0 h i } };
}

impl Sites {
    /// No site.
    pub fn none() -> Sites
        ensures { result ≡ [] }
    {
        Sites(0)
    }

    /// Whether the site is in the set.
    pub fn contains(self, site: Site) -> bool
        requires least { 1 ≤ site.0 }
        requires most { site.0 ≤ 8 }
        ensures { result ≡ has_site self site }
    {
        self.0 / (1 << (site.0 - 1)) % 2 == 1
    }

    /// The set with one site more; the same set where the site is in it already.
    pub fn with(self, site: Site) -> Sites
        requires least { 1 ≤ site.0 }
        requires most { site.0 ≤ 8 }
        ensures { result ≡ filter (λ s. has_site self s || is_site site s) all_sites }
    {
        Sites(self.0 | 1 << (site.0 - 1))
    }

    /// Whether no site is in the set.
    pub fn is_empty(self) -> bool
        ensures { result ≡ (length self == 0) }
    {
        self.0 == 0
    }
}

/// A session number per site, 0 for a site that is down. `count` is the number of sites, 0 to 8, and the
/// numbers past it are 0. Contracts see a vector as the list of its first `count` numbers.
#[derive(Clone, Copy, Debug, PartialEq, Eq)]
pub struct Vector {
    pub count: u8,
    pub sessions: [u32; 8],
}

impl Model for Vector {
    ghost use Rattle.std.specs.Prelude.{List, ℕ, ◌≤◌, ◌≡◌, ◌-◌, ◌++◌, drop, take, length, replicate};
    ghost use Rattle.std.proofs.Common.{arith, take-append-drop, length-take-le, ap, sym, ◌∙◌};

    ghost Value = { List ℕ };

    ghost view = { λ v. take v.count v.sessions };

    ghost invariant = { λ v. (v.count ≤ 8) × (length v.sessions ≡ 8) × (drop v.count v.sessions ≡ replicate (8 - v.count) 0) };

    ghost inverse = { λ v. record { count = length v; sessions = v ++ replicate (8 - length v) 0 } };

    ghost inverse_ok = { λ v h i. record {
      count = length-take-le v.count v.sessions (omega (arith, h.0, h.1)) i;
      sessions = (ap (λ k. take v.count v.sessions ++ replicate (8 - k) 0) (length-take-le v.count v.sessions (omega (arith, h.0, h.1))) ∙ ap (λ z. take v.count v.sessions ++ z) (sym h.2) ∙ take-append-drop v.count v.sessions) i;
    } };
}

impl Vector {
    /// The session of a site, 0 where it is down or past `count`.
    pub fn session(self, site: Site) -> u32
        requires least { 1 ≤ site.0 }
        ensures { result ≡ session self site }
    {
        if site.0 <= self.count {
            self.sessions[site.0 as usize - 1]
        } else {
            0
        }
    }
}
