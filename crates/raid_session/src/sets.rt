ghost use Rattle.std.specs.Prelude.{◌≡◌, ◌≤◌, ◌&&◌, ◌||◌, not, filter};
ghost use Rattle.raid_base.specs.Names.{is_site, has_site};
ghost use Rattle.raid_base.specs.Sites.{all_sites};

use raid_base::{Site, Sites};

/// A set of sites is the ascending list of those that it has. Does nothing: what it says is its contract.
pub fn ascends(sites: Sites)
    ensures { filter (has_site sites) all_sites ≡ sites }
{
    let _bits = sites.0;
}

/// The set without the site; the same set where the site isn't in it.
pub fn without(sites: Sites, site: Site) -> Sites
    requires least { 1 ≤ site.0 }
    requires most { site.0 ≤ 8 }
    ensures { result ≡ filter (λ r. not (is_site site r)) sites }
{
    Sites(sites.0 & !(1 << (site.0 - 1)))
}

/// The sites that are in one set or the other.
pub fn union(first: Sites, second: Sites) -> Sites
    ensures { result ≡ filter (λ s. has_site first s || has_site second s) all_sites }
{
    Sites(first.0 | second.0)
}

/// The sites of the first set that aren't in the second.
pub fn difference(first: Sites, second: Sites) -> Sites
    ensures { result ≡ filter (λ s. has_site first s && not (has_site second s)) all_sites }
{
    Sites(first.0 & !second.0)
}
