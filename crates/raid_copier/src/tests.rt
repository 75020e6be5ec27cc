ghost use Rattle.std.specs.Prelude.{◌≤◌};

use crate::Copiers;
use raid_base::{Item, NoMemory, Pairs, Site, Sites};

const X: Item = Item(0);

const Y: Item = Item(1);

const FAR: Item = Item(900);

/// Asks the source for the item, where no copy of it is under way to the target yet; whether it did.
fn ask(copiers: &mut Copiers, target: Site, item: Item, source: Site) -> Result<bool, NoMemory>
    requires least { 1 ≤ target.0 }
    requires most { target.0 ≤ 8 }
{
    if copiers.is_out(target, item) {
        return Ok(false);
    }
    copiers.ask(target, item, source)?;
    Ok(true)
}

#[test]
fn a_copy_is_under_way_until_it_is_closed(rt: HostRuntime) -> Result<(), NoMemory> {
    let mut copiers = Copiers::new(rt.alloc());
    assert!(rt; !copiers.is_out(Site(2), X));
    assert!(rt; ask(&mut copiers, Site(2), X, Site(1))?);
    assert!(rt; !ask(&mut copiers, Site(2), X, Site(3))?);
    assert!(rt; ask(&mut copiers, Site(8), FAR, Site(1))?);
    assert!(rt; !copiers.is_out(Site(1), X));
    assert!(rt; !copiers.is_out(Site(2), Y));
    copiers.close(Site(1), X);
    copiers.close(Site(2), Y);
    assert!(rt; copiers.is_out(Site(2), X));
    copiers.close(Site(2), X);
    assert!(rt; !copiers.is_out(Site(2), X));
    assert!(rt; copiers.is_out(Site(8), FAR));
    Ok(())
}

#[test]
fn copies_to_a_lost_site_and_from_it_are_forgotten(rt: HostRuntime) -> Result<(), NoMemory> {
    let mut copiers = Copiers::new(rt.alloc());
    for (target, item, source) in [(2, X, 1), (3, X, 1), (1, Y, 3), (2, FAR, 3)] {
        assert!(rt; ask(&mut copiers, Site(target), item, Site(source))?);
    }
    copiers.lost(Site(3));
    for (target, item, out) in [(2, X, true), (3, X, false), (1, Y, false), (2, FAR, false)] {
        assert_eq!(rt; copiers.is_out(Site(target), item), out);
    }
    copiers.lost(Site(1));
    assert!(rt; !copiers.is_out(Site(2), X));
    Ok(())
}

#[test]
fn copies_that_a_commit_renews_are_forgotten(rt: HostRuntime) -> Result<(), NoMemory> {
    let mut copiers = Copiers::new(rt.alloc());
    for (target, item) in [(1, X), (2, X), (3, X), (1, Y), (2, FAR)] {
        assert!(rt; ask(&mut copiers, Site(target), item, Site(8))?);
    }
    let mut writes = Pairs::new(rt.alloc());
    writes.push((X, 7))?;
    writes.push((FAR, 7))?;
    copiers.renewed(&writes, Sites(0b10).with(Site(1)));
    for (target, item, out) in [
        (1, X, false),
        (2, X, false),
        (3, X, true),
        (1, Y, true),
        (2, FAR, false),
    ] {
        assert_eq!(rt; copiers.is_out(Site(target), item), out);
    }
    Ok(())
}
