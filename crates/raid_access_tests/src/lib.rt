//! Tests of a site's copies and staged writes, at values worked out by hand, with calls that can refuse memory
//! succeeding where there is some.
#![tactic(auto)]

#[cfg(test)]
mod tests {
    use raid_access::{Copies, Held};
    use raid_base::{CopyLine, Item, NoMemory, Pairs, Site, Txn};
    use std::alloc::Global;
    use std::test::Fail;

    const X: Item = Item(0);

    const Y: Item = Item(1);

    const Z: Item = Item(2);

    /// Site 1 holds `x` and `z`.
    const THREE_ITEMS: &str =
        "workload 1\nsites 2 together 1\nitem x 5 at 1 2\nitem y 7 at 2\nitem z 9 at 1\nopen lock native\ndone\n";

    /// What site 1 stores at the start. Where the text is no workload, memory is said to be refused.
    fn opened(alloc: Global) -> Result<Copies, NoMemory> {
        if THREE_ITEMS.len() > 1000 {
            return Err(NoMemory);
        }
        match raid_text::parse(alloc, THREE_ITEMS.as_bytes()) {
            Ok(workload) => Copies::new(alloc, Site(1), &workload),
            Err(_) => Err(NoMemory),
        }
    }

    /// What the copy of an item holds, if there is one.
    fn held(copies: &Copies, item: Item) -> Option<Held> {
        if copies.holds(item) {
            Some(copies.read(item))
        } else {
            None
        }
    }

    /// What a copy with this value and version holds.
    fn copy(value: i64, version: u32) -> Option<Held> {
        Some(Held { value, version })
    }

    /// One pair.
    fn write(alloc: Global, item: Item, value: i64) -> Result<Pairs, NoMemory> {
        let mut writes = Pairs::new(alloc);
        writes.push((item, value))?;
        Ok(writes)
    }

    #[test]
    fn a_site_opens_with_the_items_that_it_holds(rt: HostRuntime) -> Result<(), Fail> {
        let copies = opened(rt.alloc())?;
        assert_eq!(rt; held(&copies, X), copy(5, 0));
        assert_eq!(rt; held(&copies, Y), None);
        assert_eq!(rt; held(&copies, Z), copy(9, 0));
        assert_eq!(rt; held(&copies, Item(3)), None);
        assert!(rt; !copies.is_staged(Txn(1)));
        let lines = copies.copy_lines(rt.alloc())?;
        let site = Site(1);
        assert_eq!(rt;
            lines.as_slice(),
            [
                CopyLine {
                    site,
                    item: X,
                    value: 5,
                    version: 0
                },
                CopyLine {
                    site,
                    item: Z,
                    value: 9,
                    version: 0
                },
            ]
            .as_slice()
        );
        Ok(())
    }

    #[test]
    fn staged_writes_become_the_copies(rt: HostRuntime) -> Result<(), Fail> {
        let mut copies = opened(rt.alloc())?;
        copies.stage(Txn(1), &write(rt.alloc(), X, 1)?)?;
        copies.stage(Txn(2), &write(rt.alloc(), Z, 2)?)?;
        assert_eq!(rt; held(&copies, X), copy(5, 0));
        copies.apply(Txn(1), 4);
        assert_eq!(rt; held(&copies, X), copy(1, 4));
        assert_eq!(rt; held(&copies, Z), copy(9, 0));
        assert!(rt; !copies.is_staged(Txn(1)) && copies.is_staged(Txn(2)));
        Ok(())
    }

    #[test]
    fn staging_again_replaces(rt: HostRuntime) -> Result<(), Fail> {
        let mut copies = opened(rt.alloc())?;
        copies.stage(Txn(1), &write(rt.alloc(), Z, 2)?)?;
        copies.stage(Txn(1), &write(rt.alloc(), X, 3)?)?;
        copies.apply(Txn(1), 2);
        assert_eq!(rt; held(&copies, X), copy(3, 2));
        assert_eq!(rt; held(&copies, Z), copy(9, 0));
        Ok(())
    }

    #[test]
    fn what_is_dropped_is_not_applied(rt: HostRuntime) -> Result<(), Fail> {
        let mut copies = opened(rt.alloc())?;
        copies.stage(Txn(1), &write(rt.alloc(), X, 1)?)?;
        copies.stage(Txn(2), &write(rt.alloc(), X, 2)?)?;
        copies.drop_staged(Txn(1));
        assert!(rt; !copies.is_staged(Txn(1)) && copies.is_staged(Txn(2)));
        copies.apply(Txn(1), 3);
        assert_eq!(rt; held(&copies, X), copy(5, 0));
        Ok(())
    }

    #[test]
    fn an_older_version_refreshes_nothing(rt: HostRuntime) -> Result<(), Fail> {
        let mut copies = opened(rt.alloc())?;
        assert!(rt; copies.refresh(X, 6, 4));
        assert_eq!(rt; held(&copies, X), copy(6, 4));
        assert!(rt; !copies.refresh(X, 7, 3));
        assert_eq!(rt; held(&copies, X), copy(6, 4));
        assert!(rt; copies.refresh(X, 8, 4));
        assert_eq!(rt; held(&copies, X), copy(8, 4));
        assert!(rt; !copies.refresh(Y, 8, 4));
        assert_eq!(rt; held(&copies, Y), None);
        Ok(())
    }

    #[test]
    fn stopping_keeps_the_copies_alone(rt: HostRuntime) -> Result<(), Fail> {
        let mut copies = opened(rt.alloc())?;
        copies.stage(Txn(1), &write(rt.alloc(), X, 1)?)?;
        copies.apply(Txn(1), 2);
        copies.stage(Txn(2), &write(rt.alloc(), X, 2)?)?;
        copies.stop();
        assert!(rt; !copies.is_staged(Txn(2)));
        assert_eq!(rt; held(&copies, X), copy(1, 2));
        assert_eq!(rt; held(&copies, Z), copy(9, 0));
        Ok(())
    }
}
