//! A run of 400,000 transactions, one after the other.

use crate::play::request;
use raid_base::{Ask, Entry, Item, NoMemory, Pairs, Site, Sites, Txn, Verdict};
use raid_control::Controller;
use std::alloc::Global;

fn grants(verdict: Verdict) -> u32 {
    match verdict {
        Verdict::Grant => 1,
        Verdict::Wait | Verdict::Reject(_) => 0,
    }
}

/// One transaction begins, reads an item and commits a write of the next; its Begin has the number of its stamp.
fn run_one<C: Controller>(
    alloc: Global,
    control: &mut C,
    txn: Txn,
    stamp: u32,
) -> Result<u32, NoMemory> {
    let site = Site(1);
    control.note(stamp, stamp, &Entry::Begin { txn, home: site })?;
    let item = Item((txn.0 % 1024) as u16);
    let read = control.judge(&Ask::Read { txn, stamp, item });
    control.note(
        stamp.saturating_add(1),
        stamp,
        &Entry::Read { txn, item, site },
    )?;
    let (reads, mut writes) = (Pairs::new(alloc), Pairs::new(alloc));
    writes.push((Item((txn.0.saturating_add(1) % 1024) as u16), 1))?;
    let commit = control.judge(&Ask::Commit {
        txn,
        stamp,
        reads: &reads,
        writes: &writes,
    });
    let entry = Entry::Commit {
        txn,
        request: request(alloc, writes),
        applied: Sites(1),
    };
    control.note(stamp.saturating_add(2), stamp, &entry)?;
    Ok(grants(read).saturating_add(grants(commit)))
}

/// How many of the 800,000 verdicts are grants.
pub fn long_run<C: Controller>(alloc: Global, control: &mut C) -> Result<u32, NoMemory> {
    let (mut count, mut stamp) = (0u32, 1u32);
    for k in 0..400_000u32 {
        let granted = run_one(alloc, control, Txn(k + 1), stamp)?;
        count = count.saturating_add(granted);
        stamp = stamp.saturating_add(3);
    }
    Ok(count)
}

#[cfg(test)]
mod tests {
    use super::*;
    use crate::play::numbers;
    use raid_base::Kind;
    use raid_generic::GenericControl;
    use raid_lock::LockControl;
    use raid_stamp::StampControl;
    use raid_valid::ValidControl;

    const ALL: u32 = 800_000;

    #[test]
    fn a_long_run_by_locks(rt: HostRuntime) -> Result<(), NoMemory> {
        let mut control = LockControl::new(rt.alloc(), 2000, 1024)?;
        let granted = long_run(rt.alloc(), &mut control)?;
        assert_eq!(rt; granted, ALL);
        Ok(())
    }

    #[test]
    fn a_long_run_by_stamps(rt: HostRuntime) -> Result<(), NoMemory> {
        let mut control = StampControl::new(rt.alloc(), 2000, 1024)?;
        let granted = long_run(rt.alloc(), &mut control)?;
        assert_eq!(rt; granted, ALL);
        Ok(())
    }

    #[test]
    fn a_long_run_by_validation(rt: HostRuntime) -> Result<(), NoMemory> {
        let mut control = ValidControl::new(rt.alloc(), 2000, 1024)?;
        let granted = long_run(rt.alloc(), &mut control)?;
        assert_eq!(rt; granted, ALL);
        Ok(())
    }

    #[test]
    fn a_long_generic_run_by_locks(rt: HostRuntime) -> Result<(), NoMemory> {
        let mut control = GenericControl::new(rt.alloc(), Kind::Lock, 2000, 1024)?;
        let granted = long_run(rt.alloc(), &mut control)?;
        assert_eq!(rt; granted, ALL);
        Ok(())
    }

    #[test]
    fn a_long_generic_run_by_stamps(rt: HostRuntime) -> Result<(), NoMemory> {
        let mut control = GenericControl::new(rt.alloc(), Kind::Stamp, 2000, 1024)?;
        let granted = long_run(rt.alloc(), &mut control)?;
        assert_eq!(rt; granted, ALL);
        Ok(())
    }

    #[test]
    fn a_long_generic_run_by_validation(rt: HostRuntime) -> Result<(), NoMemory> {
        let mut control = GenericControl::new(rt.alloc(), Kind::Valid, 2000, 1024)?;
        let granted = long_run(rt.alloc(), &mut control)?;
        assert_eq!(rt; granted, ALL);
        Ok(())
    }

    /// A thousand transactions come and go while the first one runs.
    fn outlive<C: Controller>(alloc: Global, control: &mut C) -> Result<(), NoMemory> {
        let (txn, home) = (Txn(1), Site(1));
        control.note(1, 1, &Entry::Begin { txn, home })?;
        let item = Item(2000);
        control.note(
            2,
            1,
            &Entry::Read {
                txn,
                item,
                site: home,
            },
        )?;
        for k in 1..1000u32 {
            run_one(alloc, control, Txn(k + 1), 3 * k)?;
        }
        Ok(())
    }

    #[test]
    fn one_that_runs_long_is_carried(rt: HostRuntime) -> Result<(), NoMemory> {
        let mut control = LockControl::new(rt.alloc(), 0, 0)?;
        outlive(rt.alloc(), &mut control)?;
        let carry = control.carry(rt.alloc())?;
        let carried = numbers(rt.alloc(), &carry)?;
        assert_eq!(rt; carried.as_slice(), [1, 2].as_slice());
        Ok(())
    }
}
