ghost use Rattle.std.specs.Prelude.{◌≡◌, ℤ, List};
ghost use Rattle.raid_base.specs.declared.names.Txn.{Txn};
ghost use Rattle.raid_base.specs.declared.names.Item.{Item};
ghost use Rattle.raid_rules.specs.Verdicts.{is_blocked_by};

use crate::waits::Waits;
use raid_base::{Entry, Item, Listed, NoMemory, Noted, Pairs, Request, Site, Txn, Vector};
use raid_control::Blocks;
use raid_rules::judge;
use std::alloc::{AllocGlobal, Global};
use std::process::Abort;
use std::test::Fail;

const X: Item = Item(0);

const Y: Item = Item(1);

const Z: Item = Item(2);

/// Who blocks whom in a view, all of whose transactions run.
#[derive(Drop)]
struct Reads {
    view: Listed<Noted>,
}

impl Reads {
    fn of(alloc: Global, reads: &[(u32, Item)]) -> Result<Reads, NoMemory> {
        let mut view = Listed::new(alloc);
        for (txn, item) in reads {
            view.push(Noted {
                at: 10,
                stamp: 1,
                entry: Entry::Read {
                    txn: Txn(*txn),
                    item: *item,
                    site: Site(1),
                },
            })?;
        }
        Ok(Reads { view })
    }
}

impl Blocks for Reads {
    ghost says = { λ r test. (u t : Txn) (writes : List (Item × ℤ)) → test u t writes ≡ is_blocked_by u r.view t writes };

    fn blocks(&self, reader: Txn, writer: Txn, writes: &Pairs) -> bool {
        judge::blocks(self.view.as_slice(), reader, writer, writes.as_slice())
    }
}

fn writes(alloc: Global, items: &[Item]) -> Result<Pairs, NoMemory> {
    let mut writes = Pairs::new(alloc);
    for item in items {
        writes.push((*item, 1))?;
    }
    Ok(writes)
}

fn request(alloc: Global, items: &[Item]) -> Result<Request, NoMemory> {
    Ok(Request {
        reads: Pairs::new(alloc),
        writes: writes(alloc, items)?,
        under: Vector {
            count: 1,
            sessions: [1, 0, 0, 0, 0, 0, 0, 0],
        },
    })
}

/// Lets the transaction wait, which doesn't yet.
fn wait<R: Abort + AllocGlobal>(
    rt: &R,
    waits: &mut Waits,
    txn: u32,
    items: &[Item],
) -> Result<(), NoMemory> {
    let request = request(rt.alloc(), items)?;
    assert!(rt; !waits.is_waiting(Txn(txn)));
    waits.push(Txn(txn), request)
}

/// Whether the transaction, which doesn't wait yet, would close a cycle.
fn closes<R: Abort + AllocGlobal>(
    rt: &R,
    waits: &mut Waits,
    txn: u32,
    items: &[Item],
    reads: &Reads,
) -> Result<bool, NoMemory> {
    let writes = writes(rt.alloc(), items)?;
    assert!(rt; !waits.is_waiting(Txn(txn)));
    Ok(waits.closes_cycle(Txn(txn), &writes, reads))
}

#[test]
fn two_readers_of_an_item_wait_for_one_another(rt: HostRuntime) -> Result<(), Fail> {
    let reads = Reads::of(rt.alloc(), &[(1, X), (2, X)])?;
    let mut waits = Waits::new(rt.alloc());
    assert!(rt; waits.is_empty());
    assert!(rt; !closes(&rt, &mut waits, 1, &[X], &reads)?);
    wait(&rt, &mut waits, 1, &[X])?;
    assert!(rt; closes(&rt, &mut waits, 2, &[X], &reads)?);
    assert!(rt; !closes(&rt, &mut waits, 2, &[Y], &reads)?);
    assert_eq!(rt; waits.len(), 1);
    Ok(())
}

#[test]
fn a_ring_of_three_closes_until_one_is_out(rt: HostRuntime) -> Result<(), Fail> {
    let reads = Reads::of(rt.alloc(), &[(1, X), (2, Y), (3, Z)])?;
    let mut waits = Waits::new(rt.alloc());
    wait(&rt, &mut waits, 1, &[Y])?;
    wait(&rt, &mut waits, 2, &[Z])?;
    assert!(rt; closes(&rt, &mut waits, 3, &[X], &reads)?);
    assert!(rt; !closes(&rt, &mut waits, 3, &[Z], &reads)?);
    assert!(rt; !closes(&rt, &mut waits, 4, &[X, Y, Z], &reads)?);
    assert!(rt; waits.remove(Txn(3)).is_none());
    match waits.remove(Txn(1)) {
        Some(request) => assert_eq!(rt; request.writes.as_slice(), [(Y, 1)].as_slice()),
        None => assert!(rt; false),
    }
    assert!(rt; !closes(&rt, &mut waits, 3, &[X], &reads)?);
    assert_eq!(rt; waits.len(), 1);
    let (left, request) = waits.get(0);
    assert_eq!(rt; left, Txn(2));
    assert_eq!(rt; request.writes.as_slice(), [(Z, 1)].as_slice());
    Ok(())
}
