//! Two servers that run at the same moment.

use crate::told::called_at;
use raid_io::{PlainSink, PlainSource};
use raid_link::Gate;
use std::hint;
use std::sync::atomic::{AtomicU64, Ordering};
use std::test::Fail;

/// Two sites, with one program each.
const TWO: &str =
    "workload 1\nsites 2 together 2\nitem x 0 at 1 2\nitem y 0 at 1 2\nopen lock native\nprogram 1\nwrite x 1\nend\nprogram 2\nwrite y 2\nend\ndone\n";

/// How often a server looks whether the other has come.
const TURNS: u32 = 10_000_000;

/// At its first step each of the servers 2 and 3, those of the sites 1 and 2, waits until the other has come to its own.
#[derive(Drop)]
struct Meeting {
    first: AtomicU64,
    second: AtomicU64,
    /// How often one of them has waited in vain.
    gave_up: AtomicU64,
}

impl Gate for Meeting {
    fn at(&self, server: u16, step: u64) {
        if step > 0 || server < 2 || server > 3 {
            return;
        }
        let (mine, other) = if server == 2 {
            (&self.first, &self.second)
        } else {
            (&self.second, &self.first)
        };
        mine.store(1, Ordering::SeqCst);
        for _ in 0..TURNS {
            if other.load(Ordering::SeqCst) == 1 {
                return;
            }
            hint::spin_loop();
        }
        self.gave_up.fetch_add(1, Ordering::SeqCst);
    }
}

#[test]
fn two_servers_run_at_the_same_moment(rt: HostRuntime) -> Result<(), Fail> {
    let gate = Meeting {
        first: AtomicU64::new(0),
        second: AtomicU64::new(0),
        gave_up: AtomicU64::new(0),
    };
    let mut source = PlainSource::new(rt.alloc(), TWO.as_bytes())?;
    let mut sink = PlainSink::new();
    let ended = called_at(&rt, rt.alloc(), "run", &mut source, &mut sink, &gate)?;
    assert_eq!(rt; ended.status, 0);
    assert_eq!(rt; gate.first.load(Ordering::SeqCst), 1);
    assert_eq!(rt; gate.second.load(Ordering::SeqCst), 1);
    assert_eq!(rt; gate.gave_up.load(Ordering::SeqCst), 0);
    Ok(())
}
