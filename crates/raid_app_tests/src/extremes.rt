//! Reports as deep, as long or with as large numbers as they may be, judged as the reference model judges them.

use crate::texts::NOTHING;
use crate::told::{Way, told};
use raid_base::NoMemory;
use std::alloc::{AllocError, Global};
use std::test::Fail;
use std::thread::Threads;

/// As many transactions as run at once: sixteen at each of eight sites.
const RUNNING: u32 = 128;

/// The sessions that each of them knows.
const KNOWN: &str = "1,1,1,1,1,1,1,1";

/// Eight sites, an item and a program.
const EIGHT: &str =
    "workload 1\nsites 8 together 1\nitem a 0 at 1\nopen lock native\nprogram 1\nend\ndone\n";

/// Transactions each of which has read an item, and writes the ones behind it, that the next transactions have read. So it waits for these.
#[derive(Clone, Copy, Debug, PartialEq, Eq)]
struct Waits {
    /// How many items there are; the first one is behind the last.
    items: u32,
    /// How many items each transaction writes.
    writes: u32,
}

/// Each transaction waits for as many of the next ones as a program has room for, and the last for none.
const CHAIN: Waits = Waits {
    items: 159,
    writes: 31,
};

/// Each transaction waits for the next, and the last, if it does, for the first.
const RING: Waits = Waits {
    items: 128,
    writes: 1,
};

impl Waits {
    /// The item that is so many behind the one of the transaction.
    fn behind(&self, transaction: u32, steps: u32) -> u32 {
        let item = transaction.saturating_add(steps);
        if item > self.items {
            item - self.items
        } else {
            item
        }
    }

    /// Adds the workload.
    fn add_workload(&self, text: &mut String) -> Result<(), AllocError> {
        text.push_str("workload 1\nsites 8 together 16\n")?;
        for item in 1..=self.items {
            write!(text, "item x{item:03} 0 at 1\n")?;
        }
        text.push_str("open lock native\n")?;
        for transaction in 1..=RUNNING {
            write!(
                text,
                "program {}\nread x{transaction:03} r0\n",
                home(transaction)
            )?;
            for steps in 1..=self.writes {
                let item = self.behind(transaction, steps);
                write!(text, "write x{item:03} {transaction}\n")?;
            }
            text.push_str("end\n")?;
        }
        text.push_str("done\n")
    }

    /// Adds what a transaction asks for when it asks to commit.
    fn add_request(&self, text: &mut String, transaction: u32) -> Result<(), AllocError> {
        write!(text, "reads x{transaction:03}=0 writes ")?;
        for steps in 1..=self.writes {
            let item = self.behind(transaction, steps);
            let comma = if steps > 1 { "," } else { "" };
            write!(text, "{comma}x{item:03}={transaction}")?;
        }
        write!(text, " under {KNOWN}")
    }

    /// Adds the entries in which all transactions begin, read and, but for the last, come to wait.
    fn add_waiting(&self, text: &mut String) -> Result<(), AllocError> {
        for transaction in 1..=RUNNING {
            write!(
                text,
                "{transaction} begin t{transaction} at s{}\n",
                home(transaction)
            )?;
        }
        for transaction in 1..=RUNNING {
            write!(
                text,
                "{} read t{transaction} x{transaction:03} at s1\n",
                RUNNING + transaction
            )?;
        }
        for back in 1..RUNNING {
            let transaction = RUNNING - back;
            write!(text, "{} wait t{transaction} ", 2 * RUNNING + back)?;
            self.add_request(text, transaction)?;
            text.push_str("\n")?;
        }
        Ok(())
    }

    /// Adds the entries in which all commit, the last first, and are acknowledged.
    fn add_commits(&self, text: &mut String) -> Result<(), AllocError> {
        for back in 0..RUNNING {
            let transaction = RUNNING - back;
            write!(text, "{} commit t{transaction} ", version(transaction))?;
            self.add_request(text, transaction)?;
            text.push_str(" applied s1\n")?;
        }
        for back in 0..RUNNING {
            write!(text, "{} ack t{} s1\n", 4 * RUNNING + back, RUNNING - back)?;
        }
        Ok(())
    }

    /// Adds what stands behind those entries.
    fn add_ends(&self, text: &mut String) -> Result<(), AllocError> {
        text.push_str("order")?;
        for back in 0..RUNNING {
            write!(text, " t{}", RUNNING - back)?;
        }
        text.push_str("\nfinal x001 0\n")?;
        for item in 2..=self.items {
            write!(text, "final x{item:03} {}\n", self.last_writer(item))?;
        }
        text.push_str("copy s1 x001 0 0\n")?;
        for item in 2..=self.items {
            let writer = self.last_writer(item);
            write!(text, "copy s1 x{item:03} {writer} {}\n", version(writer))?;
        }
        text.push_str("done\n")
    }

    /// The last one to write an item behind the first.
    fn last_writer(&self, item: u32) -> u32 {
        item.saturating_sub(self.writes).max(1)
    }

    /// Adds what stands behind the entries where nothing is written.
    fn add_ends_of_nothing(&self, text: &mut String) -> Result<(), AllocError> {
        text.push_str("order -\n")?;
        for item in 1..=self.items {
            write!(text, "final x{item:03} 0\n")?;
        }
        for item in 1..=self.items {
            write!(text, "copy s1 x{item:03} 0 0\n")?;
        }
        text.push_str("done\n")
    }
}

/// The home of a transaction.
fn home(transaction: u32) -> u32 {
    transaction.saturating_sub(1) % 8 + 1
}

/// The number of the entry in which a transaction of the chain commits.
fn version(transaction: u32) -> u32 {
    (4 * RUNNING).saturating_sub(transaction)
}

/// Whether an input is judged with this status and line.
fn is_judged<R: Threads + Sync>(
    rt: &R,
    alloc: Global,
    input: &str,
    status: u8,
    line: &str,
) -> Result<bool, NoMemory> {
    let told = told(rt, alloc, "check", input.as_bytes(), Way::Whole, Way::Whole)?;
    Ok(told.status == status && told.written() == line.as_bytes())
}

#[test]
fn the_deepest_chain_of_waits_is_judged(rt: HostRuntime) -> Result<(), Fail> {
    let mut text = String::new(rt.alloc());
    CHAIN.add_workload(&mut text)?;
    text.push_str("report 1\n")?;
    CHAIN.add_waiting(&mut text)?;
    CHAIN.add_commits(&mut text)?;
    CHAIN.add_ends(&mut text)?;
    assert!(rt; is_judged(&rt, rt.alloc(), text.as_str(), 0, "sound\n")?);
    Ok(())
}

/// The ring's workload and report, in which the last transaction asks to commit, and this is done.
fn ring(alloc: Global, done: &str) -> Result<String, AllocError> {
    let mut text = String::new(alloc);
    RING.add_workload(&mut text)?;
    text.push_str("report 1\n")?;
    RING.add_waiting(&mut text)?;
    write!(text, "{} {done} ", 3 * RUNNING)?;
    RING.add_request(&mut text, RUNNING)?;
    text.push_str("\n")?;
    RING.add_ends_of_nothing(&mut text)?;
    Ok(text)
}

#[test]
fn the_longest_ring_of_waits_is_found(rt: HostRuntime) -> Result<(), Fail> {
    let waits = ring(rt.alloc(), "wait t128")?;
    assert!(rt; is_judged(&rt, rt.alloc(), waits.as_str(), 8, "fails legal at 384\n")?);
    let aborts = ring(rt.alloc(), "abort t128 deadlock commit")?;
    assert!(rt; is_judged(&rt, rt.alloc(), aborts.as_str(), 8, "fails finished\n")?);
    Ok(())
}

#[test]
fn a_line_that_comes_a_million_times_is_judged(rt: HostRuntime) -> Result<(), Fail> {
    let mut text = String::from_str(rt.alloc(), NOTHING)?;
    text.push_str("report 1\n")?;
    for number in 1..=1_000_000u32 {
        write!(text, "{number} down s1\n")?;
    }
    text.push_str("order -\nfinal a 7\ncopy s1 a 7 0\ndone\n")?;
    assert!(rt; is_judged(&rt, rt.alloc(), text.as_str(), 8, "fails legal at 1\n")?);
    Ok(())
}

/// Second entries with vectors and numbers as large as they may be or too large, behind the begin of the one transaction; the status and the line.
const LARGE: [(&str, u8, &str); 8] = [
    (
        "commit t1 reads - writes - under 4294967295,4294967295,4294967295,4294967295,4294967295,4294967295,4294967295,4294967295 applied -",
        8,
        "fails serial\n",
    ),
    (
        "commit t1 reads - writes - under 4294967295,4294967295,4294967295,4294967295,4294967295,4294967295,4294967295,4294967296 applied -",
        3,
        "refused report line 3\n",
    ),
    (
        "abort t1 stale 4294967295,4294967295,4294967295,4294967295,4294967295,4294967295,4294967295,4294967295 commit reads - writes - under 4294967295,4294967295,4294967295,4294967295,4294967295,4294967295,4294967295,4294967295",
        8,
        "fails legal at 2\n",
    ),
    (
        "abort t1 stale 4294967296,4294967295,4294967295,4294967295,4294967295,4294967295,4294967295,4294967295 commit reads - writes - under 4294967295,4294967295,4294967295,4294967295,4294967295,4294967295,4294967295,4294967295",
        3,
        "refused report line 3\n",
    ),
    ("up s8 session 4294967295", 8, "fails legal at 2\n"),
    ("up s8 session 4294967296", 3, "refused report line 3\n"),
    ("clear s1 a at 4294967295", 8, "fails legal at 2\n"),
    ("clear s1 a at 4294967296", 3, "refused report line 3\n"),
];

#[test]
fn the_largest_numbers_are_judged(rt: HostRuntime) -> Result<(), Fail> {
    for (entry, status, line) in LARGE {
        let mut text = String::from_str(rt.alloc(), EIGHT)?;
        write!(text, "report 1\n1 begin t1 at s1\n2 {entry}\n")?;
        text.push_str("order -\nfinal a 0\ncopy s1 a 0 0\ndone\n")?;
        assert!(rt;
            is_judged(&rt, rt.alloc(), text.as_str(), status, line)?,
            "{entry}"
        );
    }
    Ok(())
}
