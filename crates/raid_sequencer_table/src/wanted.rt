//! The history and the order that a sequencer is to have in the end.

use anyhow::{Result, bail};
use raid_base::{Report, Site};
use raid_letter_lines::Text;
use raid_workload::{ItemLine, Workload};
use std::alloc::Global;
use std::str;

/// The lines of entries, and of their order, as they stand in a report.
#[derive(Drop)]
pub struct Wanted {
    report: Text,
}

impl Wanted {
    /// No line has come.
    pub fn new(alloc: Global) -> Wanted {
        Wanted {
            report: Text::new(alloc),
        }
    }

    /// Begins with the first line of a report of the workload.
    pub fn begin(&mut self, alloc: Global, workload: &Workload) -> Result<()> {
        let first = format!(in alloc; "report {}", workload.version)?;
        self.report.add(first.as_str())?;
        Ok(())
    }

    /// Adds a line.
    pub fn add(&mut self, line: &str) -> Result<()> {
        self.report.add(line)?;
        Ok(())
    }

    /// Reads the report, whose lines of values and copies, of which a sequencer has none, say 0 everywhere.
    pub fn read(&mut self, alloc: Global, workload: &Workload) -> Result<Report> {
        for line in workload.items.as_slice() {
            let value = format!(in alloc; "final {} 0", name_of(line)?)?;
            self.report.add(value.as_str())?;
        }
        for before in 0..workload.sites {
            self.add_copies(alloc, workload, before.saturating_add(1))?;
        }
        self.report.add("done")?;
        let Ok(report) = raid_report::parse(alloc, workload, self.report.as_bytes()?) else {
            bail!("no entries and order of the workload");
        };
        Ok(report)
    }

    /// Adds the lines of the copies at a site.
    fn add_copies(&mut self, alloc: Global, workload: &Workload, site: u8) -> Result<()> {
        for line in workload.items.as_slice() {
            if is_held(line, site) {
                let copy = format!(in alloc; "copy s{site} {} 0 0", name_of(line)?)?;
                self.report.add(copy.as_str())?;
            }
        }
        Ok(())
    }
}

/// Whether the site, one of 1 to 8, holds the item.
fn is_held(line: &ItemLine, site: u8) -> bool {
    1 <= site && site <= 8 && line.holders.contains(Site(site))
}

/// The name of the item.
fn name_of(line: &ItemLine) -> Result<&str> {
    Ok(str::from_utf8(line.name.as_slice())?)
}
