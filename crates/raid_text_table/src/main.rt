//! Reads workload texts, and compares what they say, how that is printed, and what their programs come to with the answers that stand
//! behind them, which were worked out by hand. An answer that differs is printed.
//!
//! The first word of a line tells what the line is.
//!
//!   text                                  begins a text
//!   > LINE                                its next line; `\xHH` stands for a byte; a line end stands between two lines
//!   many COUNT LINE                       so many such lines
//!   < LINE                                the next line of what is to be printed
//!   reads ITEM=VALUE.. , writes ..        what the next run is to read, and to write; items are counted from 0
//!   refused line LINE fault NUMBER WORD   the text so far is refused for this
//!   read                                  it says a workload
//!   has WHAT VALUE..                      that is so of the workload: its version, restarts, items, kind or holders
//!   prints                                a copy of the workload is printed so
//!   runs END                              the first program, on the values that the items open with, ends so
//!   leaves ITEM=VALUE|none                an item has this value once the program has run
//!   asks ITEM=VALUE END                   the program asks for the item, also a second time, and ends so once it has the value
//!   made SEED PROGRAMS                    the workload that is generated so is printed with this end
//!
//! Other lines are comments.
#![tactic(auto)]

mod programs;
mod table;
mod texts;

use anyhow::Result;
use table::Table;

fn main(rt: HostRuntime) -> Result<()> {
    let mut table = Table::new(rt.alloc());
    for line in rt.lines(rt.alloc()) {
        let line = line?;
        if !table.hear(rt.alloc(), line.as_str())? {
            println!(rt; "text {} differs: {line}", table.texts)?;
        }
    }
    println!(rt;
        "{} texts, {} answers, {} differ",
        table.texts, table.answers, table.differ
    )?;
    Ok(())
}
