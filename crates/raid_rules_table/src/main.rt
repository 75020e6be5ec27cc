//! Judges views by the plain program of the rules, orders their transactions by it and by the conflict graph, and compares with the
//! answers that stand beside them. The first views are worked by hand; the others are random, and the answers are those of a reference
//! model (tests/make_views.py has the form of the lines).
#![tactic(auto)]

mod answers;

use answers::Table;
use anyhow::Result;
use raid_view_lines::words::{Head, words_of};

fn main(rt: HostRuntime) -> Result<()> {
    let mut table = Table::new(rt.alloc());
    let mut views = 0u32;
    let mut agree = 0u32;
    for line in rt.lines(rt.alloc()) {
        let line = line?;
        if line.starts_with('#') {
            continue;
        }
        let words = words_of(rt.alloc(), line.as_str())?;
        if table.hear(rt.alloc(), words.as_slice())? == Head::End {
            let verdict = if table.differ == 0 { "agree" } else { "differ" };
            println!(rt;
                "view {}{} and {} more: {verdict}",
                table.view, table.verdicts, table.more
            )?;
            views = views.saturating_add(1);
            if table.differ == 0 {
                agree = agree.saturating_add(1);
            }
        }
    }
    println!(rt; "{views} views, {agree} agree")?;
    Ok(())
}
