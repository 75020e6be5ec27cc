//! Texts of several lines.

ghost use Rattle.std.specs.Prelude.{◌≤◌, length, IfOk};

use anyhow::{Result, bail};
use std::alloc::{AllocError, Global};

/// The most bytes that a text may have.
const MOST: usize = 1_000_000;

/// The lines of a workload or report text, as they come.
#[derive(Drop)]
pub struct Text {
    lines: String,
}

impl Text {
    /// No line has come.
    pub fn new(alloc: Global) -> Text {
        Text {
            lines: String::new(alloc),
        }
    }

    /// Adds a line. True where the text is whole: its last line is `done`.
    pub fn add(&mut self, line: &str) -> Result<bool, AllocError> {
        if line.starts_with("workload ") || line.starts_with("report ") {
            self.lines.clear();
        }
        self.lines.push_str(line)?;
        self.lines.push('\n')?;
        Ok(line == "done")
    }

    /// Whether it is a report text.
    pub fn is_report(&self) -> bool {
        self.lines.as_str().starts_with("report ")
    }

    /// The text so far.
    pub fn as_bytes(&self) -> Result<&[u8]>
        ensures { IfOk result (λ text. length text.now ≤ 1000000) }
    {
        let text = self.lines.as_bytes();
        if text.len() > MOST {
            bail!("the text is too long");
        }
        Ok(text)
    }
}
