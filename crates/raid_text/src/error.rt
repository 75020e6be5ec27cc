ghost use Rattle.std.specs.Prelude.{◌≡◌};
ghost use Rattle.raid_text.specs.declared.error.LineError.TheVariants as line_errors;

use raid_base::NoMemory;
use raid_tokens::Fault;
use thiserror::Error;

/// Why a line was not taken.
#[derive(Clone, Copy, Debug, PartialEq, Eq)]
pub enum LineError {
    NoMemory,
    Fault(Fault),
}

impl From<Fault> for LineError {
    ghost from_gives = { λ f e. e ≡ line_errors.Fault f };

    fn from(fault: Fault) -> LineError {
        LineError::Fault(fault)
    }
}

impl From<NoMemory> for LineError {
    ghost from_gives = { λ _ e. e ≡ line_errors.NoMemory };

    fn from(_: NoMemory) -> LineError {
        LineError::NoMemory
    }
}

/// Why no workload was read.
#[derive(Clone, Copy, Debug, PartialEq, Eq, Error)]
pub enum Refused {
    /// Memory was refused.
    #[error("no memory")]
    NoMemory,
    /// The text says no workload: its first fault, and the line that has it, counted from 1.
    #[error("line {line}: {fault}")]
    Text { line: u32, fault: Fault },
}
