ghost use Rattle.std.specs.Prelude.{◌≡◌};
ghost use Rattle.raid_report.specs.declared.error.LineError.TheVariants as line_errors;

use raid_base::NoMemory;
use raid_pieces::Unfit;

/// Why a line was not read.
#[derive(Clone, Copy, Debug, PartialEq, Eq)]
pub enum LineError {
    /// Memory was refused.
    Memory,
    /// The line isn't what may stand there.
    Unfit,
}

impl From<Unfit> for LineError {
    ghost from_gives = { λ _ e. e ≡ line_errors.Unfit };

    fn from(_: Unfit) -> LineError {
        LineError::Unfit
    }
}

impl From<NoMemory> for LineError {
    ghost from_gives = { λ _ e. e ≡ line_errors.Memory };

    fn from(_: NoMemory) -> LineError {
        LineError::Memory
    }
}
