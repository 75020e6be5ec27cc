ghost use Rattle.std.specs.Prelude.{◌≡◌};
ghost use Rattle.raid_base.specs.Meet.{meeting};

/// What decides the order of transactions.
#[derive(Clone, Copy, Debug, PartialEq, Eq)]
pub enum Kind {
    /// Strict two-phase locking: read locks at reads, write locks all at the commit.
    Lock,
    /// Basic timestamp ordering, a transaction's stamp being the number of its Begin.
    Stamp,
    /// Backward validation at the commit (Kung and Robinson, 1981).
    Valid,
    /// Serialization graph testing.
    Graph,
}

/// How one kind gives way to another (Bhargava and Riedl, 1989).
#[derive(Clone, Copy, Debug, PartialEq, Eq)]
pub enum Method {
    /// The kinds share one state, and the new one goes on with it.
    Generic,
    /// The new one starts with the reads of the running transactions; those that have read what was
    /// overwritten since are aborted.
    Convert,
    /// Suffix-sufficient: both decide until the new one alone suffices.
    Suffix,
}

/// How a controller keeps its state.
#[derive(Clone, Copy, Debug, PartialEq, Eq)]
pub enum Structure {
    /// Tables of its own.
    Native,
    /// Tables that serve every kind.
    GenericState,
}

/// Why an action is refused.
#[derive(Clone, Copy, Debug, PartialEq, Eq)]
pub enum Refusal {
    /// A transaction with a larger stamp came first.
    Late,
    /// An item that was read has been written since.
    Invalid,
    /// The action would close a cycle of conflicts.
    Cycle,
}

/// What a controller says of an action.
#[derive(Clone, Copy, Debug, PartialEq, Eq)]
pub enum Verdict {
    /// It may be done now.
    Grant,
    /// It may be done once others have ended.
    Wait,
    /// It may not be done: its transaction is to be aborted.
    Reject(Refusal),
}

/// The meeting of two verdicts: the first refusal, `a` before `b`; else Wait where either is Wait; else Grant.
pub fn meet(a: Verdict, b: Verdict) -> Verdict
    ensures { result ≡ meeting a b }
{
    match a {
        Verdict::Reject(why) => Verdict::Reject(why),
        Verdict::Wait => match b {
            Verdict::Reject(why) => Verdict::Reject(why),
            _ => Verdict::Wait,
        },
        Verdict::Grant => b,
    }
}
