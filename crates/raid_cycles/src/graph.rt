ghost use Rattle.std.specs.Prelude.{◌≡◌, Bool, List};
ghost use Rattle.raid_base.specs.declared.names.Txn.{Txn};
ghost use Rattle.raid_cycles.specs.Cycles.{IsAscending};

use raid_base::Txn;

/// Transactions, and which of them leads to which.
pub trait Graph {
    ghost transactions: { Self → List Txn };

    ghost edges: { Self → Txn → Txn → Bool };

    /// Its transactions, each once, smaller numbers first.
    fn members(&self) -> &[Txn]
        ensures members { result.now ≡ transactions self.now }
        ensures ascending { IsAscending (transactions self.now) };

    /// Whether the first transaction leads to the second. Takes no memory.
    fn leads(&self, from: Txn, to: Txn) -> bool
        ensures { result ≡ edges self.now from to };
}
