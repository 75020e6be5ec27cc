ghost use Rattle.std.specs.Prelude.{◌≡◌, ◌≤◌, ◌<◌, vec_len, vec_capacity, OnOk, OnErr};
ghost use Rattle.std.specs.List.{list_any};
ghost use Rattle.raid_base.specs.Names.{is_txn};
ghost use Rattle.raid_steps.specs.Copies as steps;

use raid_base::{NoMemory, Pairs, Txn};

/// Writes with the transactions for which they are staged, last staged last.
pub type Staged = Vec<(Txn, Pairs)>;

/// Whether there are writes of the transaction.
pub fn has(staged: &[(Txn, Pairs)], txn: Txn) -> bool
    ensures { result ≡ list_any (λ e. is_txn txn e.0) staged.now }
{
    for (other, _) in staged {
        if *other == txn {
            return true;
        }
    }
    false
}

/// Drops the writes of the transaction.
pub fn drop_of(staged: &mut Staged, txn: Txn)
    ensures is { staged.new.items ≡ steps.unstage txn staged.old.items }
    ensures len { vec_len staged.new ≤ vec_len staged.old }
    ensures room { vec_capacity staged.new ≡ vec_capacity staged.old }
{
    staged.retain(|entry| entry.0 != txn);
}

/// Puts the writes in place of those that the transaction had. After want of memory all is as it was.
pub fn put(staged: &mut Staged, txn: Txn, writes: Pairs) -> Result<(), NoMemory>
    ensures ok { OnOk result (staged.new.items ≡ steps.stage txn writes staged.old.items) }
    ensures err { OnErr result (staged.new.items ≡ staged.old.items) }
{
    staged.reserve(1)?;
    drop_of(staged, txn);
    staged.push_reserved((txn, writes));
    Ok(())
}
