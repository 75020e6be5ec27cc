ghost use Rattle.std.specs.Prelude.{◌≡◌, ◌==◌, ◌<◌, ◌≤◌, ◌+◌, ◌&&◌, max, ℕ, ℤ, ◌∷◌, [], ◌++◌, filter, length, vec_len, All, OnOk, if◌then◌else◌};
ghost use Rattle.raid_base.specs.declared.names.Item.{Item};
ghost use Rattle.raid_base.specs.Names.{is_item};
ghost use Rattle.raid_conflict.specs.Tables.{chain_at, room, writes_of};

use raid_base::{Item, NoMemory, Txn};
use raid_rules::conflict::Action;
use std::alloc::Global;

/// Actions in the order in which they were noted: those on one item, or those of one transaction.
#[derive(Drop, Debug)]
pub struct Chain {
    pub actions: Vec<Action>,
}

/// Makes a place, with an empty chain where it is new.
fn grow(alloc: Global, chains: &mut Vec<Chain>, place: usize) -> Result<(), NoMemory>
    ensures ok { OnOk result (place < vec_len chains.new) }
    ensures same { (k : ℕ) → chain_at chains.new.items k ≡ chain_at chains.old.items k }
    ensures rooms { (k : ℕ) → room chains.old.items k ≤ room chains.new.items k }
    ensures few { vec_len chains.new ≤ max (vec_len chains.old) (place + 1) }
{
    while chains.len() <= place {
        chains.push(Chain {
            actions: Vec::new(alloc),
        })?;
    }
    Ok(())
}

/// Makes a place, with room for so many more actions there. No chain is changed.
pub fn make_room(
    alloc: Global,
    chains: &mut Vec<Chain>,
    place: usize,
    count: usize,
) -> Result<(), NoMemory>
    ensures ok { OnOk result (place < vec_len chains.new) }
    ensures room { OnOk result (count ≤ room chains.new.items place) }
    ensures same { (k : ℕ) → chain_at chains.new.items k ≡ chain_at chains.old.items k }
    ensures rooms { (k : ℕ) → room chains.old.items k ≤ room chains.new.items k }
    ensures few { vec_len chains.new ≤ max (vec_len chains.old) (place + 1) }
{
    grow(alloc, chains, place)?;
    chains[place].actions.reserve(count)?;
    Ok(())
}

/// Makes room for a write of each of the items.
pub fn make_rooms(
    alloc: Global,
    chains: &mut Vec<Chain>,
    writes: &[(Item, i64)],
) -> Result<(), NoMemory>
    ensures ok { OnOk result (All (λ w. length writes.now ≤ room chains.new.items w.0.0) writes.now) }
    ensures same { (k : ℕ) → chain_at chains.new.items k ≡ chain_at chains.old.items k }
{
    for (item, _) in writes {
        make_room(alloc, chains, item.0 as usize, writes.len())?;
    }
    Ok(())
}

/// Adds an action at a place that has room for it.
pub fn add(chains: &mut [Chain], place: usize, action: Action)
    requires { 1 ≤ room chains.old place }
    ensures actions { (k : ℕ) → chain_at chains.new k ≡ (if k == place then chain_at chains.old k ++ action ∷ [] else chain_at chains.old k) }
    ensures rooms { (k : ℕ) → room chains.old k ≤ room chains.new k + 1 }
    ensures same { length chains.new ≡ length chains.old }
{
    chains[place].actions.push_reserved(action);
}

/// Adds a write of each of the items to the chain of the item.
pub fn add_writes(chains: &mut [Chain], at: u64, by: Txn, writes: &[(Item, i64)])
    requires { All (λ w. length writes.now ≤ room chains.old w.0.0) writes.now }
    ensures added { (x : Item) → chain_at chains.new x.0 ≡ chain_at chains.old x.0 ++ filter (λ a. is_item x a.item) (writes_of at by writes.now) }
    ensures written { (x : Item) → chain_at chains.new x.0 ≡ chain_at chains.old x.0 ++ filter (λ a. a.writes && is_item x a.item) (writes_of at by writes.now) }
{
    for (item, _) in writes {
        let action = Action {
            at,
            by,
            item: *item,
            writes: true,
        };
        add(chains, item.0 as usize, action);
    }
}

/// Adds a write of each of the items to one chain.
pub fn add_own(chains: &mut [Chain], place: usize, at: u64, by: Txn, writes: &[(Item, i64)])
    requires { length writes.now ≤ room chains.old place }
    ensures same { length chains.new ≡ length chains.old }
    ensures added { (k : ℕ) → chain_at chains.new k ≡ (if k == place then chain_at chains.old k ++ writes_of at by writes.now else chain_at chains.old k) }
{
    for (item, _) in writes {
        let action = Action {
            at,
            by,
            item: *item,
            writes: true,
        };
        add(chains, place, action);
    }
}
