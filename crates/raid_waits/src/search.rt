ghost use Rattle.std.specs.Prelude.{◌≡◌, ◌<◌, ℕ, Bool, true, false, not, ◌&&◌, ◌||◌, length, map, replicate, Some, None, position};
ghost use Rattle.raid_base.specs.declared.request.Request.{Request};
ghost use Rattle.raid_waits.specs.Waiting.{Test, is_among, closes_by};
ghost use Rattle.raid_waits.specs.declared.search.Mark.TheVariants.{Unseen};
ghost use Rattle.raid_waits.specs.Marks.{is_found, is_followed, mark_at, request_at, Begun};

use raid_base::{Pairs, Request, Txn};
use raid_control::Blocks;

/// How far a search has come with a request that waits.
#[derive(Clone, Copy, Debug)]
pub enum Mark {
    /// Nothing is known to wait for it.
    Unseen,
    /// The new request waits for it; whom it waits for hasn't been looked up.
    Found,
    /// The new request waits for it, and those that it waits for are found.
    Followed,
}

/// Whether the search has still to follow the request.
fn is_open(mark: Mark) -> bool
    ensures { result ≡ (is_found mark && not (is_followed mark)) }
{
    match mark {
        Mark::Found => true,
        Mark::Unseen | Mark::Followed => false,
    }
}

/// Forgets an earlier search.
fn unmark(marks: &mut [Mark])
    ensures { marks.new ≡ replicate (length marks.old) Unseen }
{
    marks.fill(Mark::Unseen);
}

/// The first request that is found and not followed.
fn next_open(marks: &[Mark]) -> Option<usize>
    ensures { result ≡ position (λ m. is_found m && not (is_followed m)) marks.now }
{
    marks.iter().position(|mark| is_open(*mark))
}

/// The mark of a reader, which is found where it keeps the waiter from its writes.
fn looked_at<B: Blocks>(mark: Mark, reader: Txn, waiter: Txn, writes: &Pairs, blocks: &B) -> Mark
    ensures followed { is_followed result ≡ is_followed mark }
    ensures found { (test : Test) → B.says blocks.now test → is_found result ≡ (is_found mark || test reader waiter writes.now) }
{
    match mark {
        Mark::Unseen => {
            if blocks.blocks(reader, waiter, writes) {
                Mark::Found
            } else {
                Mark::Unseen
            }
        }
        Mark::Found => Mark::Found,
        Mark::Followed => Mark::Followed,
    }
}

/// Finds the requests whose transactions keep the waiter from its writes.
fn find_blockers<B: Blocks>(
    held: &[(Txn, Request)],
    marks: &mut [Mark],
    waiter: Txn,
    writes: &Pairs,
    blocks: &B,
)
    requires { length marks.old ≡ length held.now }
    ensures length { length marks.new ≡ length marks.old }
    ensures followed { map is_followed marks.new ≡ map is_followed marks.old }
    ensures found { (test : Test) → B.says blocks.now test → (k : ℕ) → k < length held.now → is_found (mark_at marks.new k) ≡ (is_found (mark_at marks.old k) || test (request_at held.now k).0 waiter writes.now) }
{
    for k in 0..held.len() {
        marks[k] = looked_at(marks[k], held[k].0, waiter, writes, blocks);
    }
}

/// Follows each request that is found, until one waits for the transaction or none is left.
fn follow<B: Blocks>(held: &[(Txn, Request)], marks: &mut [Mark], txn: Txn, blocks: &B) -> bool
    requires { length marks.old ≡ length held.now }
    ensures length { length marks.new ≡ length marks.old }
    ensures closes { (test : Test) (request : Request) → B.says blocks.now test → Begun test held.now marks.old txn request → result ≡ closes_by test held.now txn request }
{
    while let Some(k) = next_open(marks) {
        let (waiter, request) = &held[k];
        if blocks.blocks(txn, *waiter, &request.writes) {
            return true;
        }
        marks[k] = Mark::Followed;
        find_blockers(held, marks, *waiter, &request.writes, blocks);
    }
    false
}

/// Whether a new request with these writes would wait for itself, through those that are held. The marks, one for each of them, are
/// written over.
pub fn closes<B: Blocks>(
    held: &[(Txn, Request)],
    marks: &mut [Mark],
    txn: Txn,
    writes: &Pairs,
    blocks: &B,
) -> bool
    requires length { length marks.old ≡ length held.now }
    requires stranger { is_among held.now txn ≡ false }
    ensures length { length marks.new ≡ length marks.old }
    ensures closes { (test : Test) (request : Request) → B.says blocks.now test → request.writes ≡ writes.now → result ≡ closes_by test held.now txn request }
{
    if blocks.blocks(txn, txn, writes) {
        return true;
    }
    unmark(marks);
    find_blockers(held, marks, txn, writes, blocks);
    follow(held, marks, txn, blocks)
}
