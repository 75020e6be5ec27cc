//! What entries show.

ghost use Rattle.std.specs.Prelude.{◌≡◌, ◌≤◌, true, length};
ghost use Rattle.raid_rules.specs.Entries.{is_commit, is_end};
ghost use Rattle.raid_advise.specs.Advice as words;

use raid_base::{Cause, Entry, Kind};

/// What a whole history shows.
#[derive(Clone, Copy)]
pub struct Past {
    /// How many Commits and Aborts there are.
    pub ends: usize,
    /// How many SwitchOns.
    pub switches: usize,
    /// The kind that came in last, at first the opening kind.
    pub kind: Kind,
}

impl Past {
    /// The past that these entries are, after the opening with this kind.
    pub fn of(opening: Kind, entries: &[Entry]) -> Past
        ensures ends { result.ends ≡ words.ends entries.now }
        ensures switches { result.switches ≡ words.came_on entries.now }
        ensures kind { result.kind ≡ words.latest_kind opening entries.now }
    {
        let mut past = Past {
            ends: 0,
            switches: 0,
            kind: opening,
        };
        for entry in entries {
            match entry {
                Entry::Commit { .. } | Entry::Abort { .. } => past.ends += 1,
                Entry::SwitchOn { kind, .. } => {
                    past.switches += 1;
                    past.kind = *kind;
                }
                _ => {}
            }
        }
        past
    }
}

/// Whether the entry is a Commit or an Abort.
fn is_end(entry: &Entry) -> bool
    ensures { result ≡ is_end entry.now }
{
    matches!(entry, Entry::Commit { .. } | Entry::Abort { .. })
}

/// Whether the entry is a Commit.
fn is_commit(entry: &Entry) -> bool
    ensures { result ≡ is_commit (λ t request. true) entry.now }
{
    matches!(entry, Entry::Commit { .. })
}

/// Whether the entry shows what the kind costs: a transaction that it held up, or that it aborted.
fn is_cost(kind: Kind, entry: &Entry) -> bool
    ensures { result ≡ words.is_cost kind entry.now }
{
    match entry {
        Entry::Abort { cause, .. } => is_blamed(kind, *cause),
        Entry::Wait { .. } => matches!(kind, Kind::Lock),
        _ => false,
    }
}

/// Whether an abort with this cause is the kind's doing.
fn is_blamed(kind: Kind, cause: Cause) -> bool
    ensures { result ≡ words.is_blamed kind cause }
{
    matches!(
        (kind, cause),
        (Kind::Lock, Cause::Deadlock)
            | (Kind::Stamp, Cause::Late)
            | (Kind::Valid, Cause::Invalid)
            | (Kind::Graph, Cause::Cycle)
    )
}

/// How many Commits there are.
pub fn commits(entries: &[Entry]) -> usize
    ensures { result ≡ words.commits entries.now }
{
    entries.iter().filter(|entry| is_commit(entry)).count()
}

/// How many entries show what the kind costs.
pub fn costs(kind: Kind, entries: &[Entry]) -> usize
    ensures exact { result ≡ words.costs kind entries.now }
    ensures most { result ≤ length entries.now }
{
    entries.iter().filter(|entry| is_cost(kind, entry)).count()
}

/// The entries with the last so many ends, `last`, of all those with so many, `ends`.
#[tactic(auto, using(crate::proofs::Windows::window_whole))]
pub fn window(entries: &[Entry], ends: usize, last: u32) -> &[Entry]
    requires { ends ≡ words.ends entries.now }
    ensures { result.now ≡ words.window last entries.now }
{
    let mut seen = entries;
    let mut left = ends;
    while left > last as usize
        && let Some((entry, rest)) = seen.split_first()
    {
        if is_end(entry) {
            left -= 1;
        }
        seen = rest;
    }
    seen
}
