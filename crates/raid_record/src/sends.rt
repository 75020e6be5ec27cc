//! What each entry sends.

ghost use Rattle.std.specs.Prelude.{◌≡◌, ◌≤◌, ◌+◌, ◌&&◌, ◌||◌, not, true, ℕ, List, [], ◌∷◌, ◌++◌, map, filter, flat_map, length, OnOk, if◌then◌else◌};
ghost use Rattle.raid_base.specs.declared.names.Site.{Site};
ghost use Rattle.raid_base.specs.declared.entry.Noted.{Noted};
ghost use Rattle.raid_base.specs.Names.{is_site, has_site};
ghost use Rattle.raid_base.specs.Sites.{site, session};
ghost use Rattle.raid_workload.specs.declared.workload.Workload.{Workload};
ghost use Rattle.raid_workload.specs.Parts as parts;
ghost use Rattle.raid_rules.specs.Sessions.{is_site_up};
ghost use Rattle.raid_legal.specs.Seen as seen;
ghost use Rattle.raid_message.specs.declared.letter.Message.TheVariants as letters;
ghost use Rattle.raid_steps.specs.State as steps;
ghost use Rattle.raid_steps.specs.Sequencer as sequencer;
ghost use Rattle.raid_record.specs.Keeps.{AreNext};
ghost use Rattle.raid_record.specs.Turns as words;

use crate::homes::{self, Nexts};
use crate::left::is_restartable;
use raid_base::{Cause, Entry, Item, NoMemory, Site, Sites, Txn, Vector};
use raid_message::{Message, Outs};
use raid_session::{sets, up_sites, without};
use raid_workload::Workload;

/// What several sites are told.
#[derive(Clone, Copy, Debug)]
pub enum Notice {
    Drop { txn: Txn, again: bool },
    Down { site: Site },
    Up { site: Site, session: u32 },
}

/// The message of a notice.
fn message_of(notice: Notice) -> Message
    ensures { result ≡ words.message_of notice }
{
    match notice {
        Notice::Drop { txn, again } => Message::Drop { txn, again },
        Notice::Down { site } => Message::DownNote { site },
        Notice::Up { site, session } => Message::UpNote { site, session },
    }
}

/// The session of a site in the vector, 0 where it has none for it. Site 0, which isn't one, is taken for site 1.
pub fn session_of(vector: Vector, site: Site) -> u32
    ensures { result ≡ session vector site }
{
    vector.session(Site(site.0.max(1)))
}

/// A message to a site, meant for its session in the vector.
pub fn to_site(vector: Vector, site: Site, message: Message) -> (u16, u32, Message)
    ensures { result ≡ steps.to_site vector site message }
{
    (site.0 as u16 + 1, session_of(vector, site), message)
}

/// The notice to a site, where it is one of these.
fn send_one(
    vector: Vector,
    targets: Sites,
    site: Site,
    notice: Notice,
    outs: &mut Outs,
) -> Result<(), NoMemory>
    requires least { 1 ≤ site.0 }
    requires most { site.0 ≤ 8 }
    ensures { OnOk result (outs.new ≡ outs.old ++ (if has_site targets site then steps.to_site vector site (words.message_of notice) ∷ [] else [])) }
{
    if targets.contains(site) {
        return outs.push(to_site(vector, site, message_of(notice)));
    }
    Ok(())
}

/// The notice to each of these sites, least first.
fn send_each(
    vector: Vector,
    targets: Sites,
    notice: Notice,
    outs: &mut Outs,
) -> Result<(), NoMemory>
    ensures { OnOk result (outs.new ≡ outs.old ++ map (λ s. steps.to_site vector s (words.message_of notice)) targets) }
{
    sets::ascends(targets);
    for number in 1..9 {
        send_one(vector, targets, Site(number), notice, outs)?;
    }
    Ok(())
}

/// The notice to each up site, least first.
pub fn to_all(vector: Vector, notice: Notice, outs: &mut Outs) -> Result<(), NoMemory>
    ensures { OnOk result ((w : Workload) (p : List Noted) → vector ≡ seen.vector w p → length vector ≡ w.sites → outs.new ≡ outs.old ++ sequencer.to_all w p (words.message_of notice)) }
{
    send_each(vector, up_sites(vector), notice, outs)
}

/// What a Read sends: its site is to serve it, and the home is told who serves it where that is another site.
pub fn read_sends(
    vector: Vector,
    home: Site,
    ask: u32,
    txn: Txn,
    item: Item,
    site: Site,
    outs: &mut Outs,
) -> Result<(), NoMemory>
    ensures { OnOk result ((w : Workload) (p : List Noted) → vector ≡ seen.vector w p → home ≡ parts.home w txn → outs.new ≡ outs.old ++ sequencer.read_sends w p ask txn item site) }
{
    let message = Message::ReadDo {
        txn,
        ask,
        item,
        home,
        home_session: session_of(vector, home),
    };
    outs.push(to_site(vector, site, message))?;
    if home != site {
        let message = Message::Serving { txn, ask, site };
        outs.push(to_site(vector, home, message))?;
    }
    Ok(())
}

/// What a Commit sends a site first: that it applies the writes, where they are applied there.
fn apply_sends(
    vector: Vector,
    number: u32,
    txn: Txn,
    applied: Sites,
    site: Site,
    outs: &mut Outs,
) -> Result<(), NoMemory>
    requires least { 1 ≤ site.0 }
    requires most { site.0 ≤ 8 }
    ensures { OnOk result (outs.new ≡ outs.old ++ (if has_site applied site then steps.to_site vector site (letters.Apply txn number) ∷ [] else [])) }
{
    if applied.contains(site) {
        let message = Message::Apply { txn, number };
        return outs.push(to_site(vector, site, message));
    }
    Ok(())
}

/// What it sends the site then: that all is done, where it is the home and up.
fn done_sends(
    vector: Vector,
    home: Site,
    txn: Txn,
    site: Site,
    outs: &mut Outs,
) -> Result<(), NoMemory>
    ensures { OnOk result (outs.new ≡ outs.old ++ (if is_site site home && is_site_up vector site then steps.to_site vector site (letters.Done txn) ∷ [] else [])) }
{
    if home == site && session_of(vector, site) > 0 {
        return outs.push(to_site(vector, site, Message::Done { txn }));
    }
    Ok(())
}

/// What a Commit sends, by site.
pub fn commit_sends(
    vector: Vector,
    sites: u8,
    home: Site,
    number: u32,
    txn: Txn,
    applied: Sites,
    outs: &mut Outs,
) -> Result<(), NoMemory>
    requires { sites ≤ 8 }
    ensures { OnOk result ((w : Workload) (p : List Noted) → vector ≡ seen.vector w p → home ≡ parts.home w txn → number ≡ length p → sites ≡ w.sites → outs.new ≡ outs.old ++ flat_map (sequencer.commit_sends w p txn applied) (parts.sites w)) }
{
    for k in 0..sites {
        let site = Site(k + 1);
        apply_sends(vector, number, txn, applied, site, outs)?;
        done_sends(vector, home, txn, site, outs)?;
    }
    Ok(())
}

/// What an Abort sends each up site; its home tries again where the cause allows it and an attempt is left.
pub fn drop_of(workload: &Workload, txn: Txn, cause: Cause) -> Notice
    ensures { words.message_of result ≡ sequencer.drop_of workload.now txn cause }
{
    let again = is_restartable(cause) && homes::attempt(workload, txn) < workload.restarts as u32;
    Notice::Drop { txn, again }
}

/// What an Up sends: a welcome to the site, and a note to each other that is up.
pub fn up_sends(
    vector: Vector,
    next: u32,
    site: Site,
    session: u32,
    outs: &mut Outs,
) -> Result<(), NoMemory>
    requires least { 1 ≤ site.0 }
    requires most { site.0 ≤ 8 }
    ensures { OnOk result ((w : Workload) (p : List Noted) → vector ≡ seen.vector w p → length vector ≡ w.sites → next ≡ sequencer.next_number w p site → outs.new ≡ outs.old ++ sequencer.up_sends w p site session) }
{
    outs.push(to_site(vector, site, Message::Welcome { vector, next }))?;
    let others = without(up_sites(vector), site);
    send_each(vector, others, Notice::Up { site, session }, outs)
}

/// What an entry sends, where the vector is that of the history that ends with it, `number` its number there, and `ask` the number of the
/// ask that it answers.
pub fn sends(
    workload: &Workload,
    vector: Vector,
    nexts: &Nexts,
    number: u32,
    ask: u32,
    entry: &Entry,
    outs: &mut Outs,
) -> Result<(), NoMemory>
    requires { words.may_send workload.now entry.now ≡ true }
    ensures { OnOk result ((p : List Noted) → vector ≡ seen.vector workload.now p → length vector ≡ workload.now.sites → AreNext workload.now nexts.now p → number ≡ length p → outs.new ≡ outs.old ++ sequencer.sends workload.now p ask entry.now) }
{
    match entry {
        Entry::Read { txn, item, site } => {
            let home = homes::home(workload, *txn);
            read_sends(vector, home, ask, *txn, *item, *site, outs)
        }
        Entry::Commit { txn, applied, .. } => {
            let home = homes::home(workload, *txn);
            commit_sends(vector, workload.sites, home, number, *txn, *applied, outs)
        }
        Entry::Abort { txn, cause, .. } => to_all(vector, drop_of(workload, *txn, *cause), outs),
        Entry::Down { site } => to_all(vector, Notice::Down { site: *site }, outs),
        Entry::Up { site, session } => {
            up_sends(vector, nexts.number(*site), *site, *session, outs)
        }
        Entry::Begin { .. }
        | Entry::Wait { .. }
        | Entry::Ack { .. }
        | Entry::SwitchOn { .. }
        | Entry::SwitchEnd { .. }
        | Entry::Clear { .. } => Ok(()),
    }
}
