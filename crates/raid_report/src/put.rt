//! Words, as they are put down behind what is written already.

ghost use Rattle.std.specs.Prelude.{◌≡◌, ◌<◌, ◌≤◌, ℕ, ℤ, List, [], ◌∷◌, ◌++◌, length, map, OnOk};
ghost use Rattle.std.specs.Fmt.{decimal, signed_decimal};
ghost use Rattle.std.specs.List.{AllByRecursion};
ghost use Rattle.raid_report.specs.Known.{KnowsTxn, KnowsItem, KnowsPair};
ghost use Rattle.raid_report.specs.Spelling.{txn_word, attempt_part, site_word, name_of, pair_part, pairs_word, session_part, vector_word, set_word, kind_word, method_word, behind_commas};

use itoa::Buffer;
use raid_base::{
    Bytes, Item, Kind, Method, NoMemory, Pairs, Site, Sites, Txn, Vector, attempt_of, program_of,
};
use raid_workload::Workload;

/// A word, and the space before it.
pub fn put_word(out: &mut Bytes, word: &[u8]) -> Result<(), NoMemory>
    ensures { OnOk result (out.new ≡ out.old ++ (32 ∷ word.now)) }
{
    out.push(b' ')?;
    out.push_all(word)
}

/// The digits of a number.
pub fn put_digits(out: &mut Bytes, n: u32) -> Result<(), NoMemory>
    ensures { OnOk result (out.new ≡ out.old ++ decimal n) }
{
    out.push_all(Buffer::new().format(n).as_bytes())
}

pub fn put_number(out: &mut Bytes, n: u32) -> Result<(), NoMemory>
    ensures { OnOk result (out.new ≡ out.old ++ (32 ∷ decimal n)) }
{
    out.push(b' ')?;
    put_digits(out, n)
}

pub fn put_value(out: &mut Bytes, n: i64) -> Result<(), NoMemory>
    ensures { OnOk result (out.new ≡ out.old ++ (32 ∷ signed_decimal n)) }
{
    put_word(out, Buffer::new().format(n).as_bytes())
}

fn put_attempt(out: &mut Bytes, attempt: u32) -> Result<(), NoMemory>
    ensures { OnOk result (out.new ≡ out.old ++ attempt_part attempt) }
{
    if attempt == 0 {
        return Ok(());
    }
    out.push(b'.')?;
    put_digits(out, attempt)
}

fn programs(workload: &Workload) -> u32
    ensures { result ≡ length workload.now.programs }
{
    workload.programs.len() as u32
}

pub fn put_txn(out: &mut Bytes, workload: &Workload, txn: Txn) -> Result<(), NoMemory>
    requires { KnowsTxn workload.now txn }
    ensures { OnOk result (out.new ≡ out.old ++ (32 ∷ txn_word workload.now txn)) }
{
    let programs = programs(workload);
    put_word(out, b"t")?;
    put_digits(out, program_of(txn, programs))?;
    put_attempt(out, attempt_of(txn, programs))
}

fn put_site_part(out: &mut Bytes, site: Site) -> Result<(), NoMemory>
    ensures { OnOk result (out.new ≡ out.old ++ site_word site) }
{
    out.push(b's')?;
    put_digits(out, u32::from(site.0))
}

pub fn put_site(out: &mut Bytes, site: Site) -> Result<(), NoMemory>
    ensures { OnOk result (out.new ≡ out.old ++ (32 ∷ site_word site)) }
{
    out.push(b' ')?;
    put_site_part(out, site)
}

/// The name of an item.
pub fn name_of(workload: &Workload, item: Item) -> &[u8]
    requires { KnowsItem workload.now item }
    ensures { result.now ≡ name_of workload.now item }
{
    workload.items.get(item.0 as usize).name.as_slice()
}

pub fn put_name(out: &mut Bytes, workload: &Workload, item: Item) -> Result<(), NoMemory>
    requires { KnowsItem workload.now item }
    ensures { OnOk result (out.new ≡ out.old ++ (32 ∷ name_of workload.now item)) }
{
    put_word(out, name_of(workload, item))
}

fn put_pair_part(
    out: &mut Bytes,
    workload: &Workload,
    item: Item,
    value: i64,
) -> Result<(), NoMemory>
    requires { KnowsItem workload.now item }
    ensures { OnOk result (out.new ≡ out.old ++ pair_part workload.now (item, value)) }
{
    out.push_all(name_of(workload, item))?;
    out.push(b'=')?;
    out.push_all(Buffer::new().format(value).as_bytes())
}

/// Pairs behind the first, a comma before each.
fn put_more_pairs(
    out: &mut Bytes,
    workload: &Workload,
    pairs: &[(Item, i64)],
) -> Result<(), NoMemory>
    requires { AllByRecursion (KnowsPair workload.now) pairs.now }
    ensures { OnOk result (out.new ≡ out.old ++ behind_commas (map (pair_part workload.now) pairs.now)) }
{
    for (item, value) in pairs {
        out.push(b',')?;
        put_pair_part(out, workload, *item, *value)?;
    }
    Ok(())
}

pub fn put_pairs(out: &mut Bytes, workload: &Workload, pairs: &Pairs) -> Result<(), NoMemory>
    requires { AllByRecursion (KnowsPair workload.now) pairs.now }
    ensures { OnOk result (out.new ≡ out.old ++ (32 ∷ pairs_word workload.now pairs.now)) }
{
    match pairs.as_slice() {
        [] => put_word(out, b"-"),
        [(item, value), others @ ..] => {
            out.push(b' ')?;
            put_pair_part(out, workload, *item, *value)?;
            put_more_pairs(out, workload, others)
        }
    }
}

fn put_session_part(out: &mut Bytes, session: u32) -> Result<(), NoMemory>
    ensures { OnOk result (out.new ≡ out.old ++ session_part session) }
{
    if session == 0 {
        out.push_all(b"-")
    } else {
        put_digits(out, session)
    }
}

/// Sessions behind the first, a comma before each.
fn put_more_sessions(out: &mut Bytes, sessions: &[u32]) -> Result<(), NoMemory>
    ensures { OnOk result (out.new ≡ out.old ++ behind_commas (map session_part sessions.now)) }
{
    for session in sessions {
        out.push(b',')?;
        put_session_part(out, *session)?;
    }
    Ok(())
}

fn put_sessions(out: &mut Bytes, sessions: &[u32]) -> Result<(), NoMemory>
    ensures { OnOk result (out.new ≡ out.old ++ (32 ∷ vector_word sessions.now)) }
{
    match sessions {
        [] => put_word(out, b"-"),
        [session, others @ ..] => {
            out.push(b' ')?;
            put_session_part(out, *session)?;
            put_more_sessions(out, others)
        }
    }
}

pub fn put_vector(out: &mut Bytes, vector: Vector) -> Result<(), NoMemory>
    ensures { OnOk result (out.new ≡ out.old ++ (32 ∷ vector_word vector)) }
{
    put_sessions(out, &vector.sessions[..vector.count as usize])
}

pub fn kind_word(kind: Kind) -> &'static [u8]
    ensures { result.now ≡ kind_word kind }
{
    match kind {
        Kind::Lock => b"lock",
        Kind::Stamp => b"stamp",
        Kind::Valid => b"valid",
        Kind::Graph => b"graph",
    }
}

pub fn method_word(method: Method) -> &'static [u8]
    ensures { result.now ≡ method_word method }
{
    match method {
        Method::Generic => b"generic",
        Method::Convert => b"convert",
        Method::Suffix => b"suffix",
    }
}

/// The sites of a set.
pub fn put_set(out: &mut Bytes, sites: Sites) -> Result<(), NoMemory>
    ensures { OnOk result (out.new ≡ out.old ++ (32 ∷ set_word sites)) }
{
    if sites.is_empty() {
        return put_word(out, b"-");
    }
    let mut mark = b' ';
    for before in 0..8u8 {
        let site = Site(before + 1);
        if sites.contains(site) {
            out.push(mark)?;
            put_site_part(out, site)?;
            mark = b',';
        }
    }
    Ok(())
}
