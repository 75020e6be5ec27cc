//! The text of a workload.

ghost use Rattle.std.specs.Prelude.{◌≡◌, ◌<◌, ◌≤◌, ◌++◌, ◌∷◌, IsTrue, length, map, codes, OnOk, IfOk, decimal};
ghost use Rattle.std.specs.Fmt.{signed_decimal};
ghost use Rattle.std.specs.List.{flat_map, list_all};
ghost use Rattle.raid_tokens.specs.Spelled.{term_word, register_word};
ghost use Rattle.raid_workload.specs.Rules.{are_ascending, is_item, is_statement, is_homed};
ghost use Rattle.raid_text.specs.Outcome.{Reads};
ghost use Rattle.raid_text.specs.Spelling.{spaced, line_text, sign_word, site_word, steps_words, expr_words, version_words, restarts_lines, item_words, kind_word, structure_word, method_word, sites_words, open_words, switch_words, event_words, name_of, statement_words, program_words, program_lines, spelling, print_of};

use itoa::Buffer;
use raid_base::{Bytes, Item, Kind, Listed, Method, NoMemory, Site, Sites, Structure};
use raid_program::{Expr, Program, Statement, Term};
use raid_workload::{Event, Homed, ItemLine, Switch, Workload};
use std::alloc::Global;

/// A space, and a word.
fn put_word(out: &mut Bytes, word: &[u8]) -> Result<(), NoMemory>
    ensures { OnOk result (out.new ≡ out.old ++ (0x20 ∷ word.now)) }
{
    out.push_all(b" ")?;
    out.push_all(word)
}

/// A space, and a number.
fn put_number(out: &mut Bytes, n: u32) -> Result<(), NoMemory>
    ensures { OnOk result (out.new ≡ out.old ++ (0x20 ∷ decimal n)) }
{
    put_word(out, Buffer::new().format(n).as_bytes())
}

/// A space, and a site's number.
fn put_site(out: &mut Bytes, site: Site) -> Result<(), NoMemory>
    ensures { OnOk result (out.new ≡ out.old ++ (0x20 ∷ site_word site)) }
{
    put_number(out, u32::from(site.0))
}

/// A space, and a value.
fn put_value(out: &mut Bytes, n: i64) -> Result<(), NoMemory>
    ensures { OnOk result (out.new ≡ out.old ++ (0x20 ∷ signed_decimal n)) }
{
    put_word(out, Buffer::new().format(n).as_bytes())
}

/// A space, and a register.
fn put_register(out: &mut Bytes, r: u8) -> Result<(), NoMemory>
    ensures { OnOk result (out.new ≡ out.old ++ (0x20 ∷ register_word r)) }
{
    put_word(out, b"r")?;
    out.push_all(Buffer::new().format(u32::from(r)).as_bytes())?;
    Ok(())
}

/// A space, and a term.
fn put_term(out: &mut Bytes, term: Term) -> Result<(), NoMemory>
    ensures { OnOk result (out.new ≡ out.old ++ (0x20 ∷ term_word term)) }
{
    match term {
        Term::Reg(r) => put_register(out, r),
        Term::Value(v) => put_value(out, v),
    }
}

/// The sites of a set, ascending, a space before each.
fn put_sites(out: &mut Bytes, sites: Sites) -> Result<(), NoMemory>
    requires { IsTrue (are_ascending 1 8 sites) }
    ensures { OnOk result (out.new ≡ out.old ++ spaced (map site_word sites)) }
{
    for before in 0..8u8 {
        let site = Site(before + 1);
        if sites.contains(site) {
            put_site(out, site)?;
        }
    }
    Ok(())
}

/// The line of an item.
fn item_line(out: &mut Bytes, sites: u8, item: &ItemLine) -> Result<(), NoMemory>
    requires item { IsTrue (is_item sites item.now) }
    requires few { sites ≤ 8 }
    ensures { OnOk result (out.new ≡ out.old ++ line_text (item_words item.now)) }
{
    out.push_all(b"item")?;
    put_word(out, item.name.as_slice())?;
    put_value(out, item.value)?;
    put_word(out, b"at")?;
    put_sites(out, item.holders)?;
    out.push_all(b"\n")
}

/// A kind's word.
fn kind_word(kind: Kind) -> &'static [u8]
    ensures { result.now ≡ kind_word kind }
{
    match kind {
        Kind::Lock => b"lock",
        Kind::Stamp => b"stamp",
        Kind::Valid => b"valid",
        Kind::Graph => b"graph",
    }
}

/// A structure's word.
fn structure_word(structure: Structure) -> &'static [u8]
    ensures { result.now ≡ structure_word structure }
{
    match structure {
        Structure::Native => b"native",
        Structure::GenericState => b"generic",
    }
}

/// A method's word.
fn method_word(method: Method) -> &'static [u8]
    ensures { result.now ≡ method_word method }
{
    match method {
        Method::Generic => b"generic",
        Method::Convert => b"convert",
        Method::Suffix => b"suffix",
    }
}

/// The line of the sites.
fn sites_line(out: &mut Bytes, sites: u8, together: u8) -> Result<(), NoMemory>
    ensures { OnOk result (out.new ≡ out.old ++ line_text (sites_words sites together)) }
{
    out.push_all(b"sites")?;
    put_number(out, u32::from(sites))?;
    put_word(out, b"together")?;
    put_number(out, u32::from(together))?;
    out.push_all(b"\n")
}

/// The line that opens the body.
fn open_line(out: &mut Bytes, kind: Kind, structure: Structure) -> Result<(), NoMemory>
    ensures { OnOk result (out.new ≡ out.old ++ line_text (open_words kind structure)) }
{
    out.push_all(b"open")?;
    put_word(out, kind_word(kind))?;
    put_word(out, structure_word(structure))?;
    out.push_all(b"\n")
}

/// The line of a switch.
fn switch_line(out: &mut Bytes, switch: Switch) -> Result<(), NoMemory>
    ensures { OnOk result (out.new ≡ out.old ++ line_text (switch_words switch)) }
{
    out.push_all(b"switch")?;
    put_word(out, kind_word(switch.kind))?;
    put_word(out, b"by")?;
    put_word(out, method_word(switch.method))?;
    put_word(out, b"after")?;
    put_number(out, switch.trigger)?;
    out.push_all(b"\n")
}

/// The line of a stop or a return.
fn event_line(out: &mut Bytes, event: Event) -> Result<(), NoMemory>
    ensures { OnOk result (out.new ≡ out.old ++ line_text (event_words event)) }
{
    if event.stop {
        out.push_all(b"stop")?;
    } else {
        out.push_all(b"return")?;
    }
    put_site(out, event.site)?;
    put_word(out, b"after")?;
    put_number(out, event.trigger)?;
    out.push_all(b"\n")
}

/// A space, and a sign, true for plus.
fn put_sign(out: &mut Bytes, plus: bool) -> Result<(), NoMemory>
    ensures { OnOk result (out.new ≡ out.old ++ (0x20 ∷ sign_word plus)) }
{
    if plus {
        put_word(out, b"+")
    } else {
        put_word(out, b"-")
    }
}

/// Further terms with their signs, a space before each word.
fn put_steps(out: &mut Bytes, steps: &[(bool, Term)]) -> Result<(), NoMemory>
    ensures { OnOk result (out.new ≡ out.old ++ spaced (steps_words steps.now)) }
{
    for step in steps {
        put_sign(out, step.0)?;
        put_term(out, step.1)?;
    }
    Ok(())
}

/// An expression, a space before each word.
fn put_expr(out: &mut Bytes, expr: &Expr) -> Result<(), NoMemory>
    ensures { OnOk result (out.new ≡ out.old ++ spaced (expr_words expr.now)) }
{
    put_term(out, expr.first)?;
    put_steps(out, expr.rest.as_slice())
}

/// A space, and an item's name.
fn put_name(out: &mut Bytes, items: &[ItemLine], item: Item) -> Result<(), NoMemory>
    requires { item.0 < length items.now }
    ensures { OnOk result (out.new ≡ out.old ++ (0x20 ∷ name_of items.now item)) }
{
    put_word(out, items[item.0 as usize].name.as_slice())
}

/// The line of a statement.
fn statement_line(
    out: &mut Bytes,
    items: &[ItemLine],
    statement: &Statement,
) -> Result<(), NoMemory>
    requires { IsTrue (is_statement (length items.now) statement.now) }
    ensures { OnOk result (out.new ≡ out.old ++ line_text (statement_words items.now statement.now)) }
{
    match statement {
        Statement::Read { item, reg } => {
            out.push_all(b"read")?;
            put_name(out, items, *item)?;
            put_register(out, *reg)?;
        }
        Statement::Write { item, expr } => {
            out.push_all(b"write")?;
            put_name(out, items, *item)?;
            put_expr(out, expr)?;
        }
        Statement::StopIf { left, right } => {
            out.push_all(b"stop")?;
            put_word(out, b"if")?;
            put_expr(out, left)?;
            put_word(out, b"<")?;
            put_expr(out, right)?;
        }
    }
    out.push_all(b"\n")
}

/// The line that begins a program.
fn program_line(out: &mut Bytes, home: Site) -> Result<(), NoMemory>
    ensures { OnOk result (out.new ≡ out.old ++ line_text (program_words home)) }
{
    out.push_all(b"program")?;
    put_site(out, home)?;
    out.push_all(b"\n")
}

/// The lines of a program's statements.
fn put_statements(out: &mut Bytes, items: &[ItemLine], program: &Program) -> Result<(), NoMemory>
    requires { IsTrue (list_all (is_statement (length items.now)) program.now) }
    ensures { OnOk result (out.new ≡ out.old ++ flat_map line_text (map (statement_words items.now) program.now)) }
{
    for k in 0..program.len() {
        statement_line(out, items, program.get(k))?;
    }
    Ok(())
}

/// The lines of a program, to its end.
fn put_program(out: &mut Bytes, items: &[ItemLine], homed: &Homed) -> Result<(), NoMemory>
    requires { IsTrue (list_all (is_statement (length items.now)) homed.now.program) }
    ensures { OnOk result (out.new ≡ out.old ++ flat_map line_text (program_lines items.now homed.now)) }
{
    program_line(out, homed.home)?;
    put_statements(out, items, &homed.program)?;
    out.push_all(b"end\n")
}

/// The lines of programs.
fn put_programs(
    out: &mut Bytes,
    sites: u8,
    items: &[ItemLine],
    programs: &[Homed],
) -> Result<(), NoMemory>
    requires { IsTrue (list_all (is_homed sites (length items.now)) programs.now) }
    ensures { OnOk result (out.new ≡ out.old ++ flat_map line_text (flat_map (program_lines items.now) programs.now)) }
{
    for homed in programs {
        put_program(out, items, homed)?;
    }
    Ok(())
}

/// The lines of items.
fn put_items(out: &mut Bytes, sites: u8, items: &[ItemLine]) -> Result<(), NoMemory>
    requires few { sites ≤ 8 }
    requires items { IsTrue (list_all (is_item sites) items.now) }
    ensures { OnOk result (out.new ≡ out.old ++ flat_map line_text (map item_words items.now)) }
{
    for item in items {
        item_line(out, sites, item)?;
    }
    Ok(())
}

/// The lines of switches.
fn put_switches(out: &mut Bytes, switches: &[Switch]) -> Result<(), NoMemory>
    ensures { OnOk result (out.new ≡ out.old ++ flat_map line_text (map switch_words switches.now)) }
{
    for switch in switches {
        switch_line(out, *switch)?;
    }
    Ok(())
}

/// The lines of stops and returns.
fn put_events(out: &mut Bytes, events: &[Event]) -> Result<(), NoMemory>
    ensures { OnOk result (out.new ≡ out.old ++ flat_map line_text (map event_words events.now)) }
{
    for event in events {
        event_line(out, *event)?;
    }
    Ok(())
}

/// The lines of the version, the sites and the restarts.
fn put_head(out: &mut Bytes, workload: &Workload) -> Result<(), NoMemory>
    ensures { OnOk result (out.new ≡ out.old ++ flat_map line_text (version_words workload.now.version ∷ sites_words workload.now.sites workload.now.together ∷ restarts_lines workload.now.version workload.now.restarts)) }
{
    out.push_all(b"workload")?;
    put_number(out, u32::from(workload.version))?;
    out.push_all(b"\n")?;
    sites_line(out, workload.sites, workload.together)?;
    if workload.version == 2 {
        out.push_all(b"restarts")?;
        put_number(out, u32::from(workload.restarts))?;
        out.push_all(b"\n")?;
    }
    Ok(())
}

/// The lines of a workload.
fn put_workload(out: &mut Bytes, workload: &Workload) -> Result<(), NoMemory>
    ensures { OnOk result (out.new ≡ out.old ++ flat_map line_text (spelling workload.now)) }
{
    put_head(out, workload)?;
    put_items(out, workload.sites, workload.items.as_slice())?;
    open_line(out, workload.kind, workload.structure)?;
    put_switches(out, workload.switches.as_slice())?;
    put_events(out, workload.events.as_slice())?;
    put_programs(
        out,
        workload.sites,
        workload.items.as_slice(),
        workload.programs.as_slice(),
    )?;
    out.push_all(b"done\n")?;
    Ok(())
}

/// The one text that is written for a workload. It reads as this workload. Want of memory is the only error.
pub fn print(alloc: Global, workload: &Workload) -> Result<Bytes, NoMemory>
    ensures text { IfOk result (λ bytes. bytes ≡ print_of workload.now) }
    ensures reads { IfOk result (λ bytes. Reads bytes workload.now) }
{
    let mut out = Listed::new(alloc);
    put_workload(&mut out, workload)?;
    Ok(out)
}
