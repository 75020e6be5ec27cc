//! The lines of the body.

ghost use Rattle.std.specs.Prelude.{◌≡◌, not, OnOk};
ghost use Rattle.raid_scan.specs.Words.{words_of};
ghost use Rattle.raid_tokens.specs.Reading.{Tells};
ghost use Rattle.raid_workload.specs.Rules.{is_method_for, is_stopped, is_turn};
ghost use Rattle.raid_text.specs.Body.{switch_line, switch_at, switch_fits, allowed_switch, event_at, event_line, program_line, done_line, end_line};
ghost use Rattle.raid_text.specs.Outcome.{Gives};

use crate::choices::{take_kind, take_method};
use crate::error::LineError;
use crate::state::{Place, State};
use raid_base::{Kind, Method, Site, Structure};
use raid_program::Program;
use raid_tokens::{Fault, take_end, take_keyword, take_number};
use raid_workload::{Event, Homed, Switch};
use std::alloc::Global;
use std::mem;

/// The words of a switch line.
#[tactic(auto, unfolding(crate::specs::Body::switch_at))]
fn take_switch(line: &[u8]) -> Result<Switch, Fault>
    ensures { Tells (λ x. x) result (switch_at (words_of line.now)) }
{
    let (kind, rest) = take_kind(line)?;
    let rest = take_keyword(rest, b"by")?;
    let (method, rest) = take_method(rest)?;
    let rest = take_keyword(rest, b"after")?;
    let (trigger, rest) = take_number(rest, 1, 2000, Fault::Range)?;
    take_end(rest)?;
    Ok(Switch {
        kind,
        method,
        trigger,
    })
}

/// Whether a structure has switches by this method.
fn is_method_for(structure: Structure, method: Method) -> bool
    ensures { result ≡ is_method_for structure method }
{
    !(matches!(structure, Structure::Native) && matches!(method, Method::Generic))
}

/// The fault of a switch whose words all fit, after one to the kind `latest` with this trigger.
#[tactic(auto, unfolding(crate::specs::Body::switch_fits))]
fn switch_fits(
    structure: Structure,
    latest: Kind,
    trigger: u32,
    switch: Switch,
) -> Result<(), Fault>
    ensures { Tells (λ _. tt) result (switch_fits structure latest trigger switch) }
{
    if !is_method_for(structure, switch.method) {
        return Err(Fault::Generic);
    }
    if switch.kind == latest {
        return Err(Fault::Same);
    }
    if switch.trigger < trigger {
        return Err(Fault::Order);
    }
    Ok(())
}

/// A switch that may come after one to the kind `latest` with this trigger.
#[tactic(auto, unfolding(crate::specs::Body::allowed_switch))]
fn allowed_switch(
    structure: Structure,
    latest: Kind,
    trigger: u32,
    line: &[u8],
) -> Result<Switch, Fault>
    ensures { Tells (λ x. x) result (allowed_switch structure latest trigger (words_of line.now)) }
{
    let switch = take_switch(line)?;
    switch_fits(structure, latest, trigger, switch)?;
    Ok(switch)
}

/// A line `switch KIND by METHOD after N`.
#[tactic(auto, unfolding(crate::specs::Body::switch_line))]
pub fn switch_line(state: &mut State, line: &[u8]) -> Result<(), LineError>
    ensures line { Gives (λ _. state.new) result (switch_line state.old (words_of line.now)) }
    ensures items { OnOk result (state.new.items ≡ state.old.items) }
{
    if state.switches.len() >= 64 {
        return Err(LineError::Fault(Fault::Many));
    }
    let switch = allowed_switch(
        state.structure,
        state.latest_kind,
        state.latest_switch,
        line,
    )?;
    state.switches.push(switch)?;
    state.latest_kind = switch.kind;
    state.latest_switch = switch.trigger;
    Ok(())
}

/// Whether the last event of a site, if there is one, is a stop.
fn is_stopped(events: &[Event], site: Site) -> bool
    ensures { result ≡ is_stopped events.now site }
{
    let mut stopped = false;
    for event in events {
        if event.site == site {
            stopped = event.stop;
        }
    }
    stopped
}

/// The words of a stop or return line behind the first.
#[tactic(auto, unfolding(crate::specs::Body::event_at))]
fn take_event(sites: u8, stop: bool, line: &[u8]) -> Result<Event, Fault>
    ensures { Tells (λ x. x) result (event_at sites stop (words_of line.now)) }
{
    let (site, rest) = take_number(line, 1, u32::from(sites), Fault::Site)?;
    let rest = take_keyword(rest, b"after")?;
    let (trigger, rest) = take_number(rest, 1, 2000, Fault::Range)?;
    take_end(rest)?;
    Ok(Event {
        stop,
        site: Site(site as u8),
        trigger,
    })
}

/// Whether a stop, or else a return, may come next at a site that is stopped, or isn't.
fn is_turn(stop: bool, stopped: bool) -> bool
    ensures { result ≡ is_turn stop stopped }
{
    stop != stopped
}

/// A line `stop S after N` or `return S after N`.
#[tactic(auto, unfolding(crate::specs::Body::event_line))]
pub fn event_line(state: &mut State, stop: bool, line: &[u8]) -> Result<(), LineError>
    ensures line { Gives (λ _. state.new) result (event_line state.old stop (words_of line.now)) }
    ensures items { OnOk result (state.new.items ≡ state.old.items) }
{
    if state.events.len() >= 64 {
        return Err(LineError::Fault(Fault::Many));
    }
    let event = take_event(state.sites, stop, line)?;
    if event.trigger < state.latest_event {
        return Err(LineError::Fault(Fault::Order));
    }
    if !is_turn(stop, is_stopped(state.events.as_slice(), event.site)) {
        return Err(LineError::Fault(Fault::State));
    }
    state.events.push(event)?;
    state.latest_event = event.trigger;
    Ok(())
}

/// A line `program S`.
#[tactic(auto, unfolding(crate::specs::Body::program_line))]
pub fn program_line(alloc: Global, state: &mut State, line: &[u8]) -> Result<(), Fault>
    ensures line { Tells (λ _. state.new) result (program_line state.old (words_of line.now)) }
    ensures items { OnOk result (state.new.items ≡ state.old.items) }
{
    if state.programs.len() >= 2000 {
        return Err(Fault::Many);
    }
    let (home, rest) = take_number(line, 1, u32::from(state.sites), Fault::Site)?;
    take_end(rest)?;
    state.place = Place::Program;
    state.home = Site(home as u8);
    state.program = Program::new(alloc);
    Ok(())
}

/// The line `done`.
#[tactic(auto, unfolding(crate::specs::Body::done_line))]
pub fn done_line(state: &mut State, line: &[u8]) -> Result<(), Fault>
    ensures line { Tells (λ _. state.new) result (done_line state.old (words_of line.now)) }
    ensures items { OnOk result (state.new.items ≡ state.old.items) }
{
    take_end(line)?;
    state.place = Place::Over;
    Ok(())
}

/// The line `end` of a program.
#[tactic(auto, unfolding(crate::specs::Body::end_line))]
pub fn end_line(alloc: Global, state: &mut State, line: &[u8]) -> Result<(), LineError>
    ensures line { Gives (λ _. state.new) result (end_line state.old (words_of line.now)) }
    ensures items { OnOk result (state.new.items ≡ state.old.items) }
{
    take_end(line)?;
    let program = mem::replace(&mut state.program, Program::new(alloc));
    state.programs.push(Homed {
        home: state.home,
        program,
    })?;
    state.place = Place::Body;
    Ok(())
}
