use raid_base::{Kind, Site, Structure};
use raid_program::Program;
use raid_workload::{Events, Items, Programs, Switches};

/// Which lines may come next.
#[derive(Clone, Copy, Debug, PartialEq, Eq)]
pub enum Place {
    /// The version.
    Start,
    /// The line of the sites.
    Sites,
    /// In version 2, the line of the restarts.
    Restarts,
    /// Items, and the line that opens the body.
    Items,
    /// Switches, stops, returns, programs and `done`.
    Body,
    /// The statements of a program, and its end.
    Program,
    /// None.
    Over,
}

/// What the lines so far said.
#[derive(Drop, Debug)]
pub struct State {
    pub place: Place,
    pub version: u8,
    pub restarts: u8,
    pub sites: u8,
    pub together: u8,
    pub items: Items,
    pub kind: Kind,
    pub structure: Structure,
    /// The kind of the switch line before, or else the one that the workload opens with.
    pub latest_kind: Kind,
    pub switches: Switches,
    /// The trigger of the switch line before, or else 1.
    pub latest_switch: u32,
    pub events: Events,
    /// The trigger of the stop or return before, or else 1.
    pub latest_event: u32,
    pub programs: Programs,
    /// The home of the program that is being read.
    pub home: Site,
    /// Its statements so far.
    pub program: Program,
}
