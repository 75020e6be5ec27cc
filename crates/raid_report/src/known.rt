//! What a reader knows of a workload.

ghost use Rattle.std.specs.Prelude.{◌≡◌, ◌≤◌, ◌<◌, length, IfOk};
ghost use Rattle.raid_pieces.specs.Reading.{Tells};
ghost use Rattle.raid_report.specs.Forms.{item_of};

use raid_base::{Item, NoMemory};
use raid_pieces::{Names, Unfit};
use raid_workload::Workload;
use std::alloc::Global;
use std::marker::Model;

/// A workload, whose items are found by name. Contracts see the workload.
#[derive(Drop)]
pub struct Known<'a> {
    workload: &'a Workload,
    names: Names<'a>,
}

impl<'a> Model for Known<'a> {
    ghost use Rattle.std.specs.Prelude.{◌≡◌};
    ghost use Rattle.raid_workload.specs.declared.workload.Workload.{Workload};
    ghost use Rattle.raid_report.specs.Forms.{names_of};

    ghost Value = { Workload };

    ghost view = { λ k. k.workload.now };

    ghost invariant = { λ k. k.names ≡ names_of k.workload.now };
}

impl<'a> Known<'a> {
    /// What there is to know of a workload.
    pub fn new(alloc: Global, workload: &'a Workload) -> Result<Self, NoMemory>
        ensures { IfOk result (λ k. k ≡ workload.now) }
    {
        let mut names = Names::new(alloc);
        for line in workload.items.as_slice() {
            names.push(line.name.as_slice())?;
        }
        Ok(Known { workload, names })
    }

    /// The workload.
    pub fn workload(&self) -> &'a Workload
        ensures { result.now ≡ self.now }
    {
        self.workload
    }

    /// How many programs the workload has.
    pub fn programs(&self) -> u32
        ensures few { result ≤ 2000 }
        ensures programs { result ≡ length self.now.programs }
    {
        self.workload.programs.len() as u32
    }

    /// How many sites the workload has, 1 to 8.
    pub fn sites(&self) -> u8
        ensures some { 1 ≤ result }
        ensures few { result ≤ 8 }
        ensures sites { result ≡ self.now.sites }
    {
        self.workload.sites
    }

    /// How many times a program may be tried again, at most 3.
    pub fn restarts(&self) -> u8
        ensures few { result ≤ 3 }
        ensures restarts { result ≡ self.now.restarts }
    {
        self.workload.restarts
    }

    /// The item of this name.
    #[tactic(auto, unfolding(crate::specs::Forms::item_of))]
    pub fn item_of(&self, name: &'a [u8]) -> Result<Item, Unfit>
        ensures { Tells (λ x. x) result (item_of self.now name.now) }
    {
        match self.names.place_of(name) {
            Some(place) => Ok(Item(place as u16)),
            None => Err(Unfit),
        }
    }
}
