//! The module and its operations.

ghost use Rattle.std.specs.Prelude.{◌≡◌, ◌≤◌, ◌++◌, List, length};
ghost use Rattle.rv_model.specs.Board.{Hart};
ghost use Rattle.rv_model.specs.Memory.{Memory, hart_places};
ghost use Rattle.rv_model.specs.declared.version.Version.TheVariants.{V10};
ghost use Rattle.debug_model.specs.declared.point.Point.{Point};
ghost use Rattle.debug_model.specs.Module.{operated, operation_result, reset_module};
ghost use Rattle.dbg_module.specs.Served.{IsServedBy};
ghost use Rattle.dbg_module.specs.Sites.{site_of};

mod deeds;
mod reads;
mod writes;

use crate::performed::Performed;
use dbg_abstract::CommandUnit;
use dbg_sysbus::BusUnit;
use debug_model::{DmiOp, ModuleRegister};
use hart_debug::DebugHart;
use rv_model::Version;
use std::marker::Model;

/// The debug module.
#[derive(Drop)]
pub struct Module {
    /// The release that it follows: it never changes.
    version: Version,
    active: bool,
    hartsel: u16,
    commands: CommandUnit,
    bus: BusUnit,
}

impl Model for Module {
    ghost use Rattle.debug_model.specs.Module.{DebugModule};

    ghost Value = { DebugModule };

    ghost view = { λ m. record { version = m.version; active = m.active; hartsel = m.hartsel; commands = m.commands; bus = m.bus } };
}

impl Module {
    /// The module of release 1.0 as a reset leaves it: it does not work until dmcontrol says so.
    pub fn new() -> Self
        ensures module { result ≡ reset_module V10 }
        ensures served { (hs : List Hart) → IsServedBy result hs }
    {
        Module::of_version(Version::V10)
    }

    /// The same of a release.
    pub fn of_version(version: Version) -> Self
        ensures module { result ≡ reset_module version }
        ensures served { (hs : List Hart) → IsServedBy result hs }
    {
        Module {
            version,
            active: false,
            hartsel: 0,
            commands: CommandUnit::new(),
            bus: BusUnit::new(),
        }
    }

    #[tactic(auto, using(crate::proofs::SiteLemmas::operated_from, crate::proofs::SiteLemmas::result_anywhere, crate::proofs::ServedLemmas::operated_served))]
    /// Performs an operation on the harts, each at the place of its number. Memory is not touched.
    pub fn perform(&mut self, op: DmiOp, harts: &mut [DebugHart]) -> Performed
        requires { length harts.old ≤ hart_places }
        ensures site { (m : Memory) (j : List Point) → operated op (site_of self.old harts.old m j) ≡ site_of self.new harts.new m (j ++ result.points.items) }
        ensures result { (m : Memory) (j : List Point) → operation_result op (site_of self.old harts.old m j) ≡ result.result }
        ensures served { IsServedBy self.old harts.old → IsServedBy self.new harts.new }
    {
        match op {
            DmiOp::Read(address) => self.read(ModuleRegister::at(address), harts),
            DmiOp::Write(address, word) => Performed {
                result: word,
                points: self.write(ModuleRegister::at(address), word, harts),
            },
        }
    }
}
