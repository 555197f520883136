//! What happens behind the transport between two operations: micro steps of a command, and accesses of the system bus.

ghost use Rattle.std.specs.Prelude.{◌≡◌, true, ◌++◌, List};
ghost use Rattle.rv_model.specs.Board.{Hart};
ghost use Rattle.debug_model.specs.declared.point.Point.{Point};
ghost use Rattle.debug_model.specs.Commands.{busy};
ghost use Rattle.debug_model.specs.Deeds.{access_points, bus_stepped, command_stepped};
ghost use Rattle.dbg_module.specs.Served.{IsServedBy};
ghost use Rattle.dbg_module.specs.Sites.{site_of};

use super::Module;
use hart_debug::DebugHart;
use rv_mem::Ram;

impl Module {
    /// One micro step of the command that is under way, on the selected hart; nothing where none is. The harts stand at the places of their numbers.
    /// It answers whether the step made an access to memory, or tried to: the journal has that.
    #[inline(always)]
    #[tactic(auto, using(crate::proofs::StepLemmas::idle_stepped))]
    pub fn command_step(&mut self, harts: &mut [DebugHart], ram: &mut Ram) -> bool
        requires { IsServedBy self.old harts.old }
        ensures site { (j : List Point) → command_stepped (site_of self.old harts.old ram.old j)
            ≡ site_of self.new harts.new ram.new (j ++ access_points result) }
        ensures served { IsServedBy self.new harts.new }
    {
        if !self.commands.is_busy() {
            return false;
        }
        self.step(harts, ram)
    }

    /// One micro step of the command that is under way.
    fn step(&mut self, harts: &mut [DebugHart], ram: &mut Ram) -> bool
        requires busy { busy self.old.commands ≡ true }
        requires served { IsServedBy self.old harts.old }
        ensures { (j : List Point) → command_stepped (site_of self.old harts.old ram.old j) ≡ site_of self.new harts.new ram.new (j ++ access_points result) }
    {
        let place = usize::from(self.hartsel);
        if place >= harts.len() {
            return false;
        }
        self.commands.micro(&mut harts[place], ram)
    }

    /// The access of the system bus that is under way is made; nothing where none is.
    /// It answers whether there was one: it touched memory, or tried to, and the journal has that.
    #[inline(always)]
    pub fn bus_step(&mut self, ram: &mut Ram) -> bool
        ensures site { (hs : List Hart) (j : List Point) → bus_stepped (site_of self.old hs ram.old j)
            ≡ site_of self.new hs ram.new (j ++ access_points result) }
        ensures served { (hs : List Hart) → IsServedBy self.old hs → IsServedBy self.new hs }
    {
        self.bus.done(ram)
    }
}
