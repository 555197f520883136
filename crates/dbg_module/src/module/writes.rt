//! Writes of the registers.

ghost use Rattle.std.specs.Prelude.{◌≡◌, ◌≤◌, [], length, slice_get};
ghost use Rattle.rv_model.specs.Memory.{hart_places};
ghost use Rattle.debug_model.specs.Module.{control_points, controlled_by, write_by, written_by};
ghost use Rattle.dbg_module.specs.Requests.{harts_requested};
ghost use Rattle.dbg_module.specs.Sites.{bare_site};

use super::Module;
use crate::performed::Points;
use crate::requests::request;
use crate::status::hart_at;
use arrayvec::ArrayVec;
use debug_model::{Dmcontrol, ModuleRegister};
use hart_debug::DebugHart;

/// Asks this of the hart that it selects, where there is one.
fn ask(control: Dmcontrol, harts: &mut [DebugHart]) -> Points
    requires { length harts.old ≤ hart_places }
    ensures points { result.items ≡ control_points control (slice_get harts.old control.hartsello) }
    ensures harts { harts.new ≡ harts_requested control (slice_get harts.old control.hartsello) harts.old }
{
    let place = usize::from(control.hartsello);
    if place >= harts.len() {
        return ArrayVec::new();
    }
    request(control, (control.hartsello & 0xff) as u8, &mut harts[place])
}

impl Module {
    /// A write of a register: while the module does not work, all but one of dmcontrol are ignored.
    pub(super) fn write(
        &mut self,
        register: ModuleRegister,
        word: u32,
        harts: &mut [DebugHart],
    ) -> Points
        requires { length harts.old ≤ hart_places }
        ensures { write_by register word (bare_site self.old harts.old []) ≡ bare_site self.new harts.new result.items }
    {
        match register {
            ModuleRegister::Dmcontrol => self.control(Dmcontrol::from_word(word), harts),
            other => {
                if self.active {
                    self.write_active(other, word, harts);
                }
                ArrayVec::new()
            }
        }
    }

    /// A write of dmcontrol. With dmactive 0 it resets the module and stops what is under way; a busy module ignores every other one.
    fn control(&mut self, control: Dmcontrol, harts: &mut [DebugHart]) -> Points
        requires { length harts.old ≤ hart_places }
        ensures { controlled_by control.dmactive control (bare_site self.old harts.old []) ≡ bare_site self.new harts.new result.items }
    {
        if !control.dmactive {
            *self = Module::of_version(self.version);
            return ArrayVec::new();
        }
        if self.commands.is_busy() {
            return ArrayVec::new();
        }
        self.active = true;
        self.hartsel = control.hartsello;
        ask(control, harts)
    }

    /// A write of a register of a module that works, other than dmcontrol.
    fn write_active(&mut self, register: ModuleRegister, word: u32, harts: &[DebugHart])
        ensures { written_by register word (bare_site self.old harts.now []) ≡ bare_site self.new harts.now [] }
    {
        match register {
            ModuleRegister::Word(name) => {
                self.commands
                    .write_word(name, word, hart_at(harts, self.hartsel));
            }
            ModuleRegister::Dmcontrol => {}
            ModuleRegister::Dmstatus => {}
            ModuleRegister::Abstractcs => self.commands.write_abstractcs(word),
            ModuleRegister::Command => {
                self.commands
                    .write_command(word, hart_at(harts, self.hartsel));
            }
            ModuleRegister::Abstractauto => self.commands.write_abstractauto(word),
            ModuleRegister::Sbcs => self.bus.write_sbcs(word),
            ModuleRegister::Sbaddress0 => self.bus.write_sbaddress0(word),
            ModuleRegister::Sbaddress1 => self.bus.write_sbaddress1(word),
            ModuleRegister::Sbdata0 => self.bus.write_sbdata0(word),
            ModuleRegister::Sbdata1 => self.bus.write_sbdata1(word),
            ModuleRegister::Haltsum0 => {}
            ModuleRegister::Nothing => {}
        }
    }
}
