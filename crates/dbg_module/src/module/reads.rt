//! Reads of the registers.

ghost use Rattle.std.specs.Prelude.{◌≡◌, ◌≤◌, [], length, if◌then◌else◌};
ghost use Rattle.rv_model.specs.Memory.{hart_places};
ghost use Rattle.debug_model.specs.Module.{dmcontrol_shown, read_by, result_by, shown, shown_inactive};
ghost use Rattle.debug_model.specs.ModuleWords.{dmcontrol_word};
ghost use Rattle.dbg_module.specs.Sites.{bare_site};

use super::Module;
use crate::haltsum::haltsum;
use crate::performed::{Performed, noted, unnoted};
use crate::status::{hart_at, hart_status};
use debug_model::{Dmcontrol, ModuleRegister, Point};
use hart_debug::DebugHart;

impl Module {
    /// A read of a register: while the module does not work, it changes nothing and tells nothing of the harts.
    pub(super) fn read(&mut self, register: ModuleRegister, harts: &[DebugHart]) -> Performed
        requires { length harts.now ≤ hart_places }
        ensures site { (if self.old.active then read_by register (bare_site self.old harts.now []) else bare_site self.old harts.now [])
            ≡ bare_site self.new harts.now result.points.items }
        ensures result { result.result ≡ result_by self.old.active register (bare_site self.old harts.now []) }
    {
        if self.active {
            self.read_active(register, harts)
        } else {
            unnoted(self.inactive_word(register))
        }
    }

    /// The value of dmcontrol: the requests in it are not kept.
    fn dmcontrol(&self) -> u32
        ensures { result ≡ dmcontrol_word (dmcontrol_shown self.now) }
    {
        let shown = Dmcontrol {
            haltreq: false,
            resumereq: false,
            ackhavereset: false,
            hartsello: self.hartsel,
            dmactive: self.active,
        };
        shown.word()
    }

    /// What a register shows of a module that does not work: all but dmcontrol read 0.
    fn inactive_word(&self, register: ModuleRegister) -> u32
        ensures { result ≡ shown_inactive register (bare_site self.now [] []) }
    {
        match register {
            ModuleRegister::Dmcontrol => self.dmcontrol(),
            _ => 0,
        }
    }

    /// A read of a register of a module that works.
    fn read_active(&mut self, register: ModuleRegister, harts: &[DebugHart]) -> Performed
        requires { length harts.now ≤ hart_places }
        ensures site { read_by register (bare_site self.old harts.now []) ≡ bare_site self.new harts.now result.points.items }
        ensures result { result.result ≡ shown register (bare_site self.old harts.now []) }
    {
        match register {
            ModuleRegister::Word(word) => {
                unnoted(self.commands.read_word(word, hart_at(harts, self.hartsel)))
            }
            ModuleRegister::Dmcontrol => unnoted(self.dmcontrol()),
            ModuleRegister::Dmstatus => {
                let status = hart_status(self.version, hart_at(harts, self.hartsel));
                noted(status.word(), Point::Look(self.hartsel))
            }
            ModuleRegister::Abstractcs => unnoted(self.commands.abstractcs()),
            ModuleRegister::Command => unnoted(0),
            ModuleRegister::Abstractauto => unnoted(self.commands.abstractauto()),
            ModuleRegister::Sbcs => unnoted(self.bus.sbcs()),
            ModuleRegister::Sbaddress0 => unnoted(self.bus.read_sbaddress0()),
            ModuleRegister::Sbaddress1 => unnoted(self.bus.read_sbaddress1()),
            ModuleRegister::Sbdata0 => unnoted(self.bus.read_sbdata0()),
            ModuleRegister::Sbdata1 => unnoted(self.bus.read_sbdata1()),
            ModuleRegister::Haltsum0 => unnoted(haltsum(self.hartsel, harts)),
            ModuleRegister::Nothing => unnoted(0),
        }
    }
}
