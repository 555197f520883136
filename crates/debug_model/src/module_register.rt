ghost use Rattle.std.specs.Prelude.{◌≡◌};
ghost use Rattle.debug_model.specs.Module.{register_at};

use crate::abstract_command::AbstractCommand;
use crate::abstractauto::Abstractauto;
use crate::abstractcs::Abstractcs;
use crate::command_word::CommandWord;
use crate::dmcontrol::Dmcontrol;
use crate::dmstatus::Dmstatus;
use crate::plain_register::{
    Data0, Data1, Haltsum0, Progbuf0, Progbuf1, Progbuf2, Progbuf3, Sbaddress0, Sbaddress1,
    Sbdata0, Sbdata1,
};
use crate::sbcs::Sbcs;

/// What stands at an address of the debug module interface (RISC-V Debug Specification 1.0, "Debug Module Registers").
#[derive(Clone, Copy, Debug, PartialEq, Eq)]
pub enum ModuleRegister {
    /// A word that is shared with abstract commands.
    Word(CommandWord),
    /// 0x10.
    Dmcontrol,
    /// 0x11.
    Dmstatus,
    /// 0x16.
    Abstractcs,
    /// 0x17.
    Command,
    /// 0x18.
    Abstractauto,
    /// 0x38.
    Sbcs,
    /// 0x39.
    Sbaddress0,
    /// 0x3a.
    Sbaddress1,
    /// 0x3c.
    Sbdata0,
    /// 0x3d.
    Sbdata1,
    /// 0x40.
    Haltsum0,
    /// Every other address: it reads 0, and writes are ignored. `hartinfo` at 0x12 is among them.
    Nothing,
}

impl ModuleRegister {
    /// What stands at an address.
    #[tactic(auto, unfolding(crate::specs::Module::register_at))]
    pub fn at(address: u8) -> Self
        ensures { result ≡ register_at address }
    {
        match address {
            Data0::ADDRESS => ModuleRegister::Word(CommandWord::Data0),
            Data1::ADDRESS => ModuleRegister::Word(CommandWord::Data1),
            Dmcontrol::ADDRESS => ModuleRegister::Dmcontrol,
            Dmstatus::ADDRESS => ModuleRegister::Dmstatus,
            Abstractcs::ADDRESS => ModuleRegister::Abstractcs,
            AbstractCommand::ADDRESS => ModuleRegister::Command,
            Abstractauto::ADDRESS => ModuleRegister::Abstractauto,
            Progbuf0::ADDRESS => ModuleRegister::Word(CommandWord::Progbuf0),
            Progbuf1::ADDRESS => ModuleRegister::Word(CommandWord::Progbuf1),
            Progbuf2::ADDRESS => ModuleRegister::Word(CommandWord::Progbuf2),
            Progbuf3::ADDRESS => ModuleRegister::Word(CommandWord::Progbuf3),
            Sbcs::ADDRESS => ModuleRegister::Sbcs,
            Sbaddress0::ADDRESS => ModuleRegister::Sbaddress0,
            Sbaddress1::ADDRESS => ModuleRegister::Sbaddress1,
            Sbdata0::ADDRESS => ModuleRegister::Sbdata0,
            Sbdata1::ADDRESS => ModuleRegister::Sbdata1,
            Haltsum0::ADDRESS => ModuleRegister::Haltsum0,
            _ => ModuleRegister::Nothing,
        }
    }
}
