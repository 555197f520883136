//! The opening of a chip, register by register.

ghost use Rattle.std.specs.Prelude.{◌≡◌, ◌≤◌, ◌∷◌, [], true, false, IfErr, IfOk, OnOk};
ghost use Rattle.debug_model.specs.Told.{IsAsLoaded, IsReady, Selects};
ghost use Rattle.probe_run.specs.Opening.{Activated, ActivationFails, BusCleared, BusFails, BusFits, CommandsFail, CommandsFit};
ghost use Rattle.probe_run.specs.Opening.{ConnectFails, IsOfRelease, LosesLoaded, ModuleFails, ModuleShows, Opened, OpenedAs, OpensLoaded, Then};
ghost use Rattle.probe_run.specs.Opening.{TransportFails, TransportFits, bus_fits, clears_cmderr, clears_sberror, commands_fit, is_active, release_of, starts_none, transport_fits};
ghost use Rattle.debug_model.specs.Kept.{CanCall, Keeps};
ghost use Rattle.debug_model.specs.Rises.{Within};
ghost use Rattle.probe_run.specs.Soon.{OpeningByWire};
ghost use Rattle.debug_model.specs.Scan.{WhereTold};
ghost use Rattle.probe_run.specs.Told.{Fails, told};
ghost use Rattle.probe_run.specs.Opening.{opening_why};

use crate::control::{Request, word_for};
use crate::fault::ConnectFault;
use crate::target::{Target, opened};
use crate::wait::look;
use arrayvec::ArrayVec;
use debug_model::{Abstractauto, Abstractcs, Dmcontrol, Dmi, DmiOp, Dmstatus, Dtmcs, Sbcs};
use rv_model::Version;

/// How often `dmcontrol` is read at most until dmactive is 1.
const READS_MOST: u32 = 64;

/// Whether this is a transport of version 1 with addresses of 7 to 30 bits.
fn has_transport(word: u32) -> bool
    ensures { result ≡ transport_fits word }
{
    let dtmcs = Dtmcs::from_word(word);
    dtmcs.version == 1 && 7 <= dtmcs.abits && dtmcs.abits <= 30
}

/// Whether the module works.
fn is_active(word: u32) -> bool
    ensures { result ≡ is_active word }
{
    Dmcontrol::from_word(word).dmactive
}

/// The release that a debug module follows, 0.13 or 1.0; none where it may not be used, or follows another.
fn release_of(word: u32) -> Option<Version>
    ensures { result ≡ release_of word }
{
    let status = Dmstatus::from_word(word);
    if status.authenticated {
        Version::from_number(status.version)
    } else {
        None
    }
}

/// Whether there are four words of program buffer and two of data, and no command is under way.
fn has_commands(word: u32) -> bool
    ensures { result ≡ commands_fit word }
{
    let commands = Abstractcs::from_word(word);
    4 <= commands.progbufsize && 2 <= commands.datacount && !commands.busy
}

/// Whether this is a system bus of version 1 with addresses of 64 bits and accesses of 1, 2, 4 and 8 bytes.
fn has_bus(word: u32) -> bool
    ensures { result ≡ bus_fits word }
{
    let bus = Sbcs::from_word(word);
    bus.sbversion == 1 && bus.sbasize == 64 && bus.sizes % 16 == 15
}

/// The word of `abstractcs` that clears every error.
fn cleared_cmderr() -> u32
    ensures { result ≡ clears_cmderr }
{
    let commands = Abstractcs {
        progbufsize: 0,
        busy: false,
        cmderr: 7,
        datacount: 0,
    };
    commands.word()
}

/// The word of `abstractauto` by which no access starts a command.
fn no_autoexec() -> u32
    ensures { result ≡ starts_none }
{
    let auto = Abstractauto {
        data0: false,
        data1: false,
        progbuf0: false,
        progbuf1: false,
        progbuf2: false,
        progbuf3: false,
    };
    auto.word()
}

/// The word of `sbcs` that clears every error, and by which no access follows another.
fn cleared_sberror() -> u32
    ensures { result ≡ clears_sberror }
{
    let bus = Sbcs {
        sbversion: 0,
        sbbusyerror: true,
        sbbusy: false,
        sbreadonaddr: false,
        sbaccess: 0,
        sbautoincrement: false,
        sbreadondata: false,
        sberror: 7,
        sbasize: 0,
        sizes: 0,
    };
    bus.word()
}

/// Reads `dtmcs`.
fn check_transport<D: Dmi>(link: &mut D) -> Result<(), ConnectFault>
    requires callable { CanCall (D.seen link.old) }
    ensures did { OnOk result (TransportFits (told (D.seen link.old)) (told (D.seen link.new))) }
    ensures fails { IfErr result (Fails TransportFails (D.seen link.old) (D.seen link.new)) }
    ensures rises { Within 1 (D.seen link.old) (D.seen link.new) }
    ensures never { IfErr result (OpeningByWire (D.seen link.old)) }
    ensures keeps { Keeps opening_why (D.seen link.old) (D.seen link.new) result }
{
    let word = link.dtmcs()?;
    if !has_transport(word) {
        return Err(ConnectFault::Dtm(word));
    }
    Ok(())
}

/// Writes dmactive, and reads it until it is 1.
fn activate<D: Dmi>(link: &mut D) -> Result<(), ConnectFault>
    requires callable { CanCall (D.seen link.old) }
    ensures did { OnOk result (Activated (told (D.seen link.old)) (told (D.seen link.new))) }
    ensures fails { IfErr result (Fails ActivationFails (D.seen link.old) (D.seen link.new)) }
    ensures rises { Within 65 (D.seen link.old) (D.seen link.new) }
    ensures never { IfErr result (OpeningByWire (D.seen link.old)) }
    ensures keeps { Keeps opening_why (D.seen link.old) (D.seen link.new) result }
{
    let mut words = ArrayVec::new();
    let operations = [
        DmiOp::Write(Dmcontrol::ADDRESS, word_for(0, Request::Nothing)),
        DmiOp::Read(Dmcontrol::ADDRESS),
    ];
    link.many(&operations, &mut words)?;
    let mut last = words[1];
    let mut reads = 1;
    'reads: while !is_active(last) {
        if reads == READS_MOST {
            return Err(ConnectFault::Module(last, true));
        }
        last = link.read(Dmcontrol::ADDRESS)?;
        reads += 1;
    }
    Ok(())
}

/// Reads `dmstatus`, and tells the release that it shows.
fn check_module<D: Dmi>(link: &mut D) -> Result<Version, ConnectFault>
    requires callable { CanCall (D.seen link.old) }
    ensures did { IfOk result (λ version. ModuleShows version (told (D.seen link.old)) (told (D.seen link.new))) }
    ensures fails { IfErr result (Fails ModuleFails (D.seen link.old) (D.seen link.new)) }
    ensures rises { Within 1 (D.seen link.old) (D.seen link.new) }
    ensures never { IfErr result (OpeningByWire (D.seen link.old)) }
    ensures keeps { Keeps opening_why (D.seen link.old) (D.seen link.new) result }
{
    let word = look(link)?;
    match release_of(word) {
        Some(version) => Ok(version),
        None => Err(ConnectFault::Module(word, false)),
    }
}

/// Reads `abstractcs`.
fn check_commands<D: Dmi>(link: &mut D) -> Result<(), ConnectFault>
    requires callable { CanCall (D.seen link.old) }
    ensures did { OnOk result (CommandsFit (told (D.seen link.old)) (told (D.seen link.new))) }
    ensures fails { IfErr result (Fails CommandsFail (D.seen link.old) (D.seen link.new)) }
    ensures rises { Within 1 (D.seen link.old) (D.seen link.new) }
    ensures never { IfErr result (OpeningByWire (D.seen link.old)) }
    ensures keeps { Keeps opening_why (D.seen link.old) (D.seen link.new) result }
{
    let word = link.read(Abstractcs::ADDRESS)?;
    if !has_commands(word) {
        return Err(ConnectFault::Abstract(word));
    }
    Ok(())
}

#[tactic(auto, using(debug_model::proofs::RiseLemmas::within_then, debug_model::proofs::RiseLemmas::within_more))]
/// Clears the errors of `abstractcs`, writes `abstractauto`, reads `sbcs`, and clears its errors.
fn check_bus<D: Dmi>(link: &mut D) -> Result<(), ConnectFault>
    requires callable { CanCall (D.seen link.old) }
    ensures did { OnOk result (Then BusFits BusCleared (told (D.seen link.old)) (told (D.seen link.new))) }
    ensures fails { IfErr result (Fails BusFails (D.seen link.old) (D.seen link.new)) }
    ensures rises { Within 4 (D.seen link.old) (D.seen link.new) }
    ensures never { IfErr result (OpeningByWire (D.seen link.old)) }
    ensures keeps { Keeps opening_why (D.seen link.old) (D.seen link.new) result }
{
    let mut words = ArrayVec::new();
    let operations = [
        DmiOp::Write(Abstractcs::ADDRESS, cleared_cmderr()),
        DmiOp::Write(Abstractauto::ADDRESS, no_autoexec()),
        DmiOp::Read(Sbcs::ADDRESS),
    ];
    link.many(&operations, &mut words)?;
    let word = words[2];
    if !has_bus(word) {
        return Err(ConnectFault::Bus(word));
    }
    link.write(Sbcs::ADDRESS, cleared_sberror())?;
    Ok(())
}

/// Opens a chip: the transport and the parts of the debug module are as the probe needs them, the module works, and its errors are cleared.
///
/// `dtmcs` is read first (`Dtm`); dmactive is written 1 and read until it is 1, at most 64 times, and `dmstatus` is read once, which is a Look of
/// hart 0 (`Module`) and tells the release; `abstractcs` is read (`Abstract`), its errors are cleared, and no word starts a command again; `sbcs` is read (`Bus`), and
/// its errors are cleared. Each of these faults has the register as it was read.
pub fn connect<D: Dmi>(link: &mut D) -> Result<Target, ConnectFault>
    requires callable { CanCall (D.seen link.old) }
    ensures did { OnOk result (Opened (told (D.seen link.old)) (told (D.seen link.new))) }
    ensures release { IfOk result (λ target. OpenedAs target.version (told (D.seen link.old)) (told (D.seen link.new))) }
    ensures chip_release { IfOk result (λ target. WhereTold (IsOfRelease target.version) (D.seen link.old).far (D.seen link.new).far) }
    ensures fails { IfErr result (Fails ConnectFails (D.seen link.old) (D.seen link.new)) }
    ensures loaded { OnOk result (OpensLoaded (D.seen link.old).far (D.seen link.new).far) }
    ensures ready { OnOk result (IsAsLoaded (D.seen link.old).far → IsReady (D.seen link.new).far) }
    ensures selects { OnOk result (IsAsLoaded (D.seen link.old).far → Selects 0 (D.seen link.new).far) }
    ensures lost { IfErr result (LosesLoaded (D.seen link.old).far (D.seen link.new).far) }
    ensures rises { Within 72 (D.seen link.old) (D.seen link.new) }
    ensures never { IfErr result (OpeningByWire (D.seen link.old)) }
    ensures keeps { Keeps opening_why (D.seen link.old) (D.seen link.new) result }
{
    check_transport(link)?;
    activate(link)?;
    let version = check_module(link)?;
    check_commands(link)?;
    check_bus(link)?;
    Ok(opened(version))
}
