//! Sessions that load an ELF file first, over a wire to a bench and over a net.

ghost use Rattle.std.specs.Prelude.{◌≡◌, ◌≤◌, IfSome, None, true};
ghost use Rattle.chip_core.specs.Feeds.{limit_met};
ghost use Rattle.debug_model.specs.Told.{IsAsLoaded, IsRead};
ghost use Rattle.debug_model.specs.Wire.{piece_most};
ghost use Rattle.elf_load.specs.Elf.{ReadsAs};
ghost use Rattle.jtag_run.specs.Sequel.Sequel.{of_elf};
ghost use Rattle.jtag_run.specs.Sessions.{IsLoadedBench, OnBenchBy, OnNetBy};
ghost use Rattle.probe_session.specs.Causes.{SinkCaused};
ghost use Rattle.wire_session.specs.Closing.{IsOfRegister};

use chip_core::{Bench, BenchWire};
use debug_model::{Net, Schedule, Script};
use elf_load::Elf;
use elf_session::run_elf_session;
use jt_base::Sink;
use jtag_net::NetWire;
use probe_session::Ended;

/// Loads an ELF file over a wire to the bench, in pieces of at most `piece` bytes, from 1 to 256, and runs the script.
pub fn run_elf_on_bench<Q: Schedule, K: Sink>(
    elf: &Elf,
    file: &[u8],
    script: &Script,
    bench: &mut Bench<Q>,
    piece: usize,
    out: &mut K,
) -> Ended
    requires piece { (1 ≤ piece) × (piece ≤ piece_most) }
    requires fresh { IsLoadedBench bench.old }
    requires read { ReadsAs file.now elf.now }
    ensures ran { IfSome bench.old (λ first. OnBenchBy first (of_elf file.now script.now)
        (record { printed = K.contents out.old; faults = K.fault_count out.old })
        (record { printed = K.contents out.new; faults = K.fault_count out.new })
        bench.new (limit_met bench.new) result) }
    ensures of_register { IsOfRegister result }
    ensures sink_cause { SinkCaused (K.fault_count out.old) (K.fault_count out.new) result }
    ensures sink_later { K.fault_count out.old ≤ K.fault_count out.new }
{
    let mut wire = BenchWire::new(bench, piece);
    run_elf_session(&mut wire, elf, file, script, out)
}

/// Loads an ELF file over the near end of a net, and runs the script. Where the net tells its chip, that is as it was loaded, and no answer is unread.
pub fn run_elf_on_net<N: Net, K: Sink>(
    elf: &Elf,
    file: &[u8],
    script: &Script,
    net: &mut N,
    out: &mut K,
) -> Ended
    requires opened { (N.state net.old).near_open ≡ true }
    requires plain { (N.state net.old).pipe ≡ None }
    requires loaded { IsAsLoaded (N.state net.old).chip }
    requires answered { IsRead (N.state net.old).chip }
    requires read { ReadsAs file.now elf.now }
    ensures ran { OnNetBy (of_elf file.now script.now)
        (record { state = N.state net.old; peer = N.peer net.old; faults = N.fault_count net.old; ends = N.end_count net.old })
        (record { state = N.state net.new; peer = N.peer net.new; faults = N.fault_count net.new; ends = N.end_count net.new })
        (record { printed = K.contents out.old; faults = K.fault_count out.old })
        (record { printed = K.contents out.new; faults = K.fault_count out.new })
        result }
    ensures of_register { IsOfRegister result }
    ensures sink_cause { SinkCaused (K.fault_count out.old) (K.fault_count out.new) result }
    ensures sink_later { K.fault_count out.old ≤ K.fault_count out.new }
{
    let mut wire = NetWire::new(net);
    let ended = run_elf_session(&mut wire, elf, file, script, out);
    wire.know_sound();
    ended
}
