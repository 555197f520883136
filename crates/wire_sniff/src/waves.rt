ghost use Rattle.std.specs.Prelude.{◌≡◌, ◌+◌, ◌<◌, ◌≤◌, ◌^◌, ◌++◌, ℕ, List, OnErr, OnOk, Some};
ghost use Rattle.jt_base.specs.Faults.{HasCause, count_after};
ghost use Rattle.jt_base.specs.Sink.{GrewByPrefix, grown};
ghost use Rattle.debug_model.specs.Signs.{sign_of};
ghost use Rattle.wire_sniff.specs.State.{IsMoment, change_of};
ghost use Rattle.wire_sniff.specs.Waves.{Draws, Moment as Definition, header, moment_after, sign_wave, wave_of};

use crate::line::DmiLine;
use crate::moment::{Moment, line_change};
use crate::sniff_end::SniffEnd;
use crate::sniffing::{counted, refusal};
use bitbang_stream::classify;
use debug_model::Sign;
use jt_base::{Sink, SinkFault};

/// The variables, and the time of the start.
const HEADER: &[u8] = b"$timescale 1 us $end\n$scope module jtag $end\n\
$var wire 1 ! tck $end\n$var wire 1 \" tms $end\n$var wire 1 # tdi $end\n\
$var wire 1 $ trst $end\n$var wire 1 % tdo $end\n$var reg 4 & tap_state $end\n\
$var event 1 ' dmi $end\n$var reg 3 ( dmi_kind $end\n$var reg 7 ) dmi_address $end\n\
$var reg 32 * dmi_value $end\n$upscope $end\n$enddefinitions $end\n#0\n";

/// Puts what a scan of dmi changes.
fn put_change<K: Sink>(shown: Option<DmiLine>, out: &mut K) -> Result<(), SinkFault>
    ensures put { OnOk result (K.contents out.new ≡ grown (change_of shown) (K.contents out.old)) }
    ensures front { OnErr result (GrewByPrefix (change_of shown) (K.contents out.old) (K.contents out.new)) }
    ensures cause { HasCause (K.fault_count out.old) (K.fault_count out.new) result }
    ensures count { K.fault_count out.new ≡ count_after result (K.fault_count out.old) }
{
    match shown {
        Some(line) => out.put(&line_change(line)),
        None => Ok(()),
    }
}

/// Takes one sign at this time, and puts the levels behind it and what it shows of a scan of dmi.
fn draw_sign<K: Sink>(
    moment: &mut Moment,
    time: u64,
    sign: Sign,
    answers: &[u8],
    out: &mut K,
) -> Result<(), SinkFault>
    requires { moment.old.sniffer.scan.count + 1 < 2 ^ 64 }
    ensures state { (m : Definition) → IsMoment answers.now moment.old m → IsMoment answers.now moment.new (moment_after (Some sign) m) }
    ensures bits { moment.new.sniffer.scan.count ≤ moment.old.sniffer.scan.count + 1 }
    ensures put { (m : Definition) → IsMoment answers.now moment.old m
        → OnOk result (K.contents out.new ≡ grown (sign_wave time (Some sign) m) (K.contents out.old)) }
    ensures front { (m : Definition) → IsMoment answers.now moment.old m
        → OnErr result (GrewByPrefix (sign_wave time (Some sign) m) (K.contents out.old) (K.contents out.new)) }
    ensures cause { HasCause (K.fault_count out.old) (K.fault_count out.new) result }
    ensures count { K.fault_count out.new ≡ count_after result (K.fault_count out.old) }
{
    let shown = moment.shows(sign);
    moment.take(sign, answers);
    out.put(&moment.levels_at(time))?;
    put_change(shown, out)
}

/// Takes one byte at this time. What is no sign changes nothing.
fn draw<K: Sink>(
    moment: &mut Moment,
    time: u64,
    byte: u8,
    answers: &[u8],
    out: &mut K,
) -> Result<(), SinkFault>
    requires { moment.old.sniffer.scan.count + 1 < 2 ^ 64 }
    ensures state { (m : Definition) → IsMoment answers.now moment.old m → IsMoment answers.now moment.new (moment_after (sign_of byte) m) }
    ensures bits { moment.new.sniffer.scan.count ≤ moment.old.sniffer.scan.count + 1 }
    ensures put { (m : Definition) → IsMoment answers.now moment.old m
        → OnOk result (K.contents out.new ≡ grown (sign_wave time (sign_of byte) m) (K.contents out.old)) }
    ensures front { (m : Definition) → IsMoment answers.now moment.old m
        → OnErr result (GrewByPrefix (sign_wave time (sign_of byte) m) (K.contents out.old) (K.contents out.new)) }
    ensures cause { HasCause (K.fault_count out.old) (K.fault_count out.new) result }
    ensures count { K.fault_count out.new ≡ count_after result (K.fault_count out.old) }
{
    match classify(byte) {
        Ok(sign) => draw_sign(moment, time, sign, answers, out),
        Err(_) => out.put(&moment.levels_at(time)),
    }
}

/// Puts the waveform of these signs and answers behind the first levels.
fn draw_all<K: Sink>(signs: &[u8], answers: &[u8], out: &mut K) -> Result<(), SinkFault>
    ensures put { OnOk result (K.contents out.new
        ≡ grown (wave_of signs.now answers.now) (K.contents out.old)) }
    ensures front { OnErr result (GrewByPrefix (wave_of signs.now answers.now)
        (K.contents out.old) (K.contents out.new)) }
    ensures cause { HasCause (K.fault_count out.old) (K.fault_count out.new) result }
    ensures count { K.fault_count out.new ≡ count_after result (K.fault_count out.old) }
{
    let mut moment = Moment::new();
    out.put(&moment.levels())?;
    for (place, byte) in signs.iter().enumerate() {
        draw(&mut moment, place as u64 + 1, *byte, answers, out)?;
    }
    Ok(())
}

/// Puts a header, and then the waveform.
fn draw_whole<K: Sink>(signs: &[u8], answers: &[u8], out: &mut K) -> Result<(), SinkFault>
    ensures put { OnOk result (K.contents out.new
        ≡ grown (header ++ wave_of signs.now answers.now) (K.contents out.old)) }
    ensures front { OnErr result (GrewByPrefix (header ++ wave_of signs.now answers.now)
        (K.contents out.old) (K.contents out.new)) }
    ensures cause { HasCause (K.fault_count out.old) (K.fault_count out.new) result }
    ensures count { K.fault_count out.new ≡ count_after result (K.fault_count out.old) }
{
    out.put(HEADER)?;
    draw_all(signs, answers, out)
}

/// Puts a recorded stream of signs and the answers that came to it as a Value Change Dump: the levels of the wire, the state of the TAP, and what
/// each scan of dmi shows as it ends. Time is the number of the sign, from 1. The checks and the ends are those of `sniff`. It takes no memory.
///
/// Source: IEEE 1364-2005, section 18.2.
pub fn draw_waves<K: Sink>(stream: &[u8], answers: &[u8], out: &mut K) -> SniffEnd
    ensures { Draws stream.now answers.now (K.contents out.old) (K.contents out.new) (K.fault_count out.old) (K.fault_count out.new) result }
{
    let signs = counted(stream);
    if let Some(end) = refusal(signs, answers) {
        return end;
    }
    match draw_whole(signs, answers, out) {
        Ok(()) => SniffEnd::Clean,
        Err(SinkFault::Failed) => SniffEnd::Sink,
    }
}
