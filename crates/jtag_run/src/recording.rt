//! A recording of a wire: its lines, or its waveform.

ghost use Rattle.std.specs.Prelude.{◌≡◌, IfErr, IfOk, OnErr, OnOk};
ghost use Rattle.jt_base.specs.Faults.{HasCause};
ghost use Rattle.jt_base.specs.Files.{Holds};
ghost use Rattle.jt_base.specs.Sink.{GrewByPrefix, grown};
ghost use Rattle.jtag_run.specs.Jobs.{sniff_value};
ghost use Rattle.jtag_run.specs.LastLine.{Closed, answers_refused};
ghost use Rattle.jtag_run.specs.Recording.{RanSniff, Shows, ToldSniff};
ghost use Rattle.jtag_run.specs.Refusal.{SniffCause, asked_recording};

use crate::last_line::{close, refuse};
use crate::lines::{asked_part, bad_byte_line, given_part, wire_failed_line};
use crate::prepare::read_bytes;
use crate::refusal::Refusal;
use crate::status::Status;
use crate::words::SniffJob;
use debug_model::WireFault;
use jt_base::{Files, Sink, SinkFault};
use std::alloc::Global;
use wire_sniff::{SniffEnd, draw_waves, sniff};

/// What crossed a wire.
#[derive(Drop)]
struct Recording {
    /// The stream of signs.
    stream: Vec<u8>,
    /// The answers that came to it.
    answers: Vec<u8>,
}

/// Reads the stream, and then its answers. The first refusal ends it.
fn read_recording<'a, F: Files>(
    alloc: Global,
    job: &'a SniffJob,
    files: &mut F,
) -> Result<Recording, Refusal<'a>>
    ensures stream { IfOk result (λ recording. Holds (F.held files.old) (sniff_value job.now).stream recording.stream.items) }
    ensures answers { IfOk result (λ recording. Holds (F.held files.old) (sniff_value job.now).answers recording.answers.items) }
    ensures asked { OnOk result (F.asked files.new
        ≡ asked_recording (sniff_value job.now)
        (record { held = F.held files.old; asked = F.asked files.old; faults = F.fault_count files.old })) }
    ensures cause { IfErr result (SniffCause (sniff_value job.now)
        (record { held = F.held files.old; asked = F.asked files.old; faults = F.fault_count files.old })
        (record { held = F.held files.new; asked = F.asked files.new; faults = F.fault_count files.new })) }
{
    let stream = read_bytes(alloc, files, job.stream.as_str())?;
    let answers = read_bytes(alloc, files, job.answers.as_str())?;
    Ok(Recording { stream, answers })
}

/// Puts the lines of a recording, or its waveform.
fn show<K: Sink>(recording: &Recording, waves: bool, out: &mut K) -> SniffEnd
    ensures shows { Shows waves recording.now.stream.items recording.now.answers.items
        (record { printed = K.contents out.old; faults = K.fault_count out.old })
        (record { printed = K.contents out.new; faults = K.fault_count out.new })
        result }
{
    if waves {
        draw_waves(&recording.stream, &recording.answers, out)
    } else {
        sniff(&recording.stream, &recording.answers, out)
    }
}

/// The last line of a run whose recorded stream asks for other than the answers that were given.
fn put_answers_refused<K: Sink>(out: &mut K, asked: u64, given: u64) -> Result<(), SinkFault>
    ensures put { OnOk result (K.contents out.new ≡ grown (answers_refused asked given) (K.contents out.old)) }
    ensures front { OnErr result (GrewByPrefix (answers_refused asked given) (K.contents out.old) (K.contents out.new)) }
    ensures cause { HasCause (K.fault_count out.old) (K.fault_count out.new) result }
{
    out.put(&asked_part(asked))?;
    out.put(&given_part(given))?;
    Ok(())
}

/// The status of such a run, behind that line.
fn refuse_answers<K: Sink>(out: &mut K, asked: u64, given: u64) -> Status
    ensures closed { Closed (answers_refused asked given) Status.Answers
        (record { printed = K.contents out.old; faults = K.fault_count out.old })
        (record { printed = K.contents out.new; faults = K.fault_count out.new })
        result }
{
    match put_answers_refused(out, asked, given) {
        Ok(()) => Status::Answers,
        Err(SinkFault::Failed) => Status::Sink,
    }
}

/// The status of a run whose sniffing ended so, behind its last line where it has one.
fn tell<K: Sink>(out: &mut K, end: SniffEnd) -> Status
    ensures told { ToldSniff end
        (record { printed = K.contents out.old; faults = K.fault_count out.old })
        (record { printed = K.contents out.new; faults = K.fault_count out.new })
        result }
{
    match end {
        SniffEnd::BadSign(place, byte) => {
            close(out, &bad_byte_line(place as u64, byte), Status::BadByte)
        }
        SniffEnd::BadAnswer(byte) => {
            let fault = WireFault::BadAnswer(byte);
            close(out, &wire_failed_line(fault), Status::Wire)
        }
        SniffEnd::Count { asked, given } => refuse_answers(out, asked, given),
        SniffEnd::Sink => Status::Sink,
        SniffEnd::Clean => Status::Clean,
    }
}

/// Reads the recording of this job, and shows it. No net is opened, and no chip loaded.
pub fn run_sniff<F: Files, K: Sink>(
    alloc: Global,
    job: &SniffJob,
    files: &mut F,
    out: &mut K,
) -> Status
    ensures ended { RanSniff (sniff_value job.now)
        (record { held = F.held files.old; asked = F.asked files.old; faults = F.fault_count files.old })
        (record { held = F.held files.new; asked = F.asked files.new; faults = F.fault_count files.new })
        (record { printed = K.contents out.old; faults = K.fault_count out.old })
        (record { printed = K.contents out.new; faults = K.fault_count out.new })
        result }
{
    let recording = match read_recording(alloc, job, files) {
        Ok(recording) => recording,
        Err(refusal) => return refuse(out, refusal),
    };
    let end = show(&recording, job.waves, out);
    tell(out, end)
}
