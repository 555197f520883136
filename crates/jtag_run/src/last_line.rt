//! The last line of a run.

ghost use Rattle.std.specs.Prelude.{◌≡◌, OnErr, OnOk};
ghost use Rattle.jt_base.specs.Faults.{HasCause};
ghost use Rattle.jt_base.specs.Sink.{GrewByPrefix, grown};
ghost use Rattle.jtag_run.specs.Ending.{ClosedBy};
ghost use Rattle.wire_session.specs.Closing.{IsOfRegister};
ghost use Rattle.jtag_run.specs.LastLine.{Closed, file_failed};
ghost use Rattle.jtag_run.specs.Refusal.{Refused, last_line};

use crate::lines::{
    image_refused_line, lost_line, script_refused_line, target_refused_line, wire_failed_line,
};
use crate::refusal::Refusal;
use crate::status::Status;
use jt_base::{Sink, SinkFault};
use probe_session::Ended;

/// The last line of a run whose chip has met its limit of events.
pub const EVENT_LIMIT: &[u8] = b"event limit\n";

/// The last line of a run whose file of this name could not be read.
fn put_file_failed<K: Sink>(out: &mut K, name: &str) -> Result<(), SinkFault>
    ensures put { OnOk result (K.contents out.new ≡ grown (file_failed name.now) (K.contents out.old)) }
    ensures front { OnErr result (GrewByPrefix (file_failed name.now) (K.contents out.old) (K.contents out.new)) }
    ensures cause { HasCause (K.fault_count out.old) (K.fault_count out.new) result }
{
    out.put(b"file failed: ")?;
    out.put(name.as_bytes())?;
    out.put(b"\n")?;
    Ok(())
}

/// Puts the last line of a refused run.
fn put_last_line<K: Sink>(out: &mut K, refusal: Refusal<'_>) -> Result<(), SinkFault>
    ensures put { OnOk result (K.contents out.new ≡ grown (last_line refusal.entry) (K.contents out.old)) }
    ensures front { OnErr result (GrewByPrefix (last_line refusal.entry) (K.contents out.old) (K.contents out.new)) }
    ensures cause { HasCause (K.fault_count out.old) (K.fault_count out.new) result }
{
    match refusal {
        Refusal::Words => out.put(b"words refused\n"),
        Refusal::File(name) => put_file_failed(out, name),
        Refusal::Script(error) => out.put(&script_refused_line(&error)),
        Refusal::Image(fault) => out.put(&image_refused_line(fault.number())),
        Refusal::Elf(fault) => out.put(&image_refused_line(fault.number())),
        Refusal::Open => out.put(b"wire failed: open\n"),
        Refusal::OutOfMemory => out.put(b"out of memory\n"),
    }
}

/// The status of a refused run, behind its last line.
pub fn refuse<K: Sink>(out: &mut K, refusal: Refusal<'_>) -> Status
    ensures refused { Refused refusal.entry
        (record { printed = K.contents out.old; faults = K.fault_count out.old })
        (record { printed = K.contents out.new; faults = K.fault_count out.new })
        result }
{
    match put_last_line(out, refusal) {
        Ok(()) => refusal.status(),
        Err(SinkFault::Failed) => Status::Sink,
    }
}

/// This status, behind this last line.
pub fn close<K: Sink>(out: &mut K, line: &[u8], status: Status) -> Status
    ensures closed { Closed line.now status
        (record { printed = K.contents out.old; faults = K.fault_count out.old })
        (record { printed = K.contents out.new; faults = K.fault_count out.new })
        result }
{
    match out.put(line) {
        Ok(()) => status,
        Err(SinkFault::Failed) => Status::Sink,
    }
}

/// The status of a run whose session ended so, behind its last line where it has one. `limit` says whether the chip on the bench has met its limit of events,
/// which is told before every other end but that of the sink.
pub fn tell<K: Sink>(out: &mut K, ended: Ended, limit: bool) -> Status
    requires { IsOfRegister ended }
    ensures told { ClosedBy ended limit
        (record { printed = K.contents out.old; faults = K.fault_count out.old })
        (record { printed = K.contents out.new; faults = K.fault_count out.new })
        result }
{
    match ended {
        Ended::Sink => Status::Sink,
        _ if limit => close(out, EVENT_LIMIT, Status::EventLimit),
        Ended::Clean => Status::Clean,
        Ended::WithErrors => Status::WithErrors,
        Ended::Target(fault) => close(out, &target_refused_line(fault), Status::Target),
        Ended::Wire(fault) => close(out, &wire_failed_line(fault), Status::Wire),
        Ended::Lost(cause) => close(out, &lost_line(cause), Status::Lost),
    }
}
