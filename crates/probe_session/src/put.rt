ghost use Rattle.std.specs.Prelude.{◌≡◌, ◌≤◌, IfErr, OnErr, OnOk};
ghost use Rattle.abstract_debugger.specs.Lines.{text_of};
ghost use Rattle.jt_base.specs.Faults.{Rises};
ghost use Rattle.jt_base.specs.Sink.{GrewByPrefix, grown};
ghost use Rattle.probe_session.specs.Said.{said_by};
ghost use Rattle.probe_session.specs.declared.fault.Failure.TheVariants as failure;

use crate::fault::Failure;
use jt_base::Sink;
use printed_lines::Line;

/// Writes one line.
pub fn put_line<K: Sink>(out: &mut K, line: &Line) -> Result<(), Failure>
    ensures put { OnOk result (K.contents out.new ≡ grown (text_of (said_by line.now)) (K.contents out.old)) }
    ensures front { OnErr result (GrewByPrefix (text_of (said_by line.now)) (K.contents out.old) (K.contents out.new)) }
    ensures sink { IfErr result (λ f. f ≡ failure.Sink) }
    ensures cause { OnErr result (Rises (K.fault_count out.old) (K.fault_count out.new)) }
    ensures later { K.fault_count out.old ≤ K.fault_count out.new }
{
    let text = line.text();
    out.put(&text)?;
    Ok(())
}
