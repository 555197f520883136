//! What a call of a net does on one stream, over any reader and any writer.
ghost use Rattle.std.specs.Prelude.{
  ◌≡◌,
  ◌≢◌,
  ◌==◌,
  if◌then◌else◌,
  is_ok,
  ◌+◌,
  ◌<◌,
  ◌≤◌,
  take,
  length,
  IfOk,
  IfErr,
  OnOk,
  OnErr,
  IfSome,
  IfNone,
  OnSome,
  None,
  Some,
};
ghost use Rattle.std.specs.Io.KnownBytes.{Appends, Consumes, IsAtEnd, Keeps};
ghost use Rattle.debug_model.specs.Net.{CallCause, given_most};
ghost use Rattle.jt_base.specs.Faults.{Rises, counted};
ghost use Rattle.jtag_net.specs.Stream.{AppendsFront};

use debug_model::{GIVEN_MOST, NetFault};
use jt_base::count_fault;
use std::io;
use std::io::{Read, Write};

/// Writes all of the bytes, piece after piece. A write that takes nothing is a fault.
pub fn write_whole<S: Write>(stream: &mut S, bytes: &[u8]) -> io::Result<()>
    ensures whole { OnOk result (Appends (S.contents stream.old) (S.contents stream.new) bytes.now) }
    ensures front { OnErr result (AppendsFront (S.contents stream.old) (S.contents stream.new) bytes.now) }
{
    let mut rest = bytes;
    'pieces: while !rest.is_empty() {
        let count = stream.write(rest)?;
        if count == 0 {
            return Err(io::Error::from(io::ErrorKind::WriteZero));
        }
        rest = &rest[count..];
    }
    Ok(())
}

/// Reads what comes next, unless as many bytes came as one end gives at most. None at a fault.
pub fn read_some<S: Read>(stream: &mut S, given: &mut u64, into: &mut [u8]) -> Option<usize>
    ensures most { IfSome result (λ n. n ≤ length into.new) }
    ensures bytes { IfSome result (λ n. Consumes (S.remaining stream.old) (S.remaining stream.new) (take n into.new)) }
    ensures kept { IfNone result (Keeps (S.remaining stream.old) (S.remaining stream.new)) }
    ensures end { IfSome result (λ n. n ≡ 0 → 0 < length into.old → IsAtEnd (S.remaining stream.new)) }
    ensures spent { OnSome result (given.old < given_most) }
    ensures bound { IfSome result (λ n. given.old + n ≤ given_most) }
    ensures given { IfSome result (λ n. given.new ≡ given.old + n) }
    ensures given_kept { IfNone result (given.new ≡ given.old) }
{
    if *given >= GIVEN_MOST {
        return None;
    }
    let room = into.len().min((GIVEN_MOST - *given) as usize);
    let count = stream.read(&mut into[..room]).ok()?;
    *given += count as u64;
    Some(count)
}

/// Counts what became of a take: a fault where nothing came, and an end where no byte came.
pub fn tally(failed: &mut u64, ended: &mut u64, count: Option<usize>) -> Result<usize, NetFault>
    ensures ok { IfOk result (λ n. count ≡ Some n) }
    ensures err { OnErr result (count ≡ None) }
    ensures cause { IfErr result (CallCause failed.old failed.new) }
    ensures later { failed.old ≤ failed.new }
    ensures failed { failed.new ≡ (if is_ok result then failed.old else counted failed.old) }
    ensures ended { IfOk result (λ n. n ≡ 0 → Rises ended.old ended.new) }
    ensures counted { IfOk result (λ n. ended.new ≡ (if n == 0 then counted ended.old else ended.old)) }
    ensures goes_on { IfOk result (λ n. n ≢ 0 → ended.new ≡ ended.old) }
    ensures ends { OnErr result (ended.new ≡ ended.old) }
    ensures ends_later { ended.old ≤ ended.new }
{
    match count {
        None => {
            count_fault(failed);
            Err(NetFault::Failed)
        }
        Some(0) => {
            count_fault(ended);
            Ok(0)
        }
        Some(count) => Ok(count),
    }
}
