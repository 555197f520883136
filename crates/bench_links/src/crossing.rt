//! Bytes that cross a net from one of its ends to the other.
ghost use Rattle.std.specs.Prelude.{◌≡◌, ◌≢◌, ◌≤◌, ◌++◌, [], None, false, true, length, replicate, IfErr, IfSome, IsErrOf, IsSome, IsTrue, OnErr, OnOk};
ghost use Rattle.debug_model.specs.Net.{after_take};
ghost use Rattle.debug_model.specs.declared.net.End.TheVariants as end;
ghost use Rattle.debug_model.specs.Wire.{no_answer, piece_most};
ghost use Rattle.chip_core.specs.Feeds.{feed_of, limit_met, said_of};
ghost use Rattle.bench_links.specs.Looped.{Came, CrossedFront, FedFront, Holds, InStep, LostBy, TakeLost, TookSome, crossed, exchanged, is_looped};

use chip_core::{Answers, Bench};
use debug_model::{End, Net, Schedule, fill_unanswered};

/// Why bytes did not cross.
#[derive(Clone, Copy, Debug, PartialEq, Eq)]
pub enum Lost {
    /// A call of the net failed.
    Failed,
    /// The other side of the net has ended.
    Ended,
    /// Other bytes came out than were put in.
    Differs,
    /// The chip has met its event limit.
    AtLimit,
}

fn differ(came: &[u8], wanted: &[u8]) -> bool
    ensures differ { result ≡ true → came.now ≢ wanted.now }
    ensures same { result ≡ false → came.now ≡ wanted.now }
{
    came != wanted
}

/// Fills `into` with the next bytes at this end.
#[tactic(auto, using(crate::proofs::Crossings::opens, crate::proofs::Crossings::may_take, crate::proofs::Crossings::nothing_came, crate::proofs::Crossings::still_looped, crate::proofs::Crossings::still_tied, crate::proofs::Crossings::took_none, crate::proofs::Crossings::took_no_more))]
fn take_whole<N: Net>(net: &mut N, end: End, into: &mut [u8]) -> Result<(), Lost>
    requires looped { IsTrue (is_looped (N.state net.old)) }
    requires holds { Holds end (length into.old) (N.state net.old).pipe }
    ensures came { OnOk result (Came end (length into.new) into.new (N.state net.old) (N.state net.new)) }
    ensures some { OnErr result (TookSome end (length into.new) (N.state net.old) (N.state net.new)) }
    ensures looped { IsTrue (is_looped (N.state net.new)) }
    ensures ties { (N.state net.new).ties ≡ (N.state net.old).ties }
    ensures cause { IfErr result (TakeLost (N.fault_count net.old) (N.fault_count net.new) (N.end_count net.old) (N.end_count net.new)) }
    ensures still { OnOk result (N.fault_count net.new ≡ N.fault_count net.old) }
    ensures none_ended { OnOk result (N.end_count net.new ≡ N.end_count net.old) }
    ensures later { N.fault_count net.old ≤ N.fault_count net.new }
    ensures ends_later { N.end_count net.old ≤ N.end_count net.new }
    ensures lenders { N.lenders net.new ≡ N.lenders net.old }
{
    let mut at = 0;
    'pieces: while at < into.len() {
        match net.take(end, &mut into[at..]) {
            Ok(0) => return Err(Lost::Ended),
            Ok(count) => at += count,
            Err(_) => return Err(Lost::Failed),
        }
    }
    Ok(())
}

/// Puts the bytes at the near end, takes as many at the far end into `came`, and compares them.
#[tactic(auto, using(crate::proofs::Crossings::may_put, crate::proofs::Crossings::opens, crate::proofs::Exchanges::put_looped, crate::proofs::Exchanges::front_looped, crate::proofs::Exchanges::front_tied, crate::proofs::Exchanges::put_tied, crate::proofs::Exchanges::put_holds, crate::proofs::Exchanges::differ_untold, crate::proofs::Exchanges::crossed_whole, crate::proofs::Exchanges::lost_later, crate::proofs::Exchanges::none_crossed, crate::proofs::Exchanges::some_crossed, crate::proofs::Exchanges::others_crossed))]
fn cross<N: Net>(net: &mut N, bytes: &[u8], came: &mut [u8]) -> Result<(), Lost>
    requires looped { IsTrue (is_looped (N.state net.old)) }
    requires in_step { IfSome (N.state net.old).pipe (λ p. p.far ≡ []) }
    requires room { length came.old ≡ length bytes.now }
    ensures came { OnOk result (came.new ≡ bytes.now) }
    ensures crossed { OnOk result (N.state net.new ≡ crossed bytes.now (N.state net.old)) }
    ensures front { OnErr result (CrossedFront bytes.now [] (N.state net.old) (N.state net.new)) }
    ensures looped { IsTrue (is_looped (N.state net.new)) }
    ensures ties { (N.state net.new).ties ≡ (N.state net.old).ties }
    ensures cause { IfErr result
        (LostBy (N.state net.old).pipe (N.fault_count net.old) (N.fault_count net.new) (N.end_count net.old) (N.end_count net.new) None) }
    ensures still { OnOk result (N.fault_count net.new ≡ N.fault_count net.old) }
    ensures none_ended { OnOk result (N.end_count net.new ≡ N.end_count net.old) }
    ensures later { N.fault_count net.old ≤ N.fault_count net.new }
    ensures ends_later { N.end_count net.old ≤ N.end_count net.new }
    ensures lenders { N.lenders net.new ≡ N.lenders net.old }
{
    if net.put(End::Near, bytes).is_err() {
        return Err(Lost::Failed);
    }
    take_whole(net, End::Far, came)?;
    if differ(came, bytes) {
        return Err(Lost::Differs);
    }
    Ok(())
}

/// Sends the bytes across the net, feeds the chip what came out of it, and puts the answers at the far end. They are kept in `answers`, which is empty
/// before; `came` has room for just the bytes. Nothing is put behind the event limit.
#[tactic(auto, using(crate::proofs::Crossings::opens, crate::proofs::Exchanges::put_looped, crate::proofs::Exchanges::front_looped, crate::proofs::Exchanges::front_tied, crate::proofs::Exchanges::put_tied, crate::proofs::Exchanges::lost_before, crate::proofs::Exchanges::none_fed, crate::proofs::Exchanges::all_fed, crate::proofs::Exchanges::still_in_step, crate::proofs::Exchanges::step_empty, crate::proofs::Exchanges::not_answered, crate::proofs::Exchanges::none_answered, crate::proofs::Exchanges::some_answered))]
pub fn exchange<N: Net, Q: Schedule>(
    net: &mut N,
    bench: &mut Bench<Q>,
    bytes: &[u8],
    came: &mut [u8],
    answers: &mut Answers,
) -> Result<(), Lost>
    requires looped { IsTrue (is_looped (N.state net.old)) }
    requires in_step { InStep answers.old.items (N.state net.old).pipe }
    requires loaded { IsSome bench.old }
    requires most { length bytes.now ≤ piece_most }
    requires room { length came.old ≡ length bytes.now }
    requires none { answers.old.items ≡ [] }
    ensures exchanged { OnOk result (N.state net.new ≡ exchanged bytes.now (said_of bench.old bytes.now) (N.state net.old)) }
    ensures crossed_front { OnErr result (CrossedFront bytes.now answers.new.items (N.state net.old) (N.state net.new)) }
    ensures in_step { OnOk result (InStep answers.new.items (N.state net.new).pipe) }
    ensures chip { OnOk result (bench.new ≡ feed_of bench.old bytes.now) }
    ensures answers { OnOk result (answers.new.items ≡ said_of bench.old bytes.now) }
    ensures below { OnOk result (limit_met bench.new ≡ false) }
    ensures front { FedFront bytes.now bench.old bench.new answers.old.items answers.new.items }
    ensures loaded { IsSome bench.new }
    ensures looped { IsTrue (is_looped (N.state net.new)) }
    ensures ties { (N.state net.new).ties ≡ (N.state net.old).ties }
    ensures cause { IfErr result
        (LostBy (N.state net.old).pipe (N.fault_count net.old) (N.fault_count net.new) (N.end_count net.old) (N.end_count net.new)
        bench.new) }
    ensures limit { limit_met bench.new ≡ true → limit_met bench.old ≡ false → IsErrOf result Lost.AtLimit }
    ensures still { OnOk result (N.fault_count net.new ≡ N.fault_count net.old) }
    ensures none_ended { OnOk result (N.end_count net.new ≡ N.end_count net.old) }
    ensures later { N.fault_count net.old ≤ N.fault_count net.new }
    ensures ends_later { N.end_count net.old ≤ N.end_count net.new }
    ensures lenders { N.lenders net.new ≡ N.lenders net.old }
{
    cross(net, bytes, came)?;
    bench.feed(came, answers);
    if bench.at_limit() {
        return Err(Lost::AtLimit);
    }
    if net.put(End::Far, answers).is_err() {
        return Err(Lost::Failed);
    }
    Ok(())
}

/// Takes as many answers at the near end as `into` holds, and compares them with the first of those that are kept, which are then kept no more. After a fault
/// `into` holds none.
pub fn take_answers<N: Net>(net: &mut N, answers: &mut Answers, into: &mut [u8]) -> Result<(), Lost>
    requires looped { IsTrue (is_looped (N.state net.old)) }
    requires in_step { InStep answers.old.items (N.state net.old).pipe }
    requires waiting { length into.old ≤ length answers.old.items }
    ensures gave { OnOk result (answers.old.items ≡ into.new ++ answers.new.items) }
    ensures took { OnOk result (N.state net.new ≡ after_take end.Near (length into.new) (N.state net.old)) }
    ensures took_some { OnErr result (TookSome end.Near (length into.new) (N.state net.old) (N.state net.new)) }
    ensures in_step { OnOk result (InStep answers.new.items (N.state net.new).pipe) }
    ensures kept { OnErr result (answers.new.items ≡ answers.old.items) }
    ensures blank { OnErr result (into.new ≡ replicate (length into.old) no_answer) }
    ensures looped { IsTrue (is_looped (N.state net.new)) }
    ensures ties { (N.state net.new).ties ≡ (N.state net.old).ties }
    ensures cause { IfErr result
        (LostBy (N.state net.old).pipe (N.fault_count net.old) (N.fault_count net.new) (N.end_count net.old) (N.end_count net.new) None) }
    ensures still { OnOk result (N.fault_count net.new ≡ N.fault_count net.old) }
    ensures none_ended { OnOk result (N.end_count net.new ≡ N.end_count net.old) }
    ensures later { N.fault_count net.old ≤ N.fault_count net.new }
    ensures ends_later { N.end_count net.old ≤ N.end_count net.new }
    ensures lenders { N.lenders net.new ≡ N.lenders net.old }
{
    let count = into.len();
    if let Err(lost) = take_whole(net, End::Near, into) {
        fill_unanswered(into);
        return Err(lost);
    }
    if differ(into, &answers.as_slice()[..count]) {
        fill_unanswered(into);
        return Err(Lost::Differs);
    }
    answers.drain(..count);
    Ok(())
}
