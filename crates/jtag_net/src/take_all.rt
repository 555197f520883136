//! Takes of many bytes, in whatever pieces they come.
ghost use Rattle.std.specs.Prelude.{◌≡◌, ◌≤◌, length, take, IfErr, IfSome, IsTrue, OnErr, OnOk};
ghost use Rattle.jtag_net.specs.Wired.{TakeCause, Took, TookSome, are_answers, is_wired, judges};

use debug_model::{End, Net, fill_unanswered};

/// Why takes were cut short.
#[derive(Clone, Copy, Debug, PartialEq, Eq)]
pub enum Cut {
    /// A take failed.
    Failed,
    /// The other side has ended.
    Ended,
    /// A byte came that is neither `0` nor `1`.
    BadAnswer,
}

/// Takes that were cut short.
#[derive(Drop)]
struct Short {
    /// How many bytes came before.
    came: usize,
    cut: Cut,
}

/// Whether each byte is an answer: `0` or `1`.
#[tactic(auto, unfolding(crate::specs::Wired::are_answers))]
fn are_answers(bytes: &[u8]) -> bool
    ensures { result ≡ are_answers bytes.now }
{
    bytes.iter().all(|byte| *byte == b'0' || *byte == b'1')
}

/// Fills `into` with the next bytes at the near end, from its front on, and takes nothing more behind a byte that is no answer.
#[tactic(auto, using(crate::proofs::Takes::took_front, crate::proofs::Takes::took_none, crate::proofs::Judged::front_judged, crate::proofs::Judged::none_true))]
fn take_front<N: Net>(net: &mut N, into: &mut [u8]) -> Result<(), Short>
    requires wired { IsTrue (is_wired (N.state net.old)) }
    requires waiting { IfSome (N.state net.old).chip (λ f. length into.old ≤ length f.unread) }
    ensures took { OnOk result (Took (length into.new) into.new (N.state net.old) (N.state net.new)) }
    ensures answers { OnOk result (IsTrue (are_answers into.new)) }
    ensures some { IfErr result (λ short. Took short.came into.new (N.state net.old) (N.state net.new)) }
    ensures judged { IfErr result (λ short. are_answers (take short.came into.new) ≡ judges short.cut) }
    ensures within { IfErr result (λ short. short.came ≤ length into.new) }
    ensures wired { IsTrue (is_wired (N.state net.new)) }
    ensures ties { (N.state net.new).ties ≡ (N.state net.old).ties }
    ensures still { OnOk result (N.fault_count net.new ≡ N.fault_count net.old) }
    ensures none_ended { OnOk result (N.end_count net.new ≡ N.end_count net.old) }
    ensures cause { IfErr result (λ short. TakeCause (N.fault_count net.old) (N.fault_count net.new) (N.end_count net.old) (N.end_count net.new) short.cut) }
    ensures later { N.fault_count net.old ≤ N.fault_count net.new }
    ensures ends_later { N.end_count net.old ≤ N.end_count net.new }
    ensures lenders { N.lenders net.new ≡ N.lenders net.old }
{
    let mut came = 0;
    'pieces: while came < into.len() {
        match net.take(End::Near, &mut into[came..]) {
            Ok(0) => {
                let cut = Cut::Ended;
                return Err(Short { came, cut });
            }
            Ok(count) => came += count,
            Err(_) => {
                let cut = Cut::Failed;
                return Err(Short { came, cut });
            }
        }
        if !are_answers(&into[..came]) {
            let cut = Cut::BadAnswer;
            return Err(Short { came, cut });
        }
    }
    Ok(())
}

/// Fills `into` with the next bytes at the near end. Where that is cut short, no other bytes were taken than those that stand there.
#[tactic(auto, using(crate::proofs::Takes::took_some, crate::proofs::Judged::padded_judged))]
pub fn take_all<N: Net>(net: &mut N, into: &mut [u8]) -> Result<(), Cut>
    requires wired { IsTrue (is_wired (N.state net.old)) }
    requires waiting { IfSome (N.state net.old).chip (λ f. length into.old ≤ length f.unread) }
    ensures took { OnOk result (Took (length into.new) into.new (N.state net.old) (N.state net.new)) }
    ensures answers { OnOk result (IsTrue (are_answers into.new)) }
    ensures some { OnErr result (TookSome into.new (N.state net.old) (N.state net.new)) }
    ensures judged { IfErr result (λ cut. are_answers into.new ≡ judges cut) }
    ensures wired { IsTrue (is_wired (N.state net.new)) }
    ensures ties { (N.state net.new).ties ≡ (N.state net.old).ties }
    ensures still { OnOk result (N.fault_count net.new ≡ N.fault_count net.old) }
    ensures none_ended { OnOk result (N.end_count net.new ≡ N.end_count net.old) }
    ensures cause { IfErr result (TakeCause (N.fault_count net.old) (N.fault_count net.new) (N.end_count net.old) (N.end_count net.new)) }
    ensures later { N.fault_count net.old ≤ N.fault_count net.new }
    ensures ends_later { N.end_count net.old ≤ N.end_count net.new }
    ensures lenders { N.lenders net.new ≡ N.lenders net.old }
{
    match take_front(net, into) {
        Ok(()) => Ok(()),
        Err(short) => {
            fill_unanswered(&mut into[short.came..]);
            Err(short.cut)
        }
    }
}
