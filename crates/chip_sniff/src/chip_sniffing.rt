ghost use Rattle.std.specs.Prelude.{◌≡◌, IfSome, IsSome, IsSomeAnd};
ghost use Rattle.debug_model.specs.Loaded.{AsLoaded};
ghost use Rattle.chip_core.specs.Feeds.{feed_of, said_of};
ghost use Rattle.chip_sniff.specs.Shown.{TellsOperations};
ghost use Rattle.wire_sniff.specs.Ends.{Sniffs};

use chip_core::{Answers, Bench};
use debug_model::Schedule;
use jt_base::Sink;
use wire_sniff::{SniffEnd, sniff};

/// Gives a chip these bytes, and drops what it answers.
fn feed_whole<Q: Schedule>(bench: &mut Bench<Q>, bytes: &[u8])
    requires { IsSome bench.old }
    ensures { bench.new ≡ feed_of bench.old bytes.now }
{
    for byte in bytes {
        let mut answers = Answers::new();
        bench.feed(&[*byte], &mut answers);
    }
}

/// Gives a chip as loaded these bytes, and sniffs them with the answers that this chip gives to them. Where every byte that counts is a sign, the
/// chip hasn't met its limit, and each scan of dmi is as long as its register and was asked for its status, the operations that the lines name are
/// exactly those that the transport of the chip put in flight, in their order.
///
/// Source: RISC-V Debug Specification 1.0, "Debug Module Interface Access".
pub fn sniff_chip<Q: Schedule, K: Sink>(
    bench: &mut Bench<Q>,
    stream: &[u8],
    answers: &[u8],
    out: &mut K,
) -> SniffEnd
    requires loaded { IsSomeAnd bench.old AsLoaded }
    requires answers { answers.now ≡ said_of bench.old stream.now }
    ensures fed { bench.new ≡ feed_of bench.old stream.now }
    ensures sniffed { Sniffs stream.now answers.now (K.contents out.old) (K.contents out.new) (K.fault_count out.old) (K.fault_count out.new) result }
    ensures operations { IfSome bench.old (λ l. TellsOperations l stream.now answers.now) }
{
    feed_whole(bench, stream);
    sniff(stream, answers, out)
}
