//! Serving what takes bytes over a net.

ghost use Rattle.std.specs.Prelude.{◌≡◌, ◌+◌, ◌<◌, ◌≤◌, IfErr, IfOk, IsSome, OnErr, OnOk, true};
ghost use Rattle.debug_model.specs.Net.{given_most, is_open};
ghost use Rattle.debug_model.specs.declared.net.End.TheVariants as end;
ghost use Rattle.chip_server.specs.Served.{CountsOnce, IsInPiece, IsPlain, ServedBy, Serving};

use crate::feed::Feed;
use crate::served::Served;
use chip_core::{Answers, Fed};
use debug_model::{End, Net, WireFault};

/// The most bytes of a piece that is served at once.
const SERVED_MOST: usize = 256;

/// Takes one piece at the near end of the net, feeds it, and puts what is answered. It answers the bytes of the piece, or how the serving ended in it: the
/// place of a bad byte counts in the piece.
fn serve_piece<N: Net, F: Feed>(net: &mut N, taker: &mut F) -> Result<u64, Served>
    requires opened { is_open end.Near (N.state net.old) ≡ true }
    requires plain { IsPlain (N.state net.old) }
    requires loaded { IsSome (F.state taker.old) }
    ensures serving { IfOk result (λ count. Serving F.feeding count (N.state net.old) (N.state net.new) (F.state taker.old) (F.state taker.new)) }
    ensures some { IfOk result (λ count. 0 < count) }
    ensures bound { OnOk result ((N.state net.new).near_given ≤ given_most) }
    ensures goes_on { OnOk result (N.end_count net.new ≡ N.end_count net.old) }
    ensures still { OnOk result (N.fault_count net.new ≡ N.fault_count net.old) }
    ensures served { IfErr result (λ served. ServedBy F.feeding served (N.state net.old) (N.state net.new) (F.state taker.old) (F.state taker.new)) }
    ensures place { IfErr result IsInPiece }
    ensures counts { IfErr result (CountsOnce (N.fault_count net.old) (N.fault_count net.new) (N.end_count net.old) (N.end_count net.new)) }
    ensures later { N.fault_count net.old ≤ N.fault_count net.new }
    ensures loaded { IsSome (F.state taker.new) }
    ensures lenders { N.lenders net.new ≡ N.lenders net.old }
    ensures borrows { F.lenders taker.new ≡ F.lenders taker.old }
{
    let mut piece = [0; SERVED_MOST];
    let count = match net.take(End::Near, &mut piece) {
        Ok(0) => return Err(Served::PeerEnded),
        Ok(count) => count,
        Err(_) => return Err(Served::NetFailed(WireFault::RecvFailed)),
    };
    let mut answers = Answers::new();
    let fed = taker.feed(&piece[..count], &mut answers);
    if net.put(End::Near, &answers).is_err() {
        return Err(Served::NetFailed(WireFault::SendFailed));
    }
    match fed {
        Fed::All => Ok(count as u64),
        Fed::Quit(_) => Err(Served::Quit),
        Fed::Bad(place, byte) => Err(Served::Bad(place as u64, byte)),
        Fed::EventLimit(_) => Err(Served::Limit),
    }
}

/// Serves the chip on a bench, or what else takes the stream's bytes, to the peer at the near end of the net, until `Q`, the peer's end, a byte that is no
/// sign, the event limit or a fault of the net.
///
/// It isn't blank, the near end is open, and the net tells neither a chip nor a pipe. Each piece that comes, of at most 256 bytes, is answered before the next
/// is awaited. It takes no memory, and ends, since one end of a net gives at most 2^40 bytes.
pub fn serve<N: Net, F: Feed>(net: &mut N, taker: &mut F) -> Served
    requires opened { is_open end.Near (N.state net.old) ≡ true }
    requires plain { IsPlain (N.state net.old) }
    requires loaded { IsSome (F.state taker.old) }
    ensures served { ServedBy F.feeding result (N.state net.old) (N.state net.new) (F.state taker.old) (F.state taker.new) }
    ensures counts { CountsOnce (N.fault_count net.old) (N.fault_count net.new) (N.end_count net.old) (N.end_count net.new) result }
    ensures later { N.fault_count net.old ≤ N.fault_count net.new }
    ensures lenders { N.lenders net.new ≡ N.lenders net.old }
    ensures borrows { F.lenders taker.new ≡ F.lenders taker.old }
{
    let mut taken = 0;
    'pieces: loop {
        match serve_piece(net, taker) {
            Ok(count) => taken += count,
            Err(served) => return served.behind(taken),
        }
    }
}
