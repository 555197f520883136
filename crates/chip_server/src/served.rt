ghost use Rattle.std.specs.Prelude.{◌≡◌, ◌≤◌};
ghost use Rattle.debug_model.specs.Net.{given_most};
ghost use Rattle.chip_server.specs.Served.{IsInPiece, behind};

use debug_model::WireFault;

/// How the serving of a chip ended.
#[derive(Clone, Copy, Debug, PartialEq, Eq)]
pub enum Served {
    /// The peer sent `Q`.
    Quit,
    /// The peer ended its side.
    PeerEnded,
    /// This byte is no sign. Its place counts from 0 in the whole stream.
    Bad(u64, u8),
    /// The chip met its limit of events.
    Limit,
    /// The net failed: `RecvFailed` at a take, `SendFailed` at a put.
    NetFailed(WireFault),
}

impl Served {
    /// The same end of a stream in which so many bytes stand before the piece.
    pub(crate) fn behind(self, count: u64) -> Served
        requires count { count ≤ given_most }
        requires place { IsInPiece self }
        ensures { result ≡ behind count self }
    {
        match self {
            Served::Bad(place, byte) => Served::Bad(count + place, byte),
            Served::Quit => Served::Quit,
            Served::PeerEnded => Served::PeerEnded,
            Served::Limit => Served::Limit,
            Served::NetFailed(fault) => Served::NetFailed(fault),
        }
    }
}
