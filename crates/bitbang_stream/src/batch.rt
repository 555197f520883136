ghost use Rattle.std.specs.Prelude.{◌≡◌, ◌≤◌, ◌+◌, [], ◌++◌, IsTrue, length};
ghost use Rattle.debug_model.specs.Scan.{high, low};
ghost use Rattle.debug_model.specs.Wire.{are_open, piece_most};
ghost use Rattle.bitbang_stream.specs.Clock.{pulsed};

use arrayvec::ArrayVec;
use debug_model::PIECE_MOST;
use std::marker::Model;

/// The sign that asks for TDO.
const ASK: u8 = b'R';

/// The bytes of one piece before they are sent: at most 256, all of them signs that leave the stream open.
#[derive(Drop)]
pub struct Batch {
    signs: ArrayVec<u8, PIECE_MOST>,
}

impl Model for Batch {
    ghost use Rattle.std.specs.Prelude.{ℕ, List, IsTrue};
    ghost use Rattle.debug_model.specs.Wire.{are_open};

    ghost Value = { List ℕ };

    ghost view = { λ b. b.signs.items };

    ghost invariant = { λ b. IsTrue (are_open b.signs.items) };
}

/// The digit that sets TCK 0 with these levels of TMS and TDI.
fn low_digit(tms: bool, tdi: bool) -> u8
    ensures { result ≡ low tms tdi }
{
    match (tms, tdi) {
        (false, false) => b'0',
        (false, true) => b'1',
        (true, false) => b'2',
        (true, true) => b'3',
    }
}

/// The digit that sets TCK 1 with these levels of TMS and TDI.
fn high_digit(tms: bool, tdi: bool) -> u8
    ensures { result ≡ high tms tdi }
{
    match (tms, tdi) {
        (false, false) => b'4',
        (false, true) => b'5',
        (true, false) => b'6',
        (true, true) => b'7',
    }
}

impl Batch {
    /// No bytes.
    pub fn new() -> Self
        ensures { result ≡ [] }
    {
        Batch {
            signs: ArrayVec::new(),
        }
    }

    /// Appends one clock of TCK with these levels of TMS and TDI: the digit with TCK 0, where TDO is asked an `R`, and
    /// the digit with TCK 1. There is room for three bytes.
    ///
    /// Source: OpenOCD, remote_bitbang; IEEE 1149.1, where TDO changes at a fall and TMS and TDI are sampled at a rise.
    pub fn pulse(&mut self, tms: bool, tdi: bool, ask: bool)
        requires room { length self.old + 3 ≤ piece_most }
        ensures { self.new ≡ self.old ++ pulsed ask tms tdi }
    {
        self.signs.push(low_digit(tms, tdi));
        if ask {
            self.signs.push(ASK);
        }
        self.signs.push(high_digit(tms, tdi));
    }

    /// The bytes, in the order in which they are sent: at most 256, and one piece for a wire.
    pub fn bytes(&self) -> &[u8]
        ensures bytes { result.now ≡ self.now }
        ensures most { length result.now ≤ piece_most }
        ensures signs { IsTrue (are_open result.now) }
    {
        &self.signs
    }
}

#[cfg(test)]
mod tests {
    use super::*;

    #[test]
    fn pulses(rt: HostRuntime) {
        let mut batch = Batch::new();
        assert!(rt; batch.bytes().is_empty());
        // TMS, TDI, whether TDO is asked, and all bytes by then
        let cases: [(bool, bool, bool, &[u8]); 8] = [
            (false, false, false, b"04"),
            (false, true, false, b"0415"),
            (true, false, false, b"041526"),
            (true, true, false, b"04152637"),
            (false, false, true, b"041526370R4"),
            (false, true, true, b"041526370R41R5"),
            (true, false, true, b"041526370R41R52R6"),
            (true, true, true, b"041526370R41R52R63R7"),
        ];
        for (tms, tdi, ask, wanted) in cases {
            assert!(rt; batch.bytes().len() <= 253);
            batch.pulse(tms, tdi, ask);
            assert_eq!(rt; batch.bytes(), wanted);
        }
    }
}
