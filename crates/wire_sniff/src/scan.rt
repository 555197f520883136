ghost use Rattle.std.specs.Prelude.{◌≡◌, ◌+◌, ◌*◌, ◌/◌, ◌<◌, ◌≤◌, ◌^◌, [], ◌∷◌, ◌++◌, Bool, List, Option};
ghost use Rattle.jt_base.specs.BitList.{digit};
ghost use Rattle.wire_sniff.specs.Sniffed.{given_after, taken_after};
ghost use Rattle.wire_sniff.specs.State.{IsScan, given_more, seen_more};

use debug_model::TapState;
use jt_base::Bits;

/// The most bits of a scan that are shown.
pub(crate) const SHOWN_MOST: u8 = 64;

/// The bits of a scan of dmi that its status has.
const STATUS_WIDTH: u8 = 2;

/// What the instruction register captures: the standard fixes the two lowest bits.
const CAPTURED_INSTRUCTION: u8 = 0b00001;

/// The highest of the five bits of the instruction register, into which TDI is shifted.
const HIGHEST_INSTRUCTION_BIT: u8 = 0b10000;

/// What is kept of a scan under way.
#[derive(Clone, Copy)]
pub(crate) struct Scan {
    /// How many bits were shifted.
    pub(crate) count: u64,
    /// The first of the given bits.
    pub(crate) given: Bits,
    /// The first of the taken bits, or None where one of them was not seen.
    pub(crate) taken: Option<Bits>,
    /// The two first of the taken bits, or None where one of them was not seen.
    pub(crate) status: Option<Bits>,
    /// What a scan of the instruction register with these bits leaves in it.
    pub(crate) instruction: u8,
}

/// One more given bit, of which at most 64 are kept.
fn give(bits: Bits, bit: bool) -> Bits
    ensures { result ≡ given_more SHOWN_MOST bit bits }
{
    let mut given = bits;
    if given.len() < SHOWN_MOST {
        given.push(bit);
    }
    given
}

/// What an instruction register of five bits holds behind one shift.
fn shift_instruction(code: u8, tdi: bool) -> u8
    ensures { result ≡ code / 2 + 16 * digit tdi }
{
    if tdi {
        code / 2 + HIGHEST_INSTRUCTION_BIT
    } else {
        code / 2
    }
}

/// One more taken bit, of which at most so many are kept.
fn see(bits: Option<Bits>, answer: Option<bool>, most: u8) -> Option<Bits>
    requires { most < 65 }
    ensures { result ≡ seen_more most answer bits }
{
    let Some(mut seen) = bits else {
        return None;
    };
    if seen.len() >= most {
        return Some(seen);
    }
    let Some(bit) = answer else {
        return None;
    };
    seen.push(bit);
    Some(seen)
}

impl Scan {
    /// A scan that was captured, with no bit yet.
    pub(crate) fn captured() -> Self
        ensures { IsScan result [] [] }
    {
        Scan {
            count: 0,
            given: Bits::new(),
            taken: Some(Bits::new()),
            status: Some(Bits::new()),
            instruction: CAPTURED_INSTRUCTION,
        }
    }

    /// What a rise of TCK in this state does: a capture or a shift, or nothing.
    pub(crate) fn rise(&mut self, state: TapState, tdi: bool, answer: Option<bool>)
        requires { self.old.count + 1 < 2 ^ 64 }
        ensures scan { (given : List Bool) → (taken : List (Option Bool)) → IsScan self.old given taken
            → IsScan self.new (given_after state tdi given) (taken_after state answer taken) }
        ensures count { self.new.count ≤ self.old.count + 1 }
    {
        match state {
            TapState::CaptureDr | TapState::CaptureIr => *self = Scan::captured(),
            TapState::ShiftDr | TapState::ShiftIr => self.shift(tdi, answer),
            _ => {}
        }
    }

    /// One more bit is given, and one is taken where TDO was asked.
    fn shift(&mut self, tdi: bool, answer: Option<bool>)
        requires { self.old.count + 1 < 2 ^ 64 }
        ensures bit { (given : List Bool) → (taken : List (Option Bool)) → IsScan self.old given taken
            → IsScan self.new (given ++ tdi ∷ []) (taken ++ answer ∷ []) }
        ensures count { self.new.count ≡ self.old.count + 1 }
    {
        self.count += 1;
        self.given = give(self.given, tdi);
        self.taken = see(self.taken, answer, SHOWN_MOST);
        self.status = see(self.status, answer, STATUS_WIDTH);
        self.instruction = shift_instruction(self.instruction, tdi);
    }
}
