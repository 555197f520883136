//! Lists of bits, as a serial register shifts them.
#![tactic(auto, using(crate::proofs::BitLists::bit_lists), unfolding(crate::specs::BitList::bits_of))]

ghost use Rattle.std.specs.Prelude.{◌≡◌, ◌==◌, ◌+◌, ◌<◌, ◌≤◌, [], ◌∷◌, ◌++◌, Some, length, slice_get, option_to_list, IfNone, OnSome};
ghost use Rattle.jt_base.specs.BitList.{most_bits, bits_of, number_of, lowest, shift_in};

use std::marker::Model;

/// The most bits that a list holds.
const MOST: u8 = 64;

/// A list of at most 64 bits, the least significant first: the order in which a serial register shifts them out
/// (IEEE 1149.1, the test data registers).
#[derive(Clone, Copy, Debug, PartialEq, Eq, Default)]
pub struct Bits {
    value: u64,
    count: u8,
}

impl Model for Bits {
    ghost use Rattle.std.specs.Prelude.{ℕ, ◌<◌, ◌≤◌, ◌^◌, List, Bool, length};
    ghost use Rattle.jt_base.specs.BitList.{most_bits, bits_of, number_of};
    ghost use Rattle.jt_base.specs.BitLaws.{length-bits_of, number_of-bits_of};

    ghost Value = { List Bool };

    ghost view = { λ b. bits_of b.count b.value };

    ghost invariant = { λ b. (b.count ≤ most_bits) × (b.value < 2 ^ b.count) };

    ghost inverse = { λ bits. record { value = number_of bits; count = length bits } };

    ghost inverse_ok = { λ b i k. record {
      value = number_of-bits_of b.count b.value i.1 k;
      count = length-bits_of b.count b.value k;
    } };
}

impl Bits {
    /// No bits.
    pub fn new() -> Self
        ensures { result ≡ [] }
    {
        Bits { value: 0, count: 0 }
    }

    /// The lowest `len` bits of a number; `len` is at most 64.
    pub fn from_u64(value: u64, len: u8) -> Self
        requires { len ≤ most_bits }
        ensures bits { result ≡ bits_of len value }
        ensures length { length result ≡ len }
    {
        if len == MOST {
            return Bits { value, count: len };
        }
        Bits {
            value: value % (1 << len),
            count: len,
        }
    }

    /// The number that the bits spell. Absent bits are 0.
    pub fn value(&self) -> u64
        ensures { result ≡ number_of self.now }
    {
        self.value
    }

    /// How many bits there are, at most 64.
    pub fn len(&self) -> u8
        ensures length { result ≡ length self.now }
        ensures most { result ≤ most_bits }
    {
        self.count
    }

    /// Whether there is no bit.
    pub fn is_empty(&self) -> bool
        ensures { result ≡ (length self.now == 0) }
    {
        self.count == 0
    }

    /// The bit at a place below the length. Place 0 is the least significant.
    pub fn bit(&self, at: u8) -> bool
        requires { at < length self.now }
        ensures { slice_get self.now at ≡ Some result }
    {
        (self.value >> at) % 2 == 1
    }

    /// The least significant bit, which leaves at the next shift: false where there is none.
    pub fn lowest(&self) -> bool
        ensures { result ≡ lowest self.now }
    {
        self.value % 2 == 1
    }

    /// Puts a bit above the others. There are fewer than 64.
    pub fn push(&mut self, bit: bool)
        requires { length self.old < most_bits }
        ensures { self.new ≡ self.old ++ bit ∷ [] }
    {
        if bit {
            self.value += 1 << self.count;
            self.count += 1;
            return;
        }
        self.count += 1;
    }

    /// Takes the least significant bit, or None where there is none.
    pub fn pop(&mut self) -> Option<bool>
        ensures bits { self.old ≡ option_to_list result ++ self.new }
        ensures none { IfNone result (self.new ≡ []) }
        ensures room { OnSome result (length self.new < most_bits) }
    {
        if self.count == 0 {
            return None;
        }
        let bit = self.value % 2 == 1;
        self.value /= 2;
        self.count -= 1;
        Some(bit)
    }

    /// One shift: the least significant bit leaves, and `bit` enters above the others. No bits stay none.
    pub fn shift_in(&mut self, bit: bool)
        ensures { self.new ≡ shift_in bit self.old }
    {
        if self.pop().is_some() {
            self.push(bit);
        }
    }
}
