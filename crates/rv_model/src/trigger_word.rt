//! `tdata1` as a word, for each kind of trigger and each release, and what `tinfo` says of the types
//! (RISC-V Debug Specification 1.0, "Trigger Data 1", "Trigger Info", "Match Control Type 6", "Instruction Count";
//! RISC-V External Debug Support 0.13.2, "Match Control").

ghost use Rattle.std.specs.Prelude.{◌≡◌, ◌<◌};
ghost use Rattle.rv_model.specs.TriggerWords.{address_fixed, address_of, address_type, address_word, comparison_number, comparison_of, count_limit, hit_place};
ghost use Rattle.rv_model.specs.TriggerWords.{icount_word, icount_of, tdata1_of, tinfo_value, trigger_of, version_offered, version_shown, CountFits};

use crate::bits::{bit, bit_value, field};
use crate::slot::{Comparison, Icount, Mcontrol6, Trigger};
use crate::version::Version;

const TYPE_LOW: u32 = 60;

const TYPE_BITS: u32 = 4;

const TYPE_MCONTROL: u64 = 2;

const TYPE_ICOUNT: u64 = 3;

const TYPE_MCONTROL6: u64 = 6;

/// The bits of the word of an address trigger, of either type.
mod address_bits {
    /// `hit` of `mcontrol`.
    pub const HIT_V013: u32 = 20;

    /// `hit0` of `mcontrol6`.
    pub const HIT_V10: u32 = 22;

    pub const MATCH_LOW: u32 = 7;

    pub const MATCH_BITS: u32 = 4;

    pub const M: u32 = 6;

    pub const EXECUTE: u32 = 2;

    pub const STORE: u32 = 1;

    pub const LOAD: u32 = 0;
    /// Type 2, `dmode` 1 and `action` 1.
    pub const FIXED_V013: u64 = 0x2800_0000_0000_1000;
    /// Type 6, `dmode` 1 and `action` 1.
    pub const FIXED_V10: u64 = 0x6800_0000_0000_1000;
}

/// The bits of an `icount` word.
mod icount_bits {
    pub const HIT: u32 = 24;

    pub const COUNT_LOW: u32 = 10;

    pub const COUNT_BITS: u32 = 14;

    pub const M: u32 = 9;

    pub const PENDING: u32 = 8;
    /// Its type, `dmode` 1 and `action` 1.
    pub const FIXED: u64 = 0x3800_0000_0000_0001;
}

/// What `tinfo` reads on a chip of release 0.13: the types 2, 3 and 15.
const TINFO_V013: u64 = 0x800c;

/// What it reads on a chip of release 1.0: version 1, and the types 3, 6 and 15.
const TINFO_V10: u64 = 0x0100_8048;

/// The bit of `tinfo` that offers `mcontrol6`.
const OFFERS_MCONTROL6: u32 = 6;

/// What `tdata1` of a disabled slot reads: type 15 and `dmode` 1.
pub const DISABLED_WORD: u64 = 0xf800_0000_0000_0000;

impl Comparison {
    /// The field `match`: 0, 2 or 3.
    pub fn number(self) -> u8
        ensures { result ≡ comparison_number self }
    {
        match self {
            Comparison::Equal => 0,
            Comparison::AtLeast => 2,
            Comparison::Below => 3,
        }
    }

    /// What a written `match` is kept as: any number but 2 and 3 becomes 0.
    pub fn from_number(number: u8) -> Self
        ensures { result ≡ comparison_of number }
    {
        match number {
            2 => Comparison::AtLeast,
            3 => Comparison::Below,
            _ => Comparison::Equal,
        }
    }
}

impl Version {
    /// The number of the type of an address trigger.
    fn address_type(self) -> u64
        ensures { result ≡ address_type self }
    {
        match self {
            Version::V013 => TYPE_MCONTROL,
            Version::V10 => TYPE_MCONTROL6,
        }
    }

    /// The bit that says that an address trigger has fired.
    fn hit_place(self) -> u32
        ensures is { result ≡ hit_place self }
        ensures inside { result < 32 }
    {
        match self {
            Version::V013 => address_bits::HIT_V013,
            Version::V10 => address_bits::HIT_V10,
        }
    }

    /// What is always set in the word of an address trigger.
    fn address_fixed(self) -> u64
        ensures { result ≡ address_fixed self }
    {
        match self {
            Version::V013 => address_bits::FIXED_V013,
            Version::V10 => address_bits::FIXED_V10,
        }
    }

    /// What `tinfo` reads.
    pub fn tinfo(self) -> u64
        ensures { result ≡ tinfo_value self }
    {
        match self {
            Version::V013 => TINFO_V013,
            Version::V10 => TINFO_V10,
        }
    }

    /// The release by which a word of `tdata1` is read: 0.13 for one of type 2, else 1.0.
    pub fn shown_by(tdata1: u64) -> Self
        ensures { result ≡ version_shown tdata1 }
    {
        if field(tdata1, TYPE_LOW, TYPE_BITS) == TYPE_MCONTROL {
            Version::V013
        } else {
            Version::V10
        }
    }

    /// The release whose address triggers a slot takes that has this `tinfo`: 1.0 where it offers type 6, else 0.13.
    pub fn offered_by(tinfo: u64) -> Self
        ensures { result ≡ version_offered tinfo }
    {
        if bit(tinfo, OFFERS_MCONTROL6) {
            Version::V10
        } else {
            Version::V013
        }
    }
}

impl Mcontrol6 {
    fn word(self, version: Version) -> u64
        ensures { result ≡ address_word version self }
    {
        version.address_fixed()
            + bit_value(self.hit, version.hit_place())
            + (u64::from(self.comparison.number()) << address_bits::MATCH_LOW)
            + bit_value(self.m, address_bits::M)
            + bit_value(self.execute, address_bits::EXECUTE)
            + bit_value(self.store, address_bits::STORE)
            + bit_value(self.load, address_bits::LOAD)
    }

    fn from_word(word: u64, version: Version) -> Self
        ensures { result ≡ address_of version word }
    {
        let comparison = field(word, address_bits::MATCH_LOW, address_bits::MATCH_BITS) as u8;
        Mcontrol6 {
            hit: bit(word, version.hit_place()),
            comparison: Comparison::from_number(comparison),
            m: bit(word, address_bits::M),
            execute: bit(word, address_bits::EXECUTE),
            store: bit(word, address_bits::STORE),
            load: bit(word, address_bits::LOAD),
        }
    }
}

impl Icount {
    fn word(self) -> u64
        requires { self.count < count_limit }
        ensures { result ≡ icount_word self }
    {
        icount_bits::FIXED
            + bit_value(self.hit, icount_bits::HIT)
            + (u64::from(self.count) << icount_bits::COUNT_LOW)
            + bit_value(self.m, icount_bits::M)
            + bit_value(self.pending, icount_bits::PENDING)
    }

    fn from_word(word: u64) -> Self
        ensures is { result ≡ icount_of word }
        ensures fits { result.count < count_limit }
    {
        Icount {
            hit: bit(word, icount_bits::HIT),
            count: field(word, icount_bits::COUNT_LOW, icount_bits::COUNT_BITS) as u16,
            m: bit(word, icount_bits::M),
            pending: bit(word, icount_bits::PENDING),
        }
    }
}

impl Trigger {
    /// What `tdata1` reads on a chip of this release. A count is below 2^14.
    #[tactic(auto, unfolding(crate::specs::TriggerWords::tdata1_of))]
    pub fn tdata1(self, version: Version) -> u64
        requires { CountFits self }
        ensures { result ≡ tdata1_of version self }
    {
        match self {
            Trigger::Mcontrol6(trigger) => trigger.word(version),
            Trigger::Icount(trigger) => trigger.word(),
            Trigger::Disabled => DISABLED_WORD,
        }
    }

    /// What a write of `tdata1` keeps on a chip of this release: a trigger of a type that it has not is disabled.
    #[tactic(auto, unfolding(crate::specs::TriggerWords::trigger_of))]
    pub fn from_tdata1(word: u64, version: Version) -> Self
        ensures is { result ≡ trigger_of version word }
        ensures fits { CountFits result }
    {
        let number = field(word, TYPE_LOW, TYPE_BITS);
        if number == version.address_type() {
            return Trigger::Mcontrol6(Mcontrol6::from_word(word, version));
        }
        match number {
            TYPE_ICOUNT => Trigger::Icount(Icount::from_word(word)),
            _ => Trigger::Disabled,
        }
    }
}
