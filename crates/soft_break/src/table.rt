ghost use Rattle.std.specs.Prelude.{◌≡◌, ◌≤◌, ◌<◌, ◌^◌, ◌+◌, ◌==◌, true, false, All, length, nat_lt, position, IfSome};
ghost use Rattle.std.specs.List.{position_or_len};
ghost use Rattle.rv_model.specs.Memory.{is_aligned};
ghost use Rattle.rv_model.specs.Size.{count_of};
ghost use Rattle.debug_model.specs.SoftCommand.{IsSoftAddress};
ghost use Rattle.soft_laws.specs.Lowered.{merged, merged_byte, written_table};
ghost use Rattle.soft_laws.specs.Shown.{shown_byte, shown_value};
ghost use Rattle.soft_laws.specs.SoftBreaks.{is_listed, meets, meets_some};
ghost use Rattle.soft_laws.specs.SoftDebugger.{most_planted};
ghost use Rattle.soft_break.specs.Patches.{IsSameTable, KeepsWords, Upwards, no_patches, original_of, table_of, with_patch, without_patch};

use crate::bytes::{byte_of, covers, has_common, with_byte};
use arrayvec::ArrayVec;
use rv_model::Size;
use std::marker::Model;

/// How many software breakpoints may be set at a time.
pub const PATCHES_MOST: usize = 32;

/// The instruction `ebreak`, without operands (RISC-V Unprivileged ISA, "Environment Call and Breakpoints").
pub(crate) const EBREAK: u32 = 0x0010_0073;

/// The software breakpoints that are set, and the word of memory that each has taken the place of: at most 32.
#[derive(Debug, Drop)]
pub struct SoftTable {
    addresses: ArrayVec<u64, PATCHES_MOST>,
    originals: ArrayVec<u32, PATCHES_MOST>,
}

impl Model for SoftTable {
    ghost use Rattle.soft_break.specs.Patches.{ArePatches, Patches};

    ghost Value = { Patches };

    ghost view = { λ t. record { addresses = t.addresses.items; originals = t.originals.items } };

    ghost invariant = { λ t. ArePatches (record { addresses = t.addresses.items; originals = t.originals.items }) };
}

impl SoftTable {
    /// The table without a breakpoint.
    pub fn new() -> SoftTable
        ensures { result ≡ no_patches }
    {
        SoftTable {
            addresses: ArrayVec::new(),
            originals: ArrayVec::new(),
        }
    }

    /// Whether a breakpoint is set at an address.
    pub fn planted(&self, at: u64) -> bool
        ensures { result ≡ is_listed self.now.addresses at }
    {
        match self.place_of(at) {
            Some(_) => true,
            None => false,
        }
    }

    /// The addresses of the breakpoints, upwards: also of one that is taken off while a hart steps over it.
    pub fn patches(&self) -> &[u64]
        ensures list { result.now ≡ self.now.addresses }
        ensures upwards { Upwards result.now }
        ensures few { length result.now ≤ most_planted }
        ensures words { All IsSoftAddress result.now }
    {
        self.addresses.as_slice()
    }

    /// What a user sees of a value that was read of memory: the originals in place of the ebreaks. It was read of an address that is a multiple of its size.
    pub fn hide(&self, size: Size, addr: u64, read: u64) -> u64
        requires aligned { is_aligned addr size ≡ true }
        ensures shown { result ≡ shown_value (table_of self.now) addr (count_of size) read }
        ensures fits { result < 256 ^ count_of size }
    {
        self.hide_bytes(size.count(), addr, read)
    }

    /// Takes a value that a user writes to memory into the originals, and answers what is to be written: the value with the ebreaks in it. It is written to an
    /// address that is a multiple of its size.
    pub fn merge(&mut self, size: Size, addr: u64, value: u64) -> u64
        requires aligned { is_aligned addr size ≡ true }
        ensures merged { result ≡ merged self.old.addresses addr (count_of size) value }
        ensures fits { result < 256 ^ count_of size }
        ensures same { self.new.addresses ≡ self.old.addresses }
        ensures taken { IsSameTable (written_table addr (count_of size) value (table_of self.old)) (table_of self.new) }
        ensures words { KeepsWords self.old self.new }
    {
        self.merge_bytes(size.count(), addr, value)
    }

    /// Whether an element of memory has a byte in common with a word at which a breakpoint is set.
    pub fn meets(&self, size: Size, addr: u64) -> bool
        ensures { result ≡ meets_some self.now.addresses addr (count_of size) }
    {
        match self.place_beside(size, addr) {
            Some(_) => true,
            None => false,
        }
    }

    /// So many bytes from an address on, as a user sees them.
    fn hide_bytes(&self, count: u8, addr: u64, read: u64) -> u64
        requires some { (1 ≤ count) × (count ≤ 8) }
        requires inside { addr + count ≤ 2 ^ 64 }
        ensures shown { result ≡ shown_value (table_of self.now) addr count read }
        ensures fits { result < 256 ^ count }
    {
        let first = u64::from(self.hide_byte(addr, (read % 256) as u8));
        if count == 1 {
            return first;
        }
        first + 256 * self.hide_bytes(count - 1, addr + 1, read / 256)
    }

    /// One byte at an address, as a user sees it.
    fn hide_byte(&self, at: u64, byte: u8) -> u8
        ensures { result ≡ shown_byte (table_of self.now) at byte }
    {
        match self.place_over(at) {
            Some(place) => byte_of(
                self.originals.as_slice()[place],
                (at - self.addresses.as_slice()[place]) as usize,
            ),
            None => byte,
        }
    }

    /// Takes so many bytes from an address on into the originals, and answers them with the ebreaks' bytes in them.
    fn merge_bytes(&mut self, count: u8, addr: u64, value: u64) -> u64
        requires some { (1 ≤ count) × (count ≤ 8) }
        requires inside { addr + count ≤ 2 ^ 64 }
        ensures merged { result ≡ merged self.old.addresses addr count value }
        ensures fits { result < 256 ^ count }
        ensures same { self.new.addresses ≡ self.old.addresses }
        ensures taken { IsSameTable (written_table addr count value (table_of self.old)) (table_of self.new) }
        ensures words { KeepsWords self.old self.new }
    {
        let first = u64::from(self.merge_byte(addr, (value % 256) as u8));
        if count == 1 {
            return first;
        }
        first + 256 * self.merge_bytes(count - 1, addr + 1, value / 256)
    }

    /// Takes one byte at an address into the originals, and answers the ebreak's byte where one is there.
    fn merge_byte(&mut self, at: u64, byte: u8) -> u8
        ensures merged { result ≡ merged_byte self.old.addresses at byte }
        ensures same { self.new.addresses ≡ self.old.addresses }
        ensures taken { IsSameTable (written_table at 1 byte (table_of self.old)) (table_of self.new) }
        ensures words { KeepsWords self.old self.new }
    {
        match self.place_over(at) {
            Some(place) => {
                let within = (at - self.addresses.as_slice()[place]) as usize;
                let word = self.originals.as_slice()[place];
                self.originals.as_mut_slice()[place] = with_byte(word, within, byte);
                byte_of(EBREAK, within)
            }
            None => byte,
        }
    }

    /// The place of the breakpoint whose word has the byte at an address.
    fn place_over(&self, at: u64) -> Option<usize>
        ensures place { result ≡ position (λ a. meets a at 1) self.now.addresses }
        ensures inside { IfSome result (λ place. place < length self.now.addresses) }
    {
        self.addresses
            .as_slice()
            .iter()
            .position(|address| covers(*address, at))
    }

    /// The place of the first breakpoint whose word has a byte in common with an element of memory.
    fn place_beside(&self, size: Size, addr: u64) -> Option<usize>
        ensures place { result ≡ position (λ a. meets a addr (count_of size)) self.now.addresses }
        ensures inside { IfSome result (λ place. place < length self.now.addresses) }
    {
        self.addresses
            .as_slice()
            .iter()
            .position(|address| has_common(*address, size, addr))
    }

    /// The word that the breakpoint at an address has taken the place of.
    pub(crate) fn original(&self, at: u64) -> u32
        requires { is_listed self.now.addresses at ≡ true }
        ensures original { result ≡ original_of at self.now }
        ensures word { IsSoftAddress at }
    {
        match self.place_of(at) {
            Some(place) => self.originals.as_slice()[place],
            None => 0,
        }
    }

    /// The place of the breakpoint at an address.
    fn place_of(&self, at: u64) -> Option<usize>
        ensures place { result ≡ position (λ a. at == a) self.now.addresses }
        ensures inside { IfSome result (λ place. place < length self.now.addresses) }
    {
        self.addresses
            .as_slice()
            .iter()
            .position(|address| at == *address)
    }

    /// The place of the first breakpoint above an address.
    fn place_above(&self, at: u64) -> Option<usize>
        ensures place { result ≡ position (λ a. nat_lt at a) self.now.addresses }
        ensures inside { IfSome result (λ place. place < length self.now.addresses) }
    {
        self.addresses
            .as_slice()
            .iter()
            .position(|address| at < *address)
    }

    /// The place among the addresses that one more takes.
    fn place_for(&self, at: u64) -> usize
        ensures place { result ≡ position_or_len (λ a. nat_lt at a) self.now.addresses }
        ensures inside { result ≤ length self.now.addresses }
    {
        match self.place_above(at) {
            Some(place) => place,
            None => self.addresses.len(),
        }
    }

    /// Whether no breakpoint more can be set.
    pub(crate) fn is_full(&self) -> bool
        ensures full { result ≡ (length self.now.addresses == most_planted) }
        ensures few { length self.now.addresses ≤ most_planted }
    {
        self.addresses.len() == PATCHES_MOST
    }

    /// Remembers one breakpoint more, with the word that it takes the place of.
    pub(crate) fn put(&mut self, at: u64, original: u32)
        requires word { IsSoftAddress at }
        requires free { is_listed self.old.addresses at ≡ false }
        requires room { length self.old.addresses < most_planted }
        ensures put { self.new ≡ with_patch at original self.old }
        ensures found { original_of at self.new ≡ original }
    {
        let place = self.place_for(at);
        self.addresses.insert(place, at);
        self.originals.insert(place, original);
    }

    /// Forgets the breakpoint at an address.
    pub(crate) fn forget(&mut self, at: u64)
        requires { is_listed self.old.addresses at ≡ true }
        ensures { self.new ≡ without_patch at self.old }
    {
        if let Some(place) = self.place_of(at) {
            self.addresses.remove(place);
            self.originals.remove(place);
        }
    }
}
