ghost use Rattle.std.specs.Prelude.{◌≡◌, ◌<◌, ◌≤◌, ◌^◌, ◌↔◌, ℕ, Err, IfOk, OnOk, IsSome, length, ◌+◌};
ghost use Rattle.std.specs.FinMap.{get};
ghost use Rattle.rv_model.specs.Memory.{IsRamSize, zero_memory, msip_memory, msip_bit, ram_base, loaded, fetch_of, word_of, store_answer, after_store};
ghost use Rattle.rv_model.specs.Memory.{reserve, dropped, covers};
ghost use Rattle.rv_model.specs.Size.{count_of};
ghost use Rattle.rv_model.specs.Image.{ram_size, filled};

use crate::bytes::{is_aligned, put};
use crate::places::{clear, is_covered, place_round};
use crate::ram_fault::RamFault;
use crate::windows::{BASE, MSIP_SIZE, load_at, store_at};
use rv_model::{MemFault, Size};
use std::alloc::Global;
use std::marker::Model;

/// How many harts can hold a reservation.
const HARTS: usize = 4;

/// RAM's size is a multiple of this many bytes.
const PAGE: u64 = 4096;

/// The fewest bytes that RAM has.
const SMALLEST: u64 = 65_536;

/// The most bytes that RAM has.
const LARGEST: u64 = 16_777_216;

/// RAM from address 0x80000000 on and MSIP words from 0x2000000 on, with one reservation for each of four harts.
#[derive(Drop)]
pub struct Ram {
    words: Vec<u8>,
    bytes: Vec<u8>,
    places: [Option<u64>; HARTS],
}

impl Model for Ram {
    ghost use Rattle.rv_model.specs.Memory.{Memory, IsRamSize, memory_code, laid};
    ghost use Rattle.rv_mem.specs.Windows.{most_words};
    ghost use Rattle.std.specs.Prelude.{◌≤◌, vec_len};

    ghost Value = { Memory };

    ghost coded = { memory_code };

    ghost view = { λ r. record { bytes = laid r.words.items r.bytes.items; reserved = r.places } };

    ghost invariant = { λ r. IsRamSize (vec_len r.bytes) × (vec_len r.words ≤ most_words) };
}

impl Ram {
    /// RAM of so many bytes, all of them 0, with no MSIP words and no reservation.
    /// The size is a multiple of 4,096 from 65,536 to 16,777,216.
    pub fn new(alloc: Global, size: u64) -> Result<Self, RamFault>
        ensures zeros { IfOk result (λ ram. ram ≡ zero_memory size) }
        ensures right_size { OnOk result (IsRamSize size) }
        ensures bad_size { (result ≡ Err RamFault.BadSize) ↔ ¬ IsRamSize size }
    {
        Ram::made(alloc, size, 0)
    }

    /// RAM of so many bytes and the MSIP words of 1 to 4 harts, all of them 0, with no reservation.
    /// The size is a multiple of 4,096 from 65,536 to 16,777,216.
    pub fn with_msip(alloc: Global, size: u64, harts: u8) -> Result<Self, RamFault>
        requires some { 1 ≤ harts }
        requires most { harts ≤ 4 }
        ensures zeros { IfOk result (λ ram. ram ≡ msip_memory size harts) }
        ensures right_size { OnOk result (IsRamSize size) }
        ensures bad_size { (result ≡ Err RamFault.BadSize) ↔ ¬ IsRamSize size }
    {
        Ram::made(alloc, size, harts)
    }

    /// RAM of so many bytes and the MSIP words of so many harts, at most 4.
    fn made(alloc: Global, size: u64, harts: u8) -> Result<Self, RamFault>
        requires most { harts ≤ 4 }
        ensures zeros { IfOk result (λ ram. ram ≡ msip_memory size harts) }
        ensures right_size { OnOk result (IsRamSize size) }
        ensures bad_size { (result ≡ Err RamFault.BadSize) ↔ ¬ IsRamSize size }
    {
        if size < SMALLEST || size > LARGEST || size % PAGE != 0 {
            return Err(RamFault::BadSize);
        }
        let Ok(words) = vec![in alloc; 0; MSIP_SIZE * harts as usize] else {
            return Err(RamFault::NoMemory);
        };
        match vec![in alloc; 0; size as usize] {
            Ok(bytes) => Ok(Ram {
                words,
                bytes,
                places: [None; HARTS],
            }),
            Err(_) => Err(RamFault::NoMemory),
        }
    }

    /// How many bytes RAM has, from address 0x80000000 on.
    pub fn size(&self) -> u64
        ensures bytes { result ≡ ram_size self.now }
        ensures right { IsRamSize result }
        ensures addresses { (a : ℕ) → (ram_base ≤ a) → IsSome (get self.now.bytes a) ↔ (a < ram_base + result) }
    {
        self.bytes.len() as u64
    }

    /// The number in the `size` bytes from `addr` on, zero extended.
    #[tactic(auto, unfolding(rv_model::specs::Memory::loaded))]
    pub fn load(&self, addr: u64, size: Size) -> Result<u64, MemFault>
        ensures value { result ≡ loaded self.now addr size }
        ensures small { IfOk result (λ value. value < 256 ^ count_of size) }
    {
        if !is_aligned(addr, size) {
            return Err(MemFault::Misaligned);
        }
        match load_at(&self.words, &self.bytes, addr, size) {
            Some(value) => Ok(value),
            None => Err(MemFault::Outside),
        }
    }

    /// The word that a hart would execute at `pc`, or None where one of its bytes is not in RAM or `pc` is not a multiple of 4.
    #[tactic(auto, unfolding(rv_model::specs::Memory::fetch_of))]
    pub fn fetch(&self, pc: u64) -> Option<u32>
        ensures { result ≡ word_of (fetch_of self.now pc) }
    {
        if pc < BASE {
            return None;
        }
        match self.load(pc, Size::B4) {
            Ok(word) => Some(word as u32),
            Err(_) => None,
        }
    }

    /// Whether a hart's software interrupt pends: bit 0 of its MSIP word, and false where there is no such word.
    pub fn msip(&self, hart: u8) -> bool
        ensures { result ≡ msip_bit self.now hart }
    {
        let at = MSIP_SIZE * usize::from(hart);
        if at >= self.words.len() {
            return false;
        }
        self.words[at] % 2 == 1
    }

    /// Puts the lowest bytes of `value` into the `size` bytes from `addr` on, of which an MSIP word keeps bit 0,
    /// and takes away each reservation that they touch. A refused store changes nothing.
    #[tactic(auto, unfolding(rv_model::specs::Memory::store_answer, rv_model::specs::Memory::after_store))]
    pub fn store(&mut self, addr: u64, size: Size, value: u64) -> Result<(), MemFault>
        ensures answer { result ≡ store_answer self.old addr size }
        ensures after { self.new ≡ after_store self.old addr size value }
        ensures size { ram_size self.new ≡ ram_size self.old }
    {
        if !is_aligned(addr, size) {
            return Err(MemFault::Misaligned);
        }
        if !store_at(&mut self.words, &mut self.bytes, addr, size, value) {
            return Err(MemFault::Outside);
        }
        clear(&mut self.places, addr, u64::from(size.count()));
        Ok(())
    }

    /// Puts an image at address 0x80000000 and takes away each reservation that it touches; the bytes above it stay.
    /// It is at most as long as RAM.
    pub fn fill(&mut self, image: &[u8])
        requires { length image.now ≤ ram_size self.old }
        ensures after { self.new ≡ filled self.old image.now }
        ensures size { ram_size self.new ≡ ram_size self.old }
    {
        put(&mut self.bytes, image);
        clear(&mut self.places, BASE, image.len() as u64);
    }

    /// A hart below 4 reserves the aligned eight bytes that hold an address, in place of what it had reserved.
    pub fn reserve(&mut self, hart: u8, addr: u64)
        requires { hart < 4 }
        ensures after { self.new ≡ reserve self.old hart addr }
        ensures places { length self.new.reserved ≡ HARTS }
    {
        self.places[hart as usize] = Some(place_round(addr));
    }

    /// A hart below 4 has no reservation from now on.
    pub fn drop_reservation(&mut self, hart: u8)
        requires { hart < 4 }
        ensures after { self.new ≡ dropped self.old hart }
        ensures places { length self.new.reserved ≡ HARTS }
    {
        self.places[hart as usize] = None;
    }

    /// Whether the reservation of a hart below 4 covers the `size` bytes from `addr` on.
    pub fn reserved(&self, hart: u8, addr: u64, size: Size) -> bool
        requires { hart < 4 }
        ensures is { result ≡ covers self.now hart addr size }
        ensures places { length self.now.reserved ≡ HARTS }
    {
        is_covered(&self.places, hart, addr, size)
    }
}
