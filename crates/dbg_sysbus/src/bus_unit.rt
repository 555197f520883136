//! The bus's registers, and its access.

ghost use Rattle.std.specs.Prelude.{◌≡◌, Some};
ghost use Rattle.rv_model.specs.Memory.{after_store, is_aligned, loaded, store_answer};
ghost use Rattle.debug_model.specs.Commands.{high_half, low_half};
ghost use Rattle.debug_model.specs.ModuleWords.{sbcs_word};
ghost use Rattle.debug_model.specs.SystemBus.{access_size, bus_busy, bus_done, bus_done_by, bus_looked, bus_read_by, bus_started, bus_wrote_by, grown};
ghost use Rattle.debug_model.specs.SystemBus.{is_clear, reset_bus, sbaddress0_written, sbaddress1_written, sbcs_shown, sbcs_written, sbdata0_read};
ghost use Rattle.debug_model.specs.SystemBus.{sbdata0_written, sbdata1_written};

use crate::halves::{high_half, joined_halves, low_half};
use debug_model::{BusAccess, Sbcs, Sberror};
use rv_mem::Ram;
use rv_model::Size;
use std::marker::Model;

/// `sbversion` for the standard's releases 0.13 and 1.0.
const VERSION: u8 = 1;

/// The bits of an address.
const ADDRESS_BITS: u8 = 64;

/// Accesses of 1, 2, 4 and 8 bytes can be made.
const SIZES: u8 = 0xf;

/// `sbaccess` at reset: four bytes.
const RESET_ACCESS: u8 = 2;

/// The system bus as the debug module reaches it.
#[derive(Drop)]
pub struct BusUnit {
    reads_on_address: bool,
    access: u8,
    autoincrement: bool,
    reads_on_data: bool,
    error: Sberror,
    busy_error: bool,
    address: u64,
    value: u64,
    pending: Option<BusAccess>,
}

impl Model for BusUnit {
    ghost use Rattle.debug_model.specs.SystemBus.{BusUnit};

    ghost Value = { BusUnit };

    ghost view = { λ u. record {
      readonaddr = u.reads_on_address;
      access = u.access;
      autoincrement = u.autoincrement;
      readondata = u.reads_on_data;
      error = u.error;
      busyerror = u.busy_error;
      address = u.address;
      value = u.value;
      pending = u.pending;
    } };
}

/// The size that `sbaccess` names, none above 8 bytes.
fn access_size(access: u8) -> Option<Size>
    ensures { result ≡ access_size access }
{
    match access {
        0 => Some(Size::B1),
        1 => Some(Size::B2),
        2 => Some(Size::B4),
        3 => Some(Size::B8),
        _ => None,
    }
}

/// Whether an address is a multiple of a size.
fn is_aligned(address: u64, size: Size) -> bool
    ensures { result ≡ is_aligned address size }
{
    address % u64::from(size.count()) == 0
}

impl BusUnit {
    /// The bus as a reset of the debug module leaves it.
    pub fn new() -> Self
        ensures { result ≡ reset_bus }
    {
        BusUnit {
            reads_on_address: false,
            access: RESET_ACCESS,
            autoincrement: false,
            reads_on_data: false,
            error: Sberror::Fine,
            busy_error: false,
            address: 0,
            value: 0,
            pending: None,
        }
    }

    /// Whether an access is under way (`sbbusy`).
    #[inline(always)]
    pub fn is_busy(&self) -> bool
        ensures { result ≡ bus_busy self.now }
    {
        self.pending.is_some()
    }

    /// The value of `sbcs`.
    pub fn sbcs(&self) -> u32
        ensures { result ≡ sbcs_word (sbcs_shown self.now) }
    {
        let shown = Sbcs {
            sbversion: VERSION,
            sbbusyerror: self.busy_error,
            sbbusy: self.is_busy(),
            sbreadonaddr: self.reads_on_address,
            sbaccess: self.access,
            sbautoincrement: self.autoincrement,
            sbreadondata: self.reads_on_data,
            sberror: self.error.number(),
            sbasize: ADDRESS_BITS,
            sizes: SIZES,
        };
        shown.word()
    }

    /// A read of `sbaddress0`: the bits 31 to 0 of the address. While the bus is busy it sets `sbbusyerror`.
    pub fn read_sbaddress0(&mut self) -> u32
        ensures value { result ≡ low_half self.old.address }
        ensures after { self.new ≡ bus_looked self.old }
    {
        self.look();
        low_half(self.address)
    }

    /// A read of `sbaddress1`: the bits 63 to 32 of the address. While the bus is busy it sets `sbbusyerror`.
    pub fn read_sbaddress1(&mut self) -> u32
        ensures value { result ≡ high_half self.old.address }
        ensures after { self.new ≡ bus_looked self.old }
    {
        self.look();
        high_half(self.address)
    }

    /// A read of `sbdata0`: the bits 31 to 0 of the data. Behind it an access starts where `sbreadondata` is 1 and no error is set;
    /// while the bus is busy it sets `sbbusyerror`.
    pub fn read_sbdata0(&mut self) -> u32
        ensures value { result ≡ low_half self.old.value }
        ensures after { self.new ≡ sbdata0_read self.old }
    {
        let word = low_half(self.value);
        if self.is_busy() {
            self.busy_error = true;
        } else if self.reads_on_data {
            self.start(BusAccess::Read);
        }
        word
    }

    /// A read of `sbdata1`: the bits 63 to 32 of the data. While the bus is busy it sets `sbbusyerror`.
    pub fn read_sbdata1(&mut self) -> u32
        ensures value { result ≡ high_half self.old.value }
        ensures after { self.new ≡ bus_looked self.old }
    {
        self.look();
        high_half(self.value)
    }

    /// A write of `sbcs`: it sets what starts accesses, their size and whether the address grows, and clears the errors that are written 1.
    /// While the bus is busy it sets `sbbusyerror` and nothing else.
    pub fn write_sbcs(&mut self, word: u32)
        ensures { self.new ≡ sbcs_written word self.old }
    {
        if self.is_busy() {
            self.busy_error = true;
            return;
        }
        let written = Sbcs::from_word(word);
        self.reads_on_address = written.sbreadonaddr;
        self.access = written.sbaccess;
        self.autoincrement = written.sbautoincrement;
        self.reads_on_data = written.sbreadondata;
        self.error = self.error.cleared(written.sberror);
        if written.sbbusyerror {
            self.busy_error = false;
        }
    }

    /// A write of `sbaddress0`; with `sbreadonaddr` it starts a read. While the bus is busy it sets `sbbusyerror` and nothing else.
    pub fn write_sbaddress0(&mut self, word: u32)
        ensures { self.new ≡ sbaddress0_written word self.old }
    {
        if self.is_busy() {
            self.busy_error = true;
            return;
        }
        self.address = joined_halves(word, high_half(self.address));
        if self.reads_on_address {
            self.start(BusAccess::Read);
        }
    }

    /// A write of `sbaddress1`. While the bus is busy it sets `sbbusyerror` and nothing else.
    pub fn write_sbaddress1(&mut self, word: u32)
        ensures { self.new ≡ sbaddress1_written word self.old }
    {
        if self.is_busy() {
            self.busy_error = true;
            return;
        }
        self.address = joined_halves(low_half(self.address), word);
    }

    /// A write of `sbdata0`: it starts a write. With an error set it changes nothing; while the bus is busy it sets `sbbusyerror`.
    pub fn write_sbdata0(&mut self, word: u32)
        ensures { self.new ≡ sbdata0_written word self.old }
    {
        if self.is_busy() {
            self.busy_error = true;
        } else if self.is_clear() {
            self.value = joined_halves(word, high_half(self.value));
            self.start(BusAccess::Write);
        }
    }

    /// A write of `sbdata1`. While the bus is busy it sets `sbbusyerror` and nothing else.
    pub fn write_sbdata1(&mut self, word: u32)
        ensures { self.new ≡ sbdata1_written word self.old }
    {
        if self.is_busy() {
            self.busy_error = true;
            return;
        }
        self.value = joined_halves(low_half(self.value), word);
    }

    /// The access that is under way is made. It answers whether there was one: it touched memory, or tried to.
    #[inline(always)]
    #[tactic(auto, unfolding(debug_model::specs::SystemBus::bus_done))]
    pub fn done(&mut self, ram: &mut Ram) -> bool
        ensures unit { self.new ≡ (bus_done ram.old self.old).unit }
        ensures memory { ram.new ≡ (bus_done ram.old self.old).memory }
        ensures accessed { result ≡ (bus_done ram.old self.old).accessed }
    {
        match self.pending {
            Some(what) => {
                self.make(what, ram);
                true
            }
            None => false,
        }
    }

    /// No error is set.
    fn is_clear(&self) -> bool
        ensures { result ≡ is_clear self.now }
    {
        if self.busy_error {
            return false;
        }
        match self.error {
            Sberror::Fine => true,
            Sberror::Timeout => false,
            Sberror::Address => false,
            Sberror::Alignment => false,
            Sberror::Size => false,
        }
    }

    /// A register was read that may not be read while the bus is busy.
    fn look(&mut self)
        ensures { self.new ≡ bus_looked self.old }
    {
        if self.is_busy() {
            self.busy_error = true;
        }
    }

    /// An access starts, of a bus that is not busy; with an error set, of a size that there is not, or misaligned, it does not.
    fn start(&mut self, what: BusAccess)
        ensures { self.new ≡ bus_started what self.old }
    {
        if !self.is_clear() {
            return;
        }
        match access_size(self.access) {
            Some(size) => {
                if is_aligned(self.address, size) {
                    self.pending = Some(what);
                } else {
                    self.error = Sberror::Alignment;
                }
            }
            None => self.error = Sberror::Size,
        }
    }

    /// The access that the bus is busy with, which is over then.
    fn make(&mut self, what: BusAccess, ram: &mut Ram)
        ensures unit { self.new ≡ (bus_done_by (Some what) (access_size self.old.access) ram.old self.old).unit }
        ensures memory { ram.new ≡ (bus_done_by (Some what) (access_size self.old.access) ram.old self.old).memory }
    {
        match access_size(self.access) {
            Some(size) => match what {
                BusAccess::Read => self.read(size, ram),
                BusAccess::Write => self.write(size, ram),
            },
            // An access without a size does not start.
            None => self.pending = None,
        }
    }

    /// The data take what memory holds at the address, which grows.
    fn read(&mut self, size: Size, ram: &Ram)
        ensures { self.new ≡ bus_read_by (loaded ram.now self.old.address size) size self.old }
    {
        self.pending = None;
        match ram.load(self.address, size) {
            Ok(value) => {
                self.value = value;
                self.grow(size);
            }
            Err(_) => self.error = Sberror::Address,
        }
    }

    /// Memory takes the data's lowest bytes at the address, which grows.
    fn write(&mut self, size: Size, ram: &mut Ram)
        ensures unit { self.new ≡ bus_wrote_by (store_answer ram.old self.old.address size) size self.old }
        ensures memory { ram.new ≡ after_store ram.old self.old.address size self.old.value }
    {
        self.pending = None;
        match ram.store(self.address, size, self.value) {
            Ok(()) => self.grow(size),
            Err(_) => self.error = Sberror::Address,
        }
    }

    /// With `sbautoincrement` the address grows by the size, modulo 2^64.
    fn grow(&mut self, size: Size)
        ensures { self.new ≡ grown size self.old }
    {
        if self.autoincrement {
            self.address = self.address.wrapping_add(u64::from(size.count()));
        }
    }
}
