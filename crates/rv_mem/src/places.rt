//! Reservations (unprivileged manual, "Load-Reserved/Store-Conditional Instructions").

ghost use Rattle.std.specs.Prelude.{◌≡◌, ◌*◌, ◌/◌, ◌<◌, map, length, slice_get};
ghost use Rattle.rv_model.specs.Memory.{kept, place_covers};
ghost use Rattle.rv_model.specs.Size.{count_of};

use rv_model::Size;

/// How many bytes a reservation has; it stands at a multiple of that.
const PLACE_SIZE: u64 = 8;

/// The start of the place that holds an address.
pub fn place_round(addr: u64) -> u64
    ensures { result ≡ addr / 8 * 8 }
{
    addr / PLACE_SIZE * PLACE_SIZE
}

/// What a write of `count` bytes from `addr` on leaves of a reservation.
fn kept_place(place: Option<u64>, addr: u64, count: u64) -> Option<u64>
    ensures { result ≡ kept addr count place }
{
    let start = place?;
    let touched = if addr <= start {
        start - addr < count
    } else {
        addr - start < PLACE_SIZE
    };
    if touched { None } else { place }
}

/// Takes away the reservations that a write of `count` bytes from `addr` on touches.
pub fn clear(places: &mut [Option<u64>], addr: u64, count: u64)
    ensures { places.new ≡ map (kept addr count) places.old }
{
    for place in places.iter_mut() {
        *place = kept_place(*place, addr, count);
    }
}

/// Whether a hart's reservation covers the `size` bytes from `addr` on.
#[tactic(auto, using(crate::proofs::ByteLemmas::count_most))]
pub fn is_covered(places: &[Option<u64>], hart: u8, addr: u64, size: Size) -> bool
    requires { hart < length places.now }
    ensures { result ≡ place_covers (slice_get places.now hart) addr (count_of size) }
{
    match places[hart as usize] {
        Some(start) => start <= addr && addr - start <= PLACE_SIZE - u64::from(size.count()),
        None => false,
    }
}
