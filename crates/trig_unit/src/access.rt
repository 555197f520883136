//! Whether a byte of an access compares with `tdata2` (RISC-V Debug Specification 1.0, "Match Control Type 6").
//!
//! The bytes stand at consecutive addresses modulo 2^64, so an access may go on at address 0.

ghost use Rattle.std.specs.Prelude.{◌≡◌, nat_le};
ghost use Rattle.rv_model.specs.Triggers.{compares, addresses, access_compares};
ghost use Rattle.std.specs.List.{list_any};
ghost use Rattle.rv_model.specs.declared.slot.Comparison.TheVariants.{Equal, AtLeast, Below};

use rv_model::Comparison;

/// Whether an address compares.
pub fn compares(comparison: Comparison, tdata2: u64, addr: u64) -> bool
    ensures { result ≡ compares comparison tdata2 addr }
{
    match comparison {
        Comparison::Equal => addr == tdata2,
        Comparison::AtLeast => addr >= tdata2,
        Comparison::Below => addr < tdata2,
    }
}

/// Whether one of so many bytes from an address on is equal to `tdata2`.
fn some_equal(tdata2: u64, first: u64, count: u8) -> bool
    ensures { result ≡ list_any (compares Equal tdata2) (addresses first count) }
{
    tdata2.wrapping_sub(first) < u64::from(count)
}

/// Whether one of so many bytes from an address on is `tdata2` or above.
fn some_at_least(tdata2: u64, first: u64, count: u8) -> bool
    ensures { result ≡ list_any (compares AtLeast tdata2) (addresses first count) }
{
    if count == 0 {
        return false;
    }
    let last = first.wrapping_add(u64::from(count) - 1);
    if last < first { true } else { last >= tdata2 }
}

/// Whether one of so many bytes from an address on is below `tdata2`.
fn some_below(tdata2: u64, first: u64, count: u8) -> bool
    ensures { result ≡ list_any (compares Below tdata2) (addresses first count) }
{
    if count == 0 {
        return false;
    }
    let last = first.wrapping_add(u64::from(count) - 1);
    if last < first {
        tdata2 > 0
    } else {
        first < tdata2
    }
}

/// Whether a byte of an access compares; none does where there is no access.
pub fn access_compares(comparison: Comparison, tdata2: u64, access: Option<(u64, u8)>) -> bool
    ensures { result ≡ access_compares comparison tdata2 access }
{
    match access {
        Some((first, count)) => match comparison {
            Comparison::Equal => some_equal(tdata2, first, count),
            Comparison::AtLeast => some_at_least(tdata2, first, count),
            Comparison::Below => some_below(tdata2, first, count),
        },
        None => false,
    }
}
