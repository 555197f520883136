ghost use Rattle.std.specs.Prelude.{◌≡◌, ◌+◌, ◌-◌, ◌*◌, ◌^◌, ◌≤◌, ◌<◌, IfOk, IsTrue};
ghost use Rattle.debug_model.specs.Command.{IsBlock, all_addresses};
ghost use Rattle.debug_model.specs.Registers.{is_register};
ghost use Rattle.rv_model.specs.Size.{count_of};
ghost use Rattle.debug_model.specs.ScriptArguments.{one_word, ranged, ranged_or, address_of, value_of, count_from, length_from, size_named, path_named};
ghost use Rattle.debug_model.specs.ScriptArguments.{watch_kind_named, switch_named, register_named, ending};
ghost use Rattle.script_lang.specs.Takes.{Takes, TakesWord};

use crate::number::read_number;
use crate::words::Words;
use debug_model::{Path, RegName, ScriptFault, WatchKind};
use rv_model::Size;

/// The most elements of a `read` or a `write`, and the most bytes of a `dump`.
const MOST_ELEMENTS: u16 = 512;

/// How many addresses there are.
const ALL_ADDRESSES: u128 = 1 << 64;

/// The next word, which must be there.
fn word<'a>(words: &mut Words<'a>) -> Result<&'a [u8], ScriptFault>
    ensures { TakesWord result words.new words.old }
{
    words.next().ok_or(ScriptFault::Missing)
}

/// A number from `least` to `most`.
#[tactic(auto, unfolding(debug_model::specs::ScriptArguments::ranged, debug_model::specs::ScriptArguments::number_within))]
pub(crate) fn ranged(words: &mut Words, least: u64, most: u64) -> Result<u64, ScriptFault>
    ensures taken { Takes result words.new (ranged least most words.old) }
    ensures within { IfOk result (λ n. (least ≤ n) × (n ≤ most)) }
{
    let value = read_number(word(words)?)?;
    if least <= value && value <= most {
        Ok(value)
    } else {
        Err(ScriptFault::OutOfRange)
    }
}

/// A number from `least` to `most`, or `absent` where the line ends before it.
#[tactic(auto, unfolding(debug_model::specs::ScriptArguments::ranged_or))]
pub(crate) fn ranged_or(
    words: &mut Words,
    absent: u16,
    least: u16,
    most: u16,
) -> Result<u16, ScriptFault>
    requires { (least ≤ absent) × (absent ≤ most) }
    ensures taken { Takes result words.new (ranged_or absent least most words.old) }
    ensures within { IfOk result (λ n. (least ≤ n) × (n ≤ most)) }
{
    if words.is_empty() {
        return Ok(absent);
    }
    small(words, least, most)
}

/// A small number from `least` to `most`.
pub(crate) fn small(words: &mut Words, least: u16, most: u16) -> Result<u16, ScriptFault>
    ensures taken { Takes result words.new (ranged least most words.old) }
    ensures within { IfOk result (λ n. (least ≤ n) × (n ≤ most)) }
{
    Ok(ranged(words, u64::from(least), u64::from(most))? as u16)
}

/// An address at which an element of that size ends at or below the last address.
pub(crate) fn address(words: &mut Words, size: u8) -> Result<u64, ScriptFault>
    requires { (1 ≤ size) × (size ≤ 8) }
    ensures taken { Takes result words.new (address_of size words.old) }
    ensures within { IfOk result (λ address. address + size ≤ all_addresses) }
{
    let most = ALL_ADDRESSES - u128::from(size);
    ranged(words, 0, most as u64)
}

/// A value of that many bytes.
pub(crate) fn value(words: &mut Words, size: Size) -> Result<u64, ScriptFault>
    ensures taken { Takes result words.new (value_of (count_of size) words.old) }
    ensures within { IfOk result (λ value. value < 256 ^ count_of size) }
{
    ranged(words, 0, greatest(size))
}

/// The greatest value of a size.
fn greatest(size: Size) -> u64
    ensures value { result ≡ 256 ^ count_of size - 1 }
    ensures fits { result < 256 ^ count_of size }
{
    match size {
        Size::B1 => u64::from(u8::MAX),
        Size::B2 => u64::from(u16::MAX),
        Size::B4 => u64::from(u32::MAX),
        Size::B8 => u64::MAX,
    }
}

/// A count of elements of that size from an address on, 1 where the line ends before it.
#[tactic(auto, unfolding(debug_model::specs::ScriptArguments::count_from))]
pub(crate) fn count(words: &mut Words, size: u8, address: u64) -> Result<u16, ScriptFault>
    ensures taken { Takes result words.new (count_from size address words.old) }
    ensures within { IfOk result (IsBlock size address) }
{
    let count = ranged_or(words, 1, 1, MOST_ELEMENTS)?;
    ending(size, address, count)
}

/// A length in bytes from an address on.
#[tactic(auto, unfolding(debug_model::specs::ScriptArguments::length_from))]
pub(crate) fn len(words: &mut Words, address: u64) -> Result<u16, ScriptFault>
    ensures taken { Takes result words.new (length_from address words.old) }
    ensures within { IfOk result (IsBlock 1 address) }
{
    let count = small(words, 1, MOST_ELEMENTS)?;
    ending(1, address, count)
}

/// The count, where so many elements of that size from an address on end at or below the last address.
#[tactic(auto, unfolding(debug_model::specs::ScriptArguments::ending))]
fn ending(size: u8, address: u64, count: u16) -> Result<u16, ScriptFault>
    ensures ended { result ≡ ending size address count }
    ensures within { IfOk result (λ n. (n ≡ count) × (address + size * count ≤ all_addresses)) }
{
    if u128::from(address) + u128::from(size) * u128::from(count) <= ALL_ADDRESSES {
        Ok(count)
    } else {
        Err(ScriptFault::OutOfRange)
    }
}

/// A size in bytes: 1, 2, 4 or 8.
#[tactic(auto, unfolding(debug_model::specs::ScriptArguments::size_named))]
pub(crate) fn size(words: &mut Words) -> Result<Size, ScriptFault>
    ensures { Takes result words.new (one_word size_named words.old) }
{
    match read_number(word(words)?)? {
        1 => Ok(Size::B1),
        2 => Ok(Size::B2),
        4 => Ok(Size::B4),
        8 => Ok(Size::B8),
        _ => Err(ScriptFault::OutOfRange),
    }
}

/// `progbuf` or `bus`.
#[tactic(auto, unfolding(debug_model::specs::ScriptArguments::path_named))]
pub(crate) fn path(words: &mut Words) -> Result<Path, ScriptFault>
    ensures { Takes result words.new (one_word path_named words.old) }
{
    let word = word(words)?;
    if word == b"progbuf".as_slice() {
        Ok(Path::Progbuf)
    } else if word == b"bus".as_slice() {
        Ok(Path::Bus)
    } else {
        Err(ScriptFault::UnknownWord)
    }
}

/// `load`, `store` or `access`.
#[tactic(auto, unfolding(debug_model::specs::ScriptArguments::watch_kind_named))]
pub(crate) fn watch_kind(words: &mut Words) -> Result<WatchKind, ScriptFault>
    ensures { Takes result words.new (one_word watch_kind_named words.old) }
{
    let word = word(words)?;
    if word == b"load".as_slice() {
        Ok(WatchKind::Load)
    } else if word == b"store".as_slice() {
        Ok(WatchKind::Store)
    } else if word == b"access".as_slice() {
        Ok(WatchKind::Access)
    } else {
        Err(ScriptFault::UnknownWord)
    }
}

/// `on` or `off`.
#[tactic(auto, unfolding(debug_model::specs::ScriptArguments::switch_named))]
pub(crate) fn switch(words: &mut Words) -> Result<bool, ScriptFault>
    ensures { Takes result words.new (one_word switch_named words.old) }
{
    let word = word(words)?;
    if word == b"on".as_slice() {
        Ok(true)
    } else if word == b"off".as_slice() {
        Ok(false)
    } else {
        Err(ScriptFault::UnknownWord)
    }
}

/// The name of a register.
#[tactic(auto, unfolding(debug_model::specs::ScriptArguments::register_named))]
pub(crate) fn register(words: &mut Words) -> Result<RegName, ScriptFault>
    ensures taken { Takes result words.new (one_word register_named words.old) }
    ensures within { IfOk result (λ register. IsTrue (is_register register.0)) }
{
    RegName::named(word(words)?).ok_or(ScriptFault::UnknownWord)
}
