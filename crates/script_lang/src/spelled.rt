ghost use Rattle.std.specs.Prelude.{◌≡◌, ◌++◌, ◌∷◌, [], map, OnOk};
ghost use Rattle.std.specs.List.{join_with_byte};
ghost use Rattle.debug_model.specs.ScriptText.{space};
ghost use Rattle.debug_model.specs.Spelling.{spelled_address, hexadecimal};
ghost use Rattle.script_lang.specs.Argument.{spelled_argument};

use debug_model::hex_digit;
use itoa::Buffer;
use std::alloc::AllocError;

/// The hexadecimal digits of an address or a value.
const HEXADECIMAL_DIGITS: u8 = 16;

/// A word after a command's name.
#[derive(Clone, Copy)]
pub(crate) enum Argument<'a> {
    /// A number, decimal.
    Number(u64),
    /// An address or a value, in sixteen hexadecimal digits.
    Address(u64),
    /// A fixed word or a name.
    Word(&'a [u8]),
}

/// Appends a command's name and its arguments, with one space between words.
pub(crate) fn write_words(
    text: &mut Vec<u8>,
    name: &[u8],
    arguments: &[Argument],
) -> Result<(), AllocError>
    ensures { OnOk result (text.new.items ≡ text.old.items ++ join_with_byte space (name.now ∷ map spelled_argument arguments.now)) }
{
    text.extend_from_slice(name)?;
    for argument in arguments {
        text.push(b' ')?;
        write_argument(text, *argument)?;
    }
    Ok(())
}

/// Appends an argument.
fn write_argument(text: &mut Vec<u8>, argument: Argument) -> Result<(), AllocError>
    ensures { OnOk result (text.new.items ≡ text.old.items ++ spelled_argument argument.entry) }
{
    match argument {
        Argument::Number(number) => text.extend_from_slice(Buffer::new().format(number).as_bytes()),
        Argument::Address(address) => write_address(text, address),
        Argument::Word(word) => text.extend_from_slice(word),
    }
}

/// Appends `0x` and sixteen lower-case digits.
fn write_address(text: &mut Vec<u8>, address: u64) -> Result<(), AllocError>
    ensures { OnOk result (text.new.items ≡ text.old.items ++ spelled_address address) }
{
    text.extend_from_slice(b"0x")?;
    write_digits(text, HEXADECIMAL_DIGITS, address)
}

/// Appends the lowest hexadecimal digits of a number, the highest of them first.
fn write_digits(text: &mut Vec<u8>, count: u8, number: u64) -> Result<(), AllocError>
    ensures { OnOk result (text.new.items ≡ text.old.items ++ hexadecimal count number) }
{
    if count == 0 {
        return Ok(());
    }
    write_digits(text, count - 1, number / 16)?;
    text.push(hex_digit((number % 16) as u8))?;
    Ok(())
}
