ghost use Rattle.std.specs.Prelude.{◌≡◌, ◌^◌, ◌≤◌, ◌<◌, SomeIff};
ghost use Rattle.std.specs.Char.{is_digit};
ghost use Rattle.std.specs.List.{list_all};
ghost use Rattle.std.specs.Str.Parse.{digits_value, AllDigits};
ghost use Rattle.debug_model.specs.ScriptNumber.{number_read, numeral_read, are_digits};

use debug_model::ScriptFault;

/// The most decimal digits of a number: the greatest `u64` has as many.
const MOST_DECIMAL_DIGITS: usize = 20;

/// The most hexadecimal digits of a number.
const MOST_HEXADECIMAL_DIGITS: usize = 16;

/// The number that a word writes: 1 to 20 decimal digits, or `0x` and 1 to 16 hexadecimal digits of either case.
/// `BadNumber` where the word is not of this form, `OutOfRange` where its number is 2^64 or more.
#[tactic(auto, using(crate::proofs::NumberLemmas::number_steps))]
pub fn read_number(word: &[u8]) -> Result<u64, ScriptFault>
    ensures { result ≡ number_read word.now }
{
    match word.strip_prefix(b"0x") {
        Some(digits) => numeral(16, MOST_HEXADECIMAL_DIGITS, digits),
        None => numeral(10, MOST_DECIMAL_DIGITS, word),
    }
}

/// The number that at most so many digits of a base write.
fn numeral(base: u32, most: usize, digits: &[u8]) -> Result<u64, ScriptFault>
    requires { (2 ≤ base) × (base ≤ 36) }
    ensures { result ≡ numeral_read base most digits.now }
{
    if !are_digits(base, most, digits) {
        return Err(ScriptFault::BadNumber);
    }
    value(base, digits).ok_or(ScriptFault::OutOfRange)
}

/// Whether there are from one to so many bytes, each a digit of a base.
#[tactic(auto, using(crate::proofs::NumberLemmas::are_digits_steps))]
fn are_digits(base: u32, most: usize, digits: &[u8]) -> bool
    requires { (2 ≤ base) × (base ≤ 36) }
    ensures { result ≡ are_digits base most digits.now }
{
    if digits.is_empty() || digits.len() > most {
        return false;
    }
    all_digits(base, digits)
}

/// Whether each byte is a digit of a base.
fn all_digits(base: u32, digits: &[u8]) -> bool
    requires { (2 ≤ base) × (base ≤ 36) }
    ensures { result ≡ list_all (λ digit. is_digit digit base) digits.now }
{
    digits.iter().all(|digit| char::from(*digit).is_digit(base))
}

/// The number that digits of a base write, where it is below 2^64.
fn value(base: u32, digits: &[u8]) -> Option<u64>
    requires base { (2 ≤ base) × (base ≤ 36) }
    requires digits { AllDigits base digits.now }
    ensures { SomeIff result (digits_value base digits.now < 2 ^ 64) (digits_value base digits.now) }
{
    let mut value: u64 = 0;
    for digit in digits {
        let digit = char::from(*digit).to_digit(base).unwrap();
        value = value
            .checked_mul(u64::from(base))?
            .checked_add(u64::from(digit))?;
    }
    Some(value)
}
