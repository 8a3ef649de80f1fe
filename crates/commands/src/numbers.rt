// Reads a word as a number.
ghost use Rattle.std.specs.Prelude.{◌≡◌, ℕ, ◌^◌, ◌<◌, ◌≤◌, IsTrue, SomeIff};
ghost use Rattle.std.specs.Str.Parse.{digits_value, AllDigits};
ghost use Rattle.commands.specs.Numbers.{base_of, digits_of, is_numeral, number_below};

use crate::command::Unreadable;

// The digits of a word, and their base.
fn digits_of(word: &[u8]) -> (&[u8], u32)
    ensures digits { result.0.now ≡ digits_of word.now }
    ensures base { result.1 ≡ base_of word.now }
{
    match word {
        [b'0', b'x', digits @ ..] => (digits, 16),
        _ => (word, 10),
    }
}

fn is_numeral(digits: &[u8], base: u32) -> bool
    requires { (2 ≤ base) × (base ≤ 36) }
    ensures { result ≡ is_numeral base digits.now }
{
    !digits.is_empty() && digits.iter().all(|digit| char::from(*digit).is_digit(base))
}

// The value of the digits, if all are digits of the base and it fits 64 bits.
fn value_of(digits: &[u8], base: u32) -> Option<u64>
    requires { (2 ≤ base) × (base ≤ 36) }
    ensures { SomeIff result (AllDigits base digits.now × (digits_value base digits.now < 2 ^ 64)) (digits_value base digits.now) }
{
    let mut value: u64 = 0;
    for digit in digits {
        let digit = char::from(*digit).to_digit(base)?;
        value = value
            .checked_mul(u64::from(base))?
            .checked_add(u64::from(digit))?;
    }
    Some(value)
}

// A word as a number, in decimal digits or behind `0x` in hexadecimal ones. A number above 64 bits is told from what is no number.
pub fn number(word: &[u8]) -> Result<u64, Unreadable>
    ensures { result ≡ number_below (2 ^ 64) word.now }
{
    let (digits, base) = digits_of(word);
    if is_numeral(digits, base) {
        value_of(digits, base).ok_or(Unreadable::TooLarge)
    } else {
        Err(Unreadable::NotANumber)
    }
}
