//! Words read as numbers.
ghost use Rattle.std.specs.Prelude.{◌≡◌, ◌-◌, true, replicate, SomeIff};
ghost use Rattle.std.specs.Char.{is_ascii_digit};
ghost use Rattle.words.specs.Numbers.{number_of, numbers_of};
ghost use Rattle.words.specs.Statements.{wide};

use crate::text::Words;

/// The value of a digit.
fn digit(byte: u8) -> Option<u8>
    ensures { SomeIff result (is_ascii_digit byte ≡ true) (byte - 48) }
{
    byte.is_ascii_digit().then(|| byte - b'0')
}

// In one pass, by a loop: to see that a word is digits, to make it text and to let the library read that goes over it three times.
/// The number that a word of digits writes, if it is at most 65,535.
fn number(word: &[u8]) -> Option<u16>
    ensures { result ≡ number_of wide word.now }
{
    if word.is_empty() {
        return None;
    }
    let mut value: u32 = 0;
    for byte in word {
        value = 10 * value + u32::from(digit(*byte)?);
        // Later digits only raise it, so it is refused before it outgrows its type.
        if value > u32::from(u16::MAX) {
            return None;
        }
    }
    Some(value as u16)
}

// By a loop: `array::try_from_fn` asks that an iterator over the array fit in memory, which nothing says of each N.
/// The words as so many numbers, and no word more.
pub fn numbers<const N: usize>(mut words: Words<'_>) -> Option<[u16; N]>
    ensures { result ≡ numbers_of (replicate N wide) words.entry }
{
    let mut numbers = [0; N];
    for value in numbers.iter_mut() {
        *value = number(words.next()?)?;
    }
    words.next().is_none().then_some(numbers)
}
