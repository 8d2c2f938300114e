ghost use Rattle.std.specs.Prelude.{◌≡◌};
ghost use Rattle.std.specs.Option.{option_map};
ghost use Rattle.usb_words.specs.Field.{none_left, one, number_word, bytes_word};

use crate::field::{number, read_hex};
use crate::words::Words;
use arrayvec::ArrayVec;

/// Whether no word is left.
pub fn none_left(words: &mut Words<'_>) -> bool
    ensures { result ≡ none_left words.old }
{
    words.next().is_none()
}

/// The one word that is left.
fn one<'a>(words: &mut Words<'a>) -> Option<&'a [u8]>
    ensures { option_map (λ w. w.now) result ≡ one words.old }
{
    let word = words.next()?;
    match words.next() {
        None => Some(word),
        Some(_) => None,
    }
}

/// The bytes, `least` to `N` of them, of the one word that is left.
pub fn last_bytes<const N: usize>(words: &mut Words<'_>, least: usize) -> Option<ArrayVec<u8, N>>
    ensures { option_map (λ v. v.items) result ≡ bytes_word least N (one words.old) }
{
    let word = one(words)?;
    let bytes = read_hex(word)?;
    if least <= bytes.len() {
        Some(bytes)
    } else {
        None
    }
}

/// The number, `least` to `most`, of the one word that is left.
pub fn last_number(words: &mut Words<'_>, least: u16, most: u16) -> Option<u16>
    ensures { result ≡ number_word least most (one words.old) }
{
    let word = one(words)?;
    let n = number(word, u32::from(most))? as u16;
    if least <= n { Some(n) } else { None }
}
