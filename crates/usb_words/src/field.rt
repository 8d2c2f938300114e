ghost use Rattle.std.specs.Prelude.{◌≡◌, ℕ, ◌+◌, ◌*◌, ◌^◌, ◌<◌, ◌≤◌, ◌/◌, [], ◌∷◌, length, min, IfSome};
ghost use Rattle.std.specs.Char.{is_ascii_digit};
ghost use Rattle.std.specs.List.{list_all};
ghost use Rattle.std.specs.Option.{option_map};
ghost use Rattle.usb_words.specs.Field.{is_numeral, number_of, read_on, digit_value, pair_value, bytes_in, bytes_of_pairs};

use arrayvec::ArrayVec;

/// A number above every `u32`, at which the reading of digits stands still.
const LARGE: u64 = 1_099_511_627_776;

/// The number of at most `most` that a word is the text of, in decimal without leading zeros.
pub fn number(word: &[u8], most: u32) -> Option<u32>
    ensures value { result ≡ number_of most word.now }
    ensures within { IfSome result (λ n. n ≤ most) }
{
    if !is_numeral(word) {
        return None;
    }
    let value = value(word);
    if value <= u64::from(most) {
        Some(value as u32)
    } else {
        None
    }
}

/// The same of a number of 8 bits. Most have one digit.
pub fn small_number(word: &[u8], most: u8) -> Option<u8>
    ensures { result ≡ number_of most word.now }
{
    match word {
        [digit] => one_digit(*digit, most),
        _ => {
            let n = number(word, u32::from(most))?;
            Some(n as u8)
        }
    }
}

#[tactic(auto, using(crate::proofs::Numbers::digit_number, crate::proofs::Numbers::great_digit, crate::proofs::Numbers::no_digit))]
/// The number of at most `most` that one digit is the text of.
fn one_digit(digit: u8, most: u8) -> Option<u8>
    ensures { result ≡ number_of most (digit ∷ []) }
{
    if !digit.is_ascii_digit() {
        return None;
    }
    let n = digit - b'0';
    if n <= most { Some(n) } else { None }
}

/// Whether a word is decimal digits without a leading zero.
pub fn is_numeral(word: &[u8]) -> bool
    ensures { result ≡ is_numeral word.now }
{
    all_digits(word) && !word.is_empty() && !(word[0] == b'0' && word.len() > 1)
}

fn all_digits(word: &[u8]) -> bool
    ensures { result ≡ list_all is_ascii_digit word.now }
{
    word.iter().all(|b| b.is_ascii_digit())
}

/// The number that digits are the text of. Where it is 2^32 or more, so is the result.
pub fn value(digits: &[u8]) -> u64
    ensures { min result (2 ^ 32) ≡ min (read_on 0 digits.now) (2 ^ 32) }
{
    let mut value: u64 = 0;
    for digit in digits {
        value = (10 * value + u64::from(digit.saturating_sub(b'0'))).min(LARGE);
    }
    value
}

/// The value of each byte as a hexadecimal digit in lower case, and 16 where it is none.
#[rattlefmt::skip]
static DIGIT_VALUES: [u8; 256] = [
    16, 16, 16, 16, 16, 16, 16, 16, 16, 16, 16, 16, 16, 16, 16, 16,
    16, 16, 16, 16, 16, 16, 16, 16, 16, 16, 16, 16, 16, 16, 16, 16,
    16, 16, 16, 16, 16, 16, 16, 16, 16, 16, 16, 16, 16, 16, 16, 16,
    0, 1, 2, 3, 4, 5, 6, 7, 8, 9, 16, 16, 16, 16, 16, 16,
    16, 16, 16, 16, 16, 16, 16, 16, 16, 16, 16, 16, 16, 16, 16, 16,
    16, 16, 16, 16, 16, 16, 16, 16, 16, 16, 16, 16, 16, 16, 16, 16,
    16, 10, 11, 12, 13, 14, 15, 16, 16, 16, 16, 16, 16, 16, 16, 16,
    16, 16, 16, 16, 16, 16, 16, 16, 16, 16, 16, 16, 16, 16, 16, 16,
    16, 16, 16, 16, 16, 16, 16, 16, 16, 16, 16, 16, 16, 16, 16, 16,
    16, 16, 16, 16, 16, 16, 16, 16, 16, 16, 16, 16, 16, 16, 16, 16,
    16, 16, 16, 16, 16, 16, 16, 16, 16, 16, 16, 16, 16, 16, 16, 16,
    16, 16, 16, 16, 16, 16, 16, 16, 16, 16, 16, 16, 16, 16, 16, 16,
    16, 16, 16, 16, 16, 16, 16, 16, 16, 16, 16, 16, 16, 16, 16, 16,
    16, 16, 16, 16, 16, 16, 16, 16, 16, 16, 16, 16, 16, 16, 16, 16,
    16, 16, 16, 16, 16, 16, 16, 16, 16, 16, 16, 16, 16, 16, 16, 16,
    16, 16, 16, 16, 16, 16, 16, 16, 16, 16, 16, 16, 16, 16, 16, 16,
];

#[tactic(auto, using(crate::proofs::Digits::digit_in_table, crate::proofs::Digits::none_in_table))]
/// The value of a hexadecimal digit in lower case.
fn digit_value(digit: u8) -> Option<u8>
    ensures value { result ≡ digit_value digit }
    ensures low { IfSome result (λ v. v < 16) }
{
    let value = DIGIT_VALUES[digit as usize];
    if value < 16 { Some(value) } else { None }
}

/// The byte of two hexadecimal digits.
fn pair_value(high: u8, low: u8) -> Option<u8>
    ensures { result ≡ pair_value high low }
{
    let high = digit_value(high)?;
    let low = digit_value(low)?;
    Some(16 * high + low)
}

#[tactic(auto, using(crate::proofs::Pairs::odd_digits))]
/// The bytes that pairs of hexadecimal digits are the text of.
fn read_pairs<const N: usize>(word: &[u8]) -> Option<ArrayVec<u8, N>>
    requires { length word.now / 2 ≤ N }
    ensures { option_map (λ v. v.items) result ≡ bytes_of_pairs word.now }
{
    let mut bytes: ArrayVec<u8, N> = ArrayVec::new();
    let mut rest = word;
    while let [high, low, others @ ..] = rest {
        match pair_value(*high, *low) {
            Some(byte) => bytes.push(byte),
            None => return None,
        }
        rest = others;
    }
    if !rest.is_empty() {
        return None;
    }
    Some(bytes)
}

#[tactic(auto, using(crate::proofs::Pairs::long_word, crate::proofs::Pairs::short_word))]
/// The bytes, at most `N`, that a word is the text of: pairs of hexadecimal digits, or a dash for none.
pub fn read_hex<const N: usize>(word: &[u8]) -> Option<ArrayVec<u8, N>>
    ensures { option_map (λ v. v.items) result ≡ bytes_in N word.now }
{
    if word.is_empty() {
        return None;
    }
    if word == b"-".as_slice() {
        return Some(ArrayVec::new());
    }
    if word.len() / 2 > N {
        return None;
    }
    read_pairs(word)
}
