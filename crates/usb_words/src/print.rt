ghost use Rattle.std.specs.Prelude.{◌≡◌, ◌+◌, ◌*◌, ◌≤◌, ◌<◌, ◌∷◌, ◌++◌, length, max};
ghost use Rattle.arrayvec.specs.ArrayVec.{array_vec_len};
ghost use Rattle.std.specs.List.{flat_map};
ghost use Rattle.std.specs.Fmt.{decimal};
ghost use Rattle.usb_words.specs.Field.{space, hex_digit, hex_pair, hex};

use arrayvec::ArrayVec;
use itoa::Buffer;

/// Appends a text as it stands.
pub fn push_text<const N: usize>(out: &mut ArrayVec<u8, N>, text: &[u8])
    requires { array_vec_len out.old + length text.now ≤ N }
    ensures items { out.new.items ≡ out.old.items ++ text.now }
    ensures length { array_vec_len out.new ≡ array_vec_len out.old + length text.now }
{
    let _ = out.try_extend_from_slice(text);
}

/// Appends bytes in hexadecimal, two digits in lower case for each, or a dash for none.
pub fn push_hex<const N: usize>(out: &mut ArrayVec<u8, N>, bytes: &[u8])
    requires { array_vec_len out.old + max 1 (2 * length bytes.now) ≤ N }
    ensures items { out.new.items ≡ out.old.items ++ hex bytes.now }
    ensures length { array_vec_len out.new ≤ array_vec_len out.old + max 1 (2 * length bytes.now) }
{
    if bytes.is_empty() {
        out.push(b'-');
    } else {
        push_pairs(out, bytes);
    }
}

fn push_pairs<const N: usize>(out: &mut ArrayVec<u8, N>, bytes: &[u8])
    requires { array_vec_len out.old + 2 * length bytes.now ≤ N }
    ensures items { out.new.items ≡ out.old.items ++ flat_map hex_pair bytes.now }
    ensures length { array_vec_len out.new ≡ array_vec_len out.old + 2 * length bytes.now }
{
    for byte in bytes {
        let _ = out.try_extend_from_slice(&hex_pair(*byte));
    }
}

/// The two digits of each byte, in lower case.
#[rattlefmt::skip]
static PAIRS: [u8; 512] = *b"\
    000102030405060708090a0b0c0d0e0f101112131415161718191a1b1c1d1e1f\
    202122232425262728292a2b2c2d2e2f303132333435363738393a3b3c3d3e3f\
    404142434445464748494a4b4c4d4e4f505152535455565758595a5b5c5d5e5f\
    606162636465666768696a6b6c6d6e6f707172737475767778797a7b7c7d7e7f\
    808182838485868788898a8b8c8d8e8f909192939495969798999a9b9c9d9e9f\
    a0a1a2a3a4a5a6a7a8a9aaabacadaeafb0b1b2b3b4b5b6b7b8b9babbbcbdbebf\
    c0c1c2c3c4c5c6c7c8c9cacbcccdcecfd0d1d2d3d4d5d6d7d8d9dadbdcdddedf\
    e0e1e2e3e4e5e6e7e8e9eaebecedeeeff0f1f2f3f4f5f6f7f8f9fafbfcfdfeff\
";

/// The two digits of a byte, in lower case.
#[tactic(auto, using(crate::proofs::Digits::high_in_table, crate::proofs::Digits::low_in_table))]
fn hex_pair(byte: u8) -> [u8; 2]
    ensures { result ≡ hex_pair byte }
{
    let place = 2 * byte as usize;
    [PAIRS[place], PAIRS[place + 1]]
}

/// A hexadecimal digit, in lower case.
#[tactic(auto, using(crate::proofs::Hex::digit_in_table))]
pub fn hex_digit(n: u8) -> u8
    requires { n < 16 }
    ensures { result ≡ hex_digit n }
{
    b"0123456789abcdef"[n as usize]
}

/// Appends a further word, with the space before it.
pub fn push_word<const N: usize>(out: &mut ArrayVec<u8, N>, word: &[u8])
    requires { array_vec_len out.old + length word.now + 1 ≤ N }
    ensures items { out.new.items ≡ out.old.items ++ (space ∷ word.now) }
    ensures length { array_vec_len out.new ≡ array_vec_len out.old + length word.now + 1 }
{
    out.push(b' ');
    push_text(out, word);
}

/// Appends a number of 16 bits as a further word, in decimal without leading zeros.
pub fn push_number<const N: usize>(out: &mut ArrayVec<u8, N>, n: u16)
    requires { array_vec_len out.old + 6 ≤ N }
    ensures items { out.new.items ≡ out.old.items ++ (space ∷ decimal n) }
    ensures length { array_vec_len out.new ≤ array_vec_len out.old + 6 }
{
    let mut digits = Buffer::new();
    push_word(out, digits.format(n).as_bytes());
}

/// The same of a number of 32 bits.
pub fn push_wide<const N: usize>(out: &mut ArrayVec<u8, N>, n: u32)
    requires { array_vec_len out.old + 11 ≤ N }
    ensures items { out.new.items ≡ out.old.items ++ (space ∷ decimal n) }
    ensures length { array_vec_len out.new ≤ array_vec_len out.old + 11 }
{
    let mut digits = Buffer::new();
    push_word(out, digits.format(n).as_bytes());
}

/// Appends bytes in hexadecimal as a further word.
pub fn push_bytes<const N: usize>(out: &mut ArrayVec<u8, N>, bytes: &[u8])
    requires { array_vec_len out.old + 2 * length bytes.now + 2 ≤ N }
    ensures items { out.new.items ≡ out.old.items ++ (space ∷ hex bytes.now) }
    ensures length { array_vec_len out.new ≤ array_vec_len out.old + 2 * length bytes.now + 2 }
{
    out.push(b' ');
    push_hex(out, bytes);
}
