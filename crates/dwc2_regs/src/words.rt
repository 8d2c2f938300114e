//! Bytes in the words of a FIFO.
ghost use Rattle.std.specs.Prelude.{◌≡◌, ◌≤◌, length, take};
ghost use Rattle.dwc2_regs.specs.Word.{word_of, bytes_of};

use arrayvec::ArrayVec;

/// The word that holds one to four bytes, the first lowest, and 0 above them.
#[inline]
pub fn pack_word(bytes: &[u8]) -> u32
    requires some { 1 ≤ length bytes.now }
    requires within { length bytes.now ≤ 4 }
    ensures value { result ≡ word_of bytes.now }
    ensures undone { bytes_of (length bytes.now) result ≡ bytes.now }
{
    match bytes {
        [a, b, c, d] => u32::from_le_bytes([*a, *b, *c, *d]),
        [a, b, c] => u32::from_le_bytes([*a, *b, *c, 0]),
        [a, b] => u32::from_le_bytes([*a, *b, 0, 0]),
        [a] => u32::from_le_bytes([*a, 0, 0, 0]),
        _ => 0,
    }
}

/// The four bytes of a word, the lowest first.
#[inline]
pub fn word_bytes(word: u32) -> [u8; 4]
    ensures { result ≡ bytes_of 4 word }
{
    word.to_le_bytes()
}

/// The first `n` bytes of a word, one to four, the lowest first.
#[inline]
pub fn unpack_word(word: u32, n: u8) -> ArrayVec<u8, 4>
    requires some { 1 ≤ n }
    requires within { n ≤ 4 }
    ensures { result.items ≡ bytes_of n word }
{
    let mut bytes = ArrayVec::from(word_bytes(word));
    bytes.truncate(n as usize);
    bytes
}
