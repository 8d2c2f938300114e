ghost use Rattle.std.specs.Prelude.{◌≡◌, [], ◌∷◌, position, MatchOption};
ghost use Rattle.std.specs.List.{position_or_len};
ghost use Rattle.usb_words.specs.Field.{is_space};

use memchr::memchr;
use std::marker::Model;

/// The words of a line that are left to be read, with what stands between two spaces as one word.
#[derive(Drop)]
pub struct Words<'a> {
    rest: Option<&'a [u8]>,
}

impl<'a> Model for Words<'a> {
    ghost use Rattle.std.specs.Prelude.{List, ℕ};
    ghost use Rattle.usb_words.specs.Words.{words_left};

    ghost Value = { List (List ℕ) };

    ghost view = { λ w. words_left w.rest };
}

impl<'a> Words<'a> {
    ghost use Rattle.usb_words.specs.Field.{pieces};

    /// The words of a line.
    pub fn of(line: &'a [u8]) -> Words<'a>
        ensures { result ≡ pieces line.now }
    {
        Words { rest: Some(line) }
    }

    /// Takes the next word, where one is left.
    pub fn next(&mut self) -> Option<&'a [u8]>
        ensures { MatchOption result ((self.old ≡ []) × (self.new ≡ [])) (λ word. self.old ≡ word.now ∷ self.new) }
    {
        let rest = self.rest?;
        match first_space(rest) {
            Some(at) => {
                let (word, tail) = rest.split_at(at);
                self.rest = Some(&tail[1..]);
                Some(word)
            }
            None => {
                self.rest = None;
                Some(rest)
            }
        }
    }
}

/// The bytes of a line whose first word may be long.
const LONG: usize = 32;

/// Where the first space of a line is. A long word is passed in steps of many bytes.
fn first_space(line: &[u8]) -> Option<usize>
    ensures { result ≡ position is_space line.now }
{
    if line.len() > LONG && line[1] != b' ' {
        return memchr(b' ', line);
    }
    let at = bytes_to_space(line);
    if at < line.len() { Some(at) } else { None }
}

/// How many bytes stand before the first space.
#[tactic(auto, using(crate::proofs::Spaces::no_space, crate::proofs::Spaces::a_space, crate::proofs::Spaces::at_end))]
fn bytes_to_space(line: &[u8]) -> usize
    ensures { result ≡ position_or_len is_space line.now }
{
    let mut at = 0;
    'bytes: while at < line.len() && line[at] != b' ' {
        at += 1;
    }
    at
}
