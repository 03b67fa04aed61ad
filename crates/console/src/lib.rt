// What the programs share: bytes written in hexadecimal, and the words of a line of input with the numbers and the bytes that they tell.
#![tactic(auto)]

ghost use Rattle.std.specs.Prelude.{◌≡◌, ◌≤◌, ◌+◌, ◌*◌, ◌/◌, ◌%◌, ◌==◌, [], ◌∷◌, IfSome, IfOk, IsOk, OnOk, OnErr};
ghost use Rattle.std.specs.Prelude.{length, min, slice_index, count_by, position};
ghost use Rattle.std.specs.Iterator.{YieldsFirstRef, item_count};
ghost use Rattle.std.specs.List.{slice_split};
ghost use Rattle.std.specs.Char.{digit_value};
ghost use Rattle.console.specs.Words.{words_of};
ghost use Rattle.console.specs.declared.TheConstants.{DIGITS};

use std::str::FromStr;
use std::{fmt, io, str};

// A line of input that cannot be read.
#[derive(Clone, Copy, Debug, PartialEq, Eq)]
pub struct BadLine;

// ---- output

// Bytes that are written as pairs of hexadecimal digits; "-" for none.
#[derive(Clone, Copy)]
pub struct Hex<'a>(pub &'a [u8]);

impl fmt::Display for Hex<'_> {
    fn fmt<W: fmt::Write>(&self, f: &mut fmt::Formatter<W>) -> fmt::Result {
        if self.0.is_empty() {
            return write!(f, "-");
        }
        for part in self.0.chunks(PART) {
            let mut digits = [[0; 2]; PART];
            for (pair, byte) in digits.iter_mut().zip(part) {
                *pair = digits_of(*byte);
            }
            let written = digits[..part.len().min(PART)].as_flattened();
            f.write_str(str::from_utf8(written).map_err(|_| fmt::Error)?)?;
        }
        Ok(())
    }
}

// How many bytes are written at a time: a `write!` for each takes ten times as long.
const PART: usize = 64;

const DIGITS: [u8; 16] = *b"0123456789abcdef";

// The two hexadecimal digits of a byte.
pub fn digits_of(byte: u8) -> [u8; 2]
    ensures { result ≡ slice_index DIGITS (byte / 16) ∷ slice_index DIGITS (byte % 16) ∷ [] }
{
    [
        DIGITS[usize::from(byte / 16)],
        DIGITS[usize::from(byte % 16)],
    ]
}

// What was written into a buffer of fixed size since its position was last set to 0. The library has no From<u64> for usize.
pub fn written<const N: usize>(buffer: &io::Cursor<[u8; N]>) -> &[u8]
    ensures { length result.now ≤ N }
{
    let end = N.min(buffer.position() as usize);
    &buffer.get_ref()[..end]
}

// ---- input

// Where a byte stands first in a text.
pub fn find(text: &[u8], byte: u8) -> Option<usize>
    ensures { result ≡ position (λ x. x == byte) text.now }
{
    text.iter().position(|x| *x == byte)
}

// How many words a line has: they are separated by one blank.
pub fn word_count(line: &[u8]) -> usize
    ensures { result ≡ count_by (λ x. x == 32) line.now + 1 }
{
    line.iter().filter(|x| **x == b' ').count() + 1
}

// A number in decimal, with no plus sign.
fn read_number<T: FromStr>(word: &[u8]) -> Option<T>
where
    T::Err: Drop,
{
    if word.starts_with(b"+") {
        return None;
    }
    str::from_utf8(word).ok()?.parse().ok()
}

// A decimal number of at most some value: one or more digits.
pub fn read_decimal(word: &[u8], most: usize) -> Option<usize>
    ensures { IfSome result (λ value. value ≤ most) }
{
    read_number(word).filter(|value| *value <= most)
}

// An integer in decimal, with or without a minus sign.
pub fn read_integer(word: &[u8]) -> Option<i32> {
    read_number(word)
}

// The byte of a pair of hexadecimal digits of either case.
fn read_pair(pair: [u8; 2]) -> Option<u8>
    ensures { IfSome result (λ byte. byte ≡ digit_value (slice_index pair 0) * 16 + digit_value (slice_index pair 1)) }
{
    let high = char::from(pair[0]).to_digit(16)?;
    let low = char::from(pair[1]).to_digit(16)?;
    u8::try_from(high * 16 + low).ok()
}

// Bytes of a line, each of two hexadecimal digits.
#[derive(Clone, Copy, Debug, PartialEq, Eq)]
pub struct Pairs<'a>(&'a [[u8; 2]]);

impl<'a> Pairs<'a> {
    // The bytes that a word tells: pairs of hexadecimal digits, or "-" for none.
    pub fn read(word: &'a [u8]) -> Option<Pairs<'a>> {
        if matches!(word, b"-") {
            return Some(Pairs(&[]));
        }
        let (pairs, odd) = word.as_chunks::<2>();
        let good = odd.is_empty() && pairs.iter().all(|pair| read_pair(*pair).is_some());
        (good && !pairs.is_empty()).then_some(Pairs(pairs))
    }

    // How many bytes they are.
    pub fn len(self) -> usize
        ensures { result ≡ length self.entry.0.now }
    {
        self.0.len()
    }

    // Whether there is none.
    pub fn is_empty(self) -> bool {
        self.0.is_empty()
    }

    // Stores the bytes at the start of a lent slice, as far as it goes: the part that they fill.
    pub fn store(self, to: &mut [u8]) -> &[u8]
        ensures { length result.now ≡ min (length self.entry.0.now) (length to.old) }
    {
        let bytes = self.0.iter().filter_map(|pair| read_pair(*pair));
        for (place, byte) in to.iter_mut().zip(bytes) {
            *place = byte;
        }
        let end = self.0.len().min(to.len());
        &to[..end]
    }
}

// The N bytes that a word tells.
fn read_array<const N: usize>(word: &[u8]) -> Option<[u8; N]> {
    let pairs = Pairs::read(word)?;
    let mut bytes = [0; N];
    pairs.store(&mut bytes);
    (pairs.len() == N).then_some(bytes)
}

// The words of a line, from its first on: what is left of the line, if a word is left.
#[derive(Drop)]
pub struct Words<'a> {
    pub rest: Option<&'a [u8]>,
}

impl<'a> Iterator for Words<'a> {
    type Item = &'a [u8];

    ghost next_gives = { YieldsFirstRef (λ words. words_of words.rest) };

    ghost remaining = { item_count (λ words. words_of words.rest) };

    fn next(&mut self) -> Option<&'a [u8]> {
        let rest = self.rest?;
        match find(rest, b' ') {
            Some(end) => {
                self.rest = Some(&rest[end + 1..]);
                Some(&rest[..end])
            }
            None => {
                self.rest = None;
                Some(rest)
            }
        }
    }
}

impl<'a> Words<'a> {
    // All words of a line.
    pub fn new(line: &'a [u8]) -> Words<'a>
        ensures { words_of result.rest ≡ slice_split (λ x. x == 32) line.now }
    {
        Words { rest: Some(line) }
    }

    // The next word.
    pub fn word(&mut self) -> Result<&'a [u8], BadLine>
        ensures ok { IfOk result (λ word. words_of self.old.rest ≡ word.now ∷ words_of self.new.rest) }
        ensures err { OnErr result (words_of self.old.rest ≡ []) }
    {
        self.next().ok_or(BadLine)
    }

    // The next word, a decimal number of at most some value.
    pub fn number(&mut self, most: usize) -> Result<usize, BadLine>
        ensures { IfOk result (λ value. value ≤ most) }
    {
        read_decimal(self.word()?, most).ok_or(BadLine)
    }

    // The next word, 1 or 0.
    pub fn flag(&mut self) -> Result<bool, BadLine> {
        Ok(self.number(1)? == 1)
    }

    // The next word, an integer.
    pub fn integer(&mut self) -> Result<i32, BadLine> {
        read_integer(self.word()?).ok_or(BadLine)
    }

    // The next word, N bytes in hexadecimal.
    pub fn array<const N: usize>(&mut self) -> Result<[u8; N], BadLine> {
        read_array(self.word()?).ok_or(BadLine)
    }

    // The next word, any number of bytes in hexadecimal.
    pub fn pairs(&mut self) -> Result<Pairs<'a>, BadLine> {
        Pairs::read(self.word()?).ok_or(BadLine)
    }

    // How many words are left.
    pub fn count_left(&self) -> usize
        ensures { result ≡ length (words_of self.now.rest) }
    {
        match self.rest {
            Some(rest) => word_count(rest),
            None => 0,
        }
    }

    // No word is left.
    pub fn end(&mut self) -> Result<(), BadLine>
        ensures ok { OnOk result (words_of self.old.rest ≡ []) }
        ensures err { words_of self.old.rest ≡ [] → IsOk result }
    {
        match self.next() {
            Some(_) => Err(BadLine),
            None => Ok(()),
        }
    }
}
