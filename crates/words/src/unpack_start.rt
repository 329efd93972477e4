// What unpack decides beside its frames: what a word of its command line is, whether names of files can begin with a prefix, and whether little
// was read.
ghost use Rattle.std.specs.Prelude.{◌≡◌, drop};
ghost use Rattle.words.specs.Asked.{start_of};
ghost use Rattle.words.specs.Starts.{prefix_of, prefix_at, little_of};
ghost use Rattle.words.specs.UnpackWords.{is_digit, channel_word, without_word, word_of};

use crate::{Asked, Start, Word};
use files::Known;

// Why no names of files can begin with a prefix: it is empty, or a folder.
#[derive(Clone, Copy, PartialEq, Eq)]
pub enum BadPrefix {
    Empty,
    Folder,
}

// Whether names can begin with a prefix, at which the system has this file.
#[tactic(auto, unfolding(crate::specs::Starts::prefix_of))]
pub fn prefix_of(prefix: &[u8], k: Option<Known>) -> Result<(), BadPrefix>
    ensures { result ≡ prefix_of prefix.now k }
{
    let n = prefix.len();
    if n == 0 {
        Err(BadPrefix::Empty)
    } else if prefix[n - 1] == b'/' || k.is_some_and(files::folder) {
        Err(BadPrefix::Folder)
    } else {
        Ok(())
    }
}

// ---- how much was read

// That little was read: nothing, or fewer frames than were refused.
#[derive(Clone, Copy, PartialEq, Eq)]
pub enum Little {
    Nothing,
    Fewer,
}

// Whether little was read.
#[tactic(auto, unfolding(crate::specs::Starts::little_of))]
pub fn little_of(read: u64, refused: u64) -> Option<Little>
    ensures { result ≡ little_of read refused }
{
    if read == 0 {
        Some(Little::Nothing)
    } else if read < refused {
        Some(Little::Fewer)
    } else {
        None
    }
}

// ---- words

// Whether an octet is a decimal digit.
#[tactic(auto, unfolding(crate::specs::UnpackWords::is_digit))]
fn is_digit(x: u8) -> bool
    ensures { result ≡ is_digit x }
{
    b'0' <= x && x <= b'9'
}

// What --without= with these two octets behind it is.
#[tactic(auto, using(crate::proofs::Without::digit_low), unfolding(crate::specs::UnpackWords::channel_word))]
fn channel_word(x: u8, y: u8) -> Word
    ensures { result ≡ channel_word x y }
{
    if !is_digit(x) || !is_digit(y) {
        return Word::Unknown;
    }
    let v = (x - b'0') as usize * 10 + (y - b'0') as usize;
    if v <= 62 {
        Word::Without(v)
    } else {
        Word::Unknown
    }
}

// What a word is whose first ten octets are --without=. The channel has one digit or two: one is read with a 0 before it.
#[tactic(auto, using(crate::proofs::Without::by_length))]
fn without_word(word: &[u8]) -> Word
    ensures { result ≡ without_word (drop 10 word.now) }
{
    let n = word.len();
    if n == 11 {
        channel_word(b'0', word[10])
    } else if n == 12 {
        channel_word(word[10], word[11])
    } else {
        Word::Unknown
    }
}

// What a word is: its first option is --totals, its second --units, and --without=V leaves a virtual channel out.
#[tactic(auto, unfolding(crate::specs::UnpackWords::word_of, rules::specs::Listing::text))]
pub fn word_of(word: &[u8]) -> Word
    ensures { result ≡ word_of word.now }
{
    if crate::is_word(word, b"--totals") {
        Word::First
    } else if crate::is_word(word, b"--units") {
        Word::Second
    } else if crate::begins(word, b"--without=") {
        without_word(word)
    } else {
        crate::word_of(word)
    }
}

// What a run does that is asked for this: it takes three names.
pub fn start_of(a: Asked) -> Start
    ensures { result ≡ start_of a 3 3 }
{
    crate::start_of(a, 3, 3)
}

// Which word is the prefix: the third of three names, and none where there are more or fewer, for then nothing is unpacked.
#[tactic(auto, unfolding(crate::specs::Starts::prefix_at))]
pub fn prefix_at(a: Asked) -> Option<usize>
    ensures { result ≡ prefix_at a }
{
    (a.names == 3).then_some(a.places[2])
}
