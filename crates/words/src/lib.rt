// Words of a command line: what they begin with, whether they are a given word, an option, or stand for standard input; and what all of them ask
// for.
#![tactic(auto)]

pub mod pack_start;
pub mod unpack_start;

ghost use Rattle.std.specs.Prelude.{◌≡◌, ◌==◌, ◌<◌, ◌≤◌, length, position, IfSome};
ghost use Rattle.words.specs.Words.{begins as begins_with, is_word, is_option, is_dash, behind as behind_of};
ghost use Rattle.words.specs.Asked.{word_of, no_asked, named, left_out, asked_next, start_of};
ghost use Rattle.words.specs.Programs.{word_to};

// Whether these octets begin with that word.
#[tactic(auto, using(crate::proofs::Words::begins_is))]
pub fn begins(s: &[u8], word: &[u8]) -> bool
    ensures { result ≡ begins_with word.now s.now }
{
    s.starts_with(word)
}

// Whether these octets are that word.
#[tactic(auto, using(crate::proofs::Words::same_is))]
pub fn is_word(s: &[u8], word: &[u8]) -> bool
    ensures { result ≡ is_word word.now s.now }
{
    s == word
}

// Whether a word is an option.
#[tactic(auto, unfolding(crate::specs::Words::is_option, rules::specs::Listing::text))]
pub fn is_option(s: &[u8]) -> bool
    ensures { result ≡ is_option s.now }
{
    begins(s, b"--")
}

// Whether a word stands for standard input.
#[tactic(auto, unfolding(crate::specs::Words::is_dash, rules::specs::Listing::text))]
pub fn is_dash(s: &[u8]) -> bool
    ensures { result ≡ is_dash s.now }
{
    is_word(s, b"-")
}

// Where the first `=` of a word stands.
fn equals_at(s: &[u8]) -> Option<usize>
    ensures value { result ≡ position (λ x. x == 61) s.now }
    ensures bound { IfSome result (λ i. i < length s.now) }
{
    s.iter().position(|x| *x == b'=')
}

// How many octets of a word stand up to its first `=`, with it: what stands behind names a file, where a word names one. 0 where it has none: the
// count is what the contract promises, and then the whole word stands behind.
#[tactic(auto, using(crate::proofs::Words::behind_some, crate::proofs::Words::behind_none))]
pub fn behind(s: &[u8]) -> usize
    ensures { (result ≡ behind_of 0 s.now) × (result ≤ length s.now) }
{
    match equals_at(s) {
        Some(i) => i + 1,
        None => 0,
    }
}

// ---- what all words ask for

// What a word of the command line is: one of the program's own options, of which one gives a virtual channel, one of those that every program has,
// an option that there is not, or a name.
#[derive(Clone, Copy)]
pub enum Word {
    First,
    Second,
    Without(usize),
    Help,
    Version,
    Unknown,
    Name,
}

// What the command line asks for: how many names there are, up to four, and which words the first three are; the first option that there is not;
// which options stand there; and which virtual channels are left out.
#[derive(Clone, Copy)]
pub struct Asked {
    pub names: usize,
    pub places: [usize; 3],
    pub unknown: Option<usize>,
    pub first: bool,
    pub second: bool,
    pub help: bool,
    pub version: bool,
    pub without: [bool; 63],
}

// What a run of the program does: it prints its help or its version, refuses an option or the number of names, or does its work.
#[derive(Clone, Copy)]
pub enum Start {
    Help,
    Version,
    Unknown(usize),
    Usage,
    Work,
}

// What a word is that is no option of the program's own.
#[tactic(auto, unfolding(crate::specs::Asked::word_of, rules::specs::Listing::text))]
pub fn word_of(word: &[u8]) -> Word
    ensures { result ≡ word_of word.now }
{
    if !is_option(word) {
        Word::Name
    } else if is_word(word, b"--help") {
        Word::Help
    } else if is_word(word, b"--version") {
        Word::Version
    } else {
        Word::Unknown
    }
}

// The programs whose words are told here. This is an enum and no closure: `Programs.word_to` says of each what its words are.
#[derive(Clone, Copy)]
pub enum Program {
    Unpack,
    Pack,
}

// What a word of a program's command line is.
#[tactic(auto, unfolding(crate::specs::Programs::word_to))]
pub fn word_to(program: Program, word: &[u8]) -> Word
    ensures { result ≡ word_to program word.now }
{
    match program {
        Program::Unpack => unpack_start::word_of(word),
        Program::Pack => pack_start::word_of(word),
    }
}

// Nothing is asked for.
#[tactic(auto, unfolding(crate::specs::Asked::no_asked))]
pub fn no_asked() -> Asked
    ensures { result ≡ no_asked }
{
    Asked {
        names: 0,
        places: [0; 3],
        unknown: None,
        first: false,
        second: false,
        help: false,
        version: false,
        without: [false; 63],
    }
}

// With one name more, word i.
#[tactic(auto, unfolding(crate::specs::Asked::named))]
fn name_at(a: Asked, i: usize) -> Asked
    ensures { result ≡ named a i }
{
    let mut b = a;
    if a.names < 3 {
        b.places[a.names] = i;
        b.names += 1;
    } else {
        b.names = 4;
    }
    b
}

// With virtual channel v left out, if there is such a place.
fn leave_out(a: Asked, v: usize) -> Asked
    ensures { result ≡ left_out a v }
{
    let mut b = a;
    if v < 63 {
        b.without[v] = true;
    }
    b
}

// With one word more, word i.
#[tactic(auto, unfolding(crate::specs::Asked::asked_next))]
pub fn next_word(a: Asked, i: usize, w: Word) -> Asked
    ensures { result ≡ asked_next a i w }
{
    match w {
        Word::First => Asked { first: true, ..a },
        Word::Second => Asked { second: true, ..a },
        Word::Without(v) => leave_out(a, v),
        Word::Help => Asked { help: true, ..a },
        Word::Version => Asked { version: true, ..a },
        Word::Unknown => Asked {
            unknown: a.unknown.or(Some(i)),
            ..a
        },
        Word::Name => name_at(a, i),
    }
}

// What a run does that is asked for this, of a program that takes so many names, at least and at most.
#[tactic(auto, unfolding(crate::specs::Asked::start_of))]
pub fn start_of(a: Asked, least: usize, most: usize) -> Start
    ensures { result ≡ start_of a least most }
{
    if a.help {
        return Start::Help;
    }
    if a.version {
        return Start::Version;
    }
    match a.unknown {
        Some(i) => Start::Unknown(i),
        None if least <= a.names && a.names <= most => Start::Work,
        None => Start::Usage,
    }
}
