// What a message about a setting's text quotes: the word that does not fit, the words of a line that the lines before forbid, and
// whether a byte order mark or a carriage return is at fault. What a text is, the crate's root says; this only finds octets of it.
ghost use Rattle.std.specs.Prelude.{◌≡◌, [], ◌≤◌, length, get_or};
ghost use Rattle.setting_text.specs.Texts.{said, words};
ghost use Rattle.setting_text.specs.Quotes.{marked, last_end, lone, trimmed, line_of, words_quoted, quoted, returned, fault_of};
ghost use Rattle.setting_text.specs.Parts.{Line, Part};

use crate::{Span, Stop, is_blank, next_word, until_stop};

// What is told of a line that does not fit: a byte order mark, a carriage return that ends no line, that the line ends too soon, or the
// octets that are quoted.
#[derive(Clone, Copy)]
pub enum Fault {
    Mark,
    Return,
    End,
    Quote,
}

// Whether a text begins with a byte order mark.
fn is_marked(octets: &[u8]) -> bool
    ensures { result ≡ marked octets.now }
{
    matches!(octets, [0xEF, 0xBB, 0xBF, ..])
}

// Where the line stands that begins at octet `at`; an empty place where there is none.
fn next_line(octets: &[u8], at: usize) -> Span
    ensures { Line octets.now at result.from result.to }
{
    let n = octets.len();
    if n < at {
        return Span { from: n, to: n };
    }
    let size = until_stop(&octets[at..], Stop::Feed);
    Span {
        from: at,
        to: at + size,
    }
}

// Where line n stands, from 1; an empty place where there is none.
fn line_at(octets: &[u8], n: usize) -> Span
    ensures { Part (line_of n octets.now) octets.now result.from result.to }
{
    let mut at = 0;
    for _k in 1..n {
        at = next_line(octets, at).to + 1;
    }
    next_line(octets, at)
}

// Where word n of a line stands, from 0; an empty place where there is none.
fn word_at(line: &[u8], n: usize) -> Span
    ensures { Part (get_or (words line.now) n []) line.now result.from result.to }
{
    let mut at = 0;
    for _k in 0..n {
        at = next_word(line, at).to;
    }
    next_word(line, at)
}

// How many octets a line has up to the last that is no blank.
fn end_of(line: &[u8]) -> usize
    ensures { (result ≡ last_end 0 0 line.now) × (result ≤ length line.now) }
{
    let mut end = 0;
    for (i, x) in line.iter().enumerate() {
        if !is_blank(*x) {
            end = i + 1;
        }
    }
    end
}

// Whether a carriage return stands in a line with a word after it.
fn is_lone(line: &[u8]) -> bool
    ensures { result ≡ lone line.now }
{
    until_stop(line, Stop::Return) < end_of(line)
}

// Where the words of a line stand, from the first to the end of the last; an empty place where there is none.
fn words_at(line: &[u8]) -> Span
    ensures { Part (trimmed line.now) line.now result.from result.to }
{
    let from = until_stop(line, Stop::Word);
    let to = end_of(line).max(from);
    Span { from, to }
}

// Where those octets of a line without its comment stand that are quoted: its words, or one word.
fn quote_in(line: &[u8], word: Option<usize>) -> Span
    ensures { Part (words_quoted word line.now) line.now result.from result.to }
{
    match word {
        None => words_at(line),
        Some(k) => word_at(line, k),
    }
}

// Where the octets of a line stand that are quoted.
fn quote_at(line: &[u8], word: Option<usize>) -> Span
    ensures { Part (words_quoted word (said line.now)) line.now result.from result.to }
{
    let n = until_stop(line, Stop::Hash);
    quote_in(&line[..n], word)
}

// Where the octets of a text stand that a message about line n quotes: the word that does not fit, or all its words.
pub fn quote_of(octets: &[u8], n: usize, word: Option<usize>) -> Span
    ensures { Part (quoted n word octets.now) octets.now result.from result.to }
{
    let l = line_at(octets, n);
    let q = quote_at(&octets[l.from..l.to], word);
    Span {
        from: l.from + q.from,
        to: l.from + q.to,
    }
}

// Whether line n of a text has a carriage return with a word after it.
pub fn is_lone_line(octets: &[u8], n: usize) -> bool
    ensures { result ≡ lone (line_of n octets.now) }
{
    let l = line_at(octets, n);
    is_lone(&octets[l.from..l.to])
}

// Whether a carriage return ends no line there, though it may have been meant to; where all words of the line fit, it is not asked.
fn is_returned(octets: &[u8], n: usize, word: Option<usize>) -> bool
    ensures { result ≡ returned n word octets.now }
{
    word.is_some() && is_lone_line(octets, n)
}

// What is told of line n, of which this word does not fit, or that the lines before forbid.
pub fn fault_of(octets: &[u8], n: usize, word: Option<usize>) -> Fault
    ensures { result ≡ fault_of n word octets.now }
{
    if is_marked(octets) {
        return Fault::Mark;
    }
    if is_returned(octets, n, word) {
        return Fault::Return;
    }
    let q = quote_of(octets, n, word);
    if q.from == q.to {
        Fault::End
    } else {
        Fault::Quote
    }
}
