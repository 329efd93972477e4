// What the listing prints: numbers, words, the title and the line of an answer, put into a lent area.
//
// An area and the octet from which on stay two parameters: so docs/CONTRACTS.md promises it of the public functions, and a struct of both would be
// taken apart at each call of one. Nor is the text written by `write!`: these functions cannot fail, and of it std promises octets only where it
// answers Ok, but not that it does.
#![tactic(auto)]

ghost use Rattle.std.specs.Prelude.{◌≡◌, [], ◌∷◌, ◌++◌, ◌+◌, ◌≤◌, length};
ghost use Rattle.rules.specs.Listing.{text, decimal, word, amount, line};
ghost use Rattle.listing_text.specs.Puts.{Put, filled, part, front};

use itoa::Buffer;
use rules::{Answer, Class};

// Puts one octet into `area` at octet `from`.
pub fn put_octet(area: &mut [u8], from: usize, x: u8) -> usize
    requires { from + 1 ≤ length area.old }
    ensures { Put (x ∷ []) area.old from area.new result }
{
    area[from] = x;
    from + 1
}

// Puts a number. Most that are put have one digit or two, which are put without a buffer.
pub fn put_decimal(area: &mut [u8], from: usize, v: u64) -> usize
    requires { from + length (decimal v) ≤ length area.old }
    ensures { Put (decimal v) area.old from area.new result }
{
    if v < 10 {
        return put_octet(area, from, b'0' + v as u8);
    }
    if v < 100 {
        let at = put_octet(area, from, b'0' + (v / 10) as u8);
        return put_octet(area, at, b'0' + (v % 10) as u8);
    }
    let mut buffer = Buffer::new();
    put_text(area, from, buffer.format(v).as_bytes())
}

// Puts some text.
pub fn put_text(area: &mut [u8], from: usize, s: &[u8]) -> usize
    requires { from + length s.now ≤ length area.old }
    ensures { Put s.now area.old from area.new result }
{
    octets::lay(area, from, s);
    from + s.len()
}

// Puts a pattern, in which each `#` stands for the next of the numbers, and for 0 where there is none.
pub fn put_filled(area: &mut [u8], from: usize, pattern: &[u8], values: &[u64]) -> usize
    requires { from + length (filled pattern.now values.now) ≤ length area.old }
    ensures { Put (filled pattern.now values.now) area.old from area.new result }
{
    let mut at = from;
    let mut left = values.iter();
    for &x in pattern {
        if x == b'#' {
            let v = left.next().copied().unwrap_or(0);
            at = put_decimal(area, at, v);
        } else {
            at = put_octet(area, at, x);
        }
    }
    at
}

// Puts the n-th, from 0 on, of some texts with a `|` between each two; nothing where there are not so many.
pub fn put_part(area: &mut [u8], from: usize, texts: &[u8], n: usize) -> usize
    requires { from + length (part texts.now n) ≤ length area.old }
    ensures { Put (part texts.now n) area.old from area.new result }
{
    match texts.split(|x| *x == b'|').nth(n) {
        Some(text) => put_text(area, from, text),
        None => from,
    }
}

// The word for a class, between two spaces.
#[tactic(auto, unfolding(rules::specs::Listing::text, rules::specs::Listing::word))]
fn word_of(class: Class) -> &'static [u8]
    ensures { result.now ≡ text " " ++ word class ++ text " " }
{
    match class {
        Class::Idle => b" idle ",
        Class::Counted => b" counted ",
        Class::Read => b" read ",
        Class::Repeat => b" repeat ",
        Class::Refused(_) => b" refused ",
    }
}

// Units, or the refusal number.
#[tactic(auto, unfolding(rules::specs::Listing::amount))]
fn amount_of(class: Class, units: usize) -> u64
    ensures { result ≡ amount class units }
{
    match class {
        Class::Refused(n) => n as u64,
        _ => units as u64,
    }
}

// Puts a line up to its third field.
pub fn put_front(area: &mut [u8], from: usize, k: u64, class: Class) -> usize
    requires { from + 29 ≤ length area.old }
    ensures { Put (front k class) area.old from area.new result }
{
    let at = put_decimal(area, from, k);
    put_text(area, at, word_of(class))
}

// Puts the line of frame k's answer.
pub fn put_line(area: &mut [u8], from: usize, k: u64, a: Answer) -> usize
    requires { from + 71 ≤ length area.old }
    ensures { Put (line k a) area.old from area.new result }
{
    let at = put_front(area, from, k, a.class);
    let values = [amount_of(a.class, a.units), a.missing];
    put_filled(area, at, b"# #\n", &values)
}

// Puts the title.
pub fn put_title(area: &mut [u8], from: usize) -> usize
    requires { from + 27 ≤ length area.old }
    ensures { Put (text "frame answer units missing\n") area.old from area.new result }
{
    put_text(area, from, b"frame answer units missing\n")
}
