// A list of lengths: decimal numbers with blanks or line feeds between them. What its next number is, of the octets at its front.
ghost use Rattle.std.specs.Prelude.{◌≡◌, ◌+◌, ◌≤◌, length};
ghost use Rattle.std.specs.List.{prefix_len};
ghost use Rattle.streams.specs.Lengths.{is_blank, is_digit, with_digit, value_from, ends_at, word_of, next_of};

// What stands next is no number.
#[derive(Clone, Copy)]
pub struct NoNumber;

// The number that stands next, if any does, how many blanks and line feeds are before it, and how many octets it has with these.
#[derive(Clone, Copy)]
pub struct Listed {
    pub length: Result<Option<usize>, NoNumber>,
    pub blanks: usize,
    pub used: usize,
}

// Whether an octet is a blank or a line feed.
#[tactic(auto, unfolding(crate::specs::Lengths::is_blank))]
fn is_blank(x: u8) -> bool
    ensures { result ≡ is_blank x }
{
    matches!(x, b' ' | b'\n' | b'\r' | b'\t')
}

// Whether an octet is a digit.
#[tactic(auto, unfolding(crate::specs::Lengths::is_digit))]
fn is_digit(x: u8) -> bool
    ensures { result ≡ is_digit x }
{
    matches!(x, b'0'..=b'9')
}

// How many octets at the front are blanks or line feeds. A chain of its own, as the digits' is: both in `next_of` are more than its proof takes.
fn blanks_of(s: &[u8]) -> usize
    ensures { (result ≡ prefix_len is_blank s.now) × (result ≤ length s.now) }
{
    s.iter().take_while(|x| is_blank(**x)).count()
}

// How many octets at the front are digits.
fn digits_of(s: &[u8]) -> usize
    ensures { (result ≡ prefix_len is_digit s.now) × (result ≤ length s.now) }
{
    s.iter().take_while(|x| is_digit(**x)).count()
}

// The number that digits come to with one more, or 10,000 where it is more: no unit is that long.
fn with_digit(v: usize, x: u8) -> usize
    ensures { result ≡ with_digit v x }
{
    let tens = v.saturating_mul(10);
    let digit = usize::from(x.saturating_sub(b'0'));
    tens.saturating_add(digit).min(10000)
}

// The number that these digits are.
#[tactic(auto, unfolding(crate::specs::Lengths::value_from))]
fn value_of(s: &[u8]) -> usize
    ensures { result ≡ value_from 0 s.now }
{
    s.iter().fold(0, |v, x| with_digit(v, *x))
}

// Whether a number ends before these octets: there are none, or the first is a blank or a line feed.
#[tactic(auto, unfolding(crate::specs::Lengths::ends_at))]
fn ends_at(s: &[u8]) -> bool
    ensures { result ≡ ends_at s.now }
{
    s.is_empty() || is_blank(s[0])
}

// What stands next after so many blanks, with so many digits.
#[tactic(auto, unfolding(crate::specs::Lengths::word_of))]
fn word_of(s: &[u8], b: usize, d: usize) -> Result<Option<usize>, NoNumber>
    requires { b + d ≤ length s.now }
    ensures { result ≡ word_of b d s.now }
{
    let end = b + d;
    if 256 <= end {
        Err(NoNumber)
    } else if s.len() == b {
        Ok(None)
    } else if d != 0 && ends_at(&s[end..]) {
        Ok(Some(value_of(&s[b..end])))
    } else {
        Err(NoNumber)
    }
}

// What stands next in a list that goes on with these octets, to its end or beyond the 256th.
#[tactic(auto, unfolding(crate::specs::Lengths::next_of))]
pub fn next_of(s: &[u8]) -> Listed
    ensures value { result ≡ next_of s.now }
    ensures used_in_bounds { result.used ≤ length s.now }
{
    let blanks = blanks_of(s);
    let digits = digits_of(&s[blanks..]);
    Listed {
        length: word_of(s, blanks, digits),
        blanks,
        used: blanks + digits,
    }
}
