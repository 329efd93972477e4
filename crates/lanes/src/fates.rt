// What becomes of packets and units: of the packet at the front of a zone, of held octets and what follows them. Decisions on numbers alone;
// each function is total, and gives what one definition of the rules gives.
#![tactic(auto, using(std::proofs::lemmas::Bool::Decides::nat_tests), unfolding(rules::specs::Reading::sized_next, rules::specs::Reading::cut_next, rules::specs::Reading::end_fate, rules::specs::Reading::cut_fate, rules::specs::Reading::joined_fate, rules::specs::Reading::lead_fate, rules::specs::Reading::unit_fate, rules::specs::Reading::follow_fate))]

ghost use Rattle.std.specs.Prelude.{◌≡◌, ◌+◌};
ghost use Rattle.rules.specs.Reading.{end_fate, cut_fate, joined_fate, lead_fate, sized_next, cut_next, unit_fate, follow_fate};

use rules::{Fate, Measure, Next};

// What becomes of a packet of `size` octets at the front of n: `done` where it is whole.
pub fn sized_next(longest: usize, size: usize, n: usize, done: Next) -> Next
    ensures { result ≡ sized_next longest size n done }
{
    if longest < size {
        Next::Lose
    } else if n < size {
        Next::Keep
    } else {
        done
    }
}

// What becomes of a packet at the front of n octets that do not say its size.
pub fn cut_next(longest: usize, n: usize) -> Next
    ensures { result ≡ cut_next longest n }
{
    if longest <= n { Next::Lose } else { Next::Keep }
}

// What becomes of a packet of `size` octets of which h are held and n follow: `done` where it ends with them. It may go on where `on`.
fn end_fate(longest: usize, on: bool, size: usize, h: usize, n: usize, done: Fate) -> Fate
    ensures { result ≡ end_fate longest on size (h + n) done }
{
    if longest < size || size < h {
        Fate::Drop
    } else if size - h == n {
        done
    } else if on && n < size - h {
        Fate::Hold
    } else {
        Fate::Drop
    }
}

// What becomes of a packet of which h octets are held and n follow, and these do not say its size.
fn cut_fate(longest: usize, on: bool, h: usize, n: usize) -> Fate
    ensures { result ≡ cut_fate longest on (h + n) }
{
    if on && n < longest.saturating_sub(h) {
        Fate::Hold
    } else {
        Fate::Drop
    }
}

// What becomes of h held octets and a lead of n that follows them, measured together.
fn joined_fate(longest: usize, on: bool, m: Measure, h: usize, n: usize) -> Fate
    ensures { result ≡ joined_fate longest on m (h + n) }
{
    match m {
        Measure::Lacks(_) => cut_fate(longest, on, h, n),
        Measure::Packet(_, size) => end_fate(longest, on, size, h, n, Fate::Hand),
        Measure::Idle(size) => end_fate(longest, on, size, h, n, Fate::Blank),
        Measure::Unreadable => Fate::Drop,
    }
}

// What becomes of a lead of n octets after h held ones, measured together, where either may be none.
pub fn lead_fate(longest: usize, on: bool, m: Measure, h: usize, n: usize) -> Fate
    ensures { result ≡ lead_fate longest on m h n }
{
    if h == 0 || n == 0 {
        Fate::Drop
    } else {
        joined_fate(longest, on, m, h, n)
    }
}

// What becomes of the n octets so far of an access unit.
pub fn unit_fate(longest: usize, finished: bool, n: usize) -> Fate
    ensures { result ≡ unit_fate longest finished n }
{
    match finished {
        true if n <= longest => Fate::Hand,
        false if n < longest => Fate::Hold,
        _ => Fate::Drop,
    }
}

// What becomes of the n octets that follow h held ones of an access unit.
pub fn follow_fate(longest: usize, finished: bool, h: usize, n: usize) -> Fate
    ensures { result ≡ follow_fate longest finished h n }
{
    if h == 0 || longest < h {
        Fate::Drop
    } else {
        unit_fate(longest - h, finished, n)
    }
}
