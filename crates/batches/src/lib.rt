// A batch: whether it keeps its rule, how its frames are cut, and what rule, pointer and fill each carries.
#![tactic(auto, using(std::proofs::lemmas::Bool::Decides::nat_tests), unfolding(rules::specs::Writing::rule_of, rules::specs::Writing::offset_of, rules::specs::Writing::pointer_of, rules::specs::Writing::inside))]

ghost use Rattle.std.specs.Prelude.{◌≡◌, ◌+◌, ◌-◌, ◌*◌, ◌/◌, ◌≤◌, ◌<◌, length};
ghost use Rattle.rules.specs.Frames.{pointer_to};
ghost use Rattle.rules.specs.Writing.{fill, rule_of, offset_of, pointer_of};
ghost use Rattle.batches.specs.Starts.{Passed, StartsAt, Stands, Keeps};

use rules::{Kind, Measure};

// Passes packets from octet `from` on, up to the first that starts at octet `to` or later: where that is. Nowhere, where one on the way is
// not whole, is idle or is above the longest. A packet's size says where the next one starts: the place is counted by no range or iterator.
fn packets_to(longest: usize, batch: &[u8], from: usize, to: usize) -> Option<usize>
    requires { (from ≤ length batch.now) × (to ≤ length batch.now) }
    ensures { Passed longest batch.now from to result }
{
    let mut i = from;
    while i < to {
        let Measure::Packet(_, n) = packets::measure_at(&batch[i..]) else {
            return None;
        };
        if batch.len() - i < n || longest < n {
            return None;
        }
        i += n;
    }
    Some(i)
}

// Where the first packet from octet `from` on starts, if the octets are whole packets of both families back to back, none idle, none above the
// longest. Each packet is looked at once: those before that octet, then those from it on.
fn back_to_back(longest: usize, batch: &[u8], from: usize) -> Option<usize>
    ensures { Stands longest batch.now from result }
{
    let first = packets_to(longest, batch, 0, octets::least(from, batch.len()))?;
    packets_to(longest, batch, first, batch.len())?;
    Some(first)
}

// Whether a batch keeps the rule of its lane's kind, and where its first packet from octet `from` on starts: nowhere if it does not.
pub fn batch_start(kind: Kind, longest: usize, batch: &[u8], from: usize) -> Option<usize>
    ensures { Keeps kind longest batch.now from result }
{
    match kind {
        _ if batch.is_empty() => None,
        Kind::Packets if batch.len() <= rules::BATCH_SIZE => back_to_back(longest, batch, from),
        Kind::Access if batch.len() <= longest => Some(0),
        _ => None,
    }
}

// The construction rule that frame i of a batch carries.
pub fn rule_of(kind: Kind, i: usize) -> u8
    ensures { result ≡ rule_of kind i }
{
    match (kind, i) {
        (Kind::Packets, _) => 0b000,
        (Kind::Access, 0) => 0b001,
        (Kind::Access, _) => 0b010,
    }
}

// The octet that fills the rest of a batch's last zone.
pub fn fill_of(kind: Kind) -> u8
    ensures { result ≡ fill kind }
{
    match kind {
        Kind::Packets => 0xE0,
        Kind::Access => 0x00,
    }
}

// The pointer to a place.
pub fn pointer_to(p: Option<usize>) -> usize
    ensures { result ≡ pointer_to p }
{
    p.unwrap_or(0xFFFF)
}

// How many frames with zones of z octets a batch of n octets takes; 0 where z is 0.
pub fn frames_of(z: usize, n: usize) -> usize
    ensures { result ≡ (n + (z - 1)) / z }
{
    if z == 0 { 0 } else { n.div_ceil(z) }
}

// The offset in a zone that starts at octet `from`: it is number `from` of the zones of one octet. `start` is where the first packet from
// there on starts.
fn offset_at(kind: Kind, batch: &[u8], from: usize, start: usize) -> usize
    requires { (from ≤ length batch.now) × StartsAt kind batch.now from start }
    ensures { result ≡ offset_of kind 1 batch.now from }
{
    match kind {
        Kind::Packets => start.saturating_sub(from),
        Kind::Access => batch.len().saturating_sub(from + 1),
    }
}

// The pointer that frame i carries, told where the first packet from its zone on starts.
pub fn pointer_of(kind: Kind, z: usize, batch: &[u8], i: usize, start: usize) -> usize
    requires { (i * z < length batch.now) × StartsAt kind batch.now (i * z) start }
    ensures { result ≡ pointer_of kind z batch.now i }
{
    let n = offset_at(kind, batch, i * z, start);
    pointer_to((n < z).then_some(n))
}
