// What a lane makes of a zone and of the octets it holds, laid into lent areas.
#![tactic(auto)]

ghost use Rattle.std.specs.Prelude.{◌≡◌, List, ◌++◌, ℕ, length};
ghost use Rattle.rules.specs.Packets.{measure};
ghost use Rattle.rules.specs.Reading.{held_in, lead_fate, packet_lane, access_lane, lane_step};
ghost use Rattle.rules.specs.Valid.{Inside};
ghost use Rattle.lanes.specs.Hands.{Kept};
ghost use Rattle.lanes.specs.Steps.{Lent, portion_opening, Opens, Stepped};

mod fates;
pub mod units;
mod walks;

use rules::{Fate, Kind, Measure, Slot};
use units::{EMPTY, Stand, Tally, Terms};

// Measures the packet that begins with the first of two parts that follow each other. No header has more than eight octets, so the first eight say all.
fn measure_of(first: &[u8], second: &[u8]) -> Measure
    ensures { result ≡ measure (first.now ++ second.now) }
{
    let h = first.len();
    if 8 <= h {
        return packets::measure_at(first);
    }
    let more = octets::least(second.len(), 8 - h);
    let end = h + more;
    let mut front = [0u8; 8];
    octets::lay(&mut front, 0, first);
    octets::lay(&mut front, h, &second[..more]);
    packets::measure_at(&front[..end])
}

// How a lane begins its step: some octets are only counted, as fill or as dropped. `slot` is what it goes on with, all that it holds or nothing: that and
// `size` octets of the zone become what `fate` says. There the step `stops`, or else packets are read from there on.
#[derive(Clone, Copy)]
struct Opening {
    size: usize,
    fill: usize,
    dropped: usize,
    slot: Slot,
    fate: Fate,
    stops: bool,
}

// What becomes of a lead after the held octets: the packet must end with it, or may go `on`.
fn lead_of(longest: usize, on: bool, held: &[u8], next: &[u8]) -> Fate
    ensures { result ≡ lead_fate longest on (measure (held.now ++ next.now)) (length held.now) (length next.now) }
{
    let m = measure_of(held, next);
    fates::lead_fate(longest, on, m, held.len(), next.len())
}

// A packet lane's opening: the lead, which is the octets before the pointer, or all of the zone.
fn packet_opening(
    longest: usize,
    place: Option<usize>,
    slot: Slot,
    held: &[u8],
    zone: &[u8],
) -> Opening
    requires { Kept slot held.now × Inside (length zone.now) place }
    ensures { Opens longest (packet_lane longest (record { octets = held.now; span = slot.span }) place zone.now) result held.now zone.now }
{
    match place {
        Some(p) => {
            let fate = lead_of(longest, false, held, &zone[..p]);
            Opening {
                size: p,
                fill: 0,
                dropped: 0,
                slot,
                fate,
                stops: false,
            }
        }
        None => {
            let fate = lead_of(longest, true, held, zone);
            Opening {
                size: zone.len(),
                fill: 0,
                dropped: 0,
                slot,
                fate,
                stops: true,
            }
        }
    }
}

// The opening by `size` octets of an access unit, which begin it or follow what is held, and `fill` after its last. Where they begin it, what is held is
// dropped, and its span with it.
#[tactic(auto, unfolding(crate::specs::Steps::portion_opening))]
fn portion_opening(
    longest: usize,
    finished: bool,
    begins: bool,
    slot: Slot,
    size: usize,
    fill: usize,
) -> Opening
    ensures { result ≡ portion_opening longest finished begins slot size fill }
{
    let h = slot.held as usize;
    if begins {
        Opening {
            size,
            fill,
            dropped: h,
            slot: EMPTY,
            fate: fates::unit_fate(longest, finished, size),
            stops: true,
        }
    } else {
        Opening {
            size,
            fill,
            dropped: 0,
            slot,
            fate: fates::follow_fate(longest, finished, h, size),
            stops: true,
        }
    }
}

// An access lane's opening, with a zone of n octets: the unit's octets go up to its last, or are all of the zone.
fn access_opening(
    longest: usize,
    place: Option<usize>,
    begins: bool,
    slot: Slot,
    n: usize,
) -> Opening
    requires { Inside n place }
    ensures { (held zone : List ℕ) → Kept slot held → length zone ≡ n → Opens longest (access_lane longest begins (record { octets = held; span = slot.span }) place zone) result held zone }
{
    match place {
        Some(p) => {
            let e = p + 1;
            portion_opening(longest, true, begins, slot, e, n - e)
        }
        None => portion_opening(longest, false, begins, slot, n, 0),
    }
}

// A lane's opening, by its kind.
#[tactic(auto, unfolding(rules::specs::Reading::lane_step))]
fn opening_of(
    terms: Terms,
    slot: Slot,
    place: Option<usize>,
    rule: u8,
    held: &[u8],
    zone: &[u8],
) -> Opening
    requires { Kept slot held.now × Inside (length zone.now) place }
    ensures { Opens terms.longest (lane_step terms.kind terms.longest rule (record { octets = held.now; span = slot.span }) place zone.now) result held.now zone.now }
{
    let longest = terms.longest;
    match terms.kind {
        Kind::Packets => packet_opening(longest, place, slot, held, zone),
        Kind::Access => access_opening(longest, place, rule == 0b001, slot, zone.len()),
    }
}

// A lane's step: its units and their records to the front of their areas, what it then holds to the front of its part of the held area. `slot` is
// what it kept, and what it keeps now is in the result.
pub fn lane_step(
    terms: Terms,
    slot: Slot,
    place: Option<usize>,
    rule: u8,
    zone: &[u8],
    part: &mut [u8],
    units: &mut [u8],
    records: &mut [u8],
) -> Stand
    requires { Lent terms slot place zone.now part.old units.old records.old }
    ensures { Stepped terms.info (lane_step terms.kind terms.longest rule (held_in slot part.old) place zone.now) part.old units.old records.old result part.new units.new records.new }
{
    let h = slot.held as usize;
    let o = opening_of(terms, slot, place, rule, &part[..h], zone);
    let tally = Tally {
        count: 0,
        octets: 0,
        idle: 0,
        fill: o.fill,
        dropped: o.dropped,
    };
    let s = Stand {
        tally,
        slot: o.slot,
    };
    let e = o.size;
    let led = units::settle(terms.info, s, o.fate, part, &zone[..e], units, records);
    if o.stops {
        led
    } else {
        walks::walk_step(terms, led.tally, zone, e, part, units, records)
    }
}
