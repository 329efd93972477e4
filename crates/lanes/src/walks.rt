// "From the pointer on, packets are read one after another": the walk over a zone, and what its end leaves in the held area.
ghost use Rattle.std.specs.Prelude.{◌≡◌, ◌≤◌, length, drop};
ghost use Rattle.rules.specs.Areas.{units_size};
ghost use Rattle.rules.specs.Packets.{measure};
ghost use Rattle.rules.specs.Reading.{next_of, walk};
ghost use Rattle.lanes.specs.Hands.{Room, Went};
ghost use Rattle.lanes.specs.Ends.{Run, Left};

use crate::units::{EMPTY, Stand, Tally, Terms};
use crate::{fates, units};
use rules::{Measure, Next, Slot};

// Where a walk over a zone ends: with the zone, at a packet that the zone's end cuts, or at one that drops the rest with itself.
#[derive(Clone, Copy)]
pub enum Walk {
    Finished,
    Held(usize),
    Dropped(usize),
}

// How a walk ended, and the tally then.
#[derive(Clone, Copy)]
pub struct Walked {
    pub end: Walk,
    pub tally: Tally,
}

// What becomes of the packet at the front of these octets. A rule of the project: the measure is taken apart by `let else` here and in the batch check
// (docs/DECISIONS.md, 20a).
#[tactic(auto, unfolding(rules::specs::Reading::next_of))]
fn next_at(longest: usize, octets: &[u8]) -> Next
    ensures { result ≡ next_of longest (measure octets.now) (length octets.now) }
{
    let n = octets.len();
    let m = packets::measure_at(octets);
    let Measure::Packet(_, size) = m else {
        let Measure::Idle(size) = m else {
            let Measure::Lacks(_) = m else {
                return Next::Lose;
            };
            return fates::cut_next(longest, n);
        };
        return fates::sized_next(longest, size, n, Next::Skip(size));
    };
    fates::sized_next(longest, size, n, Next::Give(size))
}

// Where the run of E0 octets from octet `from` on ends. Each of them is an idle packet, so a walk that has just left one out leaves out
// all of them in one step.
fn run_end(zone: &[u8], from: usize) -> usize
    requires { from ≤ length zone.now }
    ensures { Run zone.now from result }
{
    match zone[from..].iter().position(|x| *x != 0xE0) {
        Some(n) => from + n,
        None => zone.len(),
    }
}

// From octet `from` on, reads one packet after another. A rule of the project: the walk is left by `break` with how it ended.
fn walk_on(
    terms: Terms,
    t0: Tally,
    zone: &[u8],
    from: usize,
    units: &mut [u8],
    records: &mut [u8],
) -> Walked
    requires { (from ≤ length zone.now) × Room t0 units.old records.old (walk terms.longest (drop from zone.now)) }
    ensures { Left terms.info t0 units.old records.old zone.now (walk terms.longest (drop from zone.now)) result units.new records.new }
{
    let mut at = from;
    let mut tally = t0;
    let end = loop {
        if zone.len() <= at {
            break Walk::Finished;
        }
        match next_at(terms.longest, &zone[at..]) {
            Next::Give(n) => {
                let e = at + n;
                tally = units::hand_out(terms.info, tally, 0, &[], &zone[at..e], units, records);
                at = e;
            }
            Next::Skip(n) => {
                let e = run_end(zone, at + n);
                tally.idle += e - at;
                at = e;
            }
            Next::Keep => break Walk::Held(at),
            Next::Lose => break Walk::Dropped(at),
        }
    };
    Walked { end, tally }
}

// The packets from the pointer on: a tail that the zone's end cuts goes to the lane's part of the held area, and this frame is the first to carry it.
pub fn walk_step(
    terms: Terms,
    t: Tally,
    zone: &[u8],
    from: usize,
    part: &mut [u8],
    units: &mut [u8],
    records: &mut [u8],
) -> Stand
    requires { (from ≤ length zone.now) × (length zone.now ≤ length part.old) × (length zone.now ≤ units_size) × Room t units.old records.old (walk terms.longest (drop from zone.now)) }
    ensures { Went terms.info t units.old records.old part.old (walk terms.longest (drop from zone.now)) result units.new records.new part.new }
{
    let n = zone.len();
    let Walked { end, mut tally } = walk_on(terms, t, zone, from, units, records);
    let mut kept = EMPTY;
    match end {
        Walk::Finished => {}
        Walk::Held(at) => {
            octets::lay(part, 0, &zone[at..]);
            kept = Slot {
                held: (n - at) as u16,
                span: 1,
            };
        }
        Walk::Dropped(at) => tally.dropped += n - at,
    }
    Stand { tally, slot: kept }
}
