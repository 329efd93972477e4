// Units handed out into lent areas, and what becomes of held octets with those that follow them. Everything appends: a tally goes in
// and comes out.
ghost use Rattle.std.specs.Prelude.{◌≡◌, ◌+◌, ◌≤◌, length};
ghost use Rattle.rules.specs.Areas.{laid, record_size};
ghost use Rattle.rules.specs.Reading.{carries, unit_from, held_in, nothing, hands, become, record_of};
ghost use Rattle.lanes.specs.Hands.{Room, Handed, Ready, Went};

use rules::{Fate, Info, Kind, Slot};

// How many units were handed out, how many octets they have, and how many octets were idle, fill or dropped.
#[derive(Clone, Copy)]
pub struct Tally {
    pub count: usize,
    pub octets: usize,
    pub idle: usize,
    pub fill: usize,
    pub dropped: usize,
}

// What a lane keeps that holds nothing.
pub(crate) const EMPTY: Slot = Slot { held: 0, span: 0 };

// How a lane stands in its step: the tally so far, and what it keeps.
#[derive(Clone, Copy)]
pub struct Stand {
    pub tally: Tally,
    pub slot: Slot,
}

// What a lane brings to its step: its kind and longest unit, and what the records of the frame have in common.
#[derive(Clone, Copy)]
pub struct Terms {
    pub info: Info,
    pub longest: usize,
    pub kind: Kind,
}

// By how many frames a unit's span grows with these octets of one frame: by one, or by none where there are none.
#[tactic(auto, unfolding(rules::specs::Reading::carries))]
fn carried(octets: &[u8]) -> usize
    ensures { result ≡ carries octets.now }
{
    if octets.is_empty() { 0 } else { 1 }
}

// Lays the record of a unit of `size` octets from octet `start` on, which `span` frames carry, into `area` from octet `from` on.
fn lay_record(area: &mut [u8], from: usize, info: Info, start: usize, size: usize, span: usize)
    requires { from + record_size ≤ length area.old }
    ensures { area.new ≡ laid area.old from (record_of info start size span) }
{
    let whose = [info.lane, info.vc, info.map, info.service];
    octets::lay(area, from, &whose);
    octets::lay_number(area, from + 4, 4, start as u64);
    octets::lay_number(area, from + 8, 4, size as u64);
    octets::lay_number(area, from + 12, 8, info.count);
    octets::lay_number(area, from + 20, 4, span as u64);
}

// Hands out a unit of two parts: its octets, its record, and the tally with it. `span` frames carry the first part, each an octet at least; this frame
// carries the second. The areas stand beside one another here and in `settle`, as the read that lends them has them: a struct of two `&mut` would be made and
// taken apart for each unit, and say nothing that the two do not.
pub fn hand_out(
    info: Info,
    t: Tally,
    span: usize,
    first: &[u8],
    second: &[u8],
    units: &mut [u8],
    records: &mut [u8],
) -> Tally
    requires { (span ≤ length first.now) × Room t units.old records.old (hands (unit_from (record { octets = first.now; span = span }) second.now) nothing) }
    ensures { Handed info t units.old records.old (hands (unit_from (record { octets = first.now; span = span }) second.now) nothing) result units.new records.new }
{
    let start = t.octets;
    let middle = start + first.len();
    let end = middle + second.len();
    let more = carried(second);
    octets::lay(units, start, first);
    octets::lay(units, middle, second);
    lay_record(
        records,
        rules::RECORD_SIZE * t.count,
        info,
        start,
        end - start,
        span + more,
    );
    Tally {
        count: t.count + 1,
        octets: end,
        ..t
    }
}

// Does with the held octets and those that follow them what is to become of them.
pub fn settle(
    info: Info,
    s: Stand,
    fate: Fate,
    part: &mut [u8],
    next: &[u8],
    units: &mut [u8],
    records: &mut [u8],
) -> Stand
    requires { Ready s units.old records.old part.old next.now (become fate (unit_from (held_in s.slot part.old) next.now)) }
    ensures { Went info s.tally units.old records.old part.old (become fate (unit_from (held_in s.slot part.old) next.now)) result units.new records.new part.new }
{
    let Stand { mut tally, slot } = s;
    let h = slot.held as usize;
    let n = h + next.len();
    let mut kept = EMPTY;
    match fate {
        Fate::Hand => {
            let span = slot.span as usize;
            tally = hand_out(info, tally, span, &part[..h], next, units, records);
        }
        Fate::Blank => tally.idle += n,
        Fate::Hold => {
            octets::lay(part, h, next);
            kept = Slot {
                held: n as u16,
                span: slot.span + carried(next) as u16,
            };
        }
        Fate::Drop => tally.dropped += n,
    }
    Stand { tally, slot: kept }
}
