// A frame laid into a lent area, part by part.
ghost use Rattle.std.specs.Prelude.{◌≡◌, cond, [], ◌++◌, ◌+◌, ◌-◌, ◌*◌, ◌≤◌, ◌<◌, length, take, replicate};
ghost use Rattle.rules.specs.Octets.{be, check_of};
ghost use Rattle.rules.specs.Areas.{laid};
ghost use Rattle.rules.specs.Frames.{primary, data_header};
ghost use Rattle.rules.specs.Writing.{zone_of, rule_of, pointer_of};
ghost use Rattle.batches.specs.Starts.{StartsAt};
ghost use Rattle.writer.specs.Fits.{upcoming_frame, FrameFits};

use rules::{Channel, Lane, Setting};

// What a write looks up for the frame that is upcoming: the channel's place, the lane, the channel, its zone, the channel's count, the lane's
// next number.
#[derive(Clone, Copy)]
pub struct Upcoming {
    pub place: usize,
    pub zone: usize,
    pub count: u64,
    pub number: usize,
    pub lane: Lane,
    pub channel: Channel,
}

// Lays the primary header and the insert zone at the area's front.
fn put_front(area: &mut [u8], s: Setting, x: Upcoming, insert: &[u8])
    requires { (1 ≤ s.length) × (s.length ≤ 65536) × (x.channel.octets ≤ 7) × (7 + x.channel.octets + length insert.now ≤ length area.old) }
    ensures { area.new ≡ laid area.old 0 (primary s x.channel x.lane x.count ++ insert.now) }
{
    octets::lay_number(area, 0, 7, header::header_of(s, x.channel, x.lane));
    let n = x.channel.octets as usize;
    octets::lay_number(area, 7, n, x.count);
    octets::lay(area, 7 + n, insert);
}

// Lays a zone of z octets: a piece of the batch, and fill behind it.
fn put_zone(area: &mut [u8], from: usize, piece: &[u8], z: usize, x: u8)
    requires { (length piece.now ≤ z) × (from + z ≤ length area.old) }
    ensures { area.new ≡ laid area.old from (piece.now ++ replicate (z - length piece.now) x) }
{
    let n = piece.len();
    octets::lay(area, from, piece);
    octets::lay_fill(area, from + n, z - n, x);
}

// Lays rule, UPID, pointer and zone of the upcoming frame, told where the first packet from its zone on starts.
fn put_data(area: &mut [u8], from: usize, x: Upcoming, batch: &[u8], start: usize)
    requires { (x.number * x.zone < length batch.now) × (x.zone ≤ 4096) × (from + 3 + x.zone ≤ length area.old) × StartsAt x.lane.kind batch.now (x.number * x.zone) start }
    ensures { area.new ≡ laid area.old from (data_header (rule_of x.lane.kind x.number) x.lane.upid (pointer_of x.lane.kind x.zone batch.now x.number) ++ zone_of x.lane.kind x.zone batch.now x.number) }
{
    let kind = x.lane.kind;
    let rule = batches::rule_of(kind, x.number);
    let pointer = batches::pointer_of(kind, x.zone, batch, x.number, start);
    octets::lay_number(
        area,
        from,
        3,
        header::data_header_of(rule, x.lane.upid, pointer),
    );
    let rest = &batch[x.number * x.zone..];
    let piece = &rest[..x.zone.min(rest.len())];
    put_zone(area, from + 3, piece, x.zone, batches::fill_of(kind));
}

// Lays the OCF and, where there is one, the check over all octets before it.
fn put_end(area: &mut [u8], from: usize, ocf: &[u8], check: bool)
    requires { from + length ocf.now + cond check 2 0 ≤ length area.old }
    ensures { area.new ≡ laid area.old from (ocf.now ++ cond check (be 2 (check_of (take from area.old ++ ocf.now))) []) }
{
    octets::lay(area, from, ocf);
    if check {
        let end = from + ocf.len();
        let v = fecf::check_of(&area[..end]);
        octets::lay_number(area, end, 2, v as u64);
    }
}

// Lays the upcoming frame at the area's front, told where the first packet from its zone on starts.
pub fn put_frame(
    s: Setting,
    x: Upcoming,
    start: usize,
    batch: &[u8],
    insert: &[u8],
    ocf: &[u8],
    area: &mut [u8],
)
    requires { FrameFits s x batch.now insert.now ocf.now area.old × StartsAt x.lane.kind batch.now (x.number * x.zone) start }
    ensures { area.new ≡ laid area.old 0 (upcoming_frame s x batch.now insert.now ocf.now) }
{
    put_front(area, s, x, insert);
    let from = 7 + x.channel.octets as usize + insert.len();
    put_data(area, from, x, batch, start);
    put_end(area, from + 3 + x.zone, ocf, s.check);
}
