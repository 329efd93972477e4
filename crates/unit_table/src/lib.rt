// The table of units that unpack writes where it is asked for: a line for each unit, of its record, its octets, and where the frame's units come from.
// An area and the octet from which on stay two parameters, for the reason that listing_text gives.
#![tactic(auto)]

ghost use Rattle.std.specs.Prelude.{◌≡◌, ◌+◌, ◌*◌, ◌≤◌, ◌<◌, length, get_or, drop};
ghost use Rattle.rules.specs.Settings.{no_lane};
ghost use Rattle.unpack_text.specs.Totals.{no_lane_tally};
ghost use Rattle.unpack_text.specs.Lines.{Wrote};
ghost use Rattle.unit_table.specs.Rows.{table_title, is_packets, origin_of, number_at, family_of, row_of, row_text, rows_text};

use rules::{Family, Kind, Lane, Measure, Setting, Verdict};
use unpack_text::{LaneTally, Tally};

// Where the units of a frame come from: its number, how many octets its lane had before it, and whether they are packets.
#[derive(Clone, Copy)]
pub struct Origin {
    pub frame: u64,
    pub base: u64,
    pub packets: bool,
}

// What a line says of a unit; its family, if it is a packet.
#[derive(Clone, Copy)]
pub struct Row {
    pub offset: u64,
    pub frame: u64,
    pub lane: u64,
    pub length: u64,
    pub count: u64,
    pub apid: u64,
    pub sequence: u64,
    pub span: u64,
    pub family: Option<Family>,
}

// ---- where units come from

// Whether lane l carries packets; the lane of zeros does where there is no such slot.
#[tactic(auto, unfolding(crate::specs::Rows::is_packets))]
fn carries_packets(lanes: [Lane; 8], l: usize) -> bool
    ensures { result ≡ is_packets (get_or lanes l no_lane).kind }
{
    lanes
        .get(l)
        .map_or(true, |a| matches!(a.kind, Kind::Packets))
}

// How many octets lane l has; 0 where there is no such slot.
fn octets_of(tallies: [LaneTally; 8], l: usize) -> u64
    ensures { result ≡ (get_or tallies l no_lane_tally).octets }
{
    tallies.get(l).map_or(0, |a| a.octets)
}

// Where the units of frame k come from, after these totals.
#[tactic(auto, unfolding(crate::specs::Rows::origin_of))]
pub fn origin_of(s: Setting, t: Tally, k: u64, v: Verdict) -> Origin
    ensures { result ≡ origin_of s t k v }
{
    match v {
        Verdict::Read(l) => Origin {
            frame: k,
            base: octets_of(t.lanes, l),
            packets: carries_packets(s.lanes, l),
        },
        Verdict::Refused(_) | Verdict::Idle | Verdict::Counted(_) | Verdict::Repeat(_) => Origin {
            frame: k,
            base: 0,
            packets: false,
        },
    }
}

// ---- a row

// The octets from octet `at` on; none past the end.
fn rest(octets: &[u8], at: usize) -> &[u8]
    ensures { result.now ≡ drop at octets.now }
{
    octets.get(at..).unwrap_or(&[])
}

// The number in n octets from octet `at` on; in fewer, where there are not so many.
#[tactic(auto, unfolding(crate::specs::Rows::number_at))]
fn number_at(octets: &[u8], at: usize, n: usize) -> u64
    requires { n ≤ 8 }
    ensures { result ≡ number_at octets.now at n }
{
    let rest = rest(octets, at);
    octets::exact(&rest[..n.min(rest.len())])
}

// The family of a packet lane's unit that is a packet, by what measures it.
#[tactic(auto, unfolding(crate::specs::Rows::family_of))]
fn family_of(packets: bool, m: Measure) -> Option<Family>
    ensures { result ≡ family_of packets m }
{
    match m {
        Measure::Packet(f, _) if packets => Some(f),
        _ => None,
    }
}

// What the line of unit i says.
fn row_of(g: Origin, units: &[u8], records: &[u8], i: usize) -> Row
    requires { i < 2048 }
    ensures { result ≡ row_of g units.now records.now i }
{
    let at = rules::RECORD_SIZE * i;
    let start = number_at(records, at + 4, 4);
    let front = number_at(units, start as usize, 4);
    let m = packets::measure_at(rest(units, start as usize));
    Row {
        offset: unpack_text::add(g.base, start),
        frame: g.frame,
        lane: number_at(records, at, 1),
        length: number_at(records, at + 8, 4),
        count: number_at(records, at + 12, 8),
        apid: front / 65536 % 2048,
        sequence: front % 16384,
        span: number_at(records, at + 20, 4),
        family: family_of(g.packets, m),
    }
}

// Puts the line of a unit. What a Space Packet says of itself is not said of another unit, and its family is said of a packet alone.
fn put_row(area: &mut [u8], from: usize, r: Row) -> usize
    requires { from + 174 ≤ length area.old }
    ensures { Wrote 174 (row_text r) area.old from area.new result }
{
    match r.family {
        Some(Family::Space) => listing_text::put_filled(
            area,
            from,
            b"#,#,#,#,#,#,#,#,space\n",
            &[
                r.lane, r.offset, r.length, r.frame, r.count, r.apid, r.sequence, r.span,
            ],
        ),
        Some(Family::Encapsulation) => listing_text::put_filled(
            area,
            from,
            b"#,#,#,#,#,,,#,encapsulation\n",
            &[r.lane, r.offset, r.length, r.frame, r.count, r.span],
        ),
        None => listing_text::put_filled(
            area,
            from,
            b"#,#,#,#,#,,,#,\n",
            &[r.lane, r.offset, r.length, r.frame, r.count, r.span],
        ),
    }
}

// ---- the table

// Puts the title.
pub fn put_title(area: &mut [u8], from: usize) -> usize
    requires { from + 57 ≤ length area.old }
    ensures { Wrote 57 table_title area.old from area.new result }
{
    listing_text::put_text(
        area,
        from,
        b"lane,offset,length,frame,count,apid,sequence,span,family\n",
    )
}

// Puts the lines of a read that gave n units; a read gives at most 2,043.
pub fn put_rows(area: &mut [u8], g: Origin, n: usize, units: &[u8], records: &[u8]) -> usize
    requires { (n ≤ 2048) × (174 * n ≤ length area.old) }
    ensures { Wrote (174 * n) (rows_text g n units.now records.now) area.old 0 area.new result }
{
    let mut at = 0;
    for i in 0..n {
        at = put_row(area, at, row_of(g, units, records, i));
    }
    at
}
