// What unpack says and counts: whose a frame is, the line of its answer, and the totals, as numbers and as text.
// An area and the octet from which on stay two parameters, for the reason that listing_text gives.
#![tactic(auto)]

ghost use Rattle.std.specs.Prelude.{◌≡◌, ◌++◌, ◌+◌, ◌≤◌, length};
ghost use Rattle.rules.specs.Settings.{lane};
ghost use Rattle.rules.specs.Listing.{decimal};
ghost use Rattle.unpack_text.specs.Totals.{add, classed, summed, in_channel, lanes_after, channels_after, tallied, passed_over, no_tally, held_in};
ghost use Rattle.unpack_text.specs.Lines.{Wrote, third, front_text, frame_line, lane_line, channel_line, title, lane_lines, channel_lines, places_text, last_line};

use rules::{Answer, Channel, Class, Reader, Setting, Slot, Verdict};

// How many frames there were, how many of each class, and how many were left out.
#[derive(Clone, Copy, Default)]
pub struct Classes {
    pub frames: u64,
    pub read: u64,
    pub counted: u64,
    pub idle: u64,
    pub repeats: u64,
    pub refused: u64,
    pub left: u64,
}

// What all frames gave together: units, their octets, and octets that were idle, fill or dropped.
#[derive(Clone, Copy, Default)]
pub struct Sums {
    pub units: u64,
    pub octets: u64,
    pub idle: u64,
    pub fill: u64,
    pub dropped: u64,
}

// What a lane read.
#[derive(Clone, Copy, Default)]
pub struct LaneTally {
    pub frames: u64,
    pub units: u64,
    pub octets: u64,
}

// What a channel took, counted or read; a repeat is not taken.
#[derive(Clone, Copy, Default)]
pub struct ChannelTally {
    pub frames: u64,
    pub missing: u64,
}

// The totals of a recording.
#[derive(Clone, Copy, Default)]
pub struct Tally {
    pub classes: Classes,
    pub sums: Sums,
    pub lanes: [LaneTally; 8],
    pub channels: [ChannelTally; 8],
}

// ---- totals

// The sum, and the largest number where that does not hold it.
#[tactic(auto, unfolding(crate::specs::Totals::add))]
pub fn add(a: u64, b: u64) -> u64
    ensures { result ≡ add a b }
{
    a.saturating_add(b)
}

// One frame more, and one of its class.
#[tactic(auto, unfolding(crate::specs::Totals::classed))]
fn count_class(t: Classes, class: Class) -> Classes
    ensures { result ≡ classed t class }
{
    let t = Classes {
        frames: add(t.frames, 1),
        ..t
    };
    match class {
        Class::Idle => Classes {
            idle: add(t.idle, 1),
            ..t
        },
        Class::Counted => Classes {
            counted: add(t.counted, 1),
            ..t
        },
        Class::Read => Classes {
            read: add(t.read, 1),
            ..t
        },
        Class::Repeat => Classes {
            repeats: add(t.repeats, 1),
            ..t
        },
        Class::Refused(_) => Classes {
            refused: add(t.refused, 1),
            ..t
        },
    }
}

// The sums with an answer's.
#[tactic(auto, unfolding(crate::specs::Totals::summed))]
fn sum_answer(t: Sums, a: Answer) -> Sums
    ensures { result ≡ summed t a }
{
    Sums {
        units: add(t.units, a.units as u64),
        octets: add(t.octets, a.octets as u64),
        idle: add(t.idle, a.idle as u64),
        fill: add(t.fill, a.fill as u64),
        dropped: add(t.dropped, a.dropped as u64),
    }
}

// The lanes' totals with a frame's: one that is read is its lane's.
#[tactic(auto, unfolding(crate::specs::Totals::lanes_after, crate::specs::Totals::in_lane, crate::specs::Totals::lane_after))]
fn lanes_after(mut lanes: [LaneTally; 8], v: Verdict, units: usize, octets: usize) -> [LaneTally; 8]
    ensures { result ≡ lanes_after lanes v units octets }
{
    match v {
        Verdict::Read(l) if l < lanes.len() => {
            let t = lanes[l];
            lanes[l] = LaneTally {
                frames: add(t.frames, 1),
                units: add(t.units, units as u64),
                octets: add(t.octets, octets as u64),
            };
            lanes
        }
        _ => lanes,
    }
}

// Lane l's channel; that of a lane of zeros where there is no such slot.
fn channel_of(s: Setting, l: usize) -> usize
    ensures { result ≡ (lane s l).channel }
{
    s.lanes.get(l).map_or(0, |a| a.channel as usize)
}

// The channels' totals with one frame more of channel c.
#[tactic(auto, unfolding(crate::specs::Totals::in_channel, crate::specs::Totals::channel_after))]
fn in_channel(mut channels: [ChannelTally; 8], c: usize, missing: u64) -> [ChannelTally; 8]
    ensures { result ≡ in_channel channels c missing }
{
    if c < channels.len() {
        let t = channels[c];
        channels[c] = ChannelTally {
            frames: add(t.frames, 1),
            missing: add(t.missing, missing),
        };
    }
    channels
}

// The channels' totals with a frame's: one that is counted or read is its channel's.
#[tactic(auto, unfolding(crate::specs::Totals::channels_after))]
fn channels_after(
    s: Setting,
    channels: [ChannelTally; 8],
    v: Verdict,
    missing: u64,
) -> [ChannelTally; 8]
    ensures { result ≡ channels_after s channels v missing }
{
    match v {
        Verdict::Counted(c) => in_channel(channels, c, missing),
        Verdict::Read(l) => in_channel(channels, channel_of(s, l), missing),
        Verdict::Refused(_) | Verdict::Idle | Verdict::Repeat(_) => channels,
    }
}

// The totals with one frame more.
#[tactic(auto, unfolding(crate::specs::Totals::tallied))]
pub fn count_frame(s: Setting, t: Tally, v: Verdict, a: Answer) -> Tally
    ensures { result ≡ tallied s t v a }
{
    Tally {
        classes: count_class(t.classes, a.class),
        sums: sum_answer(t.sums, a),
        lanes: lanes_after(t.lanes, v, a.units, a.octets),
        channels: channels_after(s, t.channels, v, a.missing),
    }
}

// The totals with one frame more that was left out.
#[tactic(auto, unfolding(crate::specs::Totals::passed_over))]
pub fn pass_over(t: Tally) -> Tally
    ensures { result ≡ passed_over t }
{
    let classes = Classes {
        frames: add(t.classes.frames, 1),
        left: add(t.classes.left, 1),
        ..t.classes
    };
    Tally { classes, ..t }
}

// The totals of no frame.
#[tactic(auto, unfolding(crate::specs::Totals::no_tally))]
pub fn no_tally() -> Tally
    ensures { result ≡ no_tally }
{
    Tally::default()
}

// How many octets the first n lanes hold together.
fn held_in(slots: [Slot; 8], n: usize) -> u64
    ensures { result ≡ held_in slots n }
{
    slots
        .iter()
        .take(n)
        .fold(0, |sum, x| add(sum, x.held as u64))
}

// ---- text

// Puts some text and a number.
pub fn put_named(area: &mut [u8], from: usize, label: &[u8], v: u64) -> usize
    requires { from + length label.now + 20 ≤ length area.old }
    ensures { Wrote (length label.now + 20) (label.now ++ decimal v) area.old from area.new result }
{
    let at = listing_text::put_text(area, from, label);
    listing_text::put_decimal(area, at, v)
}

// Puts a line's third field: the lane, the refusal number, or neither.
fn put_third(area: &mut [u8], from: usize, v: Verdict) -> usize
    requires { from + 20 ≤ length area.old }
    ensures { Wrote 20 (third v) area.old from area.new result }
{
    match v {
        Verdict::Refused(n) => listing_text::put_decimal(area, from, n as u64),
        Verdict::Read(l) => listing_text::put_decimal(area, from, l as u64),
        Verdict::Idle | Verdict::Counted(_) | Verdict::Repeat(_) => {
            listing_text::put_octet(area, from, b'-')
        }
    }
}

// Puts the line of frame k up to its third field: a frame that was left out has no class's word there.
fn put_front(area: &mut [u8], from: usize, k: u64, left: bool, class: Class) -> usize
    requires { from + 29 ≤ length area.old }
    ensures { Wrote 29 (front_text k left class) area.old from area.new result }
{
    if left {
        listing_text::put_filled(area, from, b"# left ", &[k])
    } else {
        listing_text::put_front(area, from, k, class)
    }
}

// Puts the line of frame k, which was left out or not. That is no Option of the answer: of a frame that was left out all but the class is told too.
pub fn put_line(area: &mut [u8], from: usize, k: u64, left: bool, v: Verdict, a: Answer) -> usize
    requires { from + 176 ≤ length area.old }
    ensures { Wrote 176 (frame_line k left v a) area.old from area.new result }
{
    let at = put_front(area, from, k, left, a.class);
    let at = put_third(area, at, v);
    let values = [
        a.units as u64,
        a.octets as u64,
        a.missing,
        a.idle as u64,
        a.fill as u64,
        a.dropped as u64,
    ];
    listing_text::put_filled(area, at, b" # # # # # #\n", &values)
}

// Puts the title.
pub fn put_title(area: &mut [u8], from: usize) -> usize
    requires { from + 57 ≤ length area.old }
    ensures { Wrote 57 title area.old from area.new result }
{
    listing_text::put_text(
        area,
        from,
        b"frame answer lane units octets missing idle fill dropped\n",
    )
}

// Puts the line of a lane's totals.
fn put_lane(area: &mut [u8], from: usize, l: u64, t: LaneTally) -> usize
    requires { from + 109 ≤ length area.old }
    ensures { Wrote 109 (lane_line l t) area.old from area.new result }
{
    let values = [l, t.frames, t.units, t.octets];
    listing_text::put_filled(area, from, b"lane # frames # units # octets #\n", &values)
}

// Puts the line of a channel's totals.
fn put_channel(area: &mut [u8], from: usize, vc: u8, service: u8, t: ChannelTally) -> usize
    requires { from + 115 ≤ length area.old }
    ensures { Wrote 115 (channel_line vc service t) area.old from area.new result }
{
    let values = [vc as u64, service as u64, t.frames, t.missing];
    listing_text::put_filled(
        area,
        from,
        b"channel # service # frames # missing #\n",
        &values,
    )
}

// Puts the lines of lanes' totals. Lines of lanes and of channels are two loops: one for both would take how a line is put, and a longer contract.
fn put_lanes(area: &mut [u8], from: usize, ts: &[LaneTally]) -> usize
    requires { (length ts.now ≤ 8) × (from + 872 ≤ length area.old) }
    ensures { Wrote 872 (lane_lines ts.now (length ts.now)) area.old from area.new result }
{
    let mut at = from;
    for (i, t) in ts.iter().enumerate() {
        at = put_lane(area, at, i as u64, *t);
    }
    at
}

// Puts the lines of channels' totals.
fn put_channels(area: &mut [u8], from: usize, channels: &[Channel], ts: &[ChannelTally]) -> usize
    requires { (length channels.now ≤ 8) × (length channels.now ≤ length ts.now) × (from + 920 ≤ length area.old) }
    ensures { Wrote 920 (channel_lines channels.now (length channels.now) ts.now) area.old from area.new result }
{
    let mut at = from;
    for (c, t) in channels.iter().zip(ts) {
        at = put_channel(area, at, c.vc, c.service, *t);
    }
    at
}

// Puts the lines of the lanes' and the channels' totals of a recording, after which a reader has this state.
pub fn put_places(area: &mut [u8], from: usize, r: Reader, t: Tally) -> usize
    requires { (r.setting.listed ≤ 8) × (r.setting.numbered ≤ 8) × (from + 1792 ≤ length area.old) }
    ensures { Wrote 1792 (places_text r t) area.old from area.new result }
{
    let at = put_lanes(area, from, &t.lanes[..r.setting.numbered]);
    put_channels(
        area,
        at,
        &r.setting.channels[..r.setting.listed],
        &t.channels,
    )
}

// Puts the line of all frames of a recording, after which a reader has this state.
pub fn put_last(area: &mut [u8], from: usize, r: Reader, t: Tally) -> usize
    requires { from + 360 ≤ length area.old }
    ensures { Wrote 360 (last_line r t) area.old from area.new result }
{
    let held = held_in(r.slots, r.setting.numbered);
    let values = [
        t.classes.frames,
        t.classes.read,
        t.classes.counted,
        t.classes.idle,
        t.classes.repeats,
        t.classes.refused,
        t.classes.left,
        t.sums.units,
        t.sums.octets,
        t.sums.idle,
        t.sums.fill,
        t.sums.dropped,
        held,
    ];
    listing_text::put_filled(
        area,
        from,
        b"total frames # read # counted # idle # repeat # refused # left # units # octets # idle # fill # dropped # held #\n",
        &values,
    )
}
