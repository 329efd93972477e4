// Whether a setting and a state are valid, the zone of a channel, look-up of channels and lanes, and fresh states.
#![tactic(auto)]

ghost use Rattle.std.specs.Prelude.{◌≡◌, true, ◌&&◌, ◌^◌, ◌≤◌, ◌<◌, get_or, set, length, Bool};
ghost use Rattle.rules.specs.Tests.{◌≤?◌, ◌<?◌, every};
ghost use Rattle.rules.specs.Settings.{no_channel, no_lane, no_slot, expect_on, expecting, channel, lane, number};
ghost use Rattle.rules.specs.Settings.{ocf_octets, check_octets, zone_for, zone, ranges_ok, channel_ok, channels_agree, channels_ok};
ghost use Rattle.rules.specs.Settings.{kind_ok, lane_ok, lanes_differ, lanes_ok, setting_ok, slot_ok, reader_ok, writer_ok};
ghost use Rattle.rules.specs.Settings.{fresh_reader, fresh_writer, no_setting, no_reader, no_writer};
ghost use Rattle.rules.specs.Refusals.{channel_at, lane_at};

use rules::{Channel, Expect, Expects, Kind, Lane, Reader, Setting, Slot, Writer};

// How many octets the OCF of a channel's frames has.
pub fn ocf_octets(c: Channel) -> usize
    ensures { result ≡ ocf_octets c }
{
    if c.ocf { 4 } else { 0 }
}

// How many octets the frame check has.
fn check_octets(s: Setting) -> usize
    ensures { result ≡ check_octets s }
{
    if s.check { 2 } else { 0 }
}

// How many octets the zone of a channel's frame of n octets has; 0 where it has no room for one.
pub fn zone_for(s: Setting, c: Channel, n: usize) -> usize
    ensures { result ≡ zone_for s c n }
{
    let room = n
        .saturating_sub(10)
        .saturating_sub(c.octets as usize)
        .saturating_sub(s.insert);
    room.saturating_sub(ocf_octets(c))
        .saturating_sub(check_octets(s))
}

// How many octets the zone of a channel's frames has.
#[tactic(auto, unfolding(rules::specs::Settings::zone))]
pub fn zone_of(s: Setting, c: Channel) -> usize
    ensures { result ≡ zone s c }
{
    zone_for(s, c, s.length)
}

// Whether frame length, bit and insert zone are in their ranges; every spacecraft number of 16 bits is.
#[tactic(auto, unfolding(rules::specs::Settings::ranges_ok, rules::specs::Tests::all))]
fn ranges_ok(s: Setting) -> bool
    ensures { result ≡ ranges_ok s }
{
    (32..=4096).contains(&s.length) && s.bit <= 1 && s.insert <= 64
}

// Whether a channel is in its ranges, with a zone of at least one octet.
#[tactic(auto, unfolding(rules::specs::Settings::channel_ok, rules::specs::Tests::all))]
fn channel_ok(s: Setting, c: Channel) -> bool
    ensures { result ≡ channel_ok s c }
{
    c.vc <= 62 && c.service <= 1 && (1..=7).contains(&c.octets) && 1 <= zone_of(s, c)
}

// Whether two channels are not the same pair, and agree about the OCF if they are of one virtual channel.
#[tactic(auto, unfolding(rules::specs::Settings::channels_agree))]
fn channels_agree(a: Channel, b: Channel) -> bool
    ensures { result ≡ channels_agree a b }
{
    a.vc != b.vc || (a.service != b.service && a.ocf == b.ocf)
}

// Whether every two of these pass, the earlier one first.
fn every_two<T: Copy, F: Fn(T, T) -> bool>(xs: &[T], pass: F) -> bool
    requires { F.IsAlwaysCallable pass }
    ensures { (p : T → T → Bool) (z : T) → ((a b : T) (t : Bool) → F.post pass a b t → t ≡ p a b) → result ≡ every (length xs.now) (λ i. every i (λ j. p (get_or xs.now j z) (get_or xs.now i z))) }
{
    for (i, b) in xs.iter().enumerate() {
        if !xs[..i].iter().all(|a| pass(*a, *b)) {
            return false;
        }
    }
    true
}

// Whether there are 1 to 8 channels, each in its ranges, and they agree.
#[tactic(auto, unfolding(rules::specs::Settings::channels_ok, rules::specs::Tests::all))]
fn channels_ok(s: Setting) -> bool
    ensures { result ≡ channels_ok s }
{
    if !(1..=8).contains(&s.listed) {
        return false;
    }
    let channels = &s.channels[..s.listed];
    channels.iter().all(|c| channel_ok(s, *c)) && every_two(channels, channels_agree)
}

// Whether longest unit and UPID are in the ranges of a lane's kind.
#[tactic(auto, unfolding(rules::specs::Settings::kind_ok, rules::specs::Tests::all))]
fn kind_ok(k: Kind, longest: usize, upid: u8) -> bool
    ensures { result ≡ kind_ok k longest upid }
{
    match k {
        Kind::Packets => (2..=8192).contains(&longest) && upid == 0,
        Kind::Access => (1..=8192).contains(&longest) && (1..=30).contains(&upid),
    }
}

// Whether a lane is one of a listed channel and in its ranges.
#[tactic(auto, unfolding(rules::specs::Settings::lane_ok, rules::specs::Tests::all))]
fn lane_ok(s: Setting, l: Lane) -> bool
    ensures { result ≡ lane_ok s l }
{
    (l.channel as usize) < s.listed && l.map <= 15 && kind_ok(l.kind, l.longest as usize, l.upid)
}

// Whether two lanes do not share channel and map.
#[tactic(auto, unfolding(rules::specs::Settings::lanes_differ))]
fn lanes_differ(a: Lane, b: Lane) -> bool
    ensures { result ≡ lanes_differ a b }
{
    a.channel != b.channel || a.map != b.map
}

// Whether there are 1 to 8 lanes, each in its ranges, and no two share channel and map.
#[tactic(auto, unfolding(rules::specs::Settings::lanes_ok, rules::specs::Tests::all))]
fn lanes_ok(s: Setting) -> bool
    ensures { result ≡ lanes_ok s }
{
    if !(1..=8).contains(&s.numbered) {
        return false;
    }
    let lanes = &s.lanes[..s.numbered];
    lanes.iter().all(|l| lane_ok(s, *l)) && every_two(lanes, lanes_differ)
}

// Whether a setting is valid.
#[tactic(auto, unfolding(rules::specs::Settings::setting_ok, rules::specs::Tests::all))]
pub fn setting_ok(s: Setting) -> bool
    ensures { result ≡ setting_ok s }
{
    ranges_ok(s) && channels_ok(s) && lanes_ok(s)
}

// Whether each count is below its channel's 256^n.
fn counts_ok(s: Setting, counts: [u64; 8]) -> bool
    requires { setting_ok s ≡ true }
    ensures { result ≡ every s.listed (λ c. get_or counts c 0 <? 256 ^ (channel s c).octets) }
{
    s.channels[..s.listed]
        .iter()
        .zip(&counts)
        .all(|(c, x)| *x < octets::modulus(c.octets as usize))
}

// Whether what is kept of a lane is valid: fewer octets than its longest unit, no more frames that carry them than octets, and some where there
// are octets.
#[tactic(auto, unfolding(rules::specs::Settings::slot_ok, rules::specs::Tests::all))]
fn slot_ok(longest: usize, x: Slot) -> bool
    ensures { result ≡ slot_ok longest x }
{
    (x.held as usize) < longest && x.span <= x.held && (x.span != 0 || x.held == 0)
}

// Whether each lane's slot is valid.
fn slots_ok(s: Setting, slots: [Slot; 8]) -> bool
    requires { s.numbered ≤ 8 }
    ensures { result ≡ every s.numbered (λ l. slot_ok (lane s l).longest (get_or slots l no_slot)) }
{
    s.lanes[..s.numbered]
        .iter()
        .zip(&slots)
        .all(|(l, x)| slot_ok(l.longest as usize, *x))
}

// Whether a reader's state is valid.
#[tactic(auto, unfolding(rules::specs::Settings::reader_ok, rules::specs::Tests::all))]
pub fn reader_ok(r: Reader) -> bool
    ensures { result ≡ reader_ok r }
{
    setting_ok(r.setting) && counts_ok(r.setting, r.expects.counts) && slots_ok(r.setting, r.slots)
}

// Whether each lane's next frame number is at most 32,767.
fn numbers_ok(w: Writer) -> bool
    requires { w.setting.numbered ≤ 8 }
    ensures { result ≡ every w.setting.numbered (λ l. number w l ≤? 32767) }
{
    w.next[..w.setting.numbered]
        .iter()
        .all(|next| *next <= 32767)
}

// Whether a writer's state is valid.
#[tactic(auto, unfolding(rules::specs::Settings::writer_ok, rules::specs::Tests::all))]
pub fn writer_ok(w: Writer) -> bool
    ensures { result ≡ writer_ok w }
{
    setting_ok(w.setting) && counts_ok(w.setting, w.counts) && numbers_ok(w)
}

// The place of the listed channel with this virtual channel and service.
pub fn channel_at(s: Setting, vc: u8, service: u8) -> Option<usize>
    requires { s.listed ≤ 8 }
    ensures { result ≡ channel_at s vc service }
{
    s.channels[..s.listed]
        .iter()
        .position(|c| c.vc == vc && c.service == service)
}

// The number of the lane of channel c with this map.
pub fn lane_at(s: Setting, c: usize, map: u8) -> Option<usize>
    requires { s.numbered ≤ 8 }
    ensures { result ≡ lane_at s c map }
{
    s.lanes[..s.numbered]
        .iter()
        .position(|l| l.channel as usize == c && l.map == map)
}

// A channel of zeros.
pub fn no_channel() -> Channel
    ensures { result ≡ no_channel }
{
    Channel::default()
}

// A lane of zeros.
pub fn no_lane() -> Lane
    ensures { result ≡ no_lane }
{
    Lane::default()
}

// The slot of a lane that holds nothing.
pub fn no_slot() -> Slot
    ensures { result ≡ no_slot }
{
    Slot::default()
}

// What is kept of lane l.
pub fn slot_of(slots: [Slot; 8], l: usize) -> Slot
    requires { l < 8 }
    ensures { result ≡ get_or slots l no_slot }
{
    slots[l]
}

// The slots with another one of lane l, all others as they were.
pub fn with_slot(mut slots: [Slot; 8], l: usize, x: Slot) -> [Slot; 8]
    requires { l < 8 }
    ensures { result ≡ set slots l x }
{
    slots[l] = x;
    slots
}

// What is expected on channel c.
pub fn expect_of(expects: Expects, c: usize) -> Expect
    requires { c < 8 }
    ensures { result ≡ expect_on expects c }
{
    Expect {
        known: expects.known[c],
        count: expects.counts[c],
    }
}

// What is expected, with something else on channel c, all others as they were.
pub fn with_expect(mut expects: Expects, c: usize, e: Expect) -> Expects
    requires { c < 8 }
    ensures { result ≡ expecting expects c e }
{
    expects.counts[c] = e.count;
    expects.known[c] = e.known;
    expects
}

// The reader that expects no count and holds no octets.
#[tactic(auto, unfolding(rules::specs::Settings::fresh_reader))]
pub fn fresh_reader(s: Setting) -> Reader
    ensures { result ≡ fresh_reader s }
{
    Reader {
        setting: s,
        expects: Expects::default(),
        slots: [Slot::default(); 8],
    }
}

// The writer whose counts and next frame numbers are all 0.
#[tactic(auto, unfolding(rules::specs::Settings::fresh_writer))]
pub fn fresh_writer(s: Setting) -> Writer
    ensures { result ≡ fresh_writer s }
{
    Writer {
        setting: s,
        counts: [0; 8],
        next: [0; 8],
    }
}

// A setting of zeros. (Setting::default() was tried, and the proof did not close: it tells arrays element by element.)
#[tactic(auto, unfolding(rules::specs::Settings::no_setting))]
fn no_setting() -> Setting
    ensures { result ≡ no_setting }
{
    Setting {
        length: 0,
        craft: 0,
        bit: 0,
        insert: 0,
        check: false,
        listed: 0,
        channels: [Channel::default(); 8],
        numbered: 0,
        lanes: [Lane::default(); 8],
    }
}

// A reader of zeros, which is not valid.
#[tactic(auto, unfolding(rules::specs::Settings::no_reader, rules::specs::Settings::fresh_reader))]
pub fn no_reader() -> Reader
    ensures { result ≡ no_reader }
{
    fresh_reader(no_setting())
}

// A writer of zeros, which is not valid.
#[tactic(auto, unfolding(rules::specs::Settings::no_writer, rules::specs::Settings::fresh_writer))]
pub fn no_writer() -> Writer
    ensures { result ≡ no_writer }
{
    fresh_writer(no_setting())
}
