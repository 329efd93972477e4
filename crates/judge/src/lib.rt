// The checks of a frame, in the paper's order: refused, idle, or what they found of it. No field is read twice.
#![tactic(auto)]

ghost use Rattle.std.specs.Prelude.{◌≡◌, true, ◌≤◌, ◌<◌, length, IfOk};
ghost use Rattle.rules.specs.Settings.{channel, lane, setting_ok};
ghost use Rattle.rules.specs.Calls.{refusal_of, by_number};
ghost use Rattle.rules.specs.Frames.{vc, map, bypass, count_in, points_to, check_holds};
ghost use Rattle.rules.specs.Refusals.{channel_at, lane_at, rule_fits, judge};
ghost use Rattle.header.specs.Heads.{head_of};
ghost use Rattle.judge.specs.Judging.{data_wrong_of, judge_data, judge_map, judge_listed, judge_channel, field_refusal, head_refusal};
ghost use Rattle.judge.specs.Sights.{OnChannel, counted_sight, sight_of, Fitting};
ghost use Rattle.judge.specs.declared.Sighting.TheVariants.{Seen};

use header::{Data, Head};
use rules::{Kind, Lane, Refusal, Setting};

// What the checks found of a frame of a listed channel: the channel's place, the lane that reads it, if any, and its count. Of a frame
// that is read also its construction rule, what its pointer points to, and where its zone begins and how many octets it has.
#[derive(Clone, Copy)]
pub struct Sight {
    pub channel: usize,
    pub count: u64,
    pub begin: usize,
    pub size: usize,
    pub lane: Option<usize>,
    pub place: Option<usize>,
    pub rule: u8,
}

// What is found of a frame that is not refused: idle, seen on a listed channel, or a repeat on the channel at this place. The checks alone find no
// repeat, for they do not know what was taken before.
#[derive(Clone, Copy)]
pub enum Sighting {
    Idle,
    Seen(Sight),
    Repeat(usize),
}

// Whether a construction rule is one of this kind of lane's.
#[tactic(auto, unfolding(rules::specs::Refusals::rule_fits))]
fn rule_fits(kind: Kind, rule: u8) -> bool
    ensures { result ≡ rule_fits kind rule }
{
    match kind {
        Kind::Packets => rule == 0b000,
        Kind::Access => rule == 0b001 || rule == 0b010,
    }
}

// The place that a pointer points to.
#[tactic(auto, unfolding(rules::specs::Frames::points_to))]
fn points_to(p: usize) -> Option<usize>
    ensures { result ≡ points_to p }
{
    if p == 0xFFFF { None } else { Some(p) }
}

// Whether the frame check holds.
fn check_holds(s: Setting, frame: &[u8]) -> bool
    requires { 2 ≤ length frame.now }
    ensures { result ≡ check_holds s frame.now }
{
    if !s.check {
        return true;
    }
    let at = frame.len() - 2;
    fecf::check_of(&frame[..at]) as u64 == octets::exact(&frame[at..])
}

// Refuses by 8.
#[tactic(auto, unfolding(crate::specs::Judging::field_refusal, rules::specs::Calls::refusal_of))]
fn check_fields(s: Setting, h: Head) -> Result<(), Refusal>
    requires { 1 ≤ s.length }
    ensures { refusal_of result ≡ field_refusal s h }
{
    if h.length != s.length - 1 || h.spare != 0b00 || h.command == 1 && h.bypass == 0 {
        return Err(Refusal::Fields);
    }
    Ok(())
}

// Refuses by 5 to 8.
#[tactic(auto, unfolding(crate::specs::Judging::head_refusal, rules::specs::Calls::refusal_of))]
fn check_head(s: Setting, h: Head) -> Result<(), Refusal>
    requires { 1 ≤ s.length }
    ensures { refusal_of result ≡ head_refusal s h }
{
    if h.version != 0b1100 {
        return Err(Refusal::Version);
    }
    if h.craft != s.craft || h.bit != s.bit {
        return Err(Refusal::Craft);
    }
    if h.ending == 1 {
        return Err(Refusal::HeaderEnd);
    }
    check_fields(s, h)
}

// Whether rule, UPID or pointer is not that of lane a, on a channel with this zone.
#[tactic(auto, unfolding(crate::specs::Judging::data_wrong_of))]
fn data_wrong(a: Lane, z: usize, d: Data) -> bool
    ensures { result ≡ data_wrong_of a z d }
{
    !rule_fits(a.kind, d.rule) || d.upid != a.upid || d.pointer >= z && d.pointer != 0xFFFF
}

// A frame of channel c with count k whose map is in lane l.
fn judge_data(s: Setting, c: usize, l: usize, k: u64, frame: &[u8]) -> Result<Sighting, Refusal>
    requires { OnChannel s c frame.now × (l < s.numbered) × ((lane s l).channel ≡ c) × (k ≡ count_in (channel s c) frame.now) }
    ensures { by_number result ≡ sight_of s frame.now (judge_data s c l frame.now) }
{
    // The arrays are bound before they are indexed, here and below: inside the struct they cost a read of 256 octets 3.9 % more, a look 3.5 %.
    let lanes = s.lanes;
    let channels = s.channels;
    let ch = channels[c];
    let size = setting::zone_for(s, ch, frame.len());
    let at = 7 + ch.octets as usize + s.insert;
    let d = header::data_of(&frame[at..]);
    if data_wrong(lanes[l], size, d) {
        return Err(Refusal::DataField);
    }
    Ok(Sighting::Seen(Sight {
        channel: c,
        lane: Some(l),
        count: k,
        rule: d.rule,
        place: points_to(d.pointer),
        begin: at + 3,
        size,
    }))
}

// A frame with this count, of the channel at this place, that no lane reads.
fn counted(channel: usize, count: u64) -> Sighting
    ensures { result ≡ Seen (counted_sight channel count) }
{
    Sighting::Seen(Sight {
        channel,
        lane: None,
        count,
        rule: 0,
        place: None,
        begin: 0,
        size: 0,
    })
}

// A frame of channel c with count k, by its map. A command frame's data field is not looked at.
fn judge_map(s: Setting, c: usize, k: u64, h: Head, frame: &[u8]) -> Result<Sighting, Refusal>
    requires { OnChannel s c frame.now × (h ≡ head_of frame.now) × (k ≡ count_in (channel s c) frame.now) }
    ensures { by_number result ≡ sight_of s frame.now (judge_map s c frame.now (lane_at s c (map frame.now))) }
{
    match setting::lane_at(s, c, h.map) {
        None => Ok(counted(c, k)),
        Some(l) if h.command != 1 => judge_data(s, c, l, k, frame),
        Some(_) => Ok(counted(c, k)),
    }
}

// A frame of channel c.
fn judge_listed(s: Setting, c: usize, h: Head, frame: &[u8]) -> Result<Sighting, Refusal>
    requires { OnChannel s c frame.now × (h ≡ head_of frame.now) }
    ensures { (by_number result ≡ sight_of s frame.now (judge_listed s c frame.now)) × IfOk result (λ v. Fitting s v) }
{
    let channels = s.channels;
    let ch = channels[c];
    if h.octets != ch.octets as usize {
        return Err(Refusal::CountLength);
    }
    if h.ocf != ch.ocf as u8 {
        return Err(Refusal::OcfFlag);
    }
    let k = header::count_in(ch, frame);
    judge_map(s, c, k, h, frame)
}

// A frame whose header passes 5 to 8.
fn judge_channel(s: Setting, h: Head, frame: &[u8]) -> Result<Sighting, Refusal>
    requires { (setting_ok s ≡ true) × (length frame.now ≡ s.length) × (h ≡ head_of frame.now) }
    ensures { (by_number result ≡ sight_of s frame.now (judge_channel s frame.now (channel_at s (vc frame.now) (bypass frame.now)))) × IfOk result (λ v. Fitting s v) }
{
    match setting::channel_at(s, h.vc, h.bypass) {
        Some(c) => judge_listed(s, c, h, frame),
        None if h.vc != 63 => Err(Refusal::Unlisted),
        None => Ok(Sighting::Idle),
    }
}

// What the checks find of a frame.
pub fn judge_frame(s: Setting, frame: &[u8]) -> Result<Sighting, Refusal>
    requires { setting_ok s ≡ true }
    ensures { (by_number result ≡ sight_of s frame.now (judge s frame.now)) × IfOk result (λ v. Fitting s v) }
{
    if frame.len() != s.length {
        return Err(Refusal::Length);
    }
    if !check_holds(s, frame) {
        return Err(Refusal::Check);
    }
    let h = header::head_of(frame);
    check_head(s, h)?;
    judge_channel(s, h, frame)
}
