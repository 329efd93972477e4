// The reader: set-up, and two calls a frame. One judgement of state and frame, `find`: `look` shows it, `take` acts on it, and `pass` does both, with an
// operator's decision between them.
#![tactic(auto)]

pub mod choices;

ghost use Rattle.std.specs.Prelude.{◌≡◌, ◌≤◌, ◌<◌, IfOk};
ghost use Rattle.rules.specs.Settings.{channel_of};
ghost use Rattle.rules.specs.Calls.{read_on, bare, verdict, looked, by_number};
ghost use Rattle.rules.specs.Tests.{number_of};
ghost use Rattle.rules.specs.Promises.{ReaderStarts, ReadGives, LookGives};
ghost use Rattle.rules.specs.Passes.{whose as whoseIn, seen, PassGives};
ghost use Rattle.judge.specs.Sights.{read_sight, sight_of};
ghost use Rattle.reader.specs.Reads.{terms_for, taken_of, counted_of, short_of, short_refusal, OnLane, SeenOn};
ghost use Rattle.reader.specs.Finds.{Sound, again_of, missing_for, found_of, class_on, shown_of};
ghost use Rattle.rules.specs.Areas.{held_size, units_size};

use judge::{Sight, Sighting};
use lanes::units::{Stand, Terms};
use rules::{
    Answer, Class, Gap, Info, Listener, Looked, Passed, Reader, Refusal, Setting, Taken, Verdict,
};

// ---- what a lane makes of a frame

// What lane l brings to a frame with count k on the channel at place c.
fn terms_for(s: Setting, c: usize, l: usize, k: u64) -> Terms
    requires { (c < 8) × (l < 8) }
    ensures { result ≡ terms_for s c l k }
{
    // The arrays are bound before they are indexed: inside the struct they cost a read of 256 octets 3.9 % more (judge's too).
    let lanes = s.lanes;
    let lane = lanes[l];
    let channels = s.channels;
    let channel = channels[c];
    Terms {
        info: Info {
            lane: l as u8,
            vc: channel.vc,
            map: lane.map,
            service: channel.service,
            count: k,
        },
        longest: lane.longest as usize,
        kind: lane.kind,
    }
}

// The answer and the state once lane l has made its step after gap g.
fn taken_of(g: Gap, l: usize, led: Stand) -> Taken
    requires { (l < 8) × (g.dropped ≤ held_size) × (led.tally.dropped ≤ units_size) }
    ensures { result ≡ taken_of g l led }
{
    let tally = led.tally;
    let mut state = g.state;
    state.slots = setting::with_slot(state.slots, l, led.slot);
    Taken {
        answer: Answer {
            class: Class::Read,
            units: tally.count,
            octets: tally.octets,
            missing: g.missing,
            idle: tally.idle,
            fill: tally.fill,
            dropped: g.dropped + tally.dropped,
        },
        state,
    }
}

// Lane l reads the frame that x is the sight of, after gap g.
fn read_on(g: Gap, l: usize, x: Sight, f: &[u8], h: &mut [u8], u: &mut [u8], c: &mut [u8]) -> Taken
    requires { OnLane g l f.now h.old u.old c.old × (x ≡ read_sight g.state.setting f.now l) }
    ensures { record { taken = result; held_area = h.new; unit_area = u.new; record_area = c.new } ≡ read_on g l (channel_of g.state.setting l) f.now h.old u.old c.old }
{
    let r = g.state;
    let terms = terms_for(r.setting, x.channel, l, x.count);
    let slot = setting::slot_of(r.slots, l);
    let zone = &f[x.begin..x.begin + x.size];
    let from = rules::PART_SIZE * l;
    let part = &mut h[from..from + rules::PART_SIZE];
    let led = lanes::lane_step(terms, slot, x.place, x.rule, zone, part, u, c);
    taken_of(g, l, led)
}

// ---- the calls

// A fresh reader of this setting, or refusal 1 and a state of zeros.
pub fn set_up(s: Setting) -> Listener
    ensures { ReaderStarts s result }
{
    if setting::setting_ok(s) {
        Listener {
            outcome: Ok(()),
            state: setting::fresh_reader(s),
        }
    } else {
        Listener {
            outcome: Err(Refusal::Invalid),
            state: setting::no_reader(),
        }
    }
}

// Whether an area is too short.
fn areas_short(held: usize, units: usize, records: usize) -> bool
    ensures { result ≡ short_of held units records }
{
    held != rules::HELD_SIZE || units < rules::UNITS_SIZE || records < rules::RECORDS_SIZE
}

// ---- the one judgement

// What is found of a frame: what it is, by the checks and after them, and how many frames are missing before it.
#[derive(Clone, Copy)]
struct Found {
    sighting: Sighting,
    missing: u64,
}

// What a frame is of which the checks say this: a repeat, where it was seen with the count that was last taken on its channel.
fn again(r: Reader, v: Sighting) -> Sighting
    requires { Sound r v }
    ensures { result ≡ again_of r v }
{
    let Sighting::Seen(x) = v else {
        return v;
    };
    if gaps::repeats_at(r, x.channel, x.count) {
        return Sighting::Repeat(x.channel);
    }
    v
}

// What a frame is, where no area is lent: the state first, then the frame's checks, and only then whether it is a repeat.
fn sight_of(r: Reader, frame: &[u8]) -> Result<Sighting, Refusal>
    ensures { (by_number result ≡ sight_of r.setting frame.now (looked r frame.now)) × IfOk result (λ v. Sound r v) }
{
    if !setting::reader_ok(r) {
        return Err(Refusal::Invalid);
    }
    let v = judge::judge_frame(r.setting, frame)?;
    Ok(again(r, v))
}

// How many frames are missing before a frame that is this. Before a repeat none are: its count is not taken.
fn missing_before(r: Reader, v: Sighting) -> u64
    requires { Sound r v }
    ensures { result ≡ missing_for r v }
{
    match v {
        Sighting::Seen(x) => gaps::missing_at(r, x.channel, x.count),
        Sighting::Idle | Sighting::Repeat(_) => 0,
    }
}

// What is found of a frame.
fn find(r: Reader, frame: &[u8]) -> Result<Found, Refusal>
    ensures { (by_number result ≡ found_of r frame.now (looked r frame.now)) × IfOk result (λ v. Sound r v.sighting) }
{
    let sighting = sight_of(r, frame)?;
    let missing = missing_before(r, sighting);
    Ok(Found { sighting, missing })
}

// ---- look

// The class of a frame of a listed channel, by the lane that reads it, if any.
fn class_on(lane: Option<usize>) -> Class
    ensures { result ≡ class_on lane }
{
    match lane {
        None => Class::Counted,
        Some(_) => Class::Read,
    }
}

// The answer of a look at a frame that no lane reads: where it is of a channel, with that one's place.
fn unread(class: Class, missing: u64, channel: Option<usize>) -> Looked
    ensures { result ≡ record { class = class; missing = missing; channel = channel; lane = None } }
{
    Looked {
        missing,
        channel,
        lane: None,
        class,
    }
}

// A look's answer: what was found, as the paper has it.
fn shown(found: Result<Found, Refusal>) -> Looked
    ensures { result ≡ shown_of (by_number found) }
{
    match found {
        Err(refusal) => unread(Class::Refused(refusal.number()), 0, None),
        Ok(v) => match v.sighting {
            Sighting::Idle => unread(Class::Idle, v.missing, None),
            Sighting::Seen(x) => Looked {
                missing: v.missing,
                channel: Some(x.channel),
                lane: x.lane,
                class: class_on(x.lane),
            },
            Sighting::Repeat(c) => unread(Class::Repeat, v.missing, Some(c)),
        },
    }
}

// Checks a frame, and says its class, how many frames are missing, and whose it is. Nothing is lent to be changed, and no state is handed back.
pub fn look(r: Reader, frame: &[u8]) -> Looked
    ensures { LookGives r frame.now result }
{
    shown(find(r, frame))
}

// Whose a frame is that a look says this of.
#[tactic(auto, unfolding(rules::specs::Passes::whose, rules::specs::Passes::whose_of))]
pub fn whose(o: Looked) -> Verdict
    ensures { result ≡ whoseIn o }
{
    match o.class {
        Class::Idle => Verdict::Idle,
        Class::Counted => Verdict::Counted(choices::number_of(o.channel)),
        Class::Read => Verdict::Read(choices::number_of(o.lane)),
        Class::Repeat => Verdict::Repeat(choices::number_of(o.channel)),
        Class::Refused(n) => Verdict::Refused(n),
    }
}

// ---- take

// An answer of this class whose counts are 0, and the state as it was.
fn untouched(class: Class, r: Reader) -> Taken
    ensures { result ≡ record { answer = bare class; state = r } }
{
    Taken {
        answer: Answer {
            class,
            units: 0,
            octets: 0,
            missing: 0,
            idle: 0,
            fill: 0,
            dropped: 0,
        },
        state: r,
    }
}

// The answer and the state of a frame that is Counted, after gap g.
fn counted_of(g: Gap) -> Taken
    ensures { result ≡ counted_of g }
{
    Taken {
        answer: Answer {
            class: Class::Counted,
            units: 0,
            octets: 0,
            missing: g.missing,
            idle: 0,
            fill: 0,
            dropped: g.dropped,
        },
        state: g.state,
    }
}

// Takes the count of the frame that x is the sight of, and reads it where a lane does.
fn take_seen(
    r: Reader,
    x: Sight,
    missing: u64,
    f: &[u8],
    h: &mut [u8],
    u: &mut [u8],
    c: &mut [u8],
) -> Taken
    requires { SeenOn r x missing f.now h.old u.old c.old }
    ensures { ReadGives r f.now h.old u.old c.old result h.new u.new c.new }
{
    let g = gaps::gap_of(r, x.channel, x.count, missing);
    match x.lane {
        None => counted_of(g),
        Some(l) => read_on(g, l, x, f, h, u, c),
    }
}

// Does what was found asks for.
fn act_on(v: Found, r: Reader, f: &[u8], h: &mut [u8], u: &mut [u8], c: &mut [u8]) -> Taken
    requires { (Ok v ≡ found_of r f.now (verdict r f.now h.old u.old c.old)) × Sound r v.sighting }
    ensures { ReadGives r f.now h.old u.old c.old result h.new u.new c.new }
{
    match v.sighting {
        Sighting::Idle => untouched(Class::Idle, r),
        Sighting::Seen(x) => take_seen(r, x, v.missing, f, h, u, c),
        Sighting::Repeat(_) => untouched(Class::Repeat, r),
    }
}

// Why an area that is too short is refused: for that, but where the state is not valid.
fn short_refusal(r: Reader) -> Refusal
    ensures { number_of result ≡ short_refusal r }
{
    if setting::reader_ok(r) {
        Refusal::AreaShort
    } else {
        Refusal::Invalid
    }
}

// Takes the frame of which this was found into the areas lent, or refuses it and changes nothing.
fn take_found(
    found: Result<Found, Refusal>,
    r: Reader,
    f: &[u8],
    h: &mut [u8],
    u: &mut [u8],
    c: &mut [u8],
) -> Taken
    requires { (by_number found ≡ found_of r f.now (looked r f.now)) × IfOk found (λ v. Sound r v.sighting) }
    ensures { ReadGives r f.now h.old u.old c.old result h.new u.new c.new }
{
    if areas_short(h.len(), u.len(), c.len()) {
        return untouched(Class::Refused(short_refusal(r).number()), r);
    }
    match found {
        Err(refusal) => untouched(Class::Refused(refusal.number()), r),
        Ok(v) => act_on(v, r, f, h, u, c),
    }
}

// Takes one frame into the areas lent, or refuses it and changes nothing: document 01's read. All checks are done, whatever a look said before.
pub fn take(r: Reader, frame: &[u8], held: &mut [u8], units: &mut [u8], records: &mut [u8]) -> Taken
    ensures { ReadGives r frame.now held.old units.old records.old result held.new units.new records.new }
{
    let found = find(r, frame);
    take_found(found, r, frame, held, units, records)
}

// ---- look, decide, take

// A frame that is left out: what the look said of it, and the state as it was.
fn passed_over(o: Looked, r: Reader) -> Taken
    ensures { result ≡ record { answer = seen o; state = r } }
{
    Taken {
        answer: Answer {
            class: o.class,
            units: 0,
            octets: 0,
            missing: o.missing,
            idle: 0,
            fill: 0,
            dropped: 0,
        },
        state: r,
    }
}

// Looks at a frame, and takes it, unless it is of a virtual channel that is to be left out: then nothing changes. Nothing can come between the look and
// the take here, so what the look found is what the take finds, and the checks are done once.
pub fn pass(
    without: [bool; 63],
    r: Reader,
    frame: &[u8],
    held: &mut [u8],
    units: &mut [u8],
    records: &mut [u8],
) -> Passed
    ensures { PassGives without r frame.now held.old units.old records.old result held.new units.new records.new }
{
    let found = find(r, frame);
    let looked = shown(found);
    let left = choices::left_out(without, r.setting, looked);
    let taken = if left {
        passed_over(looked, r)
    } else {
        take_found(found, r, frame, held, units, records)
    };
    Passed {
        taken,
        looked,
        left,
    }
}
