// The writer: set-up, and one call a frame.
#![tactic(auto)]

ghost use Rattle.std.specs.Prelude.{◌≡◌, true, ◌<◌};
ghost use Rattle.rules.specs.Tests.{given};
ghost use Rattle.rules.specs.Settings.{channel_of, number, zone, writer_ok};
ghost use Rattle.rules.specs.Writing.{frames, number_after, writer_after};
ghost use Rattle.rules.specs.Calls.{refusal_of, write_refusals};
ghost use Rattle.rules.specs.Promises.{WriterStarts, WriteGives};
ghost use Rattle.writer.specs.Lookups.{upcoming_of, late_refusals, batch_refusals, Judges};

mod frames;

use frames::Upcoming;
use rules::{Refusal, Sender, Setting, Writer};

// Looks lane l up.
fn upcoming_of(w: Writer, l: usize) -> Upcoming
    requires { (writer_ok w ≡ true) × (l < w.setting.numbered) }
    ensures { result ≡ upcoming_of w l }
{
    let s = w.setting;
    let lane = s.lanes[l];
    let place = lane.channel as usize;
    let channel = s.channels[place];
    Upcoming {
        place,
        lane,
        channel,
        zone: setting::zone_of(s, channel),
        count: w.counts[place],
        number: w.next[l],
    }
}

// ---- the state after it

// The frame number after frame i of n.
#[tactic(auto, unfolding(rules::specs::Writing::number_after))]
fn number_after(i: usize, n: usize) -> usize
    requires { i < n }
    ensures { result ≡ number_after i n }
{
    if i + 1 == n { 0 } else { i + 1 }
}

// The state after a frame of a batch on lane l, of which x was looked up.
fn after(w: Writer, l: usize, x: Upcoming, batch: &[u8]) -> Writer
    requires { (writer_ok w ≡ true) × (l < w.setting.numbered) × (x ≡ upcoming_of w l) × (number w l < frames (zone w.setting (channel_of w.setting l)) batch.now) }
    ensures { result ≡ writer_after w l batch.now }
{
    let m = octets::modulus(x.channel.octets as usize);
    let n = batches::frames_of(x.zone, batch.len());
    let k = number_after(x.number, n);
    let p = x.place;
    let mut t = w;
    t.counts[p] = (x.count + 1) % m;
    t.next[l] = k;
    t
}

// ---- refusals

// Refuses by 15 and 16.
#[tactic(auto, unfolding(rules::specs::Tests::given, rules::specs::Calls::refusal_of, rules::specs::Writing::frames, crate::specs::Lookups::late_refusals))]
fn check_parts(
    s: Setting,
    x: Upcoming,
    batch: &[u8],
    insert: &[u8],
    ocf: &[u8],
) -> Result<(), Refusal>
    ensures { refusal_of result ≡ given (late_refusals s x batch.now insert.now ocf.now) }
{
    if insert.len() != s.insert || ocf.len() != setting::ocf_octets(x.channel) {
        return Err(Refusal::Parts);
    }
    if batches::frames_of(x.zone, batch.len()) <= x.number {
        return Err(Refusal::FrameNumber);
    }
    Ok(())
}

// Refuses by 14 and those after it, of a lane that is there; or says where the first packet from the frame's zone on starts.
fn check_batch(
    w: Writer,
    l: usize,
    batch: &[u8],
    insert: &[u8],
    ocf: &[u8],
) -> Result<usize, Refusal>
    requires { (writer_ok w ≡ true) × (l < w.setting.numbered) }
    ensures { Judges w l batch.now (batch_refusals w l batch.now insert.now ocf.now) result }
{
    let x = upcoming_of(w, l);
    let longest = x.lane.longest as usize;
    let Some(start) = batches::batch_start(x.lane.kind, longest, batch, x.number * x.zone) else {
        return Err(Refusal::Batch);
    };
    check_parts(w.setting, x, batch, insert, ocf)?;
    Ok(start)
}

// Refuses by the first refusal that applies to a write; or says where the first packet from the frame's zone on starts.
fn check(
    w: Writer,
    l: usize,
    batch: &[u8],
    insert: &[u8],
    ocf: &[u8],
    area: &[u8],
) -> Result<usize, Refusal>
    ensures { Judges w l batch.now (write_refusals w l batch.now insert.now ocf.now area.now) result }
{
    if !setting::writer_ok(w) {
        return Err(Refusal::Invalid);
    }
    if area.len() < w.setting.length {
        return Err(Refusal::AreaShort);
    }
    if w.setting.numbered <= l {
        return Err(Refusal::NoLane);
    }
    check_batch(w, l, batch, insert, ocf)
}

// ---- the calls

// A fresh writer of this setting, or refusal 1 and a state of zeros.
pub fn set_up(s: Setting) -> Sender
    ensures { WriterStarts s result }
{
    if setting::setting_ok(s) {
        Sender {
            outcome: Ok(()),
            state: setting::fresh_writer(s),
        }
    } else {
        Sender {
            outcome: Err(Refusal::Invalid),
            state: setting::no_writer(),
        }
    }
}

// Writes the next frame of lane l's batch into the first octets of the area, or refuses and changes nothing.
pub fn write(
    w: Writer,
    l: usize,
    batch: &[u8],
    insert: &[u8],
    ocf: &[u8],
    area: &mut [u8],
) -> Sender
    ensures { WriteGives w l batch.now insert.now ocf.now area.old result area.new }
{
    match check(w, l, batch, insert, ocf, area) {
        Ok(start) => {
            let x = upcoming_of(w, l);
            frames::put_frame(w.setting, x, start, batch, insert, ocf, area);
            Sender {
                outcome: Ok(()),
                state: after(w, l, x, batch),
            }
        }
        Err(refusal) => Sender {
            outcome: Err(refusal),
            state: w,
        },
    }
}
