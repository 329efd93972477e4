// Refused frames in unpack's totals: how many there were of each number, document 01's words for it, the commonest one, and what the first of them
// says of itself; and with them the text of all totals.
// An area and the octet from which on stay two parameters, for the reason that listing_text gives.
#![tactic(auto)]

ghost use Rattle.std.specs.Prelude.{◌≡◌, ◌+◌, ◌≤◌, ◌<◌, length};
ghost use Rattle.unpack_text.specs.Lines.{Wrote};
ghost use Rattle.refusals.specs.Counts.{raised, front_of, first_after, refused_after, totalled, passed_over, no_totals, commonest};
ghost use Rattle.refusals.specs.Words.{naming, refused_line, refused_lines, totals_text, common_text, first_text, marked};

use rules::{Answer, Reader, Setting, Verdict};
use unpack_text::Tally;

// The first refused frame: its number, how many octets it has, and the first seven, with zeros for those that it has not.
#[derive(Clone, Copy)]
pub struct First {
    pub frame: u64,
    pub octets: usize,
    pub front: [u8; 7],
}

// How many frames were refused with each number, by number, and the first of all, if there is one.
#[derive(Clone, Copy, Default)]
pub struct Refusals {
    pub counts: [u64; 13],
    pub first: Option<First>,
}

// The totals of a recording, with its refusals.
#[derive(Clone, Copy)]
pub struct Totals {
    pub tally: Tally,
    pub refusals: Refusals,
}

// ---- counts

// One more of number n, if there is such a number.
#[tactic(auto, unfolding(crate::specs::Counts::raised))]
fn raise(mut counts: [u64; 13], n: usize) -> [u64; 13]
    ensures { result ≡ raised counts n }
{
    if n < counts.len() {
        counts[n] = unpack_text::add(counts[n], 1);
    }
    counts
}

// The first seven octets of a frame, with zeros for those that it has not.
#[tactic(auto, unfolding(crate::specs::Counts::front_of))]
fn front_of(frame: &[u8]) -> [u8; 7]
    ensures { result ≡ front_of frame.now }
{
    let mut front = [0u8; 7];
    octets::copy(&mut front, frame);
    front
}

// The refusals with frame k, which is refused with number n.
#[tactic(auto, unfolding(crate::specs::Counts::first_after))]
fn note(t: Refusals, n: usize, k: u64, frame: &[u8]) -> Refusals
    ensures { (result.counts ≡ raised t.counts n) × (result.first ≡ first_after t.first k frame.now) }
{
    let this = First {
        frame: k,
        octets: frame.len(),
        front: front_of(frame),
    };
    Refusals {
        counts: raise(t.counts, n),
        first: t.first.or(Some(this)),
    }
}

// The refusals with frame k, refused or not.
#[tactic(auto, unfolding(crate::specs::Counts::refused_after))]
fn after(t: Refusals, v: Verdict, k: u64, frame: &[u8]) -> Refusals
    ensures { result ≡ refused_after t v k frame.now }
{
    match v {
        Verdict::Refused(n) => note(t, n as usize, k, frame),
        Verdict::Idle | Verdict::Counted(_) | Verdict::Read(_) | Verdict::Repeat(_) => t,
    }
}

// The totals with one frame more.
#[tactic(auto, unfolding(crate::specs::Counts::totalled))]
pub fn count_frame(s: Setting, t: Totals, v: Verdict, a: Answer, frame: &[u8]) -> Totals
    ensures { result ≡ totalled s t v a frame.now }
{
    Totals {
        tally: unpack_text::count_frame(s, t.tally, v, a),
        refusals: after(t.refusals, v, t.tally.classes.frames, frame),
    }
}

// The totals with one frame more that was left out: it is not refused.
#[tactic(auto, unfolding(crate::specs::Counts::passed_over))]
pub fn pass_over(t: Totals) -> Totals
    ensures { result ≡ passed_over t }
{
    Totals {
        tally: unpack_text::pass_over(t.tally),
        ..t
    }
}

// The totals of no frame.
#[tactic(auto, unfolding(crate::specs::Counts::no_totals, crate::specs::Counts::no_refusals))]
pub fn no_totals() -> Totals
    ensures { result ≡ no_totals }
{
    Totals {
        tally: unpack_text::no_tally(),
        refusals: Refusals::default(),
    }
}

// The number with the most frames, the lowest of several; 0 where none was refused, of which `put_common` promises a text too, so no Option.
fn commonest_of(counts: [u64; 13]) -> usize
    ensures { (result ≡ commonest counts 13) × (result < 13) }
{
    let mut best = 0;
    for i in 0..counts.len() {
        if counts[best] < counts[i] {
            best = i;
        }
    }
    best
}

// ---- totals

// Puts a refusal number, how many frames have it, and its words: of 0, and of one past 12, there are none. `Words.naming` speaks of every number, and
// the words are one text, as `put_part` of docs/CONTRACTS.md takes them.
fn put_naming(area: &mut [u8], from: usize, n: u64, m: u64) -> usize
    requires { from + 186 ≤ length area.old }
    ensures { Wrote 186 (naming n m) area.old from area.new result }
{
    let at = listing_text::put_filled(area, from, b"refused # frames #: ", &[n, m]);
    listing_text::put_part(
        area,
        at,
        b"|setting or state not valid\
          |an area is too short\
          |frame is not F octets\
          |frame check differs\
          |version is not 1100\
          |spacecraft or source-or-destination bit differs\
          |end-of-header flag is 1\
          |length field is not F - 1, spare bits not 00, or control command with bypass 0\
          |virtual channel not 63 and, with this service, not listed\
          |count length not the channel's\
          |OCF flag not the channel's\
          |map in a lane of that channel, command bit 0, and rule or UPID not that lane's, or pointer neither below Z nor FFFF",
        n as usize,
    )
}

// Puts the line of a refusal number, if it occurred.
fn put_refused(area: &mut [u8], from: usize, n: u64, m: u64) -> usize
    requires { from + 187 ≤ length area.old }
    ensures { Wrote 187 (refused_line n m) area.old from area.new result }
{
    if m == 0 {
        return from;
    }
    let at = put_naming(area, from, n, m);
    listing_text::put_octet(area, at, b'\n')
}

// Puts the lines of the refusal numbers that occurred.
fn put_refusals(area: &mut [u8], from: usize, counts: [u64; 13]) -> usize
    requires { from + 2244 ≤ length area.old }
    ensures { Wrote 2244 (refused_lines counts) area.old from area.new result }
{
    let mut at = from;
    for (i, m) in counts[1..].iter().enumerate() {
        at = put_refused(area, at, i as u64 + 1, *m);
    }
    at
}

// Puts all totals of a recording, after which a reader has this state.
pub fn put_totals(area: &mut [u8], from: usize, r: Reader, t: Totals) -> usize
    requires { (r.setting.listed ≤ 8) × (r.setting.numbered ≤ 8) × (from + 4396 ≤ length area.old) }
    ensures { Wrote 4396 (totals_text r t) area.old from area.new result }
{
    let at = unpack_text::put_places(area, from, r, t.tally);
    let at = put_refusals(area, at, t.refusals.counts);
    unpack_text::put_last(area, at, r, t.tally)
}

// ---- when little was read

// Puts the commonest refusal.
pub fn put_common(area: &mut [u8], from: usize, counts: [u64; 13]) -> usize
    requires { from + 197 ≤ length area.old }
    ensures { Wrote 197 (common_text counts) area.old from area.new result }
{
    let n = commonest_of(counts);
    let at = listing_text::put_text(area, from, b"most often ");
    put_naming(area, at, n as u64, counts[n])
}

// Puts what the first refused frame says of itself, beside the setting's spacecraft.
pub fn put_first(area: &mut [u8], from: usize, p: First, own: u16) -> usize
    requires { from + 182 ≤ length area.old }
    ensures { Wrote 182 (first_text p own) area.old from area.new result }
{
    if p.octets < 4 {
        return listing_text::put_filled(
            area,
            from,
            b"the first refused is frame #: its length is #",
            &[p.frame, p.octets as u64],
        );
    }
    let h = header::head_of(&p.front);
    let v = h.version as u64;
    let values = [
        p.frame,
        v / 8 % 2,
        v / 4 % 2,
        v / 2 % 2,
        v % 2,
        h.craft as u64,
        h.vc as u64,
        own as u64,
    ];
    listing_text::put_filled(
        area,
        from,
        b"the first refused is frame #: version ####, spacecraft #, virtual channel #; the setting's spacecraft is #",
        &values,
    )
}

// Whether a frame with this front begins with a sync marker.
#[tactic(auto, unfolding(crate::specs::Words::marked))]
pub fn is_marked(front: [u8; 7]) -> bool
    ensures { result ≡ marked front }
{
    matches!(front, [0x1A, 0xCF, 0xFC, 0x1D, ..])
}
