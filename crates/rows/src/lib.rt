// Numbers, settings and states out of octets and into octets (docs/CALLS.md has the layout).
#![tactic(auto)]

ghost use Rattle.std.specs.Prelude.{◌≡◌, ℕ, ◌+◌, ◌*◌, ◌≤◌, ◌<◌, List, length, get_or};
ghost use Rattle.rules.specs.Areas.{laid};
ghost use Rattle.rules.specs.Settings.{no_channel, no_lane, expect_on};
ghost use Rattle.rows.specs.Rows.{word, spelled};
ghost use Rattle.rows.specs.States.{channel_in, kind_in, lane_in, channels_in, counts_in, known_in, lanes_in, slot_in, slots_in};
ghost use Rattle.rows.specs.States.{setting_in, reader_in, writer_in};
ghost use Rattle.rows.specs.States.{front_row, channel_row, no_tail, lane_row, rows, state_octets};
ghost use Rattle.rows.specs.States.{tail_of, reader_octets, writer_octets};

use rules::{Channel, Expect, Expects, Kind, Lane, Reader, Setting, Slot, Writer};
use std::array;

// The two numbers behind a lane's own in its row: of a reader what its slot says, of a writer the next frame number, and 0.
#[derive(Clone, Copy)]
pub struct Tail {
    pub first: u64,
    pub second: u64,
}

// What is kept of a lane, behind it.
impl From<Slot> for Tail {
    ghost from_gives = { λ x y. y ≡ tail_of x };

    #[tactic(auto, unfolding(crate::specs::States::tail_of))]
    fn from(x: Slot) -> Self {
        Tail {
            first: x.held as u64,
            second: x.span as u64,
        }
    }
}

// Number i of some octets.
pub fn word_in(s: &[u8], i: usize) -> u64
    requires { 8 * i + 8 ≤ length s.now }
    ensures { result ≡ word s.now i }
{
    octets::exact(&s[8 * i..8 * i + 8])
}

// ---- out of octets

// The channel of the row that begins with number i.
#[tactic(auto, unfolding(crate::specs::States::channel_in))]
fn channel_in(s: &[u8], i: usize) -> Channel
    requires { 8 * i + 64 ≤ length s.now }
    ensures { result ≡ channel_in s.now i }
{
    Channel {
        vc: (word_in(s, i) % 256) as u8,
        service: (word_in(s, i + 1) % 256) as u8,
        octets: (word_in(s, i + 2) % 256) as u8,
        ocf: word_in(s, i + 3) == 1,
    }
}

// What a lane carries, by its number.
fn kind_in(n: u64) -> Kind
    ensures { result ≡ kind_in n }
{
    if n == 0 { Kind::Packets } else { Kind::Access }
}

// The lane of the row that begins with number i.
#[tactic(auto, unfolding(crate::specs::States::lane_in))]
fn lane_in(s: &[u8], i: usize) -> Lane
    requires { 8 * i + 64 ≤ length s.now }
    ensures { result ≡ lane_in s.now i }
{
    Lane {
        channel: (word_in(s, i) % 256) as u8,
        map: (word_in(s, i + 1) % 256) as u8,
        kind: kind_in(word_in(s, i + 2)),
        longest: (word_in(s, i + 3) % 65536) as u16,
        upid: (word_in(s, i + 4) % 256) as u8,
    }
}

// The eight channels from row k on.
#[tactic(auto, unfolding(crate::specs::States::channels_in, crate::specs::States::slots))]
fn channels_in(s: &[u8], k: usize) -> [Channel; 8]
    requires { 64 * k + 512 ≤ length s.now }
    ensures { result ≡ channels_in s.now k }
{
    array::from_fn(|i| channel_in(s, 8 * (k + i)))
}

// Number 5 of each of the eight rows from row k on: the counts behind channels.
#[tactic(auto, unfolding(crate::specs::States::counts_in, crate::specs::States::slots))]
fn counts_in(s: &[u8], k: usize) -> [u64; 8]
    requires { 64 * k + 512 ≤ length s.now }
    ensures { result ≡ counts_in s.now k }
{
    array::from_fn(|i| word_in(s, 8 * (k + i) + 5))
}

// Whether each of them is expected.
#[tactic(auto, unfolding(crate::specs::States::known_in, crate::specs::States::slots))]
fn known_in(s: &[u8], k: usize) -> [bool; 8]
    requires { 64 * k + 512 ≤ length s.now }
    ensures { result ≡ known_in s.now k }
{
    array::from_fn(|i| word_in(s, 8 * (k + i) + 4) == 1)
}

// The eight lanes from row k on.
#[tactic(auto, unfolding(crate::specs::States::lanes_in, crate::specs::States::slots))]
fn lanes_in(s: &[u8], k: usize) -> [Lane; 8]
    requires { 64 * k + 512 ≤ length s.now }
    ensures { result ≡ lanes_in s.now k }
{
    array::from_fn(|i| lane_in(s, 8 * (k + i)))
}

// What is kept of the lane of the row that begins with number i.
#[tactic(auto, unfolding(crate::specs::States::slot_in))]
fn slot_in(s: &[u8], i: usize) -> Slot
    requires { 8 * i + 64 ≤ length s.now }
    ensures { result ≡ slot_in s.now i }
{
    Slot {
        held: (word_in(s, i + 5) % 65536) as u16,
        span: (word_in(s, i + 6) % 65536) as u16,
    }
}

// What is kept of the eight lanes from row k on.
#[tactic(auto, unfolding(crate::specs::States::slots_in, crate::specs::States::slots))]
fn slots_in(s: &[u8], k: usize) -> [Slot; 8]
    requires { 64 * k + 512 ≤ length s.now }
    ensures { result ≡ slots_in s.now k }
{
    array::from_fn(|i| slot_in(s, 8 * (k + i)))
}

// The setting from row k on.
#[tactic(auto, unfolding(crate::specs::States::setting_in))]
pub fn setting_in(s: &[u8], k: usize) -> Setting
    requires { 64 * k + 1088 ≤ length s.now }
    ensures { result ≡ setting_in s.now k }
{
    let i = 8 * k;
    Setting {
        length: word_in(s, i) as usize,
        craft: (word_in(s, i + 1) % 65536) as u16,
        bit: (word_in(s, i + 2) % 256) as u8,
        insert: word_in(s, i + 3) as usize,
        check: word_in(s, i + 4) == 1,
        listed: word_in(s, i + 5) as usize,
        channels: channels_in(s, k + 1),
        numbered: word_in(s, i + 6) as usize,
        lanes: lanes_in(s, k + 9),
    }
}

// The reader's state from row k on.
#[tactic(auto, unfolding(crate::specs::States::reader_in))]
pub fn reader_in(s: &[u8], k: usize) -> Reader
    requires { 64 * k + 1088 ≤ length s.now }
    ensures { result ≡ reader_in s.now k }
{
    Reader {
        setting: setting_in(s, k),
        expects: Expects {
            counts: counts_in(s, k + 1),
            known: known_in(s, k + 1),
        },
        slots: slots_in(s, k + 9),
    }
}

// The next frame numbers behind the eight lanes from row k on, where channels have their counts.
fn next_in(s: &[u8], k: usize) -> [usize; 8]
    requires { 64 * k + 512 ≤ length s.now }
    ensures { result ≡ counts_in s.now k }
{
    counts_in(s, k).map(|n| n as usize)
}

// The writer's state from row k on.
#[tactic(auto, unfolding(crate::specs::States::writer_in))]
pub fn writer_in(s: &[u8], k: usize) -> Writer
    requires { 64 * k + 1088 ≤ length s.now }
    ensures { result ≡ writer_in s.now k }
{
    Writer {
        setting: setting_in(s, k),
        counts: counts_in(s, k + 1),
        next: next_in(s, k + 9),
    }
}

// ---- into octets

// Lays a row into row k.
pub fn put_row(area: &mut [u8], k: usize, row: [u64; 8])
    requires { 64 * k + 64 ≤ length area.old }
    ensures { area.new ≡ laid area.old (64 * k) (spelled row) }
{
    for i in 0..8 {
        octets::lay_number(area, 64 * k + 8 * i, 8, row[i]);
    }
}

// The row of a setting's first numbers.
#[tactic(auto, unfolding(crate::specs::States::front_row))]
fn front_row(s: Setting) -> [u64; 8]
    ensures { result ≡ front_row s }
{
    [
        s.length as u64,
        s.craft as u64,
        s.bit as u64,
        s.insert as u64,
        u64::from(s.check),
        s.listed as u64,
        s.numbered as u64,
        0,
    ]
}

// The row of a channel slot.
#[tactic(auto, unfolding(crate::specs::States::channel_row))]
fn channel_row(c: Channel, x: Expect) -> [u64; 8]
    ensures { result ≡ channel_row c x }
{
    [
        c.vc as u64,
        c.service as u64,
        c.octets as u64,
        u64::from(c.ocf),
        u64::from(x.known),
        x.count,
        0,
        0,
    ]
}

// The row of a lane, with the two numbers behind its own.
#[tactic(auto, unfolding(crate::specs::States::lane_row))]
fn lane_row(l: Lane, x: Tail) -> [u64; 8]
    ensures { result ≡ lane_row l x }
{
    [
        l.channel as u64,
        l.map as u64,
        l.kind as u64,
        l.longest as u64,
        l.upid as u64,
        x.first,
        x.second,
        0,
    ]
}

// Lays eight rows into those from row k on.
fn put_rows<F: Fn(usize) -> [u64; 8]>(area: &mut [u8], k: usize, row: F)
    requires room { 64 * k + 512 ≤ length area.old }
    requires callable { (i : ℕ) → i < 8 → F.pre row i }
    ensures { (f : ℕ → List ℕ) → ((i : ℕ) → length (f i) ≡ 8) → ((i : ℕ) (r : List ℕ) → i < 8 → F.post row i r → r ≡ f i) → area.new ≡ laid area.old (64 * k) (rows f 8) }
{
    for i in 0..8 {
        put_row(area, k + i, row(i));
    }
}

// Lays a state into the rows from row k on.
fn put_state(area: &mut [u8], k: usize, s: Setting, x: Expects, y: [Tail; 8])
    requires { 64 * k + 1088 ≤ length area.old }
    ensures { area.new ≡ laid area.old (64 * k) (state_octets s x y) }
{
    put_row(area, k, front_row(s));
    let channel = |i: usize| -> [u64; 8]
        requires { i < 8 }
        ensures { result ≡ channel_row (get_or s.channels i no_channel) (expect_on x i) }
    { channel_row(s.channels[i], setting::expect_of(x, i)) };
    put_rows(area, k + 1, channel);
    let lane = |i: usize| -> [u64; 8]
        requires { i < 8 }
        ensures { result ≡ lane_row (get_or s.lanes i no_lane) (get_or y i no_tail) }
    { lane_row(s.lanes[i], y[i]) };
    put_rows(area, k + 9, lane);
}

// Lays a reader's state into the rows from row k on.
pub fn put_reader(area: &mut [u8], k: usize, r: Reader)
    requires { 64 * k + 1088 ≤ length area.old }
    ensures { area.new ≡ laid area.old (64 * k) (reader_octets r) }
{
    put_state(area, k, r.setting, r.expects, r.slots.map(Tail::from));
}

// Lays a writer's state into the rows from row k on.
pub fn put_writer(area: &mut [u8], k: usize, w: Writer)
    requires { 64 * k + 1088 ≤ length area.old }
    ensures { area.new ≡ laid area.old (64 * k) (writer_octets w) }
{
    let counts = w.counts;
    let expects = Expects {
        counts,
        known: [false; 8],
    };
    let tails = w.next.map(|next| Tail {
        first: next as u64,
        second: 0,
    });
    put_state(area, k, w.setting, expects, tails);
}
