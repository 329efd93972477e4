// One request, as a function of its octets and of the areas.
ghost use Rattle.std.specs.Prelude.{◌≡◌, ◌+◌, ◌≤◌, ◌<◌, min, length, replicate};
ghost use Rattle.rules.specs.Octets.{check_of};
ghost use Rattle.rules.specs.Calls.{refusal_of, class_refusal, set_up_writer, set_up_reader};
ghost use Rattle.rows.specs.Rows.{word};
ghost use Rattle.rows.specs.States.{setting_in};
ghost use Rattle.obey.specs.Requests.{cut, behind, laid_in, one, answered, sent_on, heard_on, class_number, answer_row, taken_on};
ghost use Rattle.obey.specs.Requests.{asked, sent, written, sizes_in, read_in, whole, frame_in, read_on, Left, place_number, look_row, look_on};
ghost use Rattle.obey.specs.Requests.{Means, obeyed};

use rows::{put_reader, put_row, put_writer, reader_in, setting_in, word_in, writer_in};
use rules::{Answer, Class, Listener, Looked, Reader, Refusal, Sender, Taken, Writer};

// The frame that is read: the first octets of the frame area, or the octets behind the row.
#[derive(Clone, Copy)]
pub enum Frame {
    Kept,
    Behind,
}

// What a request asks for.
#[derive(Clone, Copy)]
pub enum Asks {
    Read(Frame),
    LayHeld,
    Blank,
    LayDesk,
    SetWriter,
    SetReader,
    Write,
    Check,
    Look,
    Nothing,
}

// By number 0 of its row (docs/CALLS.md).
impl From<u64> for Asks {
    ghost from_gives = { λ n a. Means n a };

    fn from(n: u64) -> Asks {
        match n {
            0 => Asks::Read(Frame::Kept),
            1 => Asks::Read(Frame::Behind),
            2 => Asks::LayHeld,
            3 => Asks::Blank,
            4 => Asks::LayDesk,
            5 => Asks::SetWriter,
            6 => Asks::SetReader,
            7 => Asks::Write,
            8 => Asks::Check,
            9 => Asks::Look,
            _ => Asks::Nothing,
        }
    }
}

// How many octets of the held, unit and record area a read is lent.
#[derive(Clone, Copy)]
pub struct Sizes {
    pub held: usize,
    pub units: usize,
    pub records: usize,
}

// ---- octets of a request

// The lesser of two.
pub fn least(n: u64, most: usize) -> usize
    ensures { result ≡ min n most }
{
    n.min(most as u64) as usize
}

// n octets from octet `from` on, as far as there are any.
fn part(s: &[u8], from: usize, n: u64) -> &[u8]
    ensures { result.now ≡ cut s.now from n }
{
    let there = &s[from.min(s.len())..];
    &there[..least(n, there.len())]
}

// The octets behind the row.
#[tactic(auto, unfolding(crate::specs::Requests::behind))]
fn rest(q: &[u8]) -> &[u8]
    requires { 64 ≤ length q.now }
    ensures { result.now ≡ behind q.now }
{
    part(q, 64, word_in(q, 1))
}

// Lays octets into an area from octet `from` on, if they have room there.
#[tactic(auto, unfolding(crate::specs::Requests::laid_in))]
fn lay_in(area: &mut [u8], from: usize, src: &[u8])
    ensures { area.new ≡ laid_in area.old from src.now }
{
    if from <= area.len() && src.len() <= area.len() - from {
        octets::lay(area, from, src);
    }
}

// Lays the octets behind the row into an area from where the row says.
fn lay_asked(q: &[u8], area: &mut [u8])
    requires { 64 ≤ length q.now }
    ensures { area.new ≡ laid_in area.old (word q.now 2) (behind q.now) }
{
    lay_in(area, word_in(q, 2) as usize, rest(q));
}

// ---- onto the desk: an answer is a row of numbers, and 0 stands for none in it (docs/CALLS.md, which `obey` is written to)

// 0, or the refusal's number.
#[tactic(auto, unfolding(rules::specs::Calls::refusal_of))]
fn refusal_of(o: Result<(), Refusal>) -> u64
    ensures { result ≡ refusal_of o }
{
    match o {
        Ok(()) => 0,
        Err(refusal) => refusal.number() as u64,
    }
}

// A class's number.
fn class_number(c: Class) -> u64
    ensures { result ≡ class_number c }
{
    match c {
        Class::Idle => 0,
        Class::Counted => 1,
        Class::Read => 2,
        Class::Refused(_) => 3,
        Class::Repeat => 4,
    }
}

// 0, or the refusal's number.
#[tactic(auto, unfolding(rules::specs::Calls::class_refusal))]
fn class_refusal(c: Class) -> u64
    ensures { result ≡ class_refusal c }
{
    match c {
        Class::Refused(n) => u64::from(n),
        Class::Idle | Class::Counted | Class::Read | Class::Repeat => 0,
    }
}

// The row of an answer. A function: a row is an array of the library's, for which no From of another crate's type can be written.
#[tactic(auto, unfolding(crate::specs::Requests::answer_row))]
fn answer_row(a: Answer) -> [u64; 8]
    ensures { result ≡ answer_row a }
{
    [
        class_number(a.class),
        class_refusal(a.class),
        a.units as u64,
        a.octets as u64,
        a.missing,
        a.idle as u64,
        a.fill as u64,
        a.dropped as u64,
    ]
}

// The number of a place of a channel or a lane: the place and one, or 0 for none. A place past 7 is in no list, and is 0 too.
#[tactic(auto, unfolding(crate::specs::Requests::place_number))]
fn place_number(p: Option<usize>) -> u64
    ensures { result ≡ place_number p }
{
    match p {
        Some(i) if i < 8 => i as u64 + 1,
        _ => 0,
    }
}

// The row of a look's answer.
#[tactic(auto, unfolding(crate::specs::Requests::look_row))]
fn look_row(o: Looked) -> [u64; 8]
    ensures { result ≡ look_row o }
{
    [
        class_number(o.class),
        class_refusal(o.class),
        place_number(o.channel),
        place_number(o.lane),
        o.missing,
        0,
        0,
        0,
    ]
}

// Puts what a set-up of the writer, or a write, answers on the desk.
#[tactic(auto, unfolding(crate::specs::Requests::sent_on, crate::specs::Requests::answered))]
fn put_sent(desk: &mut [u8], t: Sender)
    requires { length desk.old ≡ 6440 }
    ensures { desk.new ≡ sent_on desk.old t }
{
    put_row(desk, 0, [refusal_of(t.outcome), 0, 0, 0, 0, 0, 0, 0]);
    put_writer(desk, 1, t.state);
}

// Puts what a set-up of the reader answers on the desk.
// One function with `put_sent` would need a trait for the two states, with laws of where each is laid: longer than both.
#[tactic(auto, unfolding(crate::specs::Requests::heard_on, crate::specs::Requests::answered))]
fn put_heard(desk: &mut [u8], t: Listener)
    requires { length desk.old ≡ 6440 }
    ensures { desk.new ≡ heard_on desk.old t }
{
    put_row(desk, 0, [refusal_of(t.outcome), 0, 0, 0, 0, 0, 0, 0]);
    put_reader(desk, 18, t.state);
}

// Puts what a read answers on the desk.
#[tactic(auto, unfolding(crate::specs::Requests::taken_on, crate::specs::Requests::answered))]
fn put_taken(desk: &mut [u8], t: Taken)
    requires { length desk.old ≡ 6440 }
    ensures { desk.new ≡ taken_on desk.old t }
{
    put_row(desk, 0, answer_row(t.answer));
    put_reader(desk, 18, t.state);
}

// ---- the calls

// The writer's set-up, with the setting of the writer on the desk.
fn set_writer(desk: &mut [u8])
    requires { length desk.old ≡ 6440 }
    ensures { desk.new ≡ sent_on desk.old (set_up_writer (setting_in desk.old 1)) }
{
    let t = writer::set_up(setting_in(desk, 1));
    put_sent(desk, t);
}

// The reader's set-up, with the setting of the reader on the desk.
fn set_reader(desk: &mut [u8])
    requires { length desk.old ≡ 6440 }
    ensures { desk.new ≡ heard_on desk.old (set_up_reader (setting_in desk.old 18)) }
{
    let t = reader::set_up(setting_in(desk, 18));
    put_heard(desk, t);
}

// The write that a request asks for.
fn write_asked(q: &[u8], w: Writer, area: &mut [u8]) -> Sender
    requires { 64 ≤ length q.now }
    ensures { record { sender = result; area = area.new } ≡ asked q.now w area.old }
{
    let l = word_in(q, 2) as usize;
    let batch = part(q, 336, word_in(q, 1));
    let insert = part(q, 64, word_in(q, 3));
    let ocf = part(q, 320, word_in(q, 4));
    writer::write(w, l, batch, insert, ocf, area)
}

// The same with the writer on the desk and the frame area.
fn write(q: &[u8], desk: &mut [u8])
    requires { (64 ≤ length q.now) × (length desk.old ≡ 6440) }
    ensures { desk.new ≡ written (sent q.now desk.old) desk.old }
{
    let w = writer_in(desk, 1);
    let to = 2240 + least(word_in(q, 5), 4200);
    let t = write_asked(q, w, &mut desk[2240..to]);
    put_sent(desk, t);
}

// The frame check of the octets behind the row.
#[tactic(auto, unfolding(crate::specs::Requests::answered))]
fn check(q: &[u8], desk: &mut [u8])
    requires { (64 ≤ length q.now) × (length desk.old ≡ 6440) }
    ensures { desk.new ≡ answered desk.old (one (check_of (behind q.now))) }
{
    let v = fecf::check_of(rest(q));
    put_row(desk, 0, [u64::from(v), 0, 0, 0, 0, 0, 0, 0]);
}

// A look at the octets behind the row, by the reader on the desk.
fn look(q: &[u8], desk: &mut [u8])
    requires { (64 ≤ length q.now) × (length desk.old ≡ 6440) }
    ensures { desk.new ≡ look_on q.now desk.old }
{
    let o = reader::look(reader_in(desk, 18), rest(q));
    put_row(desk, 0, look_row(o));
}

// How much of areas that are so long a read is lent.
#[tactic(auto, unfolding(crate::specs::Requests::sizes_in))]
fn sizes_in(q: &[u8], held: usize, units: usize, records: usize) -> Sizes
    requires { 64 ≤ length q.now }
    ensures { result ≡ sizes_in q.now held units records }
{
    Sizes {
        held: least(word_in(q, 4), held),
        units: least(word_in(q, 2), units),
        records: least(word_in(q, 3), records),
    }
}

// The frame to be read.
#[tactic(auto, unfolding(crate::specs::Requests::frame_in))]
fn frame_in<'a>(which: Frame, q: &'a [u8], desk: &'a [u8]) -> &'a [u8]
    requires { (64 ≤ length q.now) × Means (word q.now 0) (Asks.Read which) }
    ensures { result.now ≡ frame_in q.now desk.now }
{
    match which {
        Frame::Kept => part(desk, 2240, word_in(q, 5)),
        Frame::Behind => rest(q),
    }
}

// A read that is lent so much of the areas.
fn read_in(
    z: Sizes,
    r: Reader,
    frame: &[u8],
    held: &mut [u8],
    units: &mut [u8],
    records: &mut [u8],
) -> Taken
    requires { (z.held ≤ length held.old) × (z.units ≤ length units.old) × (z.records ≤ length records.old) }
    ensures { record { taken = result; held_area = held.new; unit_area = units.new; record_area = records.new } ≡ whole z (read_in z r frame.now held.old units.old records.old) held.old units.old records.old }
{
    reader::take(
        r,
        frame,
        &mut held[..z.held],
        &mut units[..z.units],
        &mut records[..z.records],
    )
}

// A read by the reader on the desk.
fn read(
    which: Frame,
    q: &[u8],
    desk: &mut [u8],
    held: &mut [u8],
    units: &mut [u8],
    records: &mut [u8],
)
    requires { (64 ≤ length q.now) × (length desk.old ≡ 6440) × Means (word q.now 0) (Asks.Read which) }
    ensures { Left (read_on q.now desk.old held.old units.old records.old) desk.old desk.new held.new units.new records.new }
{
    let r = reader_in(desk, 18);
    let z = sizes_in(q, held.len(), units.len(), records.len());
    let frame = frame_in(which, q, desk);
    let t = read_in(z, r, frame, held, units, records);
    put_taken(desk, t);
}

// ---- requests

// Makes every octet of three areas 55.
fn blank_all(held: &mut [u8], units: &mut [u8], records: &mut [u8])
    ensures { (held.new ≡ replicate (length held.old) 0x55) × (units.new ≡ replicate (length units.old) 0x55) × (records.new ≡ replicate (length records.old) 0x55) }
{
    octets::fill(held, 0x55);
    octets::fill(units, 0x55);
    octets::fill(records, 0x55);
}

// Obeys a request. The areas are handed in one by one: what `obey` promises is of areas of any length, and asks that of the desk alone.
pub fn obey(q: &[u8], desk: &mut [u8], held: &mut [u8], units: &mut [u8], records: &mut [u8])
    requires { (64 ≤ length q.now) × (length desk.old ≡ 6440) }
    ensures { record { desk = desk.exit.now; held = held.new; units = units.new; records = records.new } ≡ obeyed q.now (record { desk = desk.entry.now; held = held.old; units = units.old; records = records.old }) }
{
    match Asks::from(word_in(q, 0)) {
        Asks::Read(which) => read(which, q, desk, held, units, records),
        Asks::LayHeld => lay_asked(q, held),
        Asks::Blank => blank_all(held, units, records),
        Asks::LayDesk => lay_asked(q, desk),
        Asks::SetWriter => set_writer(desk),
        Asks::SetReader => set_reader(desk),
        Asks::Write => write(q, desk),
        Asks::Check => check(q, desk),
        Asks::Look => look(q, desk),
        Asks::Nothing => {}
    }
}
