// A lane's file on its way into batches: what the next batch is, of the octets that the windows on the file and on its list of lengths hold, or
// what is wrong where there is none.
#![tactic(auto)]

pub mod file_batches;
pub mod lengths;

ghost use Rattle.std.specs.Prelude.{◌≡◌, take};
ghost use Rattle.io.specs.Counts.{IsPrefixLen};
ghost use Rattle.streams.specs.Streams.{sound, past as past_of, moved as movedOf, next_packets, next_unit, of_length, next_listed, next_of, Began, Kept};

use file_batches::Wrong;
use intake::{Source, System, Window};
use lengths::NoNumber;

// ---- what may go wrong

// What ends the program early: a file or a list that cannot be read; what is wrong with the packet at an octet of a file; a unit that is empty,
// above the lane's longest, or cut by the file's end; octets after the last unit; a word of a list that is no length; a batch that the writer
// refused; standard output.
#[derive(Clone, Copy)]
pub enum Fault {
    NotRead,
    NotListed,
    Packet(u64, Wrong),
    NoUnit,
    LongUnit,
    CutUnit(u64),
    Left(u64),
    NoLength(u64),
    // A number, and no `rules::Refusal`: `is_sound` and `turns::end_with` take any.
    Refused(u8),
    NotSent,
}

// Whether nothing went wrong. It is the library's `is_none`, by the name that docs/CONTRACTS.md promises.
pub fn is_sound(fault: Option<Fault>) -> bool
    ensures { result ≡ sound fault }
{
    fault.is_none()
}

// ---- windows

// As many octets at the front of an area as asked for, or all of them.
pub fn within(n: usize, area: &[u8]) -> usize
    ensures prefix_len { IsPrefixLen result area.now }
    ensures area_value { take result area.now ≡ take n area.now }
{
    n.min(area.len())
}

// The octet n after this one, of a file that no run brings to its end.
#[tactic(auto, unfolding(crate::specs::Streams::past))]
pub fn past(at: u64, n: usize) -> u64
    ensures { result ≡ past_of at n }
{
    at.saturating_add(n as u64)
}

// The window after n of the octets that it holds, which are `have`.
#[tactic(auto, unfolding(crate::specs::Streams::moved))]
pub fn moved(w: Window, have: usize, n: usize) -> Window
    ensures { result ≡ movedOf w have n }
{
    Window {
        have: have.saturating_sub(n),
        at: past(w.at, n),
        ..w
    }
}

// Fills a window up, to so many octets or the file's end.
pub fn fill(system: &System, source: &Source, w: Window, area: &mut [u8], room: usize) -> Window
    ensures { Kept w area.old result area.new }
{
    let end = within(room, area);
    if end < w.have {
        w
    } else {
        intake::fill_up(system, source, &mut area[..end], w)
    }
}

// ---- the next batch

// What a file has: packets, one unit, or the units of a list.
#[derive(Clone, Copy)]
pub enum Form {
    Packets,
    Unit,
    Units,
}

// A lane's file: what the window on it and the one on its list hold; how many octets at the front are the batch that is being worked off, 0
// for none; the lane, its longest unit, and what the file has.
#[derive(Clone, Copy)]
pub struct Stream {
    pub window: Window,
    pub list: Window,
    // A count, and no Option: a batch of no octets would be a second way to say that there is none.
    pub batch: usize,
    pub lane: usize,
    pub longest: usize,
    pub form: Form,
}

// A batch: its octets, and how many octets of the list it takes. The default is none of either.
#[derive(Clone, Copy, Default)]
struct Batch {
    octets: usize,
    used: usize,
}

// The next batch of a packet lane's file, which goes on with these octets at octet `at`.
#[tactic(auto, unfolding(crate::specs::Streams::next_packets, crate::specs::Streams::wrong_fault))]
fn next_packets(at: u64, longest: usize, octets: &[u8]) -> Result<Option<Batch>, Fault>
    ensures { result ≡ next_packets at longest octets.now }
{
    let n = file_batches::gather(octets, longest);
    if n != 0 {
        return Ok(Some(Batch { octets: n, used: 0 }));
    }
    match file_batches::wrong_at(octets, longest) {
        Some(wrong) => Err(Fault::Packet(at, wrong)),
        None => Ok(None),
    }
}

// The next batch of an access lane's file that is one unit.
#[tactic(auto, unfolding(crate::specs::Streams::next_unit))]
fn next_unit(at: u64, longest: usize, octets: &[u8]) -> Result<Option<Batch>, Fault>
    ensures { result ≡ next_unit at longest octets.now }
{
    let n = octets.len();
    if at != 0 {
        Ok(None)
    } else if n == 0 {
        Err(Fault::NoUnit)
    } else if longest < n {
        Err(Fault::LongUnit)
    } else {
        Ok(Some(Batch { octets: n, used: 0 }))
    }
}

// The next batch where the list says that it has n octets: at octet `place` of the list, with so many octets of it, for a file that has
// `have` more at octet `at`.
#[tactic(auto, unfolding(crate::specs::Streams::of_length))]
fn of_length(
    n: usize,
    used: usize,
    place: u64,
    at: u64,
    longest: usize,
    have: usize,
) -> Result<Option<Batch>, Fault>
    ensures { result ≡ of_length n used place at longest have }
{
    if n == 0 || longest < n {
        Err(Fault::NoLength(place))
    } else if have < n {
        Err(Fault::CutUnit(at))
    } else {
        Ok(Some(Batch { octets: n, used }))
    }
}

// The next batch of an access lane's file with a list, which goes on with these octets.
#[tactic(auto, unfolding(crate::specs::Streams::next_listed, crate::specs::Streams::by_length))]
fn next_listed(
    at: u64,
    place: u64,
    longest: usize,
    octets: &[u8],
    list: &[u8],
) -> Result<Option<Batch>, Fault>
    ensures { result ≡ next_listed at place longest octets.now list.now }
{
    let listed = lengths::next_of(list);
    let here = past(place, listed.blanks);
    match listed.length {
        Ok(Some(n)) => of_length(n, listed.used, here, at, longest, octets.len()),
        Ok(None) if octets.is_empty() => Ok(None),
        Ok(None) => Err(Fault::Left(at)),
        Err(NoNumber) => Err(Fault::NoLength(here)),
    }
}

// The next batch of a file, of these octets in its window and in the one on its list.
#[tactic(auto, unfolding(crate::specs::Streams::next_of, crate::specs::Streams::by_form))]
fn next_of(s: Stream, octets: &[u8], list: &[u8]) -> Result<Option<Batch>, Fault>
    ensures { result ≡ next_of s octets.now list.now }
{
    if !s.window.good {
        return Err(Fault::NotRead);
    }
    if !s.list.good {
        return Err(Fault::NotListed);
    }
    let at = s.window.at;
    match s.form {
        Form::Packets => next_packets(at, s.longest, octets),
        Form::Unit => next_unit(at, s.longest, octets),
        Form::Units => next_listed(at, s.list.at, s.longest, octets, list),
    }
}

// A file whose next batch is at the front of its window; or none is, and what is wrong, if anything is. No Result: `Began` promises the file's windows where
// something is wrong too.
#[derive(Clone, Copy)]
pub struct Begun {
    pub stream: Stream,
    pub fault: Option<Fault>,
}

// Finds the next batch of a file, and moves the window on its list past the batch's length.
pub fn begin(s: Stream, octets: &[u8], list: &mut [u8]) -> Begun
    ensures { Began s octets.now list.old result list.new }
{
    let have = within(s.list.have, list);
    let next = next_of(s, octets, &list[..have]);
    let batch = next.unwrap_or(None).unwrap_or_default();
    file_batches::shift(&mut list[..have], batch.used);
    let stream = Stream {
        list: moved(s.list, have, batch.used),
        batch: batch.octets,
        ..s
    };
    Begun {
        stream,
        fault: next.err(),
    }
}
