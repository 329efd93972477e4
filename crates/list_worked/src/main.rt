// The listing program: frames of the worked setting from standard input, a line for each to standard output.
//
// Proved: the octets handed over for printing of frame k are the title, before the first line alone, and the rules' `line` of the
// answer that the rules' `read` gives, and none are where there is no frame (`list_frame`, `list_next`, `print`). Before each
// frame, the state and the areas are those from which the rules' `listing` of the worked setting goes on after as many whole
// frames, whatever follows (`Reached`), from its beginning on. Shown by runs: that the frames are those of standard input
// and that what is handed over is printed, for no contract can speak of what a call of the system reads or writes; and that a
// short last frame, or the input's end, ends the run. The stored run is of document 01's frames 0, 1 and 1: what it must print is what
// document 01 prints, at the end of "Worked frames".
#![tactic(auto)]

ghost use Rattle.std.specs.Prelude.{◌≡◌, ◌+◌, ◌≤◌, ◌<◌, None, length};
ghost use Rattle.std.specs.ControlFlow.{ForContinue, MatchControlFlow};
ghost use Rattle.rules.specs.Worked.{worked, packet_lane};
ghost use Rattle.rules.specs.Calls.{read};
ghost use Rattle.listing_text.specs.Puts.{Put};
ghost use Rattle.list_worked.specs.Runs.{opening, printed, Listed, Reached};

use intake::{Source, System, Window};
use rules::{Answer, Channel, Kind, Lane, Reader, Setting, Taken};
use std::ops::ControlFlow;

// The areas that the reader is lent.
#[derive(Drop)]
struct Areas<'a> {
    held: &'a mut [u8],
    units: &'a mut [u8],
    records: &'a mut [u8],
}

// What a frame's read answers, and where its text ends.
#[derive(Clone, Copy)]
struct Printed {
    taken: Taken,
    end: usize,
}

// What follows a turn: the state for the next one, or after how many frames the listing ends, and none where something failed, which is said by then.
type Turn = ControlFlow<Option<u64>, Reader>;

// The worked setting with its packet lane.
#[tactic(auto, unfolding(rules::specs::Worked::worked))]
fn worked_setting() -> Setting
    ensures { result ≡ worked packet_lane }
{
    let mut channels = [setting::no_channel(); 8];
    channels[0] = Channel {
        vc: 3,
        service: 0,
        octets: 1,
        ocf: false,
    };
    let mut lanes = [setting::no_lane(); 8];
    lanes[0] = Lane {
        channel: 0,
        map: 5,
        kind: Kind::Packets,
        longest: 64,
        upid: 0,
    };
    Setting {
        length: 32,
        craft: 42,
        bit: 0,
        insert: 0,
        check: false,
        listed: 1,
        channels,
        numbered: 1,
        lanes,
    }
}

// Puts what is printed before line k: the title before the first, else nothing.
#[tactic(auto, unfolding(crate::specs::Runs::opening))]
fn put_opening(area: &mut [u8], k: u64) -> usize
    requires { 27 ≤ length area.old }
    ensures { Put (opening k) area.old 0 area.new result }
{
    if k == 0 {
        listing_text::put_title(area, 0)
    } else {
        0
    }
}

// Looks at frame k and takes it, with no virtual channel left out, and puts what is printed for it into `area`. An empty input has no frame.
fn list_frame(k: u64, r: Reader, frame: &[u8], areas: &mut Areas, area: &mut [u8]) -> Printed
    requires { (1 ≤ length frame.now) × (98 ≤ length area.old) }
    ensures { Listed k (read r frame.now areas.old.held.now areas.old.units.now areas.old.records.now) area.old result.taken.answer result.taken.state areas.new.held.now areas.new.units.now areas.new.records.now area.new result.end }
{
    let p = reader::pass(
        [false; 63],
        r,
        frame,
        areas.held,
        areas.units,
        areas.records,
    );
    let taken = p.taken;
    let at = put_opening(area, k);
    let end = listing_text::put_line(area, at, k, taken.answer);
    Printed { taken, end }
}

// Prints what is printed for frame k, of this answer; whether standard output took it all.
fn print(system: &System, k: u64, a: Answer, text: &[u8]) -> bool
    requires { text.now ≡ printed k a }
{
    console::write_out(system, text)
}

// Says what the system had against standard input or output, and ends the listing, of which it is not said that it is done.
fn failed(system: &System, about: &[u8]) -> Turn
    ensures { MatchControlFlow result (λ r. ⊥) (λ listed. listed ≡ None) }
{
    console::say_failed(system, b"list_worked", about);
    ControlFlow::Break(None)
}

// Lists frame k, which has these octets. After a whole frame the listing goes on from what is handed back.
fn list_came(system: &System, k: u64, r: Reader, frame: &[u8], areas: &mut Areas) -> Turn
    requires { Reached k r areas.old.held.now areas.old.units.now areas.old.records.now × (k < 18446744073709551615) × (1 ≤ length frame.now) }
    ensures { ForContinue result (λ s. Reached (k + 1) s areas.new.held.now areas.new.units.now areas.new.records.now) }
{
    let mut area = [0u8; 98];
    let p = list_frame(k, r, frame, areas, &mut area);
    let taken = p.taken;
    if !print(system, k, taken.answer, &area[..p.end]) {
        return failed(system, b"standard output");
    }
    if frame.len() == 32 {
        ControlFlow::Continue(taken.state)
    } else {
        ControlFlow::Break(Some(k + 1))
    }
}

// Reads and lists frame k, if there is one.
fn list_next(system: &System, input: &Source, k: u64, r: Reader, areas: &mut Areas) -> Turn
    requires { Reached k r areas.old.held.now areas.old.units.now areas.old.records.now × (k < 18446744073709551615) }
    ensures { ForContinue result (λ s. Reached (k + 1) s areas.new.held.now areas.new.units.now areas.new.records.now) }
{
    let mut frame = [0u8; 32];
    let none = Window {
        have: 0,
        at: 0,
        good: true,
    };
    let w = intake::fill_up(system, input, &mut frame, none);
    if !w.good {
        return failed(system, b"standard input");
    }
    if w.have == 0 {
        return ControlFlow::Break(Some(k));
    }
    list_came(system, k, r, &frame[..w.have], areas)
}

// Says how many frames are listed, where all went well.
fn say_end(listed: Option<u64>) {
    if let Some(frames) = listed {
        console::say_count(b"list_worked", b"done: ", frames, b" frames");
    }
}

// Lists standard input to its end. A proved loop has to end: this one counts its frames, to a number that no run reaches.
fn list_all(system: &System) {
    let input = Source::Input(system.rt.stdin());
    let mut held = [0u8; rules::HELD_SIZE];
    let mut units = [0u8; rules::UNITS_SIZE];
    let mut records = [0u8; rules::RECORDS_SIZE];
    let mut areas = Areas {
        held: &mut held,
        units: &mut units,
        records: &mut records,
    };
    let mut state = reader::set_up(worked_setting()).state;
    for k in 0..u64::MAX {
        match list_next(system, &input, k, state, &mut areas) {
            ControlFlow::Continue(after) => state = after,
            ControlFlow::Break(listed) => {
                say_end(listed);
                break;
            }
        }
    }
}

// The program. What it prints and says goes into no input; the listing and what is said may stand in one file.
fn main(rt: HostRuntime) {
    let system = intake::system_of(rt);
    if console::may_print(&system, b"list_worked", false) {
        list_all(&system);
    }
}
