// Frame by frame: which file's turn it is, the next frame of its batch, and what its windows then hold.
//
// What the system reads stands in the contracts as what the windows then hold; all else is determined by it, unless a write to standard output
// fails. Proved: a frame that is handed to standard output is the rules' write of the batch at the front of the file's window (`hand`); that
// batch is the next of what the windows hold (`streams::begin`), it is lent until the lane's number returns to 0, and the window then holds the
// octets after it (`turn`); a file's turn uses the windows of that file and leaves the others (`turn_at`).
#![tactic(auto)]

ghost use Rattle.std.specs.Prelude.{◌≡◌, ◌<◌, length};
ghost use Rattle.rules.specs.Settings.{number};
ghost use Rattle.streams.specs.Streams.{Kept};
ghost use Rattle.turns.specs.Courses.{ended, Sent, FrameOf, SentNext, CourseOn, goes_on, counted};
ghost use Rattle.turns.specs.Turns.{worked, Over, Worked, Turned, ReadOn, ReadTurn, after_turn, Taken, TakenAt};

use intake::{System, Window};
use rules::Writer;
use streams::{Fault, Form, Stream};

// ---- frames

// What goes from frame to frame: the writer's state, how many frames are written, how many octets stand in batches that are worked off, and what
// went wrong.
#[derive(Clone, Copy)]
pub struct Course {
    pub state: Writer,
    pub frames: u64,
    pub octets: u64,
    pub fault: Option<Fault>,
}

// The same course, ended so.
pub fn end_with(c: Course, fault: Option<Fault>) -> Course
    ensures { result ≡ ended c fault }
{
    Course { fault, ..c }
}

// The state's number of lane l's next frame, 0 where there is no such lane.
fn next_number(w: Writer, l: usize) -> usize
    ensures { result ≡ number w l }
{
    w.next.get(l).copied().unwrap_or(0)
}

// Whether more frames of lane l's batch follow.
#[tactic(auto, unfolding(crate::specs::Courses::goes_on))]
fn goes_on(c: Course, l: usize) -> bool
    ensures { result ≡ goes_on c l }
{
    c.fault.is_none() && next_number(c.state, l) != 0
}

// The same course, with a batch of n octets more that is worked off.
#[tactic(auto, unfolding(crate::specs::Courses::counted))]
fn count_batch(c: Course, n: usize) -> Course
    ensures { result ≡ counted c n }
{
    Course {
        octets: streams::past(c.octets, n),
        ..c
    }
}

// ---- turns

// A turn: the course and the file after it, and whether there may be more. The file is promised after its last turn too (`Turns.Over`), so it is no Option.
#[derive(Clone, Copy)]
struct Step {
    course: Course,
    stream: Stream,
    more: bool,
}

// The file after its batch, whose window held so many octets.
#[tactic(auto, unfolding(crate::specs::Turns::worked))]
fn work_off(s: Stream, have: usize) -> Stream
    ensures { result ≡ worked s have }
{
    Stream {
        window: streams::moved(s.window, have, s.batch),
        batch: 0,
        ..s
    }
}

// Ends a batch: what is behind it is moved to the front of the window.
fn end_batch(d: Course, s: Stream, area: &mut [u8]) -> Step
    ensures { Over d s area.old result area.new }
{
    let have = streams::within(s.window.have, area);
    streams::file_batches::shift(&mut area[..have], s.batch);
    Step {
        course: count_batch(d, s.batch),
        stream: work_off(s, have),
        more: d.fault.is_none(),
    }
}

// ---- sources

// A file that is open: on its way into batches; how many octets of the names' area are its name and its list's; how many OCF octets its frames
// have; and whether there may be more. One that is at its end is promised to stay as it is (`Turns.Taken`), so that is no Option.
#[derive(Clone, Copy)]
pub struct Source {
    pub stream: Stream,
    pub name: usize,
    pub list_name: usize,
    pub ocf: usize,
    pub more: bool,
}

// What a file's octets and its list's are read from; nothing for a list where there is none.
#[derive(Drop)]
pub struct Inputs {
    pub file: intake::Source,
    pub list: intake::Source,
}

// How many octets of a file its window may hold: a unit's file is read one octet past the longest unit, so that more is seen.
fn room_of(s: Stream) -> usize {
    match s.form {
        Form::Packets => 65536,
        Form::Unit | Form::Units => s.longest.saturating_add(1).min(rules::BATCH_SIZE),
    }
}

// Fills the window on a list up, if there is one.
fn read_list(system: &System, from: &intake::Source, l: Window, list: &mut [u8]) -> Window
    ensures { Kept l list.old result list.new }
{
    if intake::is_open(from) {
        streams::fill(system, from, l, list, 256)
    } else {
        l
    }
}

// Reads on where no batch is being worked off.
fn read_on(system: &System, inputs: &Inputs, x: Source, area: &mut [u8], list: &mut [u8]) -> Stream
    ensures { ReadOn x.stream area.old list.old result area.new list.new }
{
    let s = x.stream;
    if s.batch != 0 {
        return s;
    }
    Stream {
        window: streams::fill(system, &inputs.file, s.window, area, room_of(s)),
        list: read_list(system, &inputs.list, s.list, list),
        ..s
    }
}

// A file's turn and the file after it.
#[derive(Clone, Copy)]
pub struct Move {
    pub course: Course,
    pub source: Source,
}

// The same file after a turn.
#[tactic(auto, unfolding(crate::specs::Turns::after_turn))]
fn after_turn(x: Source, t: Step) -> Move
    ensures { result ≡ after_turn x t }
{
    Move {
        course: t.course,
        source: Source {
            stream: t.stream,
            more: t.more,
            ..x
        },
    }
}

// ---- a pass

// What each turn of a pass is handed beside its file: the system, whether frames are written, and the insert and OCF octets of each frame.
#[derive(Clone, Copy)]
pub struct Frames<'a> {
    pub system: &'a System,
    pub writing: bool,
    pub insert: &'a [u8],
    pub ocf: &'a [u8],
}

impl Frames<'_> {
    // Hands a frame to standard output: the one that the rules write next of a batch.
    fn hand(&self, w: Writer, l: usize, batch: &[u8], frame: &[u8]) -> Option<Fault>
        requires { FrameOf w l batch.now self.now.insert.now self.now.ocf.now frame.now }
        ensures { Sent result }
    {
        if console::write_out(self.system, frame) {
            None
        } else {
            Some(Fault::NotSent)
        }
    }

    // Writes the next frame of a batch, and hands it on.
    fn send_next(&self, c: Course, l: usize, batch: &[u8]) -> Course
        ensures { SentNext c l batch.now self.now.insert.now self.now.ocf.now result }
    {
        let w = c.state;
        let mut area = [0u8; 4096];
        let t = writer::write(w, l, batch, self.insert, self.ocf, &mut area);
        let after = Course {
            state: t.state,
            ..c
        };
        match t.outcome {
            Ok(()) => {
                let end = streams::within(w.setting.length, &area);
                let fault = self.hand(w, l, batch, &area[..end]);
                Course {
                    frames: c.frames.saturating_add(1),
                    fault,
                    ..after
                }
            }
            Err(refusal) => Course {
                fault: Some(Fault::Refused(refusal.number())),
                ..after
            },
        }
    }

    // How a batch goes on: a frame of it where frames are written, and passed over in the first pass.
    #[tactic(auto, unfolding(crate::specs::Courses::CourseOn))]
    fn course_on(&self, c: Course, l: usize, batch: &[u8]) -> Course
        ensures { CourseOn self.now.writing c l batch.now self.now.insert.now self.now.ocf.now result }
    {
        if self.writing {
            self.send_next(c, l, batch)
        } else {
            c
        }
    }

    // Takes the next frame of the batch at the front of a file's window; after its last frame the window holds what is behind it.
    fn work(&self, c: Course, s: Stream, area: &mut [u8]) -> Step
        ensures { Worked self.now.writing c s self.now.insert.now self.now.ocf.now area.old result area.new }
    {
        let n = streams::within(s.batch, area);
        let d = self.course_on(c, s.lane, &area[..n]);
        if goes_on(d, s.lane) {
            Step {
                course: d,
                stream: s,
                more: true,
            }
        } else {
            end_batch(d, s, area)
        }
    }

    // A file's turn, with what its windows hold: where no batch is being worked off, its next one begins.
    fn turn(&self, c: Course, s: Stream, area: &mut [u8], list: &mut [u8]) -> Step
        ensures { Turned self.now.writing c s self.now.insert.now self.now.ocf.now area.old list.old result area.new list.new }
    {
        if s.batch != 0 {
            return self.work(c, s, area);
        }
        let have = streams::within(s.window.have, area);
        let begun = streams::begin(s, &area[..have], list);
        let stream = begun.stream;
        if stream.batch == 0 {
            Step {
                course: end_with(c, begun.fault),
                stream,
                more: false,
            }
        } else {
            self.work(c, stream, area)
        }
    }

    // A file's turn in its own windows: it reads on, and takes a frame with as many OCF octets as its channel has.
    fn read_turn(
        &self,
        inputs: &Inputs,
        c: Course,
        x: Source,
        area: &mut [u8],
        list: &mut [u8],
    ) -> Step
        ensures { ReadTurn self.now.writing c x self.now.insert.now self.now.ocf.now area.old list.old result area.new list.new }
    {
        let s = read_on(self.system, inputs, x, area, list);
        let n = streams::within(x.ocf, self.ocf);
        let own = Frames {
            ocf: &self.ocf[..n],
            ..*self
        };
        own.turn(c, s, area, list)
    }

    // The same, unless the file is at its end: then it takes none.
    fn take_turn(
        &self,
        inputs: &Inputs,
        c: Course,
        x: Source,
        area: &mut [u8],
        list: &mut [u8],
    ) -> Move
        ensures { Taken self.now.writing c x self.now.insert.now self.now.ocf.now area.old list.old result area.new list.new }
    {
        if x.more {
            let step = self.read_turn(inputs, c, x, area, list);
            after_turn(x, step)
        } else {
            Move {
                course: c,
                source: x,
            }
        }
    }

    // The turn of file k, whose windows are the k-th parts of these areas. Two areas, and no array of windows: `Turns.TakenAt` says of all their octets
    // which ones stay.
    pub fn turn_at(
        &self,
        inputs: &Inputs,
        k: usize,
        c: Course,
        x: Source,
        areas: &mut [u8],
        lists: &mut [u8],
    ) -> Move
        requires { (k < 8) × (length areas.old ≡ 524288) × (length lists.old ≡ 2048) }
        ensures { TakenAt k self.now.writing c x self.now.insert.now self.now.ocf.now areas.old lists.old result areas.new lists.new }
    {
        let from = 65536 * k;
        let list_from = 256 * k;
        self.take_turn(
            inputs,
            c,
            x,
            &mut areas[from..from + 65536],
            &mut lists[list_from..list_from + 256],
        )
    }
}
