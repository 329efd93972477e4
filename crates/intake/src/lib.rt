// Octets from standard input or a file into an area, behind those that it holds. That a read failed is told apart from the input's end.
//
// Proved: what the area held is as it was, and what came stands behind it. Left open: that what came is what stands in the file.
#![tactic(auto)]

ghost use Rattle.std.specs.Prelude.{◌≡◌, ◌≤◌, length, IfSome, MatchOption, IsUtf8};
ghost use Rattle.intake.specs.Windows.{Refilled};
ghost use Rattle.intake.specs.Sources.{is_something};

use std::cell::Cell;
use std::fs::File;
use std::io;
use std::io::{Read, Stdin};

// The number that the system has for a descriptor that is not open, and for octets that are no text.
const NOT_OPEN: i32 = 9;

const NO_TEXT: i32 = 84;

// The system, and the number of what it had against the call that failed last: 0 before the first, and of what has no number. That is the system's own
// number for no error, and is told as one, so as an Option it would become 0 again where it is read.
#[derive(Drop)]
pub struct System {
    pub rt: HostRuntime,
    failed: Cell<i32>,
}

// Where octets come from: standard input, an open file, or a file that could not be opened. That one is no Option around the others: what reads takes
// it too and answers for it, so each caller that has one of the others would have to wrap it.
#[derive(Drop)]
pub enum Source {
    Input(Stdin),
    Of(File),
    Nothing,
}

// What an area holds of a file: how many octets at its front, which octet of the file the first is, and whether all reads went well. Of one that did
// not `fill_up` promises the rest too, and `streams::moved` and `streams::begin` go on from it, so the flag is no Result.
#[derive(Clone, Copy)]
pub struct Window {
    pub have: usize,
    pub at: u64,
    pub good: bool,
}

// The system, before its first call.
pub fn system_of(rt: HostRuntime) -> System {
    System {
        rt,
        failed: Cell::new(0),
    }
}

// Keeps what the system had against a call.
pub fn keep_failure(system: &System, e: io::Error) {
    keep_number(system, e.raw_os_error().unwrap_or(0));
}

// Keeps a number of the system's: 0 where a call went well.
pub fn keep_number(system: &System, number: i32) {
    system.failed.set(number);
}

// What the system had against the call that failed last.
pub fn last_failure(system: &System) -> i32 {
    system.failed.get()
}

// A path as the library takes it, which is text. The system takes others too: such a one leads to no file here.
pub fn path_of<'a>(system: &System, path: &'a [u8]) -> Option<&'a str>
    ensures { MatchOption result (¬ (IsUtf8 path.now)) (λ t. (t.now ≡ path.now) × IsUtf8 path.now) }
{
    match str::from_utf8(path) {
        Ok(text) => Some(text),
        Err(_) => {
            keep_number(system, NO_TEXT);
            None
        }
    }
}

// Opens a file to read it; nothing, where that fails.
pub fn open_read(system: &System, path: &[u8]) -> Source {
    let Some(text) = path_of(system, path) else {
        return Source::Nothing;
    };
    match File::open(&system.rt, text) {
        Ok(file) => Source::Of(file),
        Err(e) => {
            keep_failure(system, e);
            Source::Nothing
        }
    }
}

// Whether there is something to read from.
pub fn is_open(from: &Source) -> bool
    ensures { result ≡ is_something from.now }
{
    match from {
        Source::Input(_) | Source::Of(_) => true,
        Source::Nothing => false,
    }
}

// One read into the whole area: how many octets came at its front, 0 at the end; none where it failed.
pub fn read_once(system: &System, from: &Source, area: &mut [u8]) -> Option<usize>
    ensures { IfSome result (λ n. n ≤ length area.new) }
{
    let got = match from {
        Source::Input(input) => {
            let mut input: &Stdin = input;
            input.read(area)
        }
        Source::Of(file) => {
            let mut file: &File = file;
            file.read(area)
        }
        Source::Nothing => Err(io::Error::from_raw_os_error(NOT_OPEN)),
    };
    match got {
        Ok(n) => Some(n),
        Err(e) => {
            keep_failure(system, e);
            None
        }
    }
}

// Reads once, behind what the area holds.
fn refill(system: &System, source: &Source, area: &mut [u8], w: Window) -> Window
    requires { w.have ≤ length area.old }
    ensures { Refilled w area.old result area.new }
{
    match read_once(system, source, &mut area[w.have..]) {
        None => Window { good: false, ..w },
        Some(came) => Window {
            have: w.have + came,
            good: true,
            ..w
        },
    }
}

// Fills the area up, to its end or the file's.
pub fn fill_up(system: &System, source: &Source, area: &mut [u8], w: Window) -> Window
    requires { w.have ≤ length area.old }
    ensures { Refilled w area.old result area.new }
{
    let mut window = w;
    while window.have < area.len() {
        let before = window.have;
        window = refill(system, source, area, window);
        if window.have == before {
            break;
        }
    }
    window
}
