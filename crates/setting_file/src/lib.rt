// A setting from a file, and in words what is wrong with one. What stands in the area after the reads is what was read; all that
// follows from it is promised (`load`), but for the words, which no contract can follow to a descriptor.
#![tactic(auto)]

ghost use Rattle.std.specs.Prelude.{◌≡◌, ◌≤◌, length, IfSome};
ghost use Rattle.setting_text.specs.Quotes.{quoted};
ghost use Rattle.setting_file.specs.Files.{text_found, judged};

use files::Known;
use intake::{Source, System};
use rules::Setting;
use setting_text::quoting::Fault;
use setting_text::{Fact, Finding, Misfit, Says, Wanted};

// Why a file gives no setting: it could not be read, it is longer than a text may be, or its text says no valid setting.
#[derive(Clone, Copy)]
pub enum Wrong {
    Unread,
    TooLong,
    Text(Finding),
}

// How many octets of a file are at the front of the area, if all reads went well; its setting, or what is wrong with it; and which file it was.
#[derive(Clone, Copy)]
pub struct Loaded {
    pub filled: Option<usize>,
    pub judged: Result<Setting, Wrong>,
    pub file: Option<Known>,
}

// Goes on with a message.
fn put(text: &[u8]) {
    io::write_all(2, text);
}

// Begins a message about a line.
fn say_place(system: &System, program: &[u8], path: &[u8], line: usize) {
    console::say_front(program, path);
    let _ = eprint!(system.rt; ": line {line}: ");
}

// Says which octets of line n were found, of which word k does not fit, or all do.
fn hand_quote(octets: &[u8], n: usize, k: Option<usize>, word: &[u8])
    requires { word.now ≡ quoted n k octets.now }
{
    put(b", found ");
    console::say_quote(word);
}

// Finds those octets, and says them.
fn put_quote(octets: &[u8], n: usize, k: Option<usize>) {
    let q = setting_text::quoting::quote_of(octets, n, k);
    hand_quote(octets, n, k, &octets[q.from..q.to]);
}

// Says what was expected.
fn put_wanted(system: &System, wanted: Wanted) {
    let _ = eprint!(system.rt; "expected {wanted}");
}

// What is said where a carriage return was meant to end a line.
const RETURN: &[u8] = b"a carriage return alone does not end a line; lines end with a line feed";

// Says what is wrong in line n.
fn put_fault(system: &System, octets: &[u8], n: usize, m: Misfit) {
    match setting_text::quoting::fault_of(octets, n, m.word) {
        Fault::Mark => put(b"begins with a byte order mark; save it as plain text"),
        Fault::Return => put(RETURN),
        Fault::End => {
            put_wanted(system, m.wanted);
            put(b", found the line's end");
        }
        Fault::Quote => {
            put_wanted(system, m.wanted);
            put_quote(octets, n, m.word);
        }
    }
}

// Says which line that is, and what is wrong in it.
fn say_line(system: &System, program: &[u8], path: &[u8], octets: &[u8], n: usize, m: Misfit) {
    say_place(system, program, path, n);
    put_fault(system, octets, n, m);
    put(b"\n");
}

// What is said of what a file never says.
fn missing(s: Says) -> &'static [u8] {
    match s {
        Says::Fact(Fact::Length) => b"the frame length is missing",
        Says::Fact(Fact::Spacecraft) => b"the spacecraft is missing",
        Says::Fact(Fact::Direction) => b"source or destination is missing",
        Says::Fact(Fact::Insert) => b"the insert zone is missing",
        Says::Fact(Fact::Check) => b"the check is missing",
        Says::Channel => b"no channel is listed",
        Says::Lane => b"no lane is given",
    }
}

// Says what the file never says, or that its first line has a carriage return that ends no line: a file without line feeds is one line.
fn say_lacking(system: &System, program: &[u8], path: &[u8], octets: &[u8], s: Says) {
    if setting_text::quoting::is_lone_line(octets, 1) {
        say_place(system, program, path, 1);
        put(RETURN);
        put(b"\n");
    } else {
        console::say(program, path, missing(s));
    }
}

// Says whose zone has no octet.
fn say_zone(system: &System, program: &[u8], path: &[u8], vc: u8, service: u8) {
    console::say_front(program, path);
    let _ = eprintln!(system.rt; ": channel {vc} service {service}: the zone has no octet");
}

// Says what is wrong with a text.
fn say_finding(system: &System, program: &[u8], path: &[u8], octets: &[u8], f: Finding) {
    match f {
        Finding::Line(n, m) => say_line(system, program, path, octets, n, m),
        Finding::Lacks(s) => say_lacking(system, program, path, octets, s),
        Finding::Zone(vc, service) => say_zone(system, program, path, vc, service),
        Finding::Other => console::say(program, path, b"no valid setting"),
    }
}

// Reads until the area is full or the file ends; how many octets it has then, if no read failed. Each read says how far it came, so no range
// or iterator goes over the area.
fn fill(system: &System, from: &Source, area: &mut [u8]) -> Option<usize>
    ensures { IfSome result (λ n. n ≤ length area.new) }
{
    let mut n = 0;
    while n < area.len() {
        let k = intake::read_once(system, from, &mut area[n..])?;
        if k == 0 {
            break;
        }
        n += k;
    }
    Some(n)
}

// The same from a file that was opened, or could not be.
fn fill_from(system: &System, from: &Source, area: &mut [u8]) -> Option<usize>
    ensures { IfSome result (λ n. n ≤ length area.new) }
{
    if intake::is_open(from) {
        fill(system, from, area)
    } else {
        None
    }
}

// The setting of a file with these octets.
fn judge_text(octets: &[u8]) -> Result<Setting, Wrong>
    ensures { result ≡ text_found octets.now }
{
    if 65536 < octets.len() {
        return Err(Wrong::TooLong);
    }
    setting_text::parse(octets).map_err(Wrong::Text)
}

// The setting of a file that was read so into the area.
fn judge(filled: Option<usize>, area: &[u8]) -> Result<Setting, Wrong>
    requires { IfSome filled (λ n. n ≤ length area.now) }
    ensures { result ≡ judged filled area.now }
{
    match filled {
        Some(n) => judge_text(&area[..n]),
        None => Err(Wrong::Unread),
    }
}

// Says what is wrong with a file that has these octets.
fn say_wrong(system: &System, program: &[u8], path: &[u8], octets: &[u8], wrong: Wrong) {
    match wrong {
        Wrong::Unread => console::say_failed(system, program, path),
        Wrong::TooLong => console::say(program, path, b"more than 65536 octets"),
        Wrong::Text(f) => say_finding(system, program, path, octets, f),
    }
}

// Reads a setting from an open file of this name, or one that could not be opened, into the area, which should have room for more octets than a
// text may have. Where there is no setting, a message of this program says why.
pub fn load_open(
    system: &System,
    program: &[u8],
    name: &[u8],
    from: &Source,
    area: &mut [u8],
) -> Loaded
    ensures { result.judged ≡ judged result.filled area.new }
{
    let filled = fill_from(system, from, area);
    let judged = judge(filled, area);
    if let Err(wrong) = judged {
        let n = filled.unwrap_or(0);
        say_wrong(system, program, name, &area[..n], wrong);
    }
    let file = files::of_source(system, from);
    Loaded {
        filled,
        judged,
        file,
    }
}

// The same from the file that a path leads to.
pub fn load(system: &System, program: &[u8], path: &[u8], area: &mut [u8]) -> Loaded
    ensures { result.judged ≡ judged result.filled area.new }
{
    let from = intake::open_read(system, path);
    let loaded = load_open(system, program, path, &from, area);
    drop(from);
    loaded
}
