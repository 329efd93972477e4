// The program unpack: a setting, a recording and a prefix from the command line; the recording's frames (module `each_frame`) into outputs, which
// crate `outputs` makes, names and removes; and what it says of a recording of which little was read. Shown by runs: what no contract can follow into
// the system.
#![tactic(auto)]

ghost use Rattle.std.specs.Prelude.{◌≡◌, true, IfOk};
ghost use Rattle.io.specs.Counts.{IsPrefixLen};
ghost use Rattle.rules.specs.Settings.{setting_ok, reader_ok};
ghost use Rattle.refusals.specs.Words.{common_text, first_text};
ghost use Rattle.setting_file.specs.Files.{judged};

mod each_frame;

use each_frame::{Failure, Out, Sinks, Turn};
use files::Known;
use intake::{Source, System};
use outputs::{Kept, Plan};
use refusals::{First, Refusals, Totals};
use rules::Setting;
use setting_file::Loaded;
use std::fs::File;
use std::random::RandomSource;
use words::unpack_start::{BadPrefix, Little};
use words::{Asked, Program, Start};

// Something failed or is refused, and it is said by then.
#[derive(Clone, Copy)]
struct Said;

// A run: a setting that the rules take, the recording with its name, what names of outputs begin with, the plan of the outputs, where its octets go, what
// no output may replace, as the system knows it, and which virtual channels are left out.
#[derive(Clone, Copy)]
struct Run<'a> {
    system: &'a System,
    setting: Setting,
    from: &'a Source,
    recording: &'a [u8],
    prefix: &'a [u8],
    plan: Plan,
    sinks: Sinks,
    kept: Kept,
    without: [bool; 63],
    ghost valid: { setting_ok setting ≡ true },
}

// ---- what is said

// Says something of a file or a word.
fn say(of: &[u8], text: &[u8]) {
    console::say(b"unpack", of, text);
}

// Says what the system had against a file or a word.
fn say_failed(system: &System, of: &[u8]) {
    console::say_failed(system, b"unpack", of);
}

// Says that all is done, with so many frames.
fn say_done(count: u64) {
    console::say_count(b"unpack", b"done: ", count, b" frames");
}

// ---- when little was read

// Says which refusal is the commonest.
fn hand_common(recording: &[u8], r: Refusals, text: &[u8])
    requires { text.now ≡ common_text r.counts }
{
    say(recording, text);
}

// Says what the first refused frame says of itself.
fn hand_first(recording: &[u8], p: First, own: u16, text: &[u8])
    requires { text.now ≡ first_text p own }
{
    say(recording, text);
}

// Puts which refusal is the commonest, and says it.
fn say_common(recording: &[u8], r: Refusals) {
    let mut area = [0u8; 197];
    let end = refusals::put_common(&mut area, 0, r.counts);
    hand_common(recording, r, &area[..end]);
}

// Puts what the first refused frame says of itself, and says it.
fn say_first(recording: &[u8], p: First, own: u16) {
    let mut area = [0u8; 182];
    let end = refusals::put_first(&mut area, 0, p, own);
    hand_first(recording, p, own, &area[..end]);
}

// Says that frames begin with sync markers, where the first refused one does.
fn say_marker(recording: &[u8], p: First) {
    if refusals::is_marked(p.front) {
        say(
            recording,
            b"that frame begins with 1A CF FC 1D, a sync marker; markers are to be taken out first",
        );
    }
}

// Says what to look at, where frames were refused.
fn say_refused(recording: &[u8], r: Refusals, own: u16) {
    if let Some(p) = r.first {
        say_common(recording, r);
        say_first(recording, p, own);
        say_marker(recording, p);
    }
}

// Says that little was read.
fn say_few(few: Little, recording: &[u8]) {
    match few {
        Little::Nothing => say(
            recording,
            b"no frame was read; see whether this is its setting",
        ),
        Little::Fewer => say(
            recording,
            b"more frames were refused than read; see whether this is its setting",
        ),
    }
}

// Says that little was read, and what to look at, where it is so. A frame that was left out was the setting's: it counts as read here.
fn say_little(recording: &[u8], t: Totals, own: u16) {
    let k = t.tally.classes;
    let few = words::unpack_start::little_of(unpack_text::add(k.read, k.left), k.refused);
    if let Some(few) = few {
        say_few(few, recording);
        say_refused(recording, t.refusals, own);
    }
}

// ---- the program

impl Run<'_> {
    // Says what failed in a turn.
    fn say_failure(&self, what: Failure) -> Said {
        match what {
            Failure::NotRead => say_failed(self.system, self.recording),
            Failure::NotPrinted => say_failed(self.system, b"standard output"),
            Failure::NotWritten(i) => outputs::say_part(self.system, self.plan, self.prefix, i),
        }
        Said
    }

    // Once all outputs are written: they are put on the device, what has their names is looked at once more, and they get them.
    fn settle(&self, files: &mut [Option<File>; 10]) -> bool {
        outputs::keep_all(self.system, self.plan, files, self.prefix)
            && outputs::may_take_all(self.system, self.plan, self.prefix, self.kept)
            && outputs::give_names(self.system, self.plan, self.prefix)
    }

    // Prints the title, starts the table of units, and takes all frames.
    fn take_all(&self, files: &[Option<File>; 10]) -> Result<Turn, Said>
        ensures { IfOk result (λ u. reader_ok u.state ≡ true) }
    {
        let out = Out {
            system: self.system,
            files,
            sinks: self.sinks,
        };
        if !each_frame::print_title(self.system, self.sinks.quiet) {
            return Err(Said);
        }
        if let Err(what) = out.start_table() {
            return Err(self.say_failure(what));
        }
        let turn = each_frame::take_all(&out, self.without, self.setting, self.from);
        if let Err(what) = turn.went {
            return Err(self.say_failure(what));
        }
        Ok(turn)
    }

    // Unpacks into outputs that are open, prints the totals, settles the outputs, and says that little was read, where it is so; how many frames there were.
    fn unpack_all(&self, files: &mut [Option<File>; 10]) -> Result<u64, Said> {
        let turn = self.take_all(files)?;
        if !each_frame::print_totals(self.system, turn.state, turn.totals) || !self.settle(files) {
            return Err(Said);
        }
        say_little(self.recording, turn.totals, turn.state.setting.craft);
        Ok(turn.count)
    }

    // Unpacks into outputs that are open, and says that it is done; or removes them.
    fn work(&self, files: &mut [Option<File>; 10]) {
        match self.unpack_all(files) {
            Ok(count) => say_done(count),
            Err(Said) => outputs::remove_all(self.system, self.plan, self.prefix),
        }
    }
}

// How many frames of this length are a hundredth of so many octets; 0 where these do not stay. A number, as `console::progress::say_far` takes it:
// 0 is also what a recording of fewer than a hundred frames has, and the same is said of both.
fn hundredth_of(plain: bool, size: u64, length: usize) -> u64 {
    if plain && length != 0 {
        size / length as u64 / 100
    } else {
        0
    }
}

// Where octets go, and how far a recording goes: one that is no regular file says nothing of it.
fn sinks_of(s: Setting, recording: Option<Known>, q: Asked) -> Sinks {
    Sinks {
        hundredth: recording.map_or(0, |k| hundredth_of(files::regular(k), k.size, s.length)),
        quiet: q.first,
        table: q.second,
    }
}

// A number for the names of a run's unfinished files.
fn draw(system: &System) -> Result<u64, Said> {
    let mut drawn = [0u8; 8];
    match system.rt.fill_bytes(&mut drawn) {
        Ok(()) => Ok(octets::number(&drawn)),
        Err(e) => {
            intake::keep_failure(system, e);
            say_failed(system, b"a number for the unfinished files");
            Err(Said)
        }
    }
}

// Takes word i of the command line, which is for this: how many octets it has.
fn take_word(system: &System, i: usize, area: &mut [u8], what: &[u8]) -> Result<usize, Said>
    ensures { IfOk result (λ n. IsPrefixLen n area.new) }
{
    match console::arg(system, i, area) {
        Some(n) => Ok(n),
        None => {
            say_failed(system, what);
            Err(Said)
        }
    }
}

// Says what is wrong with a prefix.
fn say_prefix(what: BadPrefix, prefix: &[u8]) -> Said {
    match what {
        BadPrefix::Empty => say(
            b"PREFIX",
            b"is empty; expected what names of files begin with",
        ),
        BadPrefix::Folder => say(
            prefix,
            b"is a folder; expected what names of files begin with",
        ),
    }
    Said
}

// Takes the prefix from the command line, makes the outputs, where they would replace nothing that they may not, and unpacks.
fn with_recording(
    system: &System,
    s: Setting,
    q: Asked,
    from: &Source,
    recording: &[u8],
    f: Kept,
) -> Result<(), Said>
    requires { setting_ok s ≡ true }
{
    let mut prefix = io::buffer();
    let n = take_word(system, q.places[2], &mut prefix, b"PREFIX")?;
    let prefix = &prefix[..n];
    if let Err(what) = words::unpack_start::prefix_of(prefix, files::of_name(system, prefix)) {
        return Err(say_prefix(what, prefix));
    }
    let plan = Plan {
        number: draw(system)?,
        lanes: s.numbered,
        table: q.second,
    };
    if !outputs::may_take_all(system, plan, prefix, f) {
        return Err(Said);
    }
    let Some(mut files) = outputs::make_all(system, plan, prefix) else {
        return Err(Said);
    };
    let run = Run {
        system,
        setting: s,
        from,
        recording,
        prefix,
        plan,
        sinks: sinks_of(s, f.recording, q),
        kept: f,
        without: q.without,
    };
    run.work(&mut files);
    Ok(())
}

// What no output may replace: this setting and recording, standard output and standard error.
fn kept_of(system: &System, a: Option<Known>, b: Option<Known>) -> Kept {
    Kept {
        setting: a,
        recording: b,
        printed: files::of_descriptor(system, 1),
        said: files::of_descriptor(system, 2),
    }
}

// Whether neither standard output nor standard error is an input. Of standard error nothing is said: there is no place to say it.
fn outside(f: Kept) -> bool {
    if files::is_spoiled(f.said, f.setting, f.recording) {
        return false;
    }
    if files::is_spoiled(f.printed, f.setting, f.recording) {
        say(b"standard output", b"is the setting or the recording");
        return false;
    }
    true
}

// Looks at the recording, and goes on.
fn with_source(
    system: &System,
    s: Setting,
    q: Asked,
    from: &Source,
    recording: &[u8],
    a: Option<Known>,
) -> Result<(), Said>
    requires { setting_ok s ≡ true }
{
    let b = files::of_source(system, from);
    if files::same(a, b) {
        say(recording, b"is the setting; expected a recording");
        return Err(Said);
    }
    let f = kept_of(system, a, b);
    if !outside(f) {
        return Err(Said);
    }
    with_recording(system, s, q, from, recording, f)
}

// Takes the recording from the command line, opens it, and goes on.
fn with_setting(system: &System, s: Setting, q: Asked, a: Option<Known>) -> Result<(), Said>
    requires { setting_ok s ≡ true }
{
    let mut path = io::buffer();
    let n = take_word(system, q.places[1], &mut path, b"RECORDING")?;
    let path = &path[..n];
    if words::is_dash(path) {
        let input = Source::Input(system.rt.stdin());
        return with_source(system, s, q, &input, b"standard input", a);
    }
    let file = intake::open_read(system, path);
    if !intake::is_open(&file) {
        say_failed(system, path);
        return Err(Said);
    }
    with_source(system, s, q, &file, path, a)
}

// Whether standard output and standard error are open. A file that is opened would take the number of one that is closed.
fn open_ends(system: &System) -> bool {
    if files::of_descriptor(system, 2).is_none() {
        return false;
    }
    let printed = files::of_descriptor(system, 1).is_some();
    if !printed {
        say_failed(system, b"standard output");
    }
    printed
}

// A setting from standard input or from a file.
fn load_from(system: &System, path: &[u8], area: &mut [u8]) -> Loaded
    ensures { result.judged ≡ judged result.filled area.new }
{
    if words::is_dash(path) {
        let input = Source::Input(system.rt.stdin());
        return setting_file::load_open(system, b"unpack", b"standard input", &input, area);
    }
    setting_file::load(system, b"unpack", path, area)
}

// Whether the setting lists every virtual channel that is to be left out. Where it does not, says which.
fn all_listed(s: Setting, without: [bool; 63]) -> bool
    requires { setting_ok s ≡ true }
{
    match reader::choices::unlisted(without, s) {
        None => true,
        Some(v) => {
            console::say_count(
                b"unpack",
                b"--without=",
                v as u64,
                b": the setting lists no such virtual channel",
            );
            false
        }
    }
}

// Reads the setting, and goes on with one that lists what is to be left out.
fn with_words(system: &System, q: Asked) -> Result<(), Said> {
    let mut path = io::buffer();
    let n = take_word(system, q.places[0], &mut path, b"SETTING")?;
    let mut area = [0u8; 65537];
    let l = load_from(system, &path[..n], &mut area);
    let Ok(s) = l.judged else {
        return Err(Said);
    };
    if !all_listed(s, q.without) {
        return Err(Said);
    }
    with_setting(system, s, q, l.file)
}

// ---- the command line

// Says that a word is no option.
fn say_unknown(system: &System, i: usize) {
    let mut word = io::buffer();
    let n = console::arg(system, i, &mut word).unwrap_or(0);
    say(
        &word[..n],
        b"is no option; expected --totals, --units, --without=V with V from 0 to 62, --help or --version",
    );
}

// Prints how the program is called.
fn print_help(system: &System) -> bool {
    each_frame::print(
        system,
        b"unpack [--totals] [--units] [--without=V] .. SETTING RECORDING PREFIX\nReads the recording's frames and writes PREFIX.lane0 .., a lane's units each, and PREFIX.records. Prints a line a frame and totals.\n  --totals     prints the totals alone\n  --units      writes PREFIX.units.csv too, a table of the units\n  --without=V  leaves the frames of virtual channel V out; it may stand several times\n  --help       prints this\n  --version    prints which program this is\nA SETTING or a RECORDING of - is standard input. docs/PROGRAMS.md has the formats.\n",
    )
}

// Says that the program did what it was asked for in the place of unpacking, where it did.
fn say_printed(printed: bool) {
    if printed {
        say_done(0);
    }
}

// Does what the words ask for, or says why it cannot.
fn begin(system: &System, start: Start, q: Asked) {
    match start {
        Start::Help => say_printed(print_help(system)),
        Start::Version => say_printed(each_frame::print(
            system,
            b"unpack 0.6 (Khachmuren, CCSDS 732.1-B-3)\n",
        )),
        Start::Unknown(i) => say_unknown(system, i),
        Start::Usage => say(
            b"usage",
            b"unpack [--totals] [--units] [--without=V] .. SETTING RECORDING PREFIX",
        ),
        Start::Work => {
            let _ = with_words(system, q);
        }
    }
}

// Does what n words ask for, where nothing is said into a file that one of them names.
fn begin_with(system: &System, n: usize) {
    let q = console::read_words(system, Program::Unpack, n);
    if console::may_say(system, false, n, words::unpack_start::prefix_at(q)) {
        begin(system, words::unpack_start::start_of(q), q);
    }
}

// Unpacks what the command line names, or says why it cannot.
fn main(rt: HostRuntime) {
    let system = &intake::system_of(rt);
    if open_ends(system) {
        begin_with(system, console::arg_count(system));
    }
}
