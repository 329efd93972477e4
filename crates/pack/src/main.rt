// The program pack: frames of the batches that files hold, to standard output.
//
// `words::pack_start` has what its words come to, crate `streams` what the next batch of a file is or what is wrong with it, and crate `turns` what
// a turn of a file writes and leaves. Here files are opened and closed, the turns are dealt out, and what went wrong is said: what no contract
// can follow into the system is shown by runs. The stored run is document 01's batch of worked frame 2, on its setting.
#![tactic(auto)]

ghost use Rattle.std.specs.Prelude.{◌≡◌, ◌<◌, is_some};
ghost use Rattle.rules.specs.Settings.{lane, channel, ocf_octets};
ghost use Rattle.pack.specs.Rounds.{form_of, next_place, any_more, has_next, next_turn, place_after, Stepped, Rounded, Passed};
ghost use Rattle.pack.specs.Sources.{fresh_window, look_way, is_access, is_units};

use files::Known;
use intake::{System, Window};
use rules::{Kind, Lane, Setting};
use setting_file::Loaded;
use std::array;
use streams::file_batches::Wrong;
use streams::{Fault, Form, Stream};
use turns::{Course, Frames, Inputs, Move, Source};
use words::pack_start::{Bad, Named, Objection, Plan};
use words::{Asked, Program, Start};

// ---- what is said

// A line to standard error: about what, and what is wrong there.
fn say(about: &[u8], what: &[u8]) {
    console::say(b"pack", about, what);
}

// A line to standard error that ends in the system's word for the call that failed last.
fn say_failed(system: &System, about: &[u8]) {
    console::say_failed(system, b"pack", about);
}

// Says that the program is done, after so many frames.
fn say_done(frames: u64) {
    console::say_count(b"pack", b"done: ", frames, b" frames");
}

// Says how many octets a file should have.
fn say_expected(system: &System, path: &[u8], n: usize) {
    console::say_front(b"pack", path);
    let _ = eprintln!(system.rt; ": expected exactly {n} octets");
}

// Says that a packet is too long.
fn say_long(system: &System, path: &[u8], at: u64, n: usize) {
    console::say_front(b"pack", path);
    let _ = eprintln!(system.rt; ": octet {at}: a packet of {n} octets, above the lane's longest");
}

// Says something of an octet of a file.
fn say_octet(path: &[u8], at: u64, what: &[u8]) {
    console::say_at(b"pack", path, b"octet", at, what);
}

// Says what is wrong with the packet at octet `at` of a file.
fn say_wrong(system: &System, path: &[u8], at: u64, w: Wrong) {
    match w {
        Wrong::NoPacket => say_octet(
            path,
            at,
            b"neither a Space Packet nor an encapsulation packet",
        ),
        Wrong::Idle => say_octet(path, at, b"an idle packet"),
        Wrong::Long(n) => say_long(system, path, at, n),
        Wrong::Cut => say_octet(path, at, b"a packet that the file's end cuts"),
    }
}

// Says that the writer refused a batch.
fn say_refused(system: &System, path: &[u8], n: u8) {
    console::say_front(b"pack", path);
    let _ = eprintln!(system.rt; ": a batch was refused {n}");
}

// Says what went wrong with a file of this name, or with its list of that name.
fn say_fault(system: &System, path: &[u8], list: &[u8], fault: Fault) {
    match fault {
        Fault::NotRead => say_failed(system, path),
        Fault::NotListed => say_failed(system, list),
        Fault::Packet(at, wrong) => say_wrong(system, path, at, wrong),
        Fault::NoUnit => say_octet(path, 0, b"expected a unit of at least 1 octet"),
        Fault::LongUnit => say_octet(path, 0, b"a unit above the lane's longest"),
        Fault::CutUnit(at) => say_octet(path, at, b"a unit that the file's end cuts"),
        Fault::Left(at) => say_octet(path, at, b"after the last unit of the list"),
        Fault::NoLength(at) => say_octet(
            list,
            at,
            b"expected a length of 1 up to the lane's longest",
        ),
        Fault::Refused(n) => say_refused(system, path, n),
        Fault::NotSent => say_failed(system, b"standard output"),
    }
}

// Says how pack is called.
fn say_usage() {
    say(
        b"usage",
        b"pack [--interleave] SETTING LANE=FILE [lengths=FILE] .. [insert=FILE] [ocf=FILE]",
    );
}

// ---- which files may be read

// Whether nothing stands against reading a file. Says what does.
fn allowed(system: &System, path: &[u8], k: Option<Known>, twice: bool) -> bool {
    let objection = words::pack_start::against(k, files::of_descriptor(system, 1), twice);
    match objection {
        None => {}
        Some(Objection::NotRegular) => say(path, b"not a regular file, which is read twice"),
        Some(Objection::Output) => say(path, b"standard output is this file"),
    }
    objection.is_none()
}

// ---- the setting's lanes

// A lane of the setting, by its number; a lane of zeros where there is none.
fn lane_of(s: Setting, l: usize) -> Lane
    ensures { result ≡ lane s l }
{
    s.lanes.get(l).copied().unwrap_or(setting::no_lane())
}

// How many OCF octets the frames of a lane have.
fn ocf_of(s: Setting, a: Lane) -> usize
    ensures { result ≡ ocf_octets (channel s a.channel) }
{
    let c = s.channels.get(a.channel as usize).copied();
    setting::ocf_octets(c.unwrap_or(setting::no_channel()))
}

// ---- opening

// What a lane's file has, of a lane of this kind, with a list or without.
#[tactic(auto, unfolding(crate::specs::Rounds::form_of))]
fn form_of(kind: Kind, listed: bool) -> Form
    ensures { result ≡ form_of kind listed }
{
    match (kind, listed) {
        (Kind::Packets, _) => Form::Packets,
        (Kind::Access, true) => Form::Units,
        (Kind::Access, false) => Form::Unit,
    }
}

// A window on a file that nothing was read of.
#[tactic(auto, unfolding(crate::specs::Sources::fresh_window))]
fn fresh() -> Window
    ensures { result ≡ fresh_window }
{
    Window {
        have: 0,
        at: 0,
        good: true,
    }
}

// A file that was opened, and how many octets its name has.
#[derive(Drop)]
struct Opened {
    file: intake::Source,
    name: usize,
}

// What a file and its list are read from, and the names that they were opened by.
#[derive(Drop)]
struct Slot {
    inputs: Inputs,
    name: [u8; 4096],
    list_name: [u8; 4096],
}

// No file is open to be read.
fn no_inputs() -> Inputs {
    Inputs {
        file: intake::Source::Nothing,
        list: intake::Source::Nothing,
    }
}

// Room for a file and its list.
fn no_slot() -> Slot {
    Slot {
        inputs: no_inputs(),
        name: io::buffer(),
        list_name: io::buffer(),
    }
}

// Opens a file that is read twice, where nothing stands against it. Says what does; the program then ends.
fn open_file(system: &System, path: &[u8]) -> Option<intake::Source> {
    let file = intake::open_read(system, path);
    if !intake::is_open(&file) {
        say_failed(system, path);
        return None;
    }
    if allowed(system, path, files::of_source(system, &file), true) {
        Some(file)
    } else {
        None
    }
}

// What a function makes of word i, of no octets where there is no such word.
fn at_word<R, F: FnOnce(&[u8]) -> R>(system: &System, i: usize, f: F) -> R
    requires { F.IsAlwaysCallable f }
{
    let mut word = io::buffer();
    let n = console::arg(system, i, &mut word).unwrap_or(0);
    f(&word[..n])
}

// What a word names after its first `from` octets.
fn behind(word: &[u8], from: usize) -> &[u8] {
    &word[from.min(word.len())..]
}

// Opens the file of this name, and keeps the name.
fn open_named(system: &System, path: &[u8], name: &mut [u8; 4096]) -> Option<Opened> {
    octets::copy(name, path);
    let file = open_file(system, path)?;
    Some(Opened {
        file,
        name: path.len(),
    })
}

// Opens the file that word i names after its first `from` octets, and keeps its name.
fn open_word(system: &System, i: usize, from: usize, name: &mut [u8; 4096]) -> Option<Opened> {
    at_word(
        system,
        i,
        |word| open_named(system, behind(word, from), name),
    )
}

// Whether word i is an option.
fn is_option_at(system: &System, i: usize) -> bool {
    at_word(system, i, |word| words::is_option(word))
}

// Whether word i, if there is one, names a list of lengths.
fn is_list_at(system: &System, i: usize) -> bool {
    at_word(system, i, |word| words::begins(word, b"lengths="))
}

// The first of n words from word i on that is no option; n where there is none.
fn past_options(system: &System, i: usize, n: usize) -> usize {
    (i..n).find(|j| !is_option_at(system, *j)).unwrap_or(n)
}

// The list of the file that a word before word i names: the next word, options aside, where it is one.
fn list_of(system: &System, i: usize, n: usize) -> Option<usize> {
    let j = past_options(system, i, n);
    is_list_at(system, j).then_some(j)
}

// The source of lane l's file and of its list, if it has one, which are open and have names of so many octets.
fn source_of(s: Setting, l: usize, name: usize, list_name: Option<usize>) -> Source {
    let a = lane_of(s, l);
    Source {
        stream: Stream {
            window: fresh(),
            list: fresh(),
            batch: 0,
            lane: l,
            longest: a.longest as usize,
            form: form_of(a.kind, list_name.is_some()),
        },
        name,
        list_name: list_name.unwrap_or(0),
        ocf: ocf_of(s, a),
        more: true,
    }
}

// No source, to fill an area of sources with.
fn no_source() -> Source {
    Source {
        stream: Stream {
            window: fresh(),
            list: fresh(),
            batch: 0,
            lane: 0,
            longest: 0,
            form: Form::Packets,
        },
        name: 0,
        list_name: 0,
        ocf: 0,
        more: false,
    }
}

// Opens the file of lane l that word i of n names, and its list if it has one, and keeps both in this slot. Where one is not opened, there is no source.
fn open_source(
    system: &System,
    s: Setting,
    l: usize,
    i: usize,
    n: usize,
    slot: &mut Slot,
) -> Option<Source>
    requires { i < n }
{
    let opened = open_word(system, i, 2, &mut slot.name)?;
    slot.inputs = Inputs {
        file: opened.file,
        list: intake::Source::Nothing,
    };
    let Some(j) = list_of(system, i + 1, n) else {
        return Some(source_of(s, l, opened.name, None));
    };
    let list = open_word(system, j, 8, &mut slot.list_name)?;
    slot.inputs.list = list.file;
    Some(source_of(s, l, opened.name, Some(list.name)))
}

// ---- turns

// How frames are written: whether the files take turns; how many octets of them are a hundredth; whether standard error is a terminal.
#[derive(Clone, Copy)]
struct Writing {
    together: bool,
    hundredth: u64,
    live: bool,
}

// A pass over the files that the command's words name, of which there are so many: how it writes frames, nothing where it only looks; and the insert and
// OCF octets of each frame.
#[derive(Clone, Copy)]
struct Pass<'a> {
    system: &'a System,
    words: usize,
    writing: Option<Writing>,
    insert: &'a [u8],
    ocf: &'a [u8],
}

// The files of a round, and how many there are. Eight places, for no memory is asked for, and no Options: where there is no file, one of zeros that is at
// its end has the turn (`Rounds.file_of`), and so a round of no files has a last turn too.
#[derive(Clone, Copy)]
struct Files {
    sources: [Source; 8],
    count: usize,
}

// Whether a file of these may have more.
#[tactic(auto, unfolding(crate::specs::Rounds::any_more))]
fn any_more(f: Files) -> bool
    ensures { result ≡ any_more f }
{
    f.sources.iter().any(|x| x.more)
}

// Whose turn is next, of so many files: the one after, or again the first.
#[tactic(auto, unfolding(crate::specs::Rounds::next_place))]
fn next_place(k: usize, count: usize) -> usize
    requires { k < 8 }
    ensures { (result ≡ next_place k count) × (result < 8) }
{
    let j = k + 1;
    if j < count && j < 8 { j } else { 0 }
}

// Whether a course goes on, with these files.
#[tactic(auto, unfolding(crate::specs::Rounds::has_next))]
fn has_next(c: Course, f: Files) -> bool
    ensures { result ≡ has_next c f }
{
    c.fault.is_none() && any_more(f)
}

// Where a round is: the course and the files, whose turn the last one was, and whose is next, if there is a next one.
#[derive(Clone, Copy)]
struct Place {
    course: Course,
    files: Files,
    last: usize,
    next: Option<usize>,
}

// Where a round is after the turn of file k, which left this.
#[tactic(auto, unfolding(crate::specs::Rounds::next_turn))]
fn after_move(p: Place, k: usize, m: Move) -> Place
    requires { k < 8 }
    ensures { result ≡ place_after p k m }
{
    let mut files = p.files;
    files.sources[k] = m.source;
    let next = next_place(k, files.count);
    Place {
        course: m.course,
        files,
        last: k,
        next: has_next(m.course, files).then_some(next),
    }
}

// Closes the files of a round: each is let go.
fn close_all(slots: &mut [Slot; 8]) {
    for slot in slots.iter_mut() {
        slot.inputs = no_inputs();
    }
}

// Says what went wrong with a file, whose names stand in this slot.
fn say_of(system: &System, x: Source, slot: &Slot, fault: Fault) {
    let a = streams::within(x.name, &slot.name);
    let b = streams::within(x.list_name, &slot.list_name);
    say_fault(system, &slot.name[..a], &slot.list_name[..b], fault);
}

// The pass that looks: it writes nothing, says nothing of how far it is, and takes file after file.
fn looking<'a>(system: &'a System, words: usize, insert: &'a [u8], ocf: &'a [u8]) -> Pass<'a>
    ensures { result.writing ≡ look_way }
{
    Pass {
        system,
        words,
        writing: None,
        insert,
        ocf,
    }
}

impl Pass<'_> {
    // Says how far it is, where a frame was written with which that is due.
    fn say_progress(&self, before: u64, c: Course) {
        if let Some(w) = self.writing
            && before != c.frames
            && console::progress::is_due(c.frames)
        {
            console::progress::say_far(b"pack", c.frames, w.hundredth, c.octets, w.live);
        }
    }

    // The turn of file k.
    fn deal(
        &self,
        slots: &[Slot; 8],
        p: Place,
        k: usize,
        areas: &mut [u8; 524288],
        lists: &mut [u8; 2048],
    ) -> Place
        requires { k < 8 }
        ensures { Stepped (is_some self.now.writing) p k self.now.insert.now self.now.ocf.now areas.old lists.old result areas.new lists.new }
    {
        let frames = Frames {
            system: self.system,
            writing: self.writing.is_some(),
            insert: self.insert,
            ocf: self.ocf,
        };
        let x = p.files.sources[k];
        let m = frames.turn_at(&slots[k].inputs, k, p.course, x, areas, lists);
        self.say_progress(p.course.frames, m.course);
        after_move(p, k, m)
    }

    // Deals out turns, a frame each, until all files are at their end or something is wrong: each is handed what the one before left. A proved
    // loop has to end: this one goes to a number of turns that no run reaches.
    fn go_round(&self, slots: &[Slot; 8], course: Course, files: Files) -> Place
        ensures { (result.last < 8) × Rounded (is_some self.now.writing) course files self.now.insert.now self.now.ocf.now result.course result.last }
    {
        let mut areas = [0u8; 524288];
        let mut lists = [0u8; 2048];
        let mut place = Place {
            course,
            files,
            last: 0,
            next: Some(0),
        };
        for _turn in 0..u64::MAX {
            let Some(k) = place.next else {
                break;
            };
            place = self.deal(slots, place, k, &mut areas, &mut lists);
        }
        place
    }

    // A round with these files: says what went wrong, and closes them.
    fn round_on(&self, slots: &mut [Slot; 8], c: Course, f: Files) -> Course
        ensures { Passed (is_some self.now.writing) c f self.now.insert.now self.now.ocf.now result }
    {
        let place = self.go_round(slots, c, f);
        let k = place.last;
        if let Some(fault) = place.course.fault {
            say_of(self.system, f.sources[k], &slots[k], fault);
        }
        close_all(slots);
        place.course
    }
}

// ---- passes

// Where a pass is: the course, and the files that wait for a round.
#[derive(Clone, Copy)]
struct Stage {
    course: Course,
    files: Files,
}

// No files.
fn no_files() -> Files {
    Files {
        sources: [no_source(); 8],
        count: 0,
    }
}

// With one file more, if there is room for it.
fn add_file(f: Files, x: Source) -> Files {
    let mut g = f;
    if f.count < 8 {
        g.sources[f.count] = x;
        g.count = f.count + 1;
    }
    g
}

// With a file more that waits, if it was opened.
fn with_file(p: Stage, x: Option<Source>) -> Stage {
    match x {
        Some(x) => Stage {
            files: add_file(p.files, x),
            ..p
        },
        None => Stage {
            course: turns::end_with(p.course, Some(Fault::NotRead)),
            ..p
        },
    }
}

impl Pass<'_> {
    // Opens lane l's file that word i names, and puts it to those that wait.
    fn wait_for(&self, slots: &mut [Slot; 8], p: Stage, l: usize, i: usize) -> Stage
        requires { i < self.now.words }
    {
        let slot = &mut slots[p.files.count.min(7)];
        let setting = p.course.state.setting;
        with_file(p, open_source(self.system, setting, l, i, self.words, slot))
    }

    // Takes the files that wait for a round, if all were opened; if not, the program ends, and closes them.
    fn round_of(&self, slots: &mut [Slot; 8], p: Stage) -> Stage {
        let course = if p.course.fault.is_none() {
            self.round_on(slots, p.course, p.files)
        } else {
            p.course
        };
        Stage {
            course,
            files: no_files(),
        }
    }

    // What word i names.
    fn named_at(&self, i: usize, numbered: usize) -> Named {
        at_word(
            self.system,
            i,
            |word| words::pack_start::name_of(word, numbered),
        )
    }

    // Goes on with word i: where it names a lane's file, that waits, or has a round of its own where the files take no turns.
    fn stage_on(&self, slots: &mut [Slot; 8], p: Stage, i: usize) -> Stage
        requires { i < self.now.words }
    {
        let q = match self.named_at(i, p.course.state.setting.numbered) {
            Named::ToLane(l) => self.wait_for(slots, p, l, i),
            _ => p,
        };
        if self.writing.is_some_and(|w| w.together) {
            q
        } else {
            self.round_of(slots, q)
        }
    }

    // Goes through words from word `from` on, as long as nothing is wrong.
    fn each_word(&self, slots: &mut [Slot; 8], p: Stage, from: usize) -> Stage {
        let mut stage = p;
        for i in from..self.words {
            stage = self.stage_on(slots, stage, i);
            if stage.course.fault.is_some() {
                break;
            }
        }
        stage
    }

    // Goes through all files that words from word `from` on name, from a fresh writer on: each in a round of its own, or all in one. Looks for what is wrong, or
    // writes frames.
    fn run(&self, s: Setting, from: usize) -> Course {
        let mut slots = array::from_fn(|_| no_slot());
        let stage = Stage {
            course: Course {
                state: writer::set_up(s).state,
                frames: 0,
                octets: 0,
                fault: None,
            },
            files: no_files(),
        };
        let stage = self.each_word(&mut slots, stage, from);
        self.round_of(&mut slots, stage).course
    }
}

// ---- the insert and OCF octets

// Says what is wrong with a word, if anything is.
fn say_bad(word: &[u8], bad: Bad) {
    match bad {
        Bad::NoUnits => say(word, b"expected directly after an access lane's file"),
        Bad::NoName => say(
            word,
            b"expected a lane of the setting, lengths, insert or ocf, then = and a file",
        ),
        Bad::InsertTwice => say(word, b"insert is named twice"),
        Bad::OcfTwice => say(word, b"ocf is named twice"),
        Bad::LaneTwice => say(word, b"the lane is named twice, which --interleave forbids"),
        Bad::NoWord => {}
    }
}

// Whether a lane of this kind carries access units.
#[tactic(auto, unfolding(crate::specs::Sources::is_access))]
fn is_access(kind: Kind) -> bool
    ensures { result ≡ is_access kind }
{
    matches!(kind, Kind::Access)
}

// Whether what is named is the file of an access lane.
#[tactic(auto, unfolding(crate::specs::Sources::is_units))]
fn is_units(s: Setting, name: Named) -> bool
    ensures { result ≡ is_units s name }
{
    match name {
        Named::ToLane(l) => is_access(lane_of(s, l).kind),
        _ => false,
    }
}

// The plan after word i, which is this. Says what is wrong with it.
fn plan_word(p: Plan, i: usize, word: &[u8], s: Setting, once: bool) -> Plan {
    let name = words::pack_start::name_of(word, s.numbered);
    let q = words::pack_start::planned(p, i, name, is_units(s, name), once);
    if let Some(bad) = q.bad {
        say_bad(word, bad);
    }
    q
}

// The plan after word i.
fn plan_next(system: &System, p: Plan, i: usize, s: Setting, once: bool) -> Plan {
    let mut word = io::buffer();
    let Some(n) = console::arg(system, i, &mut word) else {
        say_failed(system, b"an argument");
        return words::pack_start::bad_plan(p, Some(Bad::NoWord));
    };
    plan_word(p, i, &word[..n], s, once)
}

// The plan of all words from word `from` of n on.
fn plan_all(system: &System, from: usize, n: usize, s: Setting, once: bool) -> Plan {
    let mut plan = words::pack_start::no_plan();
    for i in from..n {
        plan = plan_next(system, plan, i, s, once);
        if plan.bad.is_some() {
            break;
        }
    }
    plan
}

// Puts the octets of an open file that has exactly n at the front of an area.
#[tactic(auto, unfolding(crate::specs::Sources::fresh_window))]
fn load_open(
    system: &System,
    path: &[u8],
    from: &intake::Source,
    n: usize,
    area: &mut [u8],
) -> bool {
    let mut space = io::buffer();
    let w = intake::fill_up(system, from, &mut space, fresh());
    if !w.good {
        say_failed(system, path);
        return false;
    }
    if w.have != n {
        say_expected(system, path, n);
        return false;
    }
    octets::copy(area, &space[..n]);
    true
}

// The same of a file by its name, where nothing stands against reading it once.
fn load_file(system: &System, path: &[u8], n: usize, area: &mut [u8]) -> bool {
    let file = intake::open_read(system, path);
    if !intake::is_open(&file) {
        say_failed(system, path);
        return false;
    }
    allowed(system, path, files::of_source(system, &file), false)
        && load_open(system, path, &file, n, area)
}

// Puts the n octets of the file that argument i names, after its first `from` octets, at the front of an area; where there is no such argument,
// the area stays.
fn load_octets(system: &System, i: Option<usize>, from: usize, n: usize, area: &mut [u8]) -> bool {
    let Some(i) = i else {
        return true;
    };
    at_word(
        system,
        i,
        |word| load_file(system, behind(word, from), n, area),
    )
}

// ---- the program

// The word after word i of n.
fn after(i: usize, n: usize) -> usize {
    i.saturating_add(1).min(n)
}

// What is asked for, by so many words.
#[derive(Clone, Copy)]
struct Command<'a> {
    system: &'a System,
    asked: Asked,
    words: usize,
}

impl Command<'_> {
    // Looks through all files, and where all are good, writes their frames. Of the insert octets the setting's are taken.
    fn pack_files(&self, s: Setting, insert: &[u8], ocf: &[u8]) {
        let i = streams::within(s.insert, insert);
        let from = after(self.asked.places[0], self.words);
        let look = looking(self.system, self.words, &insert[..i], ocf);
        let looked = look.run(s, from);
        if looked.fault.is_some() {
            return;
        }
        let write = Pass {
            writing: Some(Writing {
                together: self.asked.first,
                hundredth: looked.octets / 100,
                live: console::progress::is_live(self.system),
            }),
            ..look
        };
        let written = write.run(s, from);
        if written.fault.is_none() {
            say_done(written.frames);
        }
    }

    // Packs by this setting and plan.
    fn pack_planned(&self, s: Setting, p: Plan) {
        let mut insert = [0u8; 64];
        let mut ocf = [0u8; 4];
        if load_octets(self.system, p.insert, 7, s.insert, &mut insert)
            && load_octets(self.system, p.ocf, 4, 4, &mut ocf)
        {
            self.pack_files(s, &insert, &ocf);
        }
    }

    // Packs by this setting.
    fn pack_all(&self, s: Setting) {
        let from = after(self.asked.places[0], self.words);
        let p = plan_all(self.system, from, self.words, s, self.asked.first);
        if p.bad.is_some() {
            return;
        }
        if p.lanes {
            self.pack_planned(s, p);
        } else {
            say_usage();
        }
    }

    // Packs by the setting that was loaded, if it is one.
    fn with_setting(&self, l: Loaded) {
        if let Ok(s) = l.judged {
            self.pack_all(s);
        }
    }

    // Packs by the setting in standard input.
    fn pack_input(&self) {
        let system = self.system;
        let name = b"standard input";
        if allowed(system, name, files::of_descriptor(system, 0), false) {
            let mut area = [0u8; 65537];
            let input = intake::Source::Input(system.rt.stdin());
            self.with_setting(setting_file::load_open(system, b"pack", name, &input, &mut area));
        }
    }

    // Packs by the setting in the file of this name.
    fn pack_by(&self, path: &[u8]) {
        let system = self.system;
        if allowed(system, path, files::of_name(system, path), false) {
            let mut area = [0u8; 65537];
            self.with_setting(setting_file::load(system, b"pack", path, &mut area));
        }
    }

    // Takes the setting from the command line, a file's or the one in standard input, and goes on.
    fn with_words(&self) {
        let mut word = io::buffer();
        let Some(n) = console::arg(self.system, self.asked.places[0], &mut word) else {
            return say_failed(self.system, b"SETTING");
        };
        let path = &word[..n];
        if words::is_dash(path) {
            self.pack_input();
        } else {
            self.pack_by(path);
        }
    }
}

// ---- the command line

// Says that a word is no option.
fn say_unknown(system: &System, i: usize) {
    at_word(system, i, |word| {
        say(
            word,
            b"is no option; expected --interleave, --help or --version",
        )
    });
}

// Prints what was asked for, in the place of frames.
fn print_text(system: &System, text: &[u8]) {
    if console::write_out(system, text) {
        say_done(0);
    } else {
        say_failed(system, b"standard output");
    }
}

// Prints how the program is called.
fn print_help(system: &System) {
    print_text(
        system,
        b"pack [--interleave] SETTING LANE=FILE [lengths=FILE] .. [insert=FILE] [ocf=FILE]\nWrites the frames of the files' packets and units to standard output.\n  --interleave  the files take turns, a frame each\n  --help        prints this\n  --version     prints which program this is\nA SETTING of - is standard input. docs/PROGRAMS.md has the formats.\n",
    );
}

// Does what these words ask for, or says why it cannot.
fn begin(start: Start, c: Command) {
    match start {
        Start::Help => print_help(c.system),
        Start::Version => print_text(c.system, b"pack 0.3 (Khachmuren, CCSDS 732.1-B-3)\n"),
        Start::Unknown(i) => say_unknown(c.system, i),
        Start::Usage => say_usage(),
        Start::Work => c.with_words(),
    }
}

// The program. Nothing is said into a file that a word names, nor between the frames.
fn main(rt: HostRuntime) {
    let system = intake::system_of(rt);
    let n = console::arg_count(&system);
    if console::may_say(&system, true, n, None) {
        let asked = console::read_words(&system, Program::Pack, n);
        let command = Command {
            system: &system,
            asked,
            words: n,
        };
        begin(words::pack_start::start_of(asked), command);
    }
}
