// The files that unpack writes: made new under names that no other run has, put on the device and closed, given their names when all of them are
// whole, and removed where a run fails. What had the names is put aside until then, and gets them again where a run fails. This is the one
// place that does so. Outputs have numbers: 0 to 7 are the lanes', 8 is the table of units, 9 the records. Which of them there are, what each
// is called, and in which order they are taken is promised; what the system then does with a name is shown by runs.
#![tactic(auto)]

ghost use Rattle.std.specs.Prelude.{◌≡◌, ◌≢◌, ℕ, ◌+◌, ◌≤◌, ◌<◌, length, take, drop, slice_index, IfSome, MatchOption};
ghost use Rattle.unpack_text.specs.Lines.{Wrote};
ghost use Rattle.outputs.specs.Names.{has_output, ending, mark, Named, plain_fit, fit_of, aside_turn, no_stage, put_aside, gave, went, last_slash};

use files::Known;
use intake::{Source, System};
use std::fs::{File, OpenOptions};
use std::io::Write;
use std::{array, fs, io};

// The number that the system has for a descriptor that is not open.
const NOT_OPEN: i32 = 9;

// The number that it has for a file that is not there.
const NOT_THERE: i32 = 2;

// How many lanes a run has, whether it writes a table of units, and the number that its unfinished files have in their names.
#[derive(Clone, Copy)]
pub struct Plan {
    pub number: u64,
    pub lanes: usize,
    pub table: bool,
}

// The files of a run that no output may replace: its inputs, and where it prints and says something.
#[derive(Clone, Copy)]
pub struct Kept {
    pub setting: Option<Known>,
    pub recording: Option<Known>,
    pub printed: Option<Known>,
    pub said: Option<Known>,
}

// What is in the way of an output at its name: an input, what is printed or said, or something that is no regular file.
#[derive(Clone, Copy, PartialEq, Eq)]
pub enum Obstacle {
    Setting,
    Recording,
    Printed,
    Said,
    Strange,
}

// That the system had something against a call; what it had is kept.
#[derive(Clone, Copy)]
struct Failed;

// ---- names

// Whether a run of this plan writes output i.
#[tactic(auto, unfolding(crate::specs::Names::has_output))]
pub fn has(p: Plan, i: usize) -> bool
    ensures { result ≡ has_output p i }
{
    match i {
        0..8 => i < p.lanes,
        8 => p.table,
        _ => i == 9,
    }
}

// Puts what follows the prefix in the name of output i.
fn put_ending(name: &mut [u8], n: usize, i: usize) -> usize
    requires { n + 25 ≤ length name.old }
    ensures { Wrote 25 (ending i) name.old n name.new result }
{
    if i < 8 {
        unpack_text::put_named(name, n, b".lane", i as u64)
    } else if i == 8 {
        listing_text::put_text(name, n, b".units.csv")
    } else {
        listing_text::put_text(name, n, b".records")
    }
}

// Puts what the name of an unfinished file, or of an earlier one that is put aside, has after that.
fn put_mark(name: &mut [u8], n: usize, number: u64, old: bool) -> usize
    requires { n + 26 ≤ length name.old }
    ensures { Wrote 26 (mark old number) name.old n name.new result }
{
    let at = unpack_text::put_named(name, n, b".", number);
    if old {
        listing_text::put_text(name, at, b".old")
    } else {
        listing_text::put_text(name, at, b".part")
    }
}

// Puts a prefix to the front of an area, 4,096 octets at most: no word of a command line has more, and the system takes no name that has so many.
#[tactic(auto, using(crate::proofs::Endings::cut_length, crate::proofs::Endings::cut_room, crate::proofs::Endings::long_prefix))]
fn put_prefix(name: &mut [u8], prefix: &[u8]) -> usize
    requires { 4096 ≤ length name.old }
    ensures { Wrote 4096 (take 4096 prefix.now) name.old 0 name.new result }
{
    if 4096 < prefix.len() {
        listing_text::put_text(name, 0, &prefix[..4096])
    } else {
        listing_text::put_text(name, 0, prefix)
    }
}

// A name: its octets, how many of them are the finished name, and how many are that with the mark behind it. No memory is asked for, so it has an area
// of its own, and says how much of that it takes.
#[derive(Clone, Copy)]
struct Name {
    octets: [u8; 4147],
    at: usize,
    end: usize,
}

impl Name {
    // The finished name.
    fn finished(&self) -> &[u8]
        requires { self.now.at ≤ 4147 }
        ensures { result.now ≡ take self.now.at self.now.octets }
    {
        &self.octets[..self.at]
    }

    // That with the mark behind it.
    fn marked(&self) -> &[u8]
        requires { self.now.end ≤ 4147 }
        ensures { result.now ≡ take self.now.end self.now.octets }
    {
        &self.octets[..self.end]
    }
}

// Says that the last call of the system failed on this name.
fn say_failed(system: &System, name: &[u8]) {
    console::say_failed(system, b"unpack", name);
}

// The outputs of a run: the system that has them, which there are, and what their names begin with.
#[derive(Clone, Copy)]
struct Run<'a> {
    system: &'a System,
    plan: Plan,
    prefix: &'a [u8],
}

impl Run<'_> {
    // Makes the name of output i's unfinished file, or of the earlier one that is put aside. The finished name is its front.
    fn name_of(&self, i: usize, old: bool) -> Name
        ensures { Named self.now.prefix.now i (mark old self.now.plan.number) result }
    {
        let mut octets = [0u8; 4147];
        let n = put_prefix(&mut octets, self.prefix);
        let at = put_ending(&mut octets, n, i);
        let end = put_mark(&mut octets, at, self.plan.number, old);
        Name { octets, at, end }
    }

    // Whether output i, if there is one, may take its name.
    fn may_take(&self, i: usize, f: Kept) -> bool {
        !has(self.plan, i) || is_free(self.system, self.name_of(i, false).finished(), f)
    }

    // Makes the unfinished file of output i. Says why where that fails.
    fn make(&self, i: usize) -> Option<File> {
        let name = self.name_of(i, false);
        let file = create(self.system, name.marked());
        if file.is_none() {
            say_failed(self.system, name.marked());
        }
        file
    }

    // Says that the last call of the system failed on output i's unfinished file.
    fn say_part(&self, i: usize) {
        say_failed(self.system, self.name_of(i, false).marked());
    }

    // What has the name of output i leaves it: for the name of one put aside, or of an unfinished one. Whether there was something.
    fn leave_name(&self, i: usize, old: bool) -> Result<bool, Failed> {
        let name = self.name_of(i, old);
        move_off(self.system, self.plan.number, old, name.marked(), name.at)
    }

    // The unfinished file of output i, or the one that was put aside, takes its name.
    fn take_name(&self, i: usize, old: bool) -> Result<(), Failed> {
        let name = self.name_of(i, old);
        move_on(self.system, self.plan.number, old, name.marked(), name.at)
    }

    // Puts what has the name of output i aside, if there is such an output.
    fn put_aside(&self, i: usize, s: &mut Stage) -> Result<(), Failed>
        requires { i < 10 }
    {
        if !has(self.plan, i) {
            return Ok(());
        }
        after_aside(s, i, self.leave_name(i, true))
    }

    // Gives output i its name, if there is such an output.
    fn give_name(&self, i: usize, s: &mut Stage) -> Result<(), Failed>
        requires { i < 10 }
    {
        if !has(self.plan, i) {
            return Ok(());
        }
        after_given(s, i, self.take_name(i, false))
    }

    // Puts what has the names of outputs aside, the records first, and then gives each output its name, the records last, up to the first failure.
    fn give_each(&self, s: &mut Stage) -> Result<(), Failed> {
        for k in 0..10 {
            self.put_aside(aside_turn(k), s)?;
        }
        for i in 0..10 {
            self.give_name(i, s)?;
        }
        Ok(())
    }

    // Removes output i's unfinished file, or the earlier one that was put aside, where that can be done.
    fn remove(&self, i: usize, old: bool) {
        let name = self.name_of(i, old);
        if let Some(path) = intake::path_of(self.system, name.marked()) {
            let _ = went(self.system, fs::remove_file(&self.system.rt, path));
        }
    }

    // Removes what was put aside.
    fn forget_all(&self, s: Stage) {
        for i in 0..10 {
            if s.aside[i] {
                self.remove(i, true);
            }
        }
    }

    // Takes names back, and gives them to what had them, the records last.
    fn undo_all(&self, s: Stage) {
        for i in 0..10 {
            if s.given[i] {
                let _ = self.leave_name(i, false);
            }
            if s.aside[i] {
                let _ = self.take_name(i, true);
            }
        }
    }

    // Removes the unfinished files of the outputs before output n, where that can be done.
    fn remove_first(&self, n: usize) {
        for i in 0..n {
            if has(self.plan, i) {
                self.remove(i, false);
            }
        }
    }
}

// Says that the last call of the system failed on output i's unfinished file.
pub fn say_part(system: &System, plan: Plan, prefix: &[u8], i: usize) {
    let run = Run {
        system,
        plan,
        prefix,
    };
    run.say_part(i);
}

// ---- what is there already

// What of a regular file that is no input is in the way of an output that would take its name.
#[tactic(auto, unfolding(crate::specs::Names::plain_fit))]
fn plain_fit(k: Option<Known>, printed: Option<Known>, said: Option<Known>) -> Option<Obstacle>
    ensures { result ≡ plain_fit k printed said }
{
    if files::same(k, printed) {
        Some(Obstacle::Printed)
    } else if files::same(k, said) {
        Some(Obstacle::Said)
    } else {
        None
    }
}

// What of a file is in the way of an output that would take its name.
#[tactic(auto, unfolding(crate::specs::Names::fit_of))]
fn fit_of(k: Option<Known>, f: Kept) -> Option<Obstacle>
    ensures { result ≡ fit_of k f }
{
    if files::same(k, f.setting) {
        return Some(Obstacle::Setting);
    }
    if files::same(k, f.recording) {
        return Some(Obstacle::Recording);
    }
    if files::regular(k?) {
        plain_fit(k, f.printed, f.said)
    } else {
        Some(Obstacle::Strange)
    }
}

// What is said of it.
fn words_on(o: Obstacle) -> &'static [u8] {
    match o {
        Obstacle::Setting => b"is the setting, which nothing may replace",
        Obstacle::Recording => b"is the recording, which nothing may replace",
        Obstacle::Printed => b"is standard output, which nothing may replace",
        Obstacle::Said => b"is standard error, which nothing may replace",
        Obstacle::Strange => b"is there and is no regular file",
    }
}

// Whether an output may take this name; says why where it may not.
fn is_free(system: &System, name: &[u8], f: Kept) -> bool {
    match fit_of(files::of_name(system, name), f) {
        None => true,
        Some(o) => {
            console::say(b"unpack", name, words_on(o));
            false
        }
    }
}

// Whether each output may take its name: none leads to a file that nothing may replace, by link or by name, and what is there is a regular file.
pub fn may_take_all(system: &System, plan: Plan, prefix: &[u8], f: Kept) -> bool {
    let run = Run {
        system,
        plan,
        prefix,
    };
    (0..10).all(|i| run.may_take(i, f))
}

// ---- making and keeping

// Keeps what the system had against a call.
fn went(system: &System, done: io::Result<()>) -> Result<(), Failed> {
    match done {
        Ok(()) => Ok(()),
        Err(e) => {
            intake::keep_failure(system, e);
            Err(Failed)
        }
    }
}

// Creates a file of this name, if there is none: nothing is opened over.
fn create(system: &System, name: &[u8]) -> Option<File> {
    let path = intake::path_of(system, name)?;
    match OpenOptions::new()
        .write(true)
        .create_new(true)
        .open(&system.rt, path)
    {
        Ok(file) => Some(file),
        Err(e) => {
            intake::keep_failure(system, e);
            None
        }
    }
}

// Makes each unfinished file. Where one fails, those that were made before it are removed, and there is none.
pub fn make_all(system: &System, plan: Plan, prefix: &[u8]) -> Option<[Option<File>; 10]> {
    let run = Run {
        system,
        plan,
        prefix,
    };
    let mut files = array::from_fn(|_| None);
    for i in 0..10 {
        if has(plan, i) {
            let file = run.make(i);
            if file.is_none() {
                run.remove_first(i);
                return None;
            }
            files[i] = file;
        }
    }
    Some(files)
}

// One write to an output that was made: how many octets it took; none where it failed.
fn write_some(system: &System, file: &Option<File>, octets: &[u8]) -> Option<usize>
    ensures { IfSome result (λ n. n ≤ length octets.now) }
{
    let Some(file) = file else {
        intake::keep_number(system, NOT_OPEN);
        return None;
    };
    let mut to: &File = file;
    match to.write(octets) {
        Ok(n) => Some(n),
        Err(e) => {
            intake::keep_failure(system, e);
            None
        }
    }
}

// Writes all octets to an output that was made; stops at the first write that takes none or fails, as `console::write_out` does, for the same reason.
pub fn write_all(system: &System, file: &Option<File>, octets: &[u8]) -> bool {
    let mut done: usize = 0;
    while done < octets.len() {
        match write_some(system, file, &octets[done..]) {
            None | Some(0) => return false,
            Some(n) => done += n,
        }
    }
    true
}

// Puts an output on its device and closes it.
fn keep(system: &System, file: Option<File>) -> Result<(), Failed> {
    match file {
        Some(file) => went(system, file.sync_all()),
        None => {
            intake::keep_number(system, NOT_OPEN);
            Err(Failed)
        }
    }
}

// Puts each output on its device and closes it.
pub fn keep_all(
    system: &System,
    plan: Plan,
    files: &mut [Option<File>; 10],
    prefix: &[u8],
) -> bool {
    let run = Run {
        system,
        plan,
        prefix,
    };
    for (i, file) in files.iter_mut().enumerate() {
        if has(plan, i) && keep(system, file.take()).is_err() {
            run.say_part(i);
            return false;
        }
    }
    true
}

// ---- finished names

// How far the names are: which earlier files are put aside, and which outputs have their names.
#[derive(Clone, Copy)]
struct Stage {
    aside: [bool; 10],
    given: [bool; 10],
}

// A file gets another name.
fn rename(system: &System, from: &[u8], to: &[u8]) -> Result<(), Failed> {
    let old = intake::path_of(system, from).ok_or(Failed)?;
    let new = intake::path_of(system, to).ok_or(Failed)?;
    went(system, fs::rename(&system.rt, old, new))
}

// A file leaves its finished name, the front of the other up to the mark, for that other; whether there was one.
fn move_off(system: &System, number: u64, old: bool, long: &[u8], at: usize) -> Result<bool, Failed>
    requires { (at ≤ length long.now) × (drop at long.now ≡ mark old number) }
{
    match rename(system, &long[..at], long) {
        Ok(()) => Ok(true),
        Err(_) if intake::last_failure(system) == NOT_THERE => Ok(false),
        Err(failed) => {
            say_failed(system, &long[..at]);
            Err(failed)
        }
    }
}

// A file takes its finished name, the front of the one that it has, up to the mark.
fn move_on(system: &System, number: u64, old: bool, long: &[u8], at: usize) -> Result<(), Failed>
    requires { (at ≤ length long.now) × (drop at long.now ≡ mark old number) }
{
    let given = rename(system, long, &long[..at]);
    if given.is_err() {
        say_failed(system, long);
    }
    given
}

// The output that is put aside in turn k: the records first, so that none stand beside lanes of another run.
#[tactic(auto, unfolding(crate::specs::Names::aside_turn))]
fn aside_turn(k: usize) -> usize
    requires { k < 10 }
    ensures { (result ≡ aside_turn k) × (result < 10) }
{
    if k == 0 { 9 } else { k - 1 }
}

// Before the first name.
#[tactic(auto, unfolding(crate::specs::Names::no_stage))]
fn no_stage() -> Stage
    ensures { result ≡ no_stage }
{
    Stage {
        aside: [false; 10],
        given: [false; 10],
    }
}

// How far the names are after output i was to be put aside.
#[tactic(auto, unfolding(crate::specs::Names::put_aside))]
fn after_aside(s: &mut Stage, i: usize, gone: Result<bool, Failed>) -> Result<(), Failed>
    requires { i < 10 }
    ensures stage { s.new ≡ put_aside s.old i gone }
    ensures well { result ≡ went gone }
{
    if gone? {
        s.aside[i] = true;
    }
    Ok(())
}

// How far the names are after output i was to get its own.
#[tactic(auto, unfolding(crate::specs::Names::gave))]
fn after_given(s: &mut Stage, i: usize, given: Result<(), Failed>) -> Result<(), Failed>
    requires { i < 10 }
    ensures stage { s.new ≡ gave s.old i given }
    ensures well { result ≡ given }
{
    given?;
    s.given[i] = true;
    Ok(())
}

// Where the last `/` of a prefix stands.
fn slash_at(prefix: &[u8]) -> Option<usize>
    ensures { MatchOption result ((k : ℕ) → k < length prefix.now → slice_index prefix.now k ≢ 47) (λ i. (i < length prefix.now) × (slice_index prefix.now i ≡ 47) × ((k : ℕ) → i < k → k < length prefix.now → slice_index prefix.now k ≢ 47)) }
{
    prefix.iter().rposition(|x| *x == b'/')
}

// How many octets of a prefix name its folder: those up to its last `/`.
#[tactic(auto, using(crate::proofs::Endings::slash_none, crate::proofs::Endings::slash_last))]
fn folder_size(prefix: &[u8]) -> usize
    ensures { (result ≡ last_slash 0 0 prefix.now) × (result ≤ length prefix.now) }
{
    slash_at(prefix).map_or(0, |i| i + 1)
}

// Puts the names of a folder on its device.
fn keep_folder(system: &System, folder: &[u8]) -> bool {
    if let Source::Of(file) = intake::open_read(system, folder)
        && keep(system, Some(file)).is_ok()
    {
        return true;
    }
    say_failed(system, folder);
    false
}

// Puts the names that begin with a prefix on their device.
fn keep_names(system: &System, prefix: &[u8]) -> bool {
    match folder_size(prefix) {
        0 => keep_folder(system, b"."),
        k => keep_folder(system, &prefix[..k]),
    }
}

// Gives each output its name, and puts the names on their device. What had the names is put aside first and removed at the end, or gets them again
// where something fails.
pub fn give_names(system: &System, plan: Plan, prefix: &[u8]) -> bool {
    let run = Run {
        system,
        plan,
        prefix,
    };
    let mut s = no_stage();
    let good = run.give_each(&mut s).is_ok() && keep_names(system, prefix);
    if good {
        run.forget_all(s);
    } else {
        run.undo_all(s);
    }
    good
}

// ---- a run that fails

// Removes the unfinished files that `make_all` made, where that still can be done. The program ends then, and closes them.
pub fn remove_all(system: &System, plan: Plan, prefix: &[u8]) {
    let run = Run {
        system,
        plan,
        prefix,
    };
    run.remove_first(10);
}
