// The frames of a recording through one reader, for the program unpack: each is looked at, and taken or left out by the operator's decision; units by
// lane, records, a table of units, a line a frame and totals.
//
// What the system reads and answers stands in the contracts as what came and how the writes went (`Went`); all else is determined by
// it. Proved: the frame of a turn is the octets that came, and state, areas and totals after it are those to which the rules' `pass` comes
// (`turn_frame`); so they are over all frames (`take_all`). What is handed to the system is asked for where it is handed over: a
// frame's line, of what the rules' look and take say of it, as many unit and record octets as it gave (`put_out`), the lines of its units (`hand_rows`), the
// titles, and the text of all totals (`hand_totals`). Shown by runs: what no contract can follow into the system.
ghost use Rattle.std.specs.Prelude.{◌≡◌, true, ◌*◌, ◌≤◌, ◌<◌, length, IfSome};
ghost use Rattle.rules.specs.Settings.{setting_ok, reader_ok};
ghost use Rattle.unpack_text.specs.Lines.{title};
ghost use Rattle.refusals.specs.Words.{totals_text};
ghost use Rattle.unit_table.specs.Rows.{table_title, rows_text};
ghost use Rattle.unpack.specs.Stages.{totals_after, step_of, stage_of, SameSizes, AreasFit, Gave, Handed, Handled, Turned, Finished, taken_turn, first_turn, ending_of, halted_turn, output_of, goes_on};

use intake::{Source, System};
use refusals::Totals;
use rules::{Answer, Passed, Reader, Setting, Verdict};
use std::fs::File;
use unit_table::Origin;

// What failed in a turn: reading the recording, printing, or writing an output.
#[derive(Clone, Copy)]
pub enum Failure {
    NotRead,
    NotPrinted,
    NotWritten(usize),
}

// How a turn went with the system.
pub type Went = Result<(), Failure>;

// What a run says on the way, and makes: how many frames are a hundredth of the recording (0 where that is not known), whether no line a frame is
// printed, and whether there is a table of units.
#[derive(Clone, Copy)]
pub struct Sinks {
    pub hundredth: u64,
    pub quiet: bool,
    pub table: bool,
}

// Where all that a frame gives goes: the system, the outputs, and what is made of them.
#[derive(Clone, Copy)]
pub struct Out<'a> {
    pub system: &'a System,
    pub files: &'a [Option<File>; 10],
    pub sinks: Sinks,
}

// The areas that the reader is lent.
#[derive(Drop)]
struct Areas {
    held: [u8; rules::HELD_SIZE],
    units: [u8; rules::UNITS_SIZE],
    records: [u8; rules::RECORDS_SIZE],
}

// A frame taken or left out: state and totals after it, whose it is, its answer, where its units come from, and whether it was left out.
#[derive(Clone, Copy)]
struct Step {
    state: Reader,
    totals: Totals,
    verdict: Verdict,
    answer: Answer,
    origin: Origin,
    left: bool,
}

// A turn: state and totals after it, how many frames there were, how many octets came, and none where the system failed, how it went, and whether
// there may be more.
#[derive(Clone, Copy)]
pub struct Turn {
    pub state: Reader,
    pub totals: Totals,
    pub count: u64,
    pub came: Option<usize>,
    pub went: Went,
    pub more: bool,
}

// ---- reading

// Reads a frame of `size` octets, fewer where the recording ends: how many came, and none where the system failed.
// The loop goes on by as many octets as each read brings, which no range or iterator has for its step.
fn read_frame(system: &System, from: &Source, frame: &mut [u8], size: usize) -> Option<usize>
    requires { size ≤ length frame.old }
    ensures { IfSome result (λ n. n ≤ size) }
{
    let mut done: usize = 0;
    while done < size {
        let n = intake::read_once(system, from, &mut frame[done..size])?;
        if n == 0 {
            break;
        }
        done += n;
    }
    Some(done)
}

// The totals with one frame more, which was left out or not.
#[tactic(auto, unfolding(crate::specs::Stages::totals_after))]
fn totals_after(left: bool, s: Setting, t: Totals, v: Verdict, a: Answer, frame: &[u8]) -> Totals
    ensures { result ≡ totals_after left s t v a frame.now }
{
    if left {
        refusals::pass_over(t)
    } else {
        refusals::count_frame(s, t, v, a, frame)
    }
}

// Takes frame k, of which this came from this state, into the totals.
#[tactic(auto, unfolding(crate::specs::Stages::step_of))]
fn take_frame(k: u64, r: Reader, t: Totals, w: Passed, frame: &[u8]) -> Step
    ensures { result ≡ step_of k r t w frame.now }
{
    let verdict = reader::whose(w.looked);
    let answer = w.taken.answer;
    Step {
        state: w.taken.state,
        totals: totals_after(w.left, r.setting, t, verdict, answer, frame),
        verdict,
        answer,
        origin: unit_table::origin_of(r.setting, t.tally, k, verdict),
        left: w.left,
    }
}

// ---- writing

// Writes text to standard output, and says so where that fails.
pub fn print(system: &System, octets: &[u8]) -> bool {
    if console::write_out(system, octets) {
        return true;
    }
    console::say_failed(system, b"unpack", b"standard output");
    false
}

// The output that a frame's units go to: its lane's, or none.
#[tactic(auto, unfolding(crate::specs::Stages::output_of))]
fn output_of(v: Verdict) -> Option<usize>
    ensures { result ≡ output_of v }
{
    match v {
        Verdict::Read(l) => Some(l),
        Verdict::Refused(_) | Verdict::Idle | Verdict::Counted(_) | Verdict::Repeat(_) => None,
    }
}

// Whether there may be more after a frame that is whole or not; and whether lines go to a table that there is or is not.
#[tactic(auto, unfolding(crate::specs::Stages::goes_on))]
fn goes_on(whole: bool, went: Went) -> bool
    ensures { result ≡ goes_on whole went }
{
    whole && went.is_ok()
}

impl Out<'_> {
    // Writes octets to output i. There is no output past the ten.
    fn write_to(&self, i: usize, octets: &[u8]) -> Went {
        if i < 10 && outputs::write_all(self.system, &self.files[i], octets) {
            Ok(())
        } else {
            Err(Failure::NotWritten(i))
        }
    }

    // Writes units to output i and records to theirs.
    fn put_units(&self, i: usize, units: &[u8], records: &[u8]) -> Went {
        self.write_to(i, units)?;
        self.write_to(9, records)
    }

    // Writes text to the table of units.
    fn write_table(&self, text: &[u8]) -> Went {
        self.write_to(8, text)
    }

    // Writes the lines of n units, which come from there, to the table.
    fn hand_rows(&self, g: Origin, n: usize, units: &[u8], records: &[u8], text: &[u8]) -> Went
        requires { text.now ≡ rows_text g n units.now records.now }
    {
        self.write_table(text)
    }

    // Puts the lines of n units, all of them, and writes them to the table at once.
    fn put_lines(&self, area: &mut [u8], g: Origin, n: usize, units: &[u8], records: &[u8]) -> Went
        requires { (n ≤ 2048) × (174 * n ≤ length area.old) }
    {
        let end = unit_table::put_rows(area, g, n, units, records);
        self.hand_rows(g, n, units, records, &area[..end])
    }

    // Writes the lines of n units to the table, which is one that there is. Most reads give few, and an area is cleared before it is lent: the large one only where it is needed.
    fn put_table(&self, g: Origin, n: usize, units: &[u8], records: &[u8]) -> Went
        requires { (self.now.sinks.table ≡ true) × (n ≤ 2048) }
    {
        if n <= 64 {
            let mut area = [0u8; 11136];
            return self.put_lines(&mut area, g, n, units, records);
        }
        let mut area = [0u8; 356352];
        self.put_lines(&mut area, g, n, units, records)
    }

    // Prints a frame's line, where lines are printed.
    fn print_line(&self, line: &[u8]) -> Went {
        if self.sinks.quiet || console::write_out(self.system, line) {
            Ok(())
        } else {
            Err(Failure::NotPrinted)
        }
    }

    // Prints a frame's line, and writes the units and the records that it gave, if there are any, and their lines of the table, if there is one. Only a
    // frame of a lane gives units.
    fn put_out(
        &self,
        g: Origin,
        v: Verdict,
        a: Answer,
        line: &[u8],
        units: &[u8],
        records: &[u8],
    ) -> Went
        requires { Handed g v a line.now units.now records.now }
    {
        self.print_line(line)?;
        if units.is_empty() {
            return Ok(());
        }
        let lane = output_of(v).ok_or(Failure::NotWritten(10))?;
        let went = self.put_units(lane, units, records);
        if goes_on(self.sinks.table, went) {
            self.put_table(g, a.units, units, records)
        } else {
            went
        }
    }

    // Puts a frame's line, and hands it out with what the frame gave, out of the areas as they were left.
    fn give_out(&self, p: Step, units: &[u8], records: &[u8]) -> Went
        requires { Gave p.origin p.left p.verdict p.answer units.now records.now }
    {
        let g = p.origin;
        let v = p.verdict;
        let a = p.answer;
        let mut area = [0u8; 176];
        let end = unpack_text::put_line(&mut area, 0, g.frame, p.left, v, a);
        let n = a.octets;
        let c = rules::RECORD_SIZE * a.units;
        self.put_out(g, v, a, &area[..end], &units[..n], &records[..c])
    }

    // Says how far the program is, where that is due and all went well.
    fn say_progress(&self, went: Went, count: u64) {
        if went.is_ok() && console::progress::is_due(count) {
            let live = console::progress::is_live(self.system);
            console::progress::say_far(b"unpack", count, self.sinks.hundredth, count, live);
        }
    }
}

// ---- frame by frame

// The turn in which a frame of n octets came, and what it gave was handed out.
#[tactic(auto, unfolding(crate::specs::Stages::taken_turn))]
fn turn_after(u: Turn, n: usize, p: Step, went: Went) -> Turn
    requires { u.count < 18446744073709551615 }
    ensures { result ≡ taken_turn u n p.state p.totals went }
{
    Turn {
        state: p.state,
        totals: p.totals,
        count: u.count + 1,
        came: Some(n),
        went,
        more: goes_on(n == u.state.setting.length, went),
    }
}

// Passes the frame of n octets that came, prints its line, and writes what it gave.
fn handle(
    out: &Out,
    without: [bool; 63],
    u: Turn,
    n: usize,
    frame: &[u8],
    areas: &mut Areas,
) -> Turn
    requires { (reader_ok u.state ≡ true) × AreasFit u.count areas.old.units areas.old.records }
    ensures handled { Handled u n (stage_of without u areas.old) frame.now result (stage_of without result areas.new) }
    ensures sizes { SameSizes areas.old areas.new }
{
    let w = reader::pass(
        without,
        u.state,
        frame,
        &mut areas.held,
        &mut areas.units,
        &mut areas.records,
    );
    let p = take_frame(u.count, u.state, u.totals, w, frame);
    let went = out.give_out(p, &areas.units, &areas.records);
    let v = turn_after(u, n, p, went);
    out.say_progress(went, v.count);
    v
}

// No frame came.
#[tactic(auto, unfolding(crate::specs::Stages::halted_turn, crate::specs::Stages::ending_of))]
fn halted(u: Turn, came: Option<usize>) -> Turn
    ensures { result ≡ halted_turn u came }
{
    Turn {
        came,
        went: came.map(|_| ()).ok_or(Failure::NotRead),
        more: false,
        ..u
    }
}

// Passes, prints and writes the frame that came into the front of the frame area, if one came.
fn turn_frame(
    out: &Out,
    without: [bool; 63],
    u: Turn,
    came: Option<usize>,
    frame: &[u8],
    areas: &mut Areas,
) -> Turn
    requires { (reader_ok u.state ≡ true) × AreasFit u.count areas.old.units areas.old.records × IfSome came (λ n. n ≤ u.state.setting.length) × (u.state.setting.length ≤ length frame.now) }
    ensures turned { Turned u came (stage_of without u areas.old) frame.now result (stage_of without result areas.new) }
    ensures sizes { SameSizes areas.old areas.new }
{
    let n = came.unwrap_or(0);
    if n == 0 {
        halted(u, came)
    } else {
        handle(out, without, u, n, &frame[..n], areas)
    }
}

// Before the first frame.
fn first_turn(s: Setting) -> Turn
    ensures { result ≡ first_turn s }
{
    Turn {
        state: reader::set_up(s).state,
        totals: refusals::no_totals(),
        count: 0,
        came: Some(0),
        went: Ok(()),
        more: true,
    }
}

// Passes the recording's frames to its end, or to the first failure. A proved loop has to end: this one counts its frames, to a number that
// no run reaches.
pub fn take_all(out: &Out, without: [bool; 63], s: Setting, from: &Source) -> Turn
    requires { setting_ok s ≡ true }
    ensures { Finished without s result.count result.state result.totals }
{
    let mut areas = Areas {
        held: [0u8; rules::HELD_SIZE],
        units: [0u8; rules::UNITS_SIZE],
        records: [0u8; rules::RECORDS_SIZE],
    };
    let mut frame = [0u8; 4096];
    let mut turn = first_turn(s);
    for _k in 0..u64::MAX {
        let came = read_frame(out.system, from, &mut frame, turn.state.setting.length);
        turn = turn_frame(out, without, turn, came, &frame, &mut areas);
        if !turn.more {
            break;
        }
    }
    turn
}

// ---- title and totals

// Prints the title.
fn hand_title(system: &System, text: &[u8]) -> bool
    requires { text.now ≡ title }
{
    print(system, text)
}

// Prints the totals of a recording, after which the reader has this state.
fn hand_totals(system: &System, r: Reader, t: Totals, text: &[u8]) -> bool
    requires { text.now ≡ totals_text r t }
{
    print(system, text)
}

// Puts the title, and prints it, where lines are printed.
pub fn print_title(system: &System, quiet: bool) -> bool {
    if quiet {
        return true;
    }
    let mut area = [0u8; 57];
    let end = unpack_text::put_title(&mut area, 0);
    hand_title(system, &area[..end])
}

impl Out<'_> {
    // Writes the title of the table of units.
    fn hand_table(&self, text: &[u8]) -> Went
        requires { text.now ≡ table_title }
    {
        self.write_table(text)
    }

    // Puts the title of the table of units, and writes it, where there is a table.
    pub fn start_table(&self) -> Went {
        if !self.sinks.table {
            return Ok(());
        }
        let mut area = [0u8; 57];
        let end = unit_table::put_title(&mut area, 0);
        self.hand_table(&area[..end])
    }
}

// Puts all totals, and prints them.
pub fn print_totals(system: &System, r: Reader, t: Totals) -> bool
    requires { reader_ok r ≡ true }
{
    let mut area = [0u8; 4396];
    let end = refusals::put_totals(&mut area, 0, r, t);
    hand_totals(system, r, t, &area[..end])
}
