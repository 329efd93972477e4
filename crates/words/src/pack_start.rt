// What pack decides before it reads a lane's file: what a word of its command line is, what the words after the setting come to, and
// which files may be read.
ghost use Rattle.std.specs.Prelude.{◌≡◌};
ghost use Rattle.words.specs.Asked.{start_of};
ghost use Rattle.words.specs.PackWords.{word_of, lane as laneNamed, name_of};
ghost use Rattle.words.specs.Plans.{no_plan, bad_plan, lane_plan, plan_on, fine, objection_to};

use crate::{Asked, Start, Word};
use files::Known;

// ---- options and names

// What a word is: its one option is --interleave.
#[tactic(auto, unfolding(crate::specs::PackWords::word_of, rules::specs::Listing::text))]
pub fn word_of(word: &[u8]) -> Word
    ensures { result ≡ word_of word.now }
{
    if crate::is_word(word, b"--interleave") {
        Word::First
    } else {
        crate::word_of(word)
    }
}

// What a run does that is asked for this: it takes a setting and at least one name more, of which no more than four in all are counted.
pub fn start_of(a: Asked) -> Start
    ensures { result ≡ start_of a 2 4 }
{
    crate::start_of(a, 2, 4)
}

// ---- what a word after the setting names

// What a word after the setting names: a lane's file, the list of lengths of the file before it, the insert octets, the OCF octets; it is an
// option; or none of these.
#[derive(Clone, Copy)]
pub enum Named {
    ToLane(usize),
    Lengths,
    Insert,
    Ocf,
    Option,
    Other,
}

// The lane whose file these octets name, if they do.
fn lane_named(s: &[u8], numbered: usize) -> Named
    ensures { result ≡ laneNamed numbered s.now }
{
    if s.len() < 2 || s[1] != b'=' || s[0] < b'0' {
        return Named::Other;
    }
    let l = (s[0] - b'0') as usize;
    if l < numbered {
        Named::ToLane(l)
    } else {
        Named::Other
    }
}

// What a word names, in a setting with so many lanes.
#[tactic(auto, unfolding(crate::specs::PackWords::name_of, rules::specs::Listing::text))]
pub fn name_of(s: &[u8], numbered: usize) -> Named
    ensures { result ≡ name_of numbered s.now }
{
    if crate::is_option(s) {
        Named::Option
    } else if crate::begins(s, b"lengths=") {
        Named::Lengths
    } else if crate::begins(s, b"insert=") {
        Named::Insert
    } else if crate::begins(s, b"ocf=") {
        Named::Ocf
    } else {
        lane_named(s, numbered)
    }
}

// ---- the words one after another

// What is wrong with a word: it names the insert octets, the OCF octets or a lane again; it is a list of lengths, and the word before it is no
// access lane's file; it names none of what it should; the system does not hand it out.
#[derive(Clone, Copy, PartialEq, Eq)]
pub enum Bad {
    InsertTwice,
    OcfTwice,
    LaneTwice,
    NoUnits,
    NoName,
    NoWord,
}

// What is wrong with the words, if anything is; which of them name the insert and OCF octets; whether one names a lane's file, whether the last
// one names an access lane's, and which lanes are named.
#[derive(Clone, Copy)]
pub struct Plan {
    pub insert: Option<usize>,
    pub ocf: Option<usize>,
    pub bad: Option<Bad>,
    pub lanes: bool,
    pub units: bool,
    pub named: [bool; 8],
}

// No word was looked at.
#[tactic(auto, unfolding(crate::specs::Plans::no_plan))]
pub fn no_plan() -> Plan
    ensures { result ≡ no_plan }
{
    Plan {
        insert: None,
        ocf: None,
        bad: None,
        lanes: false,
        units: false,
        named: [false; 8],
    }
}

// The same plan, but for what is wrong.
pub fn bad_plan(p: Plan, bad: Option<Bad>) -> Plan
    ensures { result ≡ bad_plan p bad }
{
    Plan { bad, ..p }
}

// The plan after a word that names lane l's file: whether that is an access lane, and whether each lane is named once.
#[tactic(auto, unfolding(crate::specs::Plans::lane_plan))]
fn lane_plan(p: Plan, l: usize, access: bool, once: bool) -> Plan
    ensures { result ≡ lane_plan p l access once }
{
    if 8 <= l {
        return bad_plan(p, Some(Bad::NoName));
    }
    if once && p.named[l] {
        return bad_plan(p, Some(Bad::LaneTwice));
    }
    let mut q = p;
    q.named[l] = true;
    q.lanes = true;
    q.units = access;
    q
}

// The plan after word i with this name.
#[tactic(auto, unfolding(crate::specs::Plans::plan_on))]
pub fn planned(p: Plan, i: usize, name: Named, access: bool, once: bool) -> Plan
    ensures { result ≡ plan_on p i name access once }
{
    let q = Plan { units: false, ..p };
    match name {
        Named::ToLane(l) => lane_plan(p, l, access, once),
        Named::Lengths if p.units => q,
        Named::Lengths => bad_plan(p, Some(Bad::NoUnits)),
        Named::Insert if p.insert.is_none() => Plan {
            insert: Some(i),
            ..q
        },
        Named::Insert => bad_plan(p, Some(Bad::InsertTwice)),
        Named::Ocf if p.ocf.is_none() => Plan { ocf: Some(i), ..q },
        Named::Ocf => bad_plan(p, Some(Bad::OcfTwice)),
        Named::Option => p,
        Named::Other => bad_plan(p, Some(Bad::NoName)),
    }
}

// Whether nothing is wrong with the words.
#[tactic(auto, unfolding(crate::specs::Plans::fine))]
pub fn is_fine(bad: Option<Bad>) -> bool
    ensures { result ≡ fine bad }
{
    bad.is_none()
}

// ---- which files may be read

// What stands against reading a file: it would be read twice, and what is no regular file need not give the same octets again; it is standard
// output, and frames would be written into it.
#[derive(Clone, Copy, PartialEq, Eq)]
pub enum Objection {
    NotRegular,
    Output,
}

// What stands against reading a file, with this standard output, once or twice.
#[tactic(auto, unfolding(crate::specs::Plans::objection_to))]
pub fn against(k: Option<Known>, out: Option<Known>, twice: bool) -> Option<Objection>
    ensures { result ≡ objection_to k out twice }
{
    if k.is_some_and(files::regular) {
        files::same(k, out).then_some(Objection::Output)
    } else {
        twice.then_some(Objection::NotRegular)
    }
}
