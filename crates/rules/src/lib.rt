// The types that document 01 speaks of, and those that its rules decide by. Plain data, all of it, handed in and out by value; so a struct
// has its wide fields first and its narrow ones last, whatever the paper's order: the gaps between them would be copied piece by piece.
#![tactic(auto)]

ghost use Rattle.std.specs.Prelude.{◌≡◌};
ghost use Rattle.rules.specs.Tests.{number_of};

// Sizes in octets: of the held area, of a lane's part of it, of the least unit and record areas, of a record, of the longest batch.
pub const HELD_SIZE: usize = 65536;

pub const PART_SIZE: usize = 8192;

pub const UNITS_SIZE: usize = 12288;

pub const RECORDS_SIZE: usize = 49152;

pub const RECORD_SIZE: usize = 24;

pub const BATCH_SIZE: usize = 32768;

// What a lane carries: packets that span frames, or access units (MAPA_SDU). The first is what a state of zeros has.
#[derive(Clone, Copy, Default)]
pub enum Kind {
    #[default]
    Packets,
    Access,
}

// A virtual channel with a service (0 sequence-controlled, 1 expedited), how many octets its count has, and whether its
// frames have an operational control field. The service stays a number: set-up refuses any other by 1, and an enum would ask that of its callers.
#[derive(Clone, Copy, Default)]
pub struct Channel {
    pub octets: u8,
    pub vc: u8,
    pub service: u8,
    pub ocf: bool,
}

// A listed channel, by its place in the list; a map; what the lane carries; the longest unit; the protocol number.
#[derive(Clone, Copy, Default)]
pub struct Lane {
    pub longest: u16,
    pub channel: u8,
    pub kind: Kind,
    pub map: u8,
    pub upid: u8,
}

// Frame length, spacecraft number, source-or-destination bit, octets of the insert zone, whether there is a frame check;
// then how many of the channels are listed, and how many of the lanes are numbered: later slots say nothing. The bit stays a number, as a service does.
#[derive(Clone, Copy)]
pub struct Setting {
    pub length: usize,
    pub insert: usize,
    pub listed: usize,
    pub numbered: usize,
    pub channels: [Channel; 8],
    pub lanes: [Lane; 8],
    pub craft: u16,
    pub bit: u8,
    pub check: bool,
}

// What a reader expects of a channel: whether it expects a count, and which. No Option: refusal 1 (rules/Settings.reader_ok) judges the count of a
// channel also where none is expected, so a state says one there too.
#[derive(Clone, Copy)]
pub struct Expect {
    pub count: u64,
    pub known: bool,
}

// What it expects of each channel, counts beside counts: an array of the pairs would be copied piece by piece, for the gap in each.
#[derive(Clone, Copy, Default)]
pub struct Expects {
    pub counts: [u64; 8],
    pub known: [bool; 8],
}

// What a reader keeps of a lane: how many octets it holds, and how many frames of the lane carry them. A lane holds fewer than 8,192 octets, so
// two octets are enough for each.
#[derive(Clone, Copy, Default)]
pub struct Slot {
    pub held: u16,
    pub span: u16,
}

// A reader's state: of each channel the count that it expects, of each lane its slot.
#[derive(Clone, Copy)]
pub struct Reader {
    pub setting: Setting,
    pub expects: Expects,
    pub slots: [Slot; 8],
}

// A writer's state: for each channel the count of its next frame, for each lane the number of its next frame in its batch.
#[derive(Clone, Copy)]
pub struct Writer {
    pub setting: Setting,
    pub counts: [u64; 8],
    pub next: [usize; 8],
}

// Why a call is refused: a case for each of the paper's numbers, in their order, which begins with 1.
#[derive(Clone, Copy, PartialEq, Eq)]
pub enum Refusal {
    Invalid = 1,
    AreaShort,
    Length,
    Check,
    Version,
    Craft,
    HeaderEnd,
    Fields,
    Unlisted,
    CountLength,
    OcfFlag,
    DataField,
    NoLane,
    Batch,
    Parts,
    FrameNumber,
}

impl Refusal {
    // The paper's number.
    pub fn number(self) -> u8
        ensures { result ≡ number_of self }
    {
        self as u8
    }
}

// What the reader's set-up answers.
#[derive(Clone, Copy)]
pub struct Listener {
    pub state: Reader,
    pub outcome: Result<(), Refusal>,
}

// What the writer's set-up and each write answer.
#[derive(Clone, Copy)]
pub struct Sender {
    pub state: Writer,
    pub outcome: Result<(), Refusal>,
}

// The class of a frame. A refusal is its number, no case of Refusal: what prints a class promises a text for every number, and the enum would ask more
// of its callers.
#[derive(Clone, Copy)]
pub enum Class {
    Idle,
    Counted,
    Read,
    Repeat,
    Refused(u8),
}

// What a read answers: class, units, unit octets, missing frames, and octets that were idle, fill or dropped.
#[derive(Clone, Copy)]
pub struct Answer {
    pub units: usize,
    pub octets: usize,
    pub missing: u64,
    pub idle: usize,
    pub fill: usize,
    pub dropped: usize,
    pub class: Class,
}

// A read's answer, and the state after it.
#[derive(Clone, Copy)]
pub struct Taken {
    pub answer: Answer,
    pub state: Reader,
}

// What a look answers: class, missing frames, the place of the frame's channel if it is Counted, Read or a repeat, and its lane if it is Read.
#[derive(Clone, Copy)]
pub struct Looked {
    pub missing: u64,
    pub channel: Option<usize>,
    pub lane: Option<usize>,
    pub class: Class,
}

// What comes of a frame that is looked at, and then taken or left out: what the look said, the answer and the state, and whether it was left out.
#[derive(Clone, Copy)]
pub struct Passed {
    pub taken: Taken,
    pub looked: Looked,
    pub left: bool,
}

// The families of packets: Space Packets, and encapsulation packets (document 02, A5).
#[derive(Clone, Copy)]
pub enum Family {
    Space,
    Encapsulation,
}

// What the octets from a packet's first on say of it: how many octets its header still lacks; the family and size of one that is not idle; the
// size of an idle one; or that it is unreadable.
#[derive(Clone, Copy)]
pub enum Measure {
    Lacks(usize),
    Packet(Family, usize),
    Idle(usize),
    Unreadable,
}

// What becomes of the packet at the front of a zone: handed out whole, left out as idle, held for it is cut, or dropped with
// the rest of the zone.
#[derive(Clone, Copy)]
pub enum Next {
    Give(usize),
    Skip(usize),
    Keep,
    Lose,
}

// What becomes of held octets with those that follow them: all handed out, all idle, all held, or all dropped.
#[derive(Clone, Copy)]
pub enum Fate {
    Hand,
    Blank,
    Hold,
    Drop,
}

// What a frame is: refused, idle, counted on a channel, read by a lane, or a repeat on a channel. A refusal is its number, as in a class.
#[derive(Clone, Copy)]
pub enum Verdict {
    Refused(u8),
    Idle,
    Counted(usize),
    Read(usize),
    Repeat(usize),
}

// After a frame's count was taken: the state, how many frames are missing, how many held octets that dropped.
#[derive(Clone, Copy)]
pub struct Gap {
    pub state: Reader,
    pub missing: u64,
    pub dropped: usize,
}

// What the records of one read have in common: lane, virtual channel, map, service, and the finishing frame's count.
#[derive(Clone, Copy)]
pub struct Info {
    pub count: u64,
    pub lane: u8,
    pub vc: u8,
    pub map: u8,
    pub service: u8,
}
