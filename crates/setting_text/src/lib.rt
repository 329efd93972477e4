// A setting from its text: a table of its lines, what each says, the first bad line, and what a text lacks.
#![tactic(auto)]

mod messages;
pub mod quoting;

ghost use Rattle.std.specs.Prelude.{◌≡◌, ◌≤◌, ◌<◌, [], ◌∷◌, get_or, map, cond, Option, Some, None, Ok, Err};
ghost use Rattle.rules.specs.Tests.{◌=?◌};
ghost use Rattle.rules.specs.Listing.{text};
ghost use Rattle.rules.specs.Refusals.{channel_at};
ghost use Rattle.rules.specs.declared.Kind.TheVariants as kinds;
ghost use Rattle.setting_text.specs.declared.Ask.TheVariants as ask;
ghost use Rattle.setting_text.specs.declared.Finding.TheVariants as finds;
ghost use Rattle.setting_text.specs.declared.Says.TheVariants as say;
ghost use Rattle.setting_text.specs.Texts.{blank, stops, words, number_of};
ghost use Rattle.setting_text.specs.Table.{index, field_of, wanted, says, item, word, either, from, end, yes_or_no, direction_line, frame_lines, part_lines, channel_name, channel_line, lane_head, longest_end, packets_end, access_end, lane_lines, place, worth, fresh, put, counted, noted, step, follow, through, heard};
ghost use Rattle.setting_text.specs.Places.{Until, Word, seen, moved, most, Bounded, Sound, Room, Gathering};
ghost use Rattle.setting_text.specs.Facts.{nothing, refuse, forbid, is_told, with_fact, add_fact, with_channel, with_lane, ocf_unlike, add_channel, channel_of, add_lane, lane_of, add_lane_of, take_heard, take_line, completed, zoneless, judged, parsed};

use rules::{Channel, Kind, Lane, Setting};

// What was expected at a line that is refused.
#[derive(Clone, Copy)]
pub enum Wanted {
    Fact,
    Length,
    Service,
    Count,
    Ocf,
    Channel,
    Map,
    Carries,
    Longest,
    Number(usize, usize),
    YesOrNo,
    End,
    NewFact,
    NewChannel,
    SameOcf,
    ListedChannel,
    NewMap,
    FewerChannels,
    FewerLanes,
}

// The facts that a text says once, each in a line of its own.
#[derive(Clone, Copy)]
pub enum Fact {
    Length,
    Spacecraft,
    Direction,
    Insert,
    Check,
}

// What a line says, and what a text has to say: each single fact, a channel, a lane.
#[derive(Clone, Copy)]
pub enum Says {
    Fact(Fact),
    Channel,
    Lane,
}

// Why a line is refused: the first of its words that does not fit, from 0, or none where all do and the lines before forbid it; and what was
// expected there.
#[derive(Clone, Copy)]
pub struct Misfit {
    pub word: Option<usize>,
    pub wanted: Wanted,
}

// Why a text is no valid setting: a bad line, from 1; what the text lacks; virtual channel and service of a channel whose zone has no octet;
// another rule of document 01 that the setting breaks.
#[derive(Clone, Copy)]
pub enum Finding {
    Line(usize, Misfit),
    Lacks(Says),
    Zone(u8, u8),
    Other,
}

impl From<Says> for Finding {
    ghost from_gives = { λ s f. f ≡ finds.Lacks s };

    fn from(s: Says) -> Finding {
        Finding::Lacks(s)
    }
}

// Octets that end something: a line feed, a `#`, a blank, what is no blank, a carriage return. `until_stop` takes one, and no closure in its
// place: that would ask of callers that it may be called.
#[derive(Clone, Copy)]
pub enum Stop {
    Feed,
    Hash,
    Blank,
    Word,
    Return,
}

// Where a word stands. Where there is none, an empty one: its place is promised too (`Places.Word`), and the next look goes on from there.
#[derive(Clone, Copy)]
pub struct Span {
    pub from: usize,
    pub to: usize,
}

// Where a line's number goes: to one of five single facts, to a channel's fields, or to what a lane has besides.
#[derive(Clone, Copy)]
pub enum Field {
    Length,
    Spacecraft,
    Direction,
    Insert,
    Check,
    Channel,
    Service,
    Count,
    Ocf,
    Map,
    Upid,
    Longest,
}

impl From<Fact> for Field {
    ghost from_gives = { λ f r. r ≡ field_of f };

    fn from(fact: Fact) -> Field {
        match fact {
            Fact::Length => Field::Length,
            Fact::Spacecraft => Field::Spacecraft,
            Fact::Direction => Field::Direction,
            Fact::Insert => Field::Insert,
            Fact::Check => Field::Check,
        }
    }
}

// What is asked of a word: to be one of some words, or else this was wanted; to be a number from .. to ..; not to be there, and
// then the line says this, if anything.
#[derive(Clone, Copy)]
pub enum Ask {
    Word(Wanted),
    Number(usize, usize),
    End(Option<Says>),
}

// What is heard of a line: its numbers by their fields, how many words fit, and what the line says, or what was wanted in the place of the
// first word that does not fit. That the numbers have bounds is asked where it is needed (`Places.Bounded`): a ghost field would go into each
// definition of the specs that makes one, as `Table.noted`, which takes any number.
#[derive(Clone, Copy)]
pub struct Heard {
    pub numbers: [usize; 12],
    pub count: usize,
    pub says: Result<Option<Says>, Wanted>,
}

// How far a line is held against the table: the next octet, what is heard of it as the present line of the table, and as the best
// one before.
#[derive(Clone, Copy)]
pub struct Trace<'a> {
    pub line: &'a [u8],
    pub at: usize,
    pub now: Heard,
    pub best: Heard,
}

// What the lines said so far: each single fact, and a setting with the channels and lanes, in which nothing else is said. That the lists have
// room is asked (`Places.Room`): a ghost field would go into each definition of the specs that makes one, as `Facts.with_channel`, which adds to any list.
#[derive(Clone, Copy)]
pub struct Draft {
    pub length: Option<usize>,
    pub craft: Option<u16>,
    pub bit: Option<u8>,
    pub insert: Option<usize>,
    pub check: Option<bool>,
    pub lists: Setting,
}

// Whether an octet is a blank.
pub fn is_blank(x: u8) -> bool
    ensures { result ≡ blank x }
{
    matches!(x, b' ' | b'\t' | b'\r')
}

impl Stop {
    // Whether an octet is one of these.
    fn stops(self, x: u8) -> bool
        ensures { result ≡ stops self x }
    {
        match self {
            Stop::Feed => x == b'\n',
            Stop::Hash => x == b'#',
            Stop::Blank => is_blank(x),
            Stop::Word => !is_blank(x),
            Stop::Return => x == b'\r',
        }
    }
}

// How many octets stand before the first of these; all, where there is none.
pub fn until_stop(octets: &[u8], s: Stop) -> usize
    ensures { Until s octets.now result }
{
    octets
        .iter()
        .position(|x| s.stops(*x))
        .unwrap_or(octets.len())
}

// Where the next word stands from octet `at` on; an empty place where there is none.
pub fn next_word(line: &[u8], at: usize) -> Span
    ensures { Word line.now at result.from result.to }
{
    let n = line.len();
    if n < at {
        return Span { from: n, to: n };
    }
    let from = at + until_stop(&line[at..], Stop::Word);
    let to = from + until_stop(&line[from..], Stop::Blank);
    Span { from, to }
}

// The number, up to 65,535, that a word stands for, if any.
fn number_of(word: &[u8]) -> Option<usize>
    ensures { result ≡ number_of word.now }
{
    if word.is_empty() {
        return None;
    }
    let mut v = 0;
    for x in word {
        if !x.is_ascii_digit() {
            return None;
        }
        v = 10 * v + usize::from(*x - b'0');
        if 65535 < v {
            return None;
        }
    }
    Some(v)
}

// Which of some words a word is, from 0, if any.
fn place_of(word: &[u8], keys: &[&[u8]]) -> Option<usize>
    ensures { result ≡ place 0 word.now (map (λ k. k.now) keys.now) }
{
    keys.iter().position(|k| word == *k)
}

impl Ask {
    // The number of a word of which this is asked, if it fits. That of one of some words is its place among them.
    fn worth(self, word: &[u8], keys: &[&[u8]]) -> Option<usize>
        ensures { result ≡ worth self (map (λ k. k.now) keys.now) word.now }
    {
        match self {
            Ask::Word(_) => place_of(word, keys),
            Ask::Number(low, high) => number_of(word).filter(|n| low <= *n && *n <= high),
            Ask::End(_) => word.is_empty().then_some(0),
        }
    }

    // What was wanted, where a word does not fit.
    fn wanted(self) -> Wanted
        ensures { result ≡ wanted self }
    {
        match self {
            Ask::Word(wanted) => wanted,
            Ask::Number(low, high) => Wanted::Number(low, high),
            Ask::End(_) => Wanted::End,
        }
    }

    // What the line says, where it ends here.
    fn says(self) -> Option<Says>
        ensures { result ≡ says self }
    {
        match self {
            Ask::End(says) => says,
            _ => None,
        }
    }
}

// The numbers with one more, in its field, if it has one.
fn put(numbers: [usize; 12], field: Option<Field>, n: usize) -> [usize; 12]
    ensures { result ≡ put field n numbers }
{
    let mut numbers = numbers;
    if let Some(f) = field {
        numbers[f as usize] = n;
    }
    numbers
}

impl Heard {
    // No word was heard yet.
    fn fresh(says: Result<Option<Says>, Wanted>) -> Heard
        ensures { result ≡ fresh says }
    {
        Heard {
            numbers: [0; 12],
            count: 0,
            says,
        }
    }

    // What is heard after a word of which this was asked, and which has this number, if it fits; once a word did not fit, none does.
    fn note(self, ask: Ask, field: Option<Field>, n: Option<usize>) -> Heard
        ensures { result ≡ noted ask field n self }
    {
        if self.says.is_err() {
            return self;
        }
        let Some(n) = n else {
            return Heard {
                says: Err(ask.wanted()),
                ..self
            };
        };
        Heard {
            numbers: put(self.numbers, field, n),
            count: one_more(self.count),
            says: Ok(ask.says()),
        }
    }
}

// One more, up to 255.
fn one_more(n: usize) -> usize
    ensures { result ≡ counted n }
{
    if n < 255 { n + 1 } else { n }
}

// Each of these holds what comes next in the line against the table: what they are called says which part of it.
#[tactic(auto, unfolding(rules::specs::Listing::text, crate::specs::Table::follow, crate::specs::Table::through, crate::specs::Table::frame_lines, crate::specs::Table::part_lines, crate::specs::Table::channel_line, crate::specs::Table::lane_head, crate::specs::Table::packets_end, crate::specs::Table::access_end))]
impl<'a> Trace<'a> {
    // The place after a word that ends at `to` and of which this was asked; after a line of the table, the begin of the line.
    #[tactic(auto, unfolding(crate::specs::Places::seen))]
    fn move_on(self, to: usize, ask: Ask, now: Heard) -> Trace<'a>
        ensures { seen result ≡ moved to ask now self.entry }
    {
        let Ask::End(_) = ask else {
            return Trace {
                at: to,
                now,
                ..self
            };
        };
        let best = if self.best.count < now.count {
            now
        } else {
            self.best
        };
        Trace {
            line: self.line,
            at: 0,
            now: Heard::fresh(Ok(None)),
            best,
        }
    }

    // The next word: the words that may stand there, what is asked, and the field that its number goes to.
    fn word(self, keys: &[&[u8]], ask: Ask, field: Option<Field>) -> Trace<'a>
        ensures { seen result ≡ step (item (map (λ k. k.now) keys.now) ask field) (seen self.entry) }
    {
        let w = next_word(self.line, self.at);
        let n = ask.worth(&self.line[w.from..w.to], keys);
        self.move_on(w.to, ask, self.now.note(ask, field, n))
    }

    // One of two words; its number is its place, 0 or 1.
    fn either(self, one: &[u8], other: &[u8], wanted: Wanted, field: Field) -> Trace<'a>
        ensures { seen result ≡ step (either one.now other.now wanted field) (seen self.entry) }
    {
        self.word(&[one, other], Ask::Word(wanted), Some(field))
    }

    // A number.
    fn number(self, low: usize, high: usize, field: Field) -> Trace<'a>
        ensures { seen result ≡ step (from low high field) (seen self.entry) }
    {
        self.word(&[], Ask::Number(low, high), Some(field))
    }

    // The line's end, and what the line says then.
    fn end(self, says: Option<Says>) -> Trace<'a>
        ensures { seen result ≡ step (end says) (seen self.entry) }
    {
        self.word(&[], Ask::End(says), None)
    }

    // This word, which has no number of its own.
    fn key(self, key: &[u8], wanted: Wanted) -> Trace<'a>
        ensures { seen result ≡ step (word key.now wanted) (seen self.entry) }
    {
        self.word(&[key], Ask::Word(wanted), None)
    }

    // This word, and a number after it.
    fn named(self, key: &[u8], wanted: Wanted, low: usize, high: usize, field: Field) -> Trace<'a>
        ensures { seen result ≡ follow (word key.now wanted ∷ from low high field ∷ []) (seen self.entry) }
    {
        self.key(key, wanted).number(low, high, field)
    }

    // This word, and a number after it, which is all that the line says.
    fn fact(self, key: &[u8], wanted: Wanted, low: usize, high: usize, fact: Fact) -> Trace<'a>
        ensures { seen result ≡ follow (word key.now wanted ∷ from low high (field_of fact) ∷ end (Some (say.Fact fact)) ∷ []) (seen self.entry) }
    {
        self.named(key, wanted, low, high, Field::from(fact))
            .end(Some(Says::Fact(fact)))
    }

    // This word, and whether after it stands yes.
    fn whether(self, key: &[u8], wanted: Wanted, field: Field) -> Trace<'a>
        ensures { seen result ≡ follow (word key.now wanted ∷ yes_or_no field ∷ []) (seen self.entry) }
    {
        self.key(key, wanted)
            .either(b"no", b"yes", Wanted::YesOrNo, field)
    }

    // Source or destination.
    fn direction(self) -> Trace<'a>
        ensures { seen result ≡ follow direction_line (seen self.entry) }
    {
        self.either(b"source", b"destination", Wanted::Fact, Field::Direction)
            .end(Some(Says::Fact(Fact::Direction)))
    }

    // Frame length, spacecraft, source or destination.
    fn frame(self) -> Trace<'a>
        ensures { seen result ≡ follow frame_lines (seen self.entry) }
    {
        self.key(b"frame", Wanted::Fact)
            .fact(b"length", Wanted::Length, 32, 4096, Fact::Length)
            .fact(b"spacecraft", Wanted::Fact, 0, 65535, Fact::Spacecraft)
            .direction()
    }

    // Insert, check, and a line without words.
    fn parts(self) -> Trace<'a>
        ensures { seen result ≡ follow part_lines (seen self.entry) }
    {
        self.fact(b"insert", Wanted::Fact, 0, 64, Fact::Insert)
            .whether(b"check", Wanted::Fact, Field::Check)
            .end(Some(Says::Fact(Fact::Check)))
            .end(None)
    }

    // Which channel it is, in its own line and in that of a lane.
    fn name(self, wanted: Wanted) -> Trace<'a>
        ensures { seen result ≡ follow (channel_name wanted []) (seen self.entry) }
    {
        self.named(b"channel", wanted, 0, 62, Field::Channel)
            .named(b"service", Wanted::Service, 0, 1, Field::Service)
    }

    // A channel.
    fn channel(self) -> Trace<'a>
        ensures { seen result ≡ follow channel_line (seen self.entry) }
    {
        self.name(Wanted::Fact)
            .named(b"count", Wanted::Count, 1, 7, Field::Count)
            .whether(b"ocf", Wanted::Ocf, Field::Ocf)
            .end(Some(Says::Channel))
    }

    // What all lanes have.
    fn lane(self) -> Trace<'a>
        ensures { seen result ≡ follow lane_head (seen self.entry) }
    {
        self.key(b"lane", Wanted::Fact)
            .name(Wanted::Channel)
            .named(b"map", Wanted::Map, 0, 15, Field::Map)
    }

    // The longest unit of a lane, with which its line ends.
    fn longest(self, low: usize) -> Trace<'a>
        ensures { seen result ≡ follow (longest_end low) (seen self.entry) }
    {
        self.named(b"longest", Wanted::Longest, low, 8192, Field::Longest)
            .end(Some(Says::Lane))
    }

    // The rest of a packet lane.
    fn packets(self) -> Trace<'a>
        ensures { seen result ≡ follow packets_end (seen self.entry) }
    {
        self.word(
            &[&b"packets"[..]],
            Ask::Word(Wanted::Carries),
            Some(Field::Upid),
        )
        .longest(2)
    }

    // The rest of an access lane.
    fn access(self) -> Trace<'a>
        ensures { seen result ≡ follow access_end (seen self.entry) }
    {
        self.named(b"access", Wanted::Carries, 1, 30, Field::Upid)
            .longest(1)
    }

    // A lane, of packets or of access.
    fn lanes(self) -> Trace<'a>
        ensures { seen result ≡ through lane_lines (seen self.entry) }
    {
        self.lane().packets().lane().access()
    }
}

// What is heard of a line.
fn hear_line(line: &[u8]) -> Heard
    ensures { result ≡ heard (words line.now) }
{
    let t = Trace {
        line,
        at: 0,
        now: Heard::fresh(Ok(None)),
        best: Heard::fresh(Err(Wanted::Fact)),
    };
    t.frame().parts().channel().lanes().best
}

// The line is refused: in the place of this word, that was wanted.
fn refused(word: usize, wanted: Wanted) -> Result<Draft, Misfit>
    ensures { result ≡ refuse word wanted }
{
    Err(Misfit {
        word: Some(word),
        wanted,
    })
}

// The line is refused: its words fit, and the lines before forbid it.
fn forbidden(wanted: Wanted) -> Result<Draft, Misfit>
    ensures { result ≡ forbid wanted }
{
    Err(Misfit { word: None, wanted })
}

// The channel of a line's numbers.
fn channel_of(numbers: [usize; 12]) -> Channel
    requires { Bounded numbers }
    ensures { result ≡ channel_of numbers }
{
    Channel {
        vc: numbers[Field::Channel as usize] as u8,
        service: numbers[Field::Service as usize] as u8,
        octets: numbers[Field::Count as usize] as u8,
        ocf: numbers[Field::Ocf as usize] == 1,
    }
}

// What a lane carries, by its UPID.
fn kind_of(upid: usize) -> Kind
    ensures { result ≡ cond (upid =? 0) kinds.Packets kinds.Access }
{
    if upid == 0 {
        Kind::Packets
    } else {
        Kind::Access
    }
}

// The lane of a line's numbers.
fn lane_of(channel: u8, numbers: [usize; 12]) -> Lane
    requires { Bounded numbers }
    ensures { result ≡ lane_of channel numbers }
{
    let upid = numbers[Field::Upid as usize];
    Lane {
        channel,
        map: numbers[Field::Map as usize] as u8,
        kind: kind_of(upid),
        longest: numbers[Field::Longest as usize] as u16,
        upid: upid as u8,
    }
}

// The place of the channel that a line's numbers name.
fn listed_at(s: Setting, numbers: [usize; 12]) -> Option<usize>
    requires listed_bound { s.listed ≤ 8 }
    requires bounded { Bounded numbers }
    ensures { result ≡ channel_at s (get_or numbers 5 0) (get_or numbers 6 0) }
{
    let vc = numbers[Field::Channel as usize] as u8;
    let service = numbers[Field::Service as usize] as u8;
    setting::channel_at(s, vc, service)
}

// Whether the other channel of this virtual channel has an OCF and this one not, or the reverse.
fn ocf_unlike(s: Setting, c: Channel) -> bool
    requires { (s.listed ≤ 8) × (c.service ≤ 1) }
    ensures { result ≡ ocf_unlike s c }
{
    match setting::channel_at(s, c.vc, 1 - c.service) {
        Some(i) => s.channels[i].ocf != c.ocf,
        None => false,
    }
}

impl Draft {
    // Nothing was said.
    #[tactic(auto, unfolding(rules::specs::Settings::no_reader, crate::specs::Facts::nothing))]
    fn nothing() -> Draft
        ensures { result ≡ nothing }
    {
        let none = setting::no_reader();
        Draft {
            length: None,
            craft: None,
            bit: None,
            insert: None,
            check: None,
            lists: none.setting,
        }
    }

    // Whether a single fact was said.
    fn is_told(self, fact: Fact) -> bool
        ensures { result ≡ is_told fact self }
    {
        match fact {
            Fact::Length => self.length.is_some(),
            Fact::Spacecraft => self.craft.is_some(),
            Fact::Direction => self.bit.is_some(),
            Fact::Insert => self.insert.is_some(),
            Fact::Check => self.check.is_some(),
        }
    }

    // The draft with a single fact's number in its field.
    fn with_fact(self, fact: Fact, n: usize) -> Draft
        requires { n ≤ get_or most (index (field_of fact)) 0 }
        ensures { result ≡ with_fact fact n self }
    {
        let mut d = self;
        match fact {
            Fact::Length => d.length = Some(n),
            Fact::Spacecraft => d.craft = Some(n as u16),
            Fact::Direction => d.bit = Some(n as u8),
            Fact::Insert => d.insert = Some(n),
            Fact::Check => d.check = Some(n == 1),
        }
        d
    }

    // The draft with one single fact more, if it is new.
    fn add_fact(self, fact: Fact, n: usize) -> Result<Draft, Misfit>
        requires { n ≤ get_or most (index (field_of fact)) 0 }
        ensures { result ≡ add_fact fact n self }
    {
        if self.is_told(fact) {
            return forbidden(Wanted::NewFact);
        }
        Ok(self.with_fact(fact, n))
    }

    // The draft with one channel more.
    fn with_channel(self, c: Channel) -> Draft
        requires { self.lists.listed < 8 }
        ensures { result ≡ with_channel c self }
    {
        let mut d = self;
        d.lists.channels[d.lists.listed] = c;
        d.lists.listed += 1;
        d
    }

    // The draft with one channel more, where it may be.
    fn add_channel(self, c: Channel) -> Result<Draft, Misfit>
        requires { Room self × (c.service ≤ 1) }
        ensures { result ≡ add_channel c self }
    {
        let s = self.lists;
        if setting::channel_at(s, c.vc, c.service).is_some() {
            return forbidden(Wanted::NewChannel);
        }
        if ocf_unlike(s, c) {
            return forbidden(Wanted::SameOcf);
        }
        if 8 <= s.listed {
            return forbidden(Wanted::FewerChannels);
        }
        Ok(self.with_channel(c))
    }

    // The draft with one lane more. One function for both lists would be handed the list, its count and what is added, for these two lines.
    fn with_lane(self, l: Lane) -> Draft
        requires { self.lists.numbered < 8 }
        ensures { result ≡ with_lane l self }
    {
        let mut d = self;
        d.lists.lanes[d.lists.numbered] = l;
        d.lists.numbered += 1;
        d
    }

    // The draft with one lane more, where it may be.
    fn add_lane(self, l: Lane) -> Result<Draft, Misfit>
        requires { Room self }
        ensures { result ≡ add_lane l self }
    {
        let s = self.lists;
        if setting::lane_at(s, l.channel as usize, l.map).is_some() {
            return forbidden(Wanted::NewMap);
        }
        if 8 <= s.numbered {
            return forbidden(Wanted::FewerLanes);
        }
        Ok(self.with_lane(l))
    }

    // The draft with one lane more, of a listed channel.
    fn add_lane_of(self, numbers: [usize; 12]) -> Result<Draft, Misfit>
        requires { Room self × Bounded numbers }
        ensures { result ≡ add_lane_of (channel_at self.lists (get_or numbers 5 0) (get_or numbers 6 0)) numbers self }
    {
        match listed_at(self.lists, numbers) {
            Some(c) => self.add_lane(lane_of(c as u8, numbers)),
            None => forbidden(Wanted::ListedChannel),
        }
    }

    // What a line says of which this is heard.
    fn take_heard(self, h: Heard) -> Result<Draft, Misfit>
        requires { Room self × Sound h }
        ensures { result ≡ take_heard h.says h self }
    {
        match h.says {
            Err(wanted) => refused(h.count, wanted),
            Ok(None) => Ok(self),
            Ok(Some(Says::Fact(fact))) => {
                self.add_fact(fact, h.numbers[Field::from(fact) as usize])
            }
            Ok(Some(Says::Channel)) => self.add_channel(channel_of(h.numbers)),
            Ok(Some(Says::Lane)) => self.add_lane_of(h.numbers),
        }
    }

    // What a line says.
    fn take_line(self, line: &[u8]) -> Result<Draft, Misfit>
        requires { Room self }
        ensures { result ≡ take_line self line.now }
    {
        let n = until_stop(line, Stop::Hash);
        self.take_heard(hear_line(&line[..n]))
    }

    // The setting, where all of it was said; otherwise the first thing that was not.
    fn complete(self) -> Result<Setting, Says>
        ensures { result ≡ completed self }
    {
        let length = self.length.ok_or(Says::Fact(Fact::Length))?;
        let craft = self.craft.ok_or(Says::Fact(Fact::Spacecraft))?;
        let bit = self.bit.ok_or(Says::Fact(Fact::Direction))?;
        let insert = self.insert.ok_or(Says::Fact(Fact::Insert))?;
        let check = self.check.ok_or(Says::Fact(Fact::Check))?;
        if self.lists.listed == 0 {
            return Err(Says::Channel);
        }
        if self.lists.numbered == 0 {
            return Err(Says::Lane);
        }
        Ok(Setting {
            length,
            craft,
            bit,
            insert,
            check,
            ..self.lists
        })
    }
}

// What all lines say, or the first that does not fit.
fn take_lines(octets: &[u8]) -> Result<Draft, Finding>
    ensures { Gathering octets.now result }
{
    let mut d = Draft::nothing();
    for (k, line) in octets.split(|x| *x == b'\n').enumerate() {
        d = match d.take_line(line) {
            Ok(d) => d,
            Err(m) => return Err(Finding::Line(k + 1, m)),
        };
    }
    Ok(d)
}

// The first channel whose zone has no octet.
fn zoneless_at(s: Setting) -> Option<usize>
    requires { s.listed ≤ 8 }
    ensures { result ≡ zoneless s }
{
    for i in 0..s.listed {
        if setting::zone_of(s, s.channels[i]) == 0 {
            return Some(i);
        }
    }
    None
}

// A setting of which every part was said, if it is valid.
fn judge(s: Setting) -> Result<Setting, Finding>
    requires { s.listed ≤ 8 }
    ensures { result ≡ judged (zoneless s) s }
{
    if let Some(i) = zoneless_at(s) {
        let c = s.channels[i];
        return Err(Finding::Zone(c.vc, c.service));
    }
    if setting::setting_ok(s) {
        Ok(s)
    } else {
        Err(Finding::Other)
    }
}

// The setting that a text says, or what is wrong with it.
#[tactic(auto, unfolding(crate::specs::Facts::parsed))]
pub fn parse(octets: &[u8]) -> Result<Setting, Finding>
    ensures { result ≡ parsed octets.now }
{
    let d = take_lines(octets)?;
    let s = d.complete()?;
    judge(s)
}
