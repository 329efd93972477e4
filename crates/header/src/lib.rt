// The fields of a frame, in printed order, from octets and to octets.
#![tactic(auto)]

ghost use Rattle.std.specs.Prelude.{◌≡◌, ◌+◌, ◌-◌, ◌*◌, ◌/◌, ◌%◌, ◌^◌, ◌≤◌, ◌<◌, [], ◌∷◌, length, take};
ghost use Rattle.rules.specs.Octets.{num, fields_of, packed};
ghost use Rattle.rules.specs.Settings.{insert_at};
ghost use Rattle.rules.specs.Frames.{data_widths, header, count_in};
ghost use Rattle.header.specs.Heads.{head_of, data_of, head_fields, data_fields};

use rules::{Channel, Lane, Setting};

// The first twelve fields of figure 4-2 in 000, in printed order: the primary header before its count.
#[derive(Clone, Copy)]
pub struct Head {
    pub version: u8, // Transfer Frame Version Number
    pub craft: u16, // Spacecraft Identifier
    pub bit: u8, // Source-or-Destination Identifier
    pub vc: u8, // Virtual Channel Identifier
    pub map: u8, // Multiplexer Access Point Identifier
    pub ending: u8, // End of Frame Primary Header Flag
    pub length: usize, // Frame Length
    pub bypass: u8, // Bypass/Sequence Control Flag
    pub command: u8, // Protocol Control Command Flag
    pub spare: u8, // Reserve Spares
    pub ocf: u8, // Operational Control Field Flag
    pub octets: usize, // Virtual Channel Frame Count Length
}

// The three fields of figure 4-4, in printed order: the data field's header.
#[derive(Clone, Copy)]
pub struct Data {
    pub rule: u8, // TFDZ Construction Rules
    pub upid: u8, // USLP Protocol Identifier
    pub pointer: usize, // First Header/Last Valid Octet Pointer
}

// ---- fields of a number

// How many bits there are, the first bit and the width stand as numbers in the line that reads or writes a field, as 000 prints them: as constants of a struct
// with these two for methods, each field would have a third line that says the same.

// The `width` bits from bit `from` on, of a number of `all` bits. Bit 0 is the first and highest.
fn bits(n: u64, all: u32, from: u32, width: u32) -> u64
    requires { (from + width ≤ all) × (all < 64) }
    ensures { (result ≡ n / 2 ^ (all - (from + width)) % 2 ^ width) × (result < 2 ^ width) }
{
    (n >> (all - (from + width))) % (1 << width)
}

// What `x` adds to a number of `all` bits that has it in the `width` bits from bit `from` on.
fn at(x: u64, all: u32, from: u32, width: u32) -> u64
    requires { (from + width ≤ all) × (all < 64) × (x * 2 ^ (all - (from + width)) < 2 ^ 64) }
    ensures { result ≡ x * 2 ^ (all - (from + width)) }
{
    x << (all - (from + width))
}

// ---- from octets

// The number that the first n octets spell, at most eight; of fewer, all of them.
fn front(octets: &[u8], n: usize) -> u64
    requires { n ≤ 8 }
    ensures { result ≡ num (take n octets.now) }
{
    octets::exact(&octets[..n.min(octets.len())])
}

// The primary header's first twelve fields, each by its first bit and its width as 000 prints them (4.1.2.2 to 4.1.2.11). All are read before any is
// judged: the order of judging is another.
pub fn head_of(frame: &[u8]) -> Head
    ensures { result ≡ head_of frame.now }
{
    let n = front(frame, 7);
    Head {
        version: bits(n, 56, 0, 4) as u8,
        craft: bits(n, 56, 4, 16) as u16,
        bit: bits(n, 56, 20, 1) as u8,
        vc: bits(n, 56, 21, 6) as u8,
        map: bits(n, 56, 27, 4) as u8,
        ending: bits(n, 56, 31, 1) as u8,
        length: bits(n, 56, 32, 16) as usize,
        bypass: bits(n, 56, 48, 1) as u8,
        command: bits(n, 56, 49, 1) as u8,
        spare: bits(n, 56, 50, 2) as u8,
        ocf: bits(n, 56, 52, 1) as u8,
        octets: bits(n, 56, 53, 3) as usize,
    }
}

// The thirteenth, the count: 8n bits from bit 56 on. The channel says n.
pub fn count_in(c: Channel, frame: &[u8]) -> u64
    requires { (c.octets ≤ 7) × (insert_at c ≤ length frame.now) }
    ensures { (result ≡ count_in c frame.now) × (result < 256 ^ c.octets) }
{
    let end = 7 + c.octets as usize;
    octets::exact(&frame[7..end])
}

// The data field's header (4.1.4.2.2 to 4.1.4.2.4).
pub fn data_of(field: &[u8]) -> Data
    ensures { result ≡ data_of field.now }
{
    let n = front(field, 3);
    Data {
        rule: bits(n, 24, 0, 3) as u8,
        upid: bits(n, 24, 3, 5) as u8,
        pointer: bits(n, 24, 8, 16) as usize,
    }
}

// ---- to octets

// The primary header's first twelve fields, seven octets, as a number; line for line what `head_of` reads. The thirteenth, the count, is 8n bits for which
// the channel says n: `writer::frames::put_front` lays it behind them.
fn head_number(h: Head) -> u64
    requires { (h.length < 65536) × (h.octets < 8) }
    ensures { result ≡ packed (head_fields h) }
{
    let version = at(h.version as u64, 56, 0, 4);
    let craft = at(h.craft as u64, 56, 4, 16);
    let bit = at(h.bit as u64, 56, 20, 1);
    let vc = at(h.vc as u64, 56, 21, 6);
    let map = at(h.map as u64, 56, 27, 4);
    let ending = at(h.ending as u64, 56, 31, 1);
    let length = at(h.length as u64, 56, 32, 16);
    let bypass = at(h.bypass as u64, 56, 48, 1);
    let command = at(h.command as u64, 56, 49, 1);
    let spare = at(h.spare as u64, 56, 50, 2);
    let ocf = at(h.ocf as u64, 56, 52, 1);
    let octets = at(h.octets as u64, 56, 53, 3);
    version + craft + bit + vc + map + ending + length + bypass + command + spare + ocf + octets
}

// The data field's header, three octets, as a number; line for line what `data_of` reads.
#[tactic(auto, unfolding(rules::specs::Octets::packed, rules::specs::Octets::widths, crate::specs::Heads::data_fields))]
fn data_number(d: Data) -> u64
    requires { d.pointer < 65536 }
    ensures { result ≡ packed (data_fields d) }
{
    let rule = at(d.rule as u64, 24, 0, 3);
    let upid = at(d.upid as u64, 24, 3, 5);
    let pointer = at(d.pointer as u64, 24, 8, 16);
    rule + upid + pointer
}

// The primary header's seven octets as a number: what is written into its fields for a frame of lane l, on channel c.
pub fn header_of(s: Setting, c: Channel, l: Lane) -> u64
    requires { (1 ≤ s.length) × (s.length ≤ 65536) × (c.octets ≤ 7) }
    ensures { result ≡ packed (header s c l) }
{
    head_number(Head {
        version: 0b1100,
        craft: s.craft,
        bit: s.bit,
        vc: c.vc,
        map: l.map,
        ending: 0,
        length: s.length - 1,
        bypass: c.service,
        command: 0,
        spare: 0b00,
        ocf: u8::from(c.ocf),
        octets: c.octets as usize,
    })
}

// The data field's header as a number.
#[tactic(auto, unfolding(crate::specs::Heads::data_fields))]
pub fn data_header_of(rule: u8, upid: u8, pointer: usize) -> u64
    requires { pointer < 65536 }
    ensures { result ≡ packed (fields_of data_widths (rule ∷ upid ∷ pointer ∷ [])) }
{
    data_number(Data {
        rule,
        upid,
        pointer,
    })
}
