// Whether a count is a repeat, how many frames are missing before it, and what a gap drops. An array that is indexed stands in a variable of its own: tried
// in its place in the state, that is kept in memory and copied whole at each step, 43 % more instructions of a read of 256 octets.
#![tactic(auto)]

ghost use Rattle.std.specs.Prelude.{◌≡◌, true, ◌^◌, ◌≤◌, ◌<◌};
ghost use Rattle.rules.specs.Tests.{◌=?◌};
ghost use Rattle.rules.specs.Settings.{reader_ok, channel, expect};
ghost use Rattle.rules.specs.Reading.{missing, repeats, emptied, lost, lanes_of, gap_by, gap};
ghost use Rattle.rules.specs.Calls.{missing_at, repeats_at};

use rules::{Expect, Gap, Reader, Setting, Slot};

// What a channel's counts are held against: what is expected of it, and how many octets they have.
#[derive(Clone, Copy)]
struct Awaited {
    expect: Expect,
    octets: usize,
    ghost fits: { (octets ≤ 7) × (expect.count < 256 ^ octets) },
}

impl Awaited {
    // What the counts of channel c are held against.
    fn on(r: Reader, c: usize) -> Awaited
        requires { (reader_ok r ≡ true) × (c < r.setting.listed) }
        ensures expect { result.expect ≡ expect r c }
        ensures octets { result.octets ≡ (channel r.setting c).octets }
    {
        let channels = r.setting.channels;
        Awaited {
            expect: setting::expect_of(r.expects, c),
            octets: channels[c].octets as usize,
        }
    }

    // How many frames are missing before count k.
    fn missing_before(self, k: u64) -> u64
        requires { k < 256 ^ self.octets }
        ensures { result ≡ missing self.octets self.expect k }
    {
        if self.expect.known {
            let m = octets::modulus(self.octets);
            (k + m - self.expect.count) % m
        } else {
            0
        }
    }

    // Whether count k is the last one taken: the one before what is expected. Where none is expected, none was taken, whatever number stands
    // there.
    fn repeats(self, k: u64) -> bool
        ensures { result ≡ repeats self.octets self.expect k }
    {
        let values = octets::modulus(self.octets);
        let last = (self.expect.count + values - 1) % values;
        k == last && self.expect.known
    }
}

// The slots once the lanes of channel c have dropped what they hold.
fn emptied_of(s: Setting, c: usize, mut slots: [Slot; 8]) -> [Slot; 8]
    requires { s.numbered ≤ 8 }
    ensures { result ≡ emptied (λ l. l.channel =? c) (lanes_of s) slots }
{
    let lanes = s.lanes;
    for (i, l) in lanes[..s.numbered].iter().enumerate() {
        if l.channel as usize == c {
            slots[i] = setting::no_slot();
        }
    }
    slots
}

// How many octets that drops.
fn lost_of(s: Setting, c: usize, slots: [Slot; 8]) -> usize
    requires { s.numbered ≤ 8 }
    ensures { result ≡ lost (λ l. l.channel =? c) (lanes_of s) slots }
{
    let mut lost = 0;
    let lanes = s.lanes;
    for (i, l) in lanes[..s.numbered].iter().enumerate() {
        if l.channel as usize == c {
            lost += slots[i].held as usize;
        }
    }
    lost
}

// What channel c of a reader drops where so many frames are missing.
fn gap_by(r: Reader, c: usize, missing: u64) -> Gap
    requires { r.setting.numbered ≤ 8 }
    ensures { result ≡ gap_by r c missing }
{
    if missing == 0 {
        return Gap {
            state: r,
            missing: 0,
            dropped: 0,
        };
    }
    Gap {
        state: Reader {
            slots: emptied_of(r.setting, c, r.slots),
            ..r
        },
        missing,
        dropped: lost_of(r.setting, c, r.slots),
    }
}

// Whether count k is the last one taken on channel c.
pub fn repeats_at(r: Reader, c: usize, k: u64) -> bool
    requires { (reader_ok r ≡ true) × (c < r.setting.listed) × (k < 256 ^ (channel r.setting c).octets) }
    ensures { result ≡ repeats_at r c k }
{
    Awaited::on(r, c).repeats(k)
}

// How many frames of channel c are missing before one with count k.
pub fn missing_at(r: Reader, c: usize, k: u64) -> u64
    requires { (reader_ok r ≡ true) × (c < r.setting.listed) × (k < 256 ^ (channel r.setting c).octets) }
    ensures { result ≡ missing_at r c k }
{
    Awaited::on(r, c).missing_before(k)
}

// A frame of channel c with count k, before which so many are missing: what is expected next, and what that drops.
pub fn gap_of(r: Reader, c: usize, k: u64, missing: u64) -> Gap
    requires { (reader_ok r ≡ true) × (c < r.setting.listed) × (k < 256 ^ (channel r.setting c).octets) × (missing ≡ missing_at r c k) }
    ensures { result ≡ gap r c k }
{
    let channels = r.setting.channels;
    let values = octets::modulus(channels[c].octets as usize);
    let next = Expect {
        known: true,
        count: (k + 1) % values,
    };
    let expects = setting::with_expect(r.expects, c, next);
    gap_by(Reader { expects, ..r }, c, missing)
}
