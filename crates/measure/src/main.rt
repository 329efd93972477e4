// Work to be measured: the frame check, headers, looks, takes or writes of frames that come from standard input, and no other work for them to be held
// against. Its two arguments are the work's word and a file with the setting, which has one packet lane, an OCF and no insert zone; it prints
// how many frames there were and a sum over what came out.
#![tactic(auto)]

ghost use Rattle.std.specs.Prelude.{◌≡◌, ◌+◌, ◌%◌, ◌∷◌, get_or};

use rules::{Answer, Channel, Lane, Looked, Setting, Writer};

// ---- numbers

// A sum of low halves, which never wraps.
fn plus(a: u64, b: u64) -> u64
    ensures { result ≡ a % 4294967296 + b % 4294967296 }
{
    a % 0x100000000 + b % 0x100000000
}

// The sum of all.
fn sum_of(numbers: &[u64]) -> u64 {
    numbers.iter().fold(0, |sum, n| plus(sum, *n))
}

// The last of the first n octets of an area; 0 where there are none, or not as many.
fn last(area: &[u8], n: usize) -> u64
    ensures { result ≡ get_or (0 ∷ area.now) n 0 }
{
    if 0 < n && n <= area.len() {
        u64::from(area[n - 1])
    } else {
        0
    }
}

// An octet of an area, 0 where there is none.
fn octet(area: &[u8], i: usize) -> u8 {
    area.get(i).map_or(0, |x| *x)
}

// Prints what came out.
fn tell(frames: u64, sum: u64) {
    io::write_all(1, b"frames ");
    io::print_decimal(1, frames);
    io::write_all(1, b" sum ");
    io::print_decimal(1, sum);
    io::write_all(1, b"\n");
}

// ---- the work

// The next octets of standard input, as many as the area has; whether there were as many.
fn next(area: &mut [u8]) -> bool {
    let n = io::read_full(0, area);
    n != 0 && n == area.len()
}

// Hands on standard input to its end, as many octets at a time as the area has; prints how many times, and a sum of what comes of each.
fn pass<F: FnMut(&[u8]) -> u64>(area: &mut [u8], mut value: F)
    requires { F.IsAlwaysCallable value }
{
    let mut frames = 0;
    let mut sum = 0;
    for k in 0..u64::MAX {
        if !next(area) {
            break;
        }
        sum = plus(sum, value(area));
        frames = k + 1;
    }
    tell(frames, sum);
}

// What is summed of the headers that are read from the front of a frame, every field.
fn fields(frame: &[u8]) -> u64 {
    let h = header::head_of(frame);
    let d = header::data_of(frame);
    sum_of(&[
        h.version as u64,
        h.craft as u64,
        h.bit as u64,
        h.vc as u64,
        h.map as u64,
        h.ending as u64,
        h.length as u64,
        h.bypass as u64,
        h.command as u64,
        h.spare as u64,
        h.ocf as u64,
        h.octets as u64,
        d.rule as u64,
        d.upid as u64,
        d.pointer as u64,
    ])
}

// The numbers of a primary header and of a data field's header, with octets of a frame for what is written into them.
fn numbers(s: Setting, area: &[u8]) -> u64 {
    let t = Setting {
        craft: u16::from(octet(area, 0)),
        bit: octet(area, 1),
        length: 1 + usize::from(octet(area, 4)),
        ..s
    };
    let c = Channel {
        vc: octet(area, 2),
        service: octet(area, 5),
        ocf: octet(area, 6) < 128,
        octets: octet(area, 7) % 8,
    };
    let l = Lane {
        map: octet(area, 3),
        ..s.lanes[0]
    };
    let n = header::header_of(t, c, l);
    let d = header::data_header_of(octet(area, 8), octet(area, 9), usize::from(octet(area, 10)));
    sum_of(&[n / 0x100000000, n, d])
}

// What is summed of a read: what its answer counts, and the last octet that was handed out.
fn worth(a: Answer, units: &[u8]) -> u64 {
    sum_of(&[
        a.units as u64,
        a.octets as u64,
        a.idle as u64,
        a.dropped as u64,
        a.missing,
        last(units, a.octets),
    ])
}

// What is summed of a look: what is missing, and the lane's number and one.
fn glance(o: Looked) -> u64 {
    plus(o.missing, o.lane.map_or(0, |l| plus(l as u64, 1)))
}

// A take of each frame, after a look where the work asks for one. A flag says so: where a closure did, the one that `pass` calls called it in its turn, and
// that it may be was tried and not proved.
fn take(looks: bool, s: Setting, area: &mut [u8]) {
    let mut held = [0u8; rules::HELD_SIZE];
    let mut units = [0u8; rules::UNITS_SIZE];
    let mut records = [0u8; rules::RECORDS_SIZE];
    let mut state = reader::set_up(s).state;
    pass(area, |frame| {
        let x = if looks {
            glance(reader::look(state, frame))
        } else {
            0
        };
        let t = reader::take(state, frame, &mut held, &mut units, &mut records);
        state = t.state;
        plus(worth(t.answer, &units), x)
    });
}

// What goes from frame to frame while batches are written.
#[derive(Clone, Copy)]
struct Course {
    state: Writer,
    frames: u64,
    sum: u64,
}

impl Course {
    // A frame of a batch, of which the octet before its middle and the last are summed, which are of the zone and of the check or the OCF; whether the
    // batch goes on.
    fn write_frame(&mut self, size: usize, batch: &[u8], area: &mut [u8]) -> bool {
        let t = writer::write(self.state, 0, batch, &[], &[0; 4], area);
        self.state = t.state;
        self.frames = plus(self.frames, 1);
        let octets = sum_of(&[last(area, size / 2), last(area, size)]);
        self.sum = plus(self.sum, octets);
        t.outcome.is_ok() && t.state.next[0] != 0
    }

    // All frames of a batch.
    fn write_batch(&mut self, size: usize, batch: &[u8], area: &mut [u8]) {
        for _ in 0..rules::BATCH_SIZE {
            if !self.write_frame(size, batch, area) {
                break;
            }
        }
    }
}

// The frames of batches of 32,768 octets.
fn write(s: Setting) {
    let mut batch = [0u8; rules::BATCH_SIZE];
    let mut area = io::buffer();
    let mut course = Course {
        state: writer::set_up(s).state,
        frames: 0,
        sum: 0,
    };
    for _ in 0..u64::MAX {
        if !next(&mut batch) {
            break;
        }
        course.write_batch(s.length, &batch, &mut area);
    }
    tell(course.frames, course.sum);
}

// Reads the input by batches of 32,768 octets, of which the first octets are summed. It has their area, so that no other work has it.
fn pass_batches() {
    let mut batch = [0u8; rules::BATCH_SIZE];
    pass(&mut batch, |octets| last(octets, 1));
}

// ---- the program

// The work that a word's first letter says: batches (pass by batches), check, fields (they are written), heads (they are read), read (a take), twice (a look,
// then a take), write; else pass, which sums the first octets.
fn work(letter: u8, s: Setting, area: &mut [u8]) {
    match letter {
        b'b' => pass_batches(),
        b'c' => pass(area, |frame| u64::from(fecf::check_of(frame))),
        b'f' => pass(area, |frame| numbers(s, frame)),
        b'h' => pass(area, fields),
        b'r' => take(false, s, area),
        b't' => take(true, s, area),
        b'w' => write(s),
        _ => pass(area, |octets| last(octets, 1)),
    }
}

// The program.
fn main(rt: HostRuntime) {
    let system = intake::system_of(rt);
    let mut word = [0u8; 8];
    console::arg(&system, 1, &mut word);
    let mut path = io::buffer();
    let k = console::arg(&system, 2, &mut path).unwrap_or(0);
    let mut text = [0u8; 65537];
    if let Ok(s) = setting_file::load(&system, b"measure", &path[..k], &mut text).judged {
        let mut area = io::buffer();
        let end = s.length.min(4096);
        work(word[0], s, &mut area[..end]);
    }
}
