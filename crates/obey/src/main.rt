// Calls of the writer and the reader as requests say them, with a setting, states and areas of any kind, and all that each call leaves
// (docs/CALLS.md). It is for comparison with a program that was written apart from this archive.
//
// Proved: what a request leaves on the desk and in each area is `obeyed` of its octets and of what was there, and a call is the rules' own
// (`obey`). Left open: that a request's octets are those of standard input, and that the areas are written (`next`, `tell`, `main`).
#![tactic(auto)]

ghost use Rattle.std.specs.Prelude.{◌≡◌, ◌≤◌, length, IfOk, IfSome};
ghost use Rattle.io.specs.Counts.{IsPrefixLen};

mod requests;

use intake::{Source, System, Window};
use requests::{Asks, least, obey};
use rows::word_in;

// Something failed, and it is said by then.
#[derive(Clone, Copy)]
struct Said;

// The areas on which requests work.
#[derive(Drop)]
struct Areas {
    desk: [u8; 6440],
    held: [u8; 65552],
    units: [u8; 12304],
    records: [u8; 49184],
    ghost desk_long: { length desk ≡ 6440 },
}

// Says what the system had against standard input.
fn not_read(system: &System) -> Said {
    console::say_failed(system, b"obey", b"standard input");
    Said
}

// Says that standard input ends inside a request.
fn cut() -> Said {
    console::say(
        b"obey",
        b"standard input",
        b"a request that the input's end cuts",
    );
    Said
}

// Fills an area from standard input, as far as that goes: how many octets came.
fn fill(system: &System, input: &Source, area: &mut [u8]) -> Result<usize, Said>
    ensures { IfOk result (λ n. IsPrefixLen n area.new) }
{
    let none = Window {
        have: 0,
        at: 0,
        good: true,
    };
    let w = intake::fill_up(system, input, area, none);
    if w.good {
        Ok(w.have)
    } else {
        Err(not_read(system))
    }
}

// The next request of standard input, at the front of `q`: how many octets it has, and none where the input ends. No more is taken than there is room for.
fn next(system: &System, input: &Source, q: &mut [u8]) -> Result<Option<usize>, Said>
    requires { 64 ≤ length q.old }
    ensures { IfOk result (λ o. IfSome o (λ n. (64 ≤ n) × IsPrefixLen n q.new)) }
{
    let row = fill(system, input, &mut q[..64])?;
    if row == 0 {
        return Ok(None);
    }
    if row < 64 {
        return Err(cut());
    }
    let to = 64 + least(word_in(q, 1), q.len() - 64);
    let behind = fill(system, input, &mut q[64..to])?;
    if behind < to - 64 {
        return Err(cut());
    }
    Ok(Some(to))
}

impl Areas {
    // Writes the answer to a request: the desk after a call, and the reader's areas after a read. Whether standard output took it all.
    fn tell(&self, system: &System, asks: Asks) -> bool {
        match asks {
            Asks::Read(_) => {
                console::write_out(system, &self.desk)
                    && console::write_out(system, &self.held)
                    && console::write_out(system, &self.units)
                    && console::write_out(system, &self.records)
            }
            Asks::LayHeld | Asks::Blank | Asks::LayDesk => true,
            _ => console::write_out(system, &self.desk),
        }
    }

    // Obeys a request, and answers it; says what the system had against standard output, where it did not take the answer.
    fn turn(&mut self, system: &System, q: &[u8]) -> Result<(), Said>
        requires { 64 ≤ length q.now }
    {
        obey(
            q,
            &mut self.desk,
            &mut self.held,
            &mut self.units,
            &mut self.records,
        );
        if self.tell(system, Asks::from(word_in(q, 0))) {
            return Ok(());
        }
        console::say_failed(system, b"obey", b"standard output");
        Err(Said)
    }
}

// Obeys standard input, request after request, to its end, and says how many they were.
fn obey_all(system: &System) -> Result<(), Said> {
    let input = Source::Input(system.rt.stdin());
    let mut q = [0u8; 65536];
    let mut areas = Areas {
        desk: [0u8; 6440],
        held: [0x55u8; 65552],
        units: [0x55u8; 12304],
        records: [0x55u8; 49184],
    };
    for k in 0..u64::MAX {
        let Some(n) = next(system, &input, &mut q)? else {
            console::say_count(b"obey", b"done: ", k, b" requests");
            break;
        };
        areas.turn(system, &q[..n])?;
    }
    Ok(())
}

// The program. What it prints and says goes into no input, and nothing is said between the answers.
fn main(rt: HostRuntime) {
    let system = intake::system_of(rt);
    if console::may_print(&system, b"obey", true) {
        let _ = obey_all(&system);
    }
}
