// How far a program is, said every 65,536 frames: how many, and how many hundredths of its input are done.
ghost use Rattle.std.specs.Prelude.{◌≡◌, ◌%◌};
ghost use Rattle.rules.specs.Tests.{◌=?◌};
ghost use Rattle.console.specs.Progress.{percent_of};

use intake::System;
use std::io::IsTerminal;

// Whether it is to be said after this many frames.
pub fn is_due(count: u64) -> bool
    ensures { result ≡ (count % 65536) =? 0 }
{
    count % 65536 == 0
}

// How far a run is in percent, where so much of its input is a hundredth; 0 where that is not known.
#[tactic(auto, unfolding(crate::specs::Progress::percent_of))]
fn percent(hundredth: u64, done: u64) -> u64
    ensures { result ≡ percent_of hundredth done }
{
    if hundredth == 0 {
        0
    } else {
        (done / hundredth).min(100)
    }
}

// Says how far that is, unless it is not known.
fn say_percent(hundredth: u64, done: u64) {
    if hundredth == 0 {
        return;
    }
    let p = percent(hundredth, done);
    io::write_all(2, b", ");
    io::print_decimal(2, p);
    io::write_all(2, b" %");
}

// Ends the line; on a terminal the next one is written over it.
fn end_far(live: bool) {
    io::write_all(2, if live { b"\r" } else { b"\n" });
}

// Says how many frames are done, and how far that is, where so much of the input is done and so much is a hundredth of it, 0 where that is
// not known.
pub fn say_far(program: &[u8], count: u64, hundredth: u64, done: u64, live: bool) {
    io::write_all(2, program);
    io::write_all(2, b": ");
    io::print_decimal(2, count);
    io::write_all(2, b" frames");
    say_percent(hundredth, done);
    end_far(live);
}

// Whether standard error is a terminal.
pub fn is_live(system: &System) -> bool {
    system.rt.stderr().is_terminal()
}
