// What the people who run the archive's programs ask for, what the programs say to them, and whether they may: nothing is said into an input. How names
// and words of others are printed is promised; no contract can speak of what is on a command line, or of what is written to a descriptor.
#![tactic(auto)]

pub mod progress;

ghost use Rattle.std.specs.Prelude.{◌≡◌, ◌≤◌, length, take, cond, IfSome};
ghost use Rattle.rules.specs.Tests.{◌<?◌};
ghost use Rattle.io.specs.Counts.{IsPrefixLen};
ghost use Rattle.console.specs.Shown.{plain_of, shown};

use files::Known;
use intake::System;
use std::env::{Env, FillError};
use std::io::{Cursor, Error, Write};
use words::{Asked, Program};

// The numbers that the system has for a word that is not there, and for one that is too long.
const MISSING: i32 = 22;

const TOO_LONG: i32 = 36;

// The octet that stands for one of a name: a question mark for those that would end the line or do something to a terminal.
#[tactic(auto, unfolding(crate::specs::Shown::plain_of))]
fn plain(x: u8) -> u8
    ensures { result ≡ plain_of x }
{
    if x < 32 || x == 127 { b'?' } else { x }
}

// How many of n octets are shown, where no more than so many are.
fn within<const MOST: usize>(n: usize) -> usize
    ensures { (result ≤ n) × (result ≤ MOST) × (result ≡ cond (n <? MOST) n MOST) }
{
    n.min(MOST)
}

// Puts a name to the front of an area so that it stays on one line; how many octets it has there.
fn put_name(area: &mut [u8], name: &[u8]) -> usize
    requires { length area.old ≡ 4096 }
    ensures { (result ≤ 4096) × (result ≡ cond (length name.now <? 4096) (length name.now) 4096) × (take result area.new ≡ shown (take result name.now)) }
{
    let n = within::<4096>(name.len());
    for i in 0..n {
        area[i] = plain(name[i]);
    }
    n
}

// Which program says something, and about which name.
pub fn say_front(program: &[u8], about: &[u8]) {
    let mut area = io::buffer();
    let n = put_name(&mut area, about);
    io::write_all(2, program);
    io::write_all(2, b": ");
    io::write_all(2, &area[..n]);
}

// Quotes a word that was found, its first 60 octets where it is longer.
pub fn say_quote(word: &[u8]) {
    let n = within::<60>(word.len());
    let mut area = io::buffer();
    let k = put_name(&mut area, &word[..n]);
    io::write_all(2, b"\"");
    io::write_all(2, &area[..k]);
    if n < word.len() {
        io::write_all(2, b"..");
    }
    io::write_all(2, b"\"");
}

// A line to standard error: which program, about what, and what is wrong there.
pub fn say(program: &[u8], about: &[u8], what: &[u8]) {
    say_front(program, about);
    io::write_all(2, b": ");
    io::write_all(2, what);
    io::write_all(2, b"\n");
}

// The same for a place in a file, named by a word and a number.
pub fn say_at(program: &[u8], about: &[u8], place: &[u8], n: u64, what: &[u8]) {
    say_front(program, about);
    io::write_all(2, b": ");
    io::write_all(2, place);
    io::write_all(2, b" ");
    io::print_decimal(2, n);
    io::write_all(2, b": ");
    io::write_all(2, what);
    io::write_all(2, b"\n");
}

// How many octets of a text stand before its last bracket and the blank before that: the library has a number there.
fn before_bracket(text: &[u8]) -> usize
    ensures { result ≤ length text.now }
{
    match text.iter().rposition(|x| *x == b'(') {
        Some(i) => i.saturating_sub(1),
        None => text.len(),
    }
}

// Says the system's word for this number.
fn say_number(number: i32) {
    let e = Error::from_raw_os_error(number);
    let mut text = Cursor::new([0u8; 128]);
    if write!(text, "{e}").is_ok() {
        let area = text.into_inner();
        let n = before_bracket(&area);
        io::write_all(2, &area[..n]);
    }
}

// A line to standard error that ends in the system's word for the call that failed last.
pub fn say_failed(system: &System, program: &[u8], about: &[u8]) {
    say_front(program, about);
    io::write_all(2, b": ");
    say_number(intake::last_failure(system));
    io::write_all(2, b"\n");
}

// Writes all octets to standard output; stops at the first write that takes none or fails. The library's `write_all` goes on after a signal, and has
// no number of the system's for a write that takes none: another word would be said.
pub fn write_out(system: &System, octets: &[u8]) -> bool {
    let mut output = system.rt.stdout();
    let mut done: usize = 0;
    while done < octets.len() {
        match output.write(&octets[done..]) {
            Ok(0) => return false,
            Ok(n) => done += n,
            Err(e) => {
                intake::keep_failure(system, e);
                return false;
            }
        }
    }
    true
}

// A line to standard error: how far the program is, or that it is done.
pub fn say_count(program: &[u8], word: &[u8], n: u64, what: &[u8]) {
    io::write_all(2, program);
    io::write_all(2, b": ");
    io::write_all(2, word);
    io::print_decimal(2, n);
    io::write_all(2, what);
    io::write_all(2, b"\n");
}

// ---- the command line

// Puts word i of the command line at the front of an area: how many octets it has there; nothing where it is missing or longer, and what the
// system has against it is kept.
pub fn arg(system: &System, i: usize, area: &mut [u8]) -> Option<usize>
    ensures { IfSome result (λ n. IsPrefixLen n area.new) }
{
    match system.rt.arg(i, area) {
        Ok(n) => {
            intake::keep_number(system, 0);
            Some(n)
        }
        Err(e) => {
            let number = match e {
                FillError::NotPresent => MISSING,
                FillError::TooLong => TOO_LONG,
            };
            intake::keep_number(system, number);
            None
        }
    }
}

// How many words the command line has, the program's own name among them.
pub fn arg_count(system: &System) -> usize {
    let mut front = [0u8; 1];
    for i in 0..usize::MAX {
        if let Err(FillError::NotPresent) = system.rt.arg(i, &mut front) {
            return i;
        }
    }
    usize::MAX
}

// With word i more. One that the system does not hand out counts as a word of no octet.
fn add_word(system: &System, program: Program, q: Asked, i: usize) -> Asked {
    let mut word = io::buffer();
    let n = arg(system, i, &mut word).unwrap_or(0);
    words::next_word(q, i, words::word_to(program, &word[..n]))
}

// What n words of a program's command line ask for.
pub fn read_words(system: &System, program: Program, n: usize) -> Asked {
    let mut q = words::no_asked();
    for i in 1..n {
        q = add_word(system, program, q, i);
    }
    q
}

// ---- whether something may be said

// Whether what is said would go into the file of word i, or into that of what stands behind its `=`. Of a word that is no text the library cannot
// say which file it is: it counts as this one, where what is said goes into a regular file.
fn is_word_spoiled(system: &System, e: Option<Known>, i: usize) -> bool {
    let mut word = io::buffer();
    let n = arg(system, i, &mut word).unwrap_or(0);
    if intake::path_of(system, &word[..n]).is_none() {
        return e.is_some_and(files::regular);
    }
    let at = words::behind(&word[..n]);
    let a = files::of_name(system, &word[..n]);
    let b = files::of_name(system, &word[at..n]);
    files::is_spoiled(e, a, b)
}

// The file, beside standard input, into which nothing may be said: standard output where octets go there that nothing else may stand between.
fn guarded(system: &System, i: Option<Known>, apart: bool) -> Option<Known> {
    if apart {
        files::of_descriptor(system, 1)
    } else {
        i
    }
}

// Whether what is said would go into standard input or, with `apart`, into standard output: a regular file.
fn is_own_spoiled(system: &System, e: Option<Known>, apart: bool) -> bool {
    let i = files::of_descriptor(system, 0);
    let o = guarded(system, i, apart);
    files::is_spoiled(e, i, o)
}

// Whether a program may say something: what is said goes neither into standard input nor, with `apart`, into standard output, nor into the file of one
// of its n words, but for word `but`, which names no input. Where it may not, there is no place to say so.
pub fn may_say(system: &System, apart: bool, n: usize, but: Option<usize>) -> bool {
    let e = files::of_descriptor(system, 2);
    !is_own_spoiled(system, e, apart)
        && !(1..n).any(|i| Some(i) != but && is_word_spoiled(system, e, i))
}

// The same of a program that reads standard input alone, and whether it may print: standard output is not that file either, which is said.
pub fn may_print(system: &System, program: &[u8], apart: bool) -> bool {
    let e = files::of_descriptor(system, 2);
    if is_own_spoiled(system, e, apart) {
        return false;
    }
    let o = files::of_descriptor(system, 1);
    let spoiled = is_own_spoiled(system, o, false);
    if spoiled {
        say(program, b"standard input", b"standard output is this file");
    }
    !spoiled
}
