// Which file a file is, so that no program writes over what it reads. The system's answer goes along as a value; all that is decided by it has a
// definition. Four functions ask the system.
#![tactic(auto)]

ghost use Rattle.std.specs.Prelude.{◌≡◌};
ghost use Rattle.files.specs.Known.{whole_of, known_of, same_file, is_regular, is_folder, spoils};

use intake::{Source, System};
use std::fs::Metadata;
use std::os::fd::{AsFd, OwnedFd};
use std::os::unix::fs::MetadataExt;
use std::{fs, io};

// The number that the system has for a descriptor that is not open.
const NOT_OPEN: i32 = 9;

// What tells a file from all others: its device, and its inode there.
#[derive(Clone, Copy, PartialEq, Eq)]
pub struct Id {
    pub device: u64,
    pub inode: u64,
}

// A file as the system knows it: which one it is, its size, and its mode.
#[derive(Clone, Copy)]
pub struct Known {
    pub id: Id,
    pub size: u64,
    pub mode: u32,
}

// A size, which the system gives as a number with a sign; none has less than 0.
fn whole(size: i64) -> u64
    ensures { result ≡ whole_of size }
{
    if size < 0 { 0 } else { size as u64 }
}

// What is kept of the system's answer: nothing where the mode is 0, which no file has.
#[tactic(auto, unfolding(crate::specs::Known::known_of))]
fn known_of(device: u64, inode: u64, mode: u32, size: u64) -> Option<Known>
    ensures { result ≡ known_of device inode mode size }
{
    if mode == 0 {
        return None;
    }
    let id = Id { device, inode };
    Some(Known { id, size, mode })
}

// What the system says of a file; nothing, where it says nothing.
fn answer(system: &System, got: io::Result<Metadata>) -> Option<Known> {
    match got {
        Ok(m) => known_of(m.dev(), m.ino(), m.mode(), whole(m.size().cast_signed())),
        Err(e) => {
            intake::keep_failure(system, e);
            None
        }
    }
}

// A standard stream.
#[derive(Clone, Copy)]
enum Stream {
    Input,
    Output,
    Error,
}

// The standard stream that has this number, if one has.
fn stream_of(n: i32) -> Option<Stream> {
    match n {
        0 => Some(Stream::Input),
        1 => Some(Stream::Output),
        2 => Some(Stream::Error),
        _ => None,
    }
}

// Another descriptor of a standard stream's open file.
fn again(system: &System, stream: Stream) -> io::Result<OwnedFd> {
    match stream {
        Stream::Input => system.rt.stdin().as_fd().try_clone_to_owned(),
        Stream::Output => system.rt.stdout().as_fd().try_clone_to_owned(),
        Stream::Error => system.rt.stderr().as_fd().try_clone_to_owned(),
    }
}

// The name under which the system has a standard stream's open file.
fn stream_name(stream: Stream) -> &'static str {
    match stream {
        Stream::Input => "/proc/self/fd/0",
        Stream::Output => "/proc/self/fd/1",
        Stream::Error => "/proc/self/fd/2",
    }
}

// Why there is nothing of that name: that the stream is closed, where it is.
fn why_not(system: &System, stream: Stream, e: io::Error) -> io::Error {
    match again(system, stream) {
        Ok(_) => e,
        Err(closed) => closed,
    }
}

// What the system says of a standard stream.
fn look_at_stream(system: &System, stream: Stream) -> Option<Known> {
    match fs::metadata(&system.rt, stream_name(stream)) {
        Ok(m) => answer(system, Ok(m)),
        Err(e) => answer(system, Err(why_not(system, stream, e))),
    }
}

// What the system has against a descriptor that is not open; there is no file.
fn not_open(system: &System) -> Option<Known> {
    intake::keep_number(system, NOT_OPEN);
    None
}

// The file of a standard stream: 0, 1 or 2. Of another number there is none.
pub fn of_descriptor(system: &System, n: i32) -> Option<Known> {
    match stream_of(n) {
        Some(stream) => look_at_stream(system, stream),
        None => not_open(system),
    }
}

// The file that is read.
pub fn of_source(system: &System, from: &Source) -> Option<Known> {
    match from {
        Source::Input(_) => look_at_stream(system, Stream::Input),
        Source::Of(file) => answer(system, file.metadata()),
        Source::Nothing => not_open(system),
    }
}

// The file that a name leads to, through links. A name ends at its first 0; one that the system does not take, of 4,096 octets or more, leads to none.
pub fn of_name(system: &System, path: &[u8]) -> Option<Known> {
    if 4096 <= path.len() {
        return None;
    }
    let end = path.iter().position(|x| *x == 0).unwrap_or(path.len());
    let text = intake::path_of(system, &path[..end])?;
    answer(system, fs::metadata(&system.rt, text))
}

// Whether two are one file: both are there, on the same device with the same inode.
#[tactic(auto, unfolding(crate::specs::Known::same_file))]
pub fn same(a: Option<Known>, b: Option<Known>) -> bool
    ensures { result ≡ same_file a b }
{
    match (a, b) {
        (Some(a), Some(b)) => a.id == b.id,
        _ => false,
    }
}

// Whether it is a regular file.
#[tactic(auto, unfolding(crate::specs::Known::is_regular))]
pub fn regular(k: Known) -> bool
    ensures { result ≡ is_regular k }
{
    k.mode / 4096 % 16 == 8
}

// Whether it is a folder.
#[tactic(auto, unfolding(crate::specs::Known::is_folder))]
pub fn folder(k: Known) -> bool
    ensures { result ≡ is_folder k }
{
    k.mode / 4096 % 16 == 4
}

// Whether what is written to a regular file would go into an input, which is one of these two.
#[tactic(auto, unfolding(crate::specs::Known::spoils))]
pub fn is_spoiled(k: Option<Known>, a: Option<Known>, b: Option<Known>) -> bool
    ensures { result ≡ spoils k a b }
{
    k.is_some_and(regular) && (same(k, a) || same(k, b))
}
