// Files that are open for reading, and what a read behind bytes that are kept comes to.
#![tactic(auto)]

ghost use Rattle.std.specs.Prelude.{true, false, ◌≡◌, ◌+◌, ◌≤◌, length, IfOk, is_some};
ghost use Rattle.std.specs.Io.{ReadsAtMost};
ghost use Rattle.std.specs.Str.{IsUtf8};
ghost use Rattle.input.specs.AtHand.{input_of, Came};
ghost use Rattle.input.specs.Files.{is_descriptor, descriptor, opened, no_error, no_file, standard_input};

use std::env::FillError;
use std::io::{Error, Read, Stdin, Write};
use std::os::fd::AsRawFd;
use std::{fs, io};

// Where the bytes of a file come from.
#[derive(Drop)]
enum Source {
    Named(fs::File),
    Standard(Stdin),
}

// Why something could not be opened, read or written: the system's number of it, or 0 where it has none.
#[derive(Clone, Copy, PartialEq, Eq)]
pub struct Errno(i32);

// A file that may be open for reading, and why it was not opened or read when that was last tried. No other crate can make one of a number.
#[derive(Drop)]
pub struct File {
    source: Option<Source>,
    reason: Errno,
}

// What a read came to: so many bytes at hand, the input's end, or a failure.
#[derive(Clone, Copy, PartialEq, Eq)]
pub enum Input {
    Bytes(usize),
    End,
    Failed,
}

const NO_ERROR: Errno = Errno(0);

// What comes next in a run of reads: another read, or the end, where the input or what it is read for ended, or the read failed.
#[derive(Clone, Copy, PartialEq, Eq)]
pub enum Next {
    More,
    Done,
    Broken,
}

// The system's reasons for a name that is not UTF-8, of which the library opens no file, and for a read where none is open.
const NOT_TEXT: Errno = Errno(84);

const NOT_OPEN: i32 = 9;

// The system's reasons for an argument that is not there, and for one that is too long.
const MISSING: Errno = Errno(22);

const TOO_LONG: Errno = Errno(36);

impl From<Error> for Errno {
    fn from(error: Error) -> Errno {
        Errno(error.raw_os_error().unwrap_or(0))
    }
}

impl From<FillError> for Errno {
    fn from(error: FillError) -> Errno {
        match error {
            FillError::NotPresent => MISSING,
            FillError::TooLong => TOO_LONG,
        }
    }
}

// A reason by its number, whatever that is.
impl From<i32> for Errno {
    fn from(number: i32) -> Self
        ensures { result.0 ≡ number }
    {
        Errno(number)
    }
}

impl Errno {
    // The system's number of it.
    pub fn number(self) -> i32
        ensures { result ≡ self.0 }
    {
        self.0
    }
}

// A file that is open.
fn with_source(source: Source) -> File
    ensures { result ≡ record { source = Some source; reason = no_error } }
{
    File {
        source: Some(source),
        reason: NO_ERROR,
    }
}

// A file that is not, and why.
fn without_source(reason: Errno) -> File
    ensures { result ≡ record { source = None; reason = reason } }
{
    File {
        source: None,
        reason,
    }
}

// Opens the file of a name for reading.
pub fn open(rt: &HostRuntime, name: &[u8]) -> File
    ensures tested { opened result ≡ is_descriptor (descriptor result) }
    ensures source { opened result ≡ true → is_some result.source ≡ true }
    ensures text { ¬ (IsUtf8 name.now) → opened result ≡ false }
{
    let Ok(name) = str::from_utf8(name) else {
        return without_source(NOT_TEXT);
    };
    match fs::File::open(rt, name) {
        Ok(named) => with_source(Source::Named(named)),
        Err(error) => without_source(error.into()),
    }
}

// The system's number of a file, or -1 where there is nothing to be read.
fn descriptor(file: &File) -> i32
    ensures { result ≡ descriptor file.now }
{
    match &file.source {
        Some(Source::Named(named)) => named.as_raw_fd(),
        Some(Source::Standard(input)) => input.as_raw_fd(),
        None => -1,
    }
}

// Whether it is open.
pub fn is_open(file: &File) -> bool
    ensures { result ≡ opened file.now }
{
    descriptor(file) >= 0
}

// No file: one that was not opened.
pub fn unopened() -> File
    ensures { result ≡ no_file }
{
    without_source(NO_ERROR)
}

// Standard input, which is open from the start.
pub fn standard_input(input: Stdin) -> File
    ensures { result ≡ standard_input input }
{
    with_source(Source::Standard(input))
}

// Reads a file; how many bytes came.
fn read(file: &mut File, part: &mut [u8]) -> io::Result<usize>
    ensures bound { ReadsAtMost result part.new }
{
    let File { source, reason } = file;
    let got = match source {
        Some(Source::Named(named)) => named.read(part),
        Some(Source::Standard(input)) => input.read(part),
        None => Err(Error::from_raw_os_error(NOT_OPEN)),
    };
    if let Err(error) = got {
        *reason = error.into();
    }
    got
}

#[tactic(auto, unfolding(crate::specs::AtHand::input_of, crate::specs::AtHand::at_hand))]
// What a read's answer says: a failure, the input's end, or so many bytes behind those that are kept.
fn input_from(got: io::Result<usize>, kept: usize) -> Input
    requires { IfOk got (λ n. kept + n ≤ usize.MAX) }
    ensures { result ≡ input_of got kept }
{
    match got {
        Ok(0) => Input::End,
        Ok(more) => Input::Bytes(kept + more),
        Err(_) => Input::Failed,
    }
}

// Reads a file behind the bytes that are kept at the front; how many bytes are at hand then.
pub fn read_from(file: &mut File, text: &mut [u8], kept: usize) -> Input
    requires { kept ≤ length text.old }
    ensures { Came result kept text.old text.new }
{
    let part = &mut text[kept..];
    input_from(read(file, part), kept)
}

// Why the file could not be opened or read.
pub fn reason(file: &File) -> Errno
    ensures { result ≡ file.now.reason }
{
    file.reason
}

// Words on standard error, where they can be written.
pub fn say(rt: &HostRuntime, words: &[u8]) {
    let _ = rt.stderr().write_all(words);
}

// What went wrong, on standard error: the words, and why.
pub fn tell(rt: &HostRuntime, words: &[u8], reason: Errno) {
    say(rt, words);
    say(rt, b": ");
    if let Ok(text) = format!(in rt.alloc(); "{}", Error::from_raw_os_error(reason.0)) {
        match text.as_str().split_once(" (os error ") {
            Some((why, _)) => say(rt, why.as_bytes()),
            None => say(rt, text.as_bytes()),
        }
    }
    say(rt, b"\n");
}

// Writes all of the bytes to standard output, or says why not.
pub fn write(rt: &HostRuntime, bytes: &[u8]) -> Result<(), Errno> {
    rt.stdout().write_all(bytes).map_err(Errno::from)
}
