// Input and output, with a failure told: one line on standard error that names the program and what failed. Readers and writers of the system
// say nothing of their bytes; of those that say which bytes they have, as one over memory, the contracts say what is read and written.
#![tactic(auto)]

ghost use Rattle.std.specs.Prelude.{◌≡◌, ◌≤◌, ◌<◌, length, take, IfOk, IsOk, OnOk};
ghost use Rattle.std.specs.Io.{ReadsAtMost};
ghost use Rattle.std.specs.Io.KnownBytes.{Appends, Consumes, IsAtEnd, ReadConsumes};

use std::fmt::Display;
use std::fs::File;
use std::io;
use std::io::{Read, Stdin, Write};

// What a program reads: standard input, or a file that was opened by its name.
#[derive(Drop)]
pub enum Source {
    Standard(Stdin),
    File(File),
}

impl Read for Source {
    fn read(&mut self, bytes: &mut [u8]) -> io::Result<usize> {
        match self {
            Source::Standard(input) => input.read(bytes),
            Source::File(file) => file.read(bytes),
        }
    }
}

// A failure that has been told, on standard error.
#[derive(Clone, Copy, Debug, PartialEq, Eq)]
pub struct Told;

// Puts a value's text at the start of `text`, and says how long it is: there is no heap for a String.
fn put<D: Display + Drop>(text: &mut [u8; 256], value: D) -> usize
    ensures { result ≤ 256 }
{
    let mut rest: &mut [u8] = text;
    let _ = rest.write_fmt(value);
    256usize.saturating_sub(rest.len())
}

// Puts the system's text for an error at the start of `text`, and says how long it is. std has none without the error's number behind it.
fn put_reason(text: &mut [u8; 256], error: &io::Error) -> usize
    ensures { result ≤ 256 }
{
    let end = put(text, error);
    match error.raw_os_error() {
        Some(code) => {
            let mut number = [0u8; 256];
            end.saturating_sub(put(&mut number, format_args!(" (os error {code})")))
        }
        None => end,
    }
}

// Tells a failure: what failed, as the caller names it, a colon and the reason. `errors` and `what` go as two here and below: each caller names them
// anew at each call, so that a struct of them would be made for that one call.
pub fn fail<E: Write>(errors: &mut E, what: &[u8], error: io::Error) -> Told {
    let mut text = [0u8; 256];
    let end = put_reason(&mut text, &error);
    let _ = errors.write_all(what);
    let _ = errors.write_all(b": ");
    let _ = errors.write_all(&text[0..end]);
    let _ = errors.write_all(b"\n");
    Told
}

// The system's number for text in another coding; by an `ErrorKind` the text would not be the system's.
const EILSEQ: i32 = 84;

pub fn standard_input(rt: &HostRuntime) -> Source {
    Source::Standard(rt.stdin())
}

// Opens a file by its name. One that is no UTF-8 is none that std opens. `what` is the program and that name.
pub fn open<E: Write>(
    rt: &HostRuntime,
    errors: &mut E,
    name: &[u8],
    what: &[u8],
) -> Result<Source, Told> {
    let opened = match std::str::from_utf8(name) {
        Ok(path) => File::open(rt, path),
        Err(_) => Err(io::Error::from_raw_os_error(EILSEQ)),
    };
    opened
        .map(Source::File)
        .map_err(|error| fail(errors, what, error))
}

// Reads what has come, at least a byte where the input has not ended. A count comes back here and below, as from std's `read`. `what` is the program and the input's name.
pub fn read<I: Read, E: Write>(
    input: &mut I,
    errors: &mut E,
    bytes: &mut [u8],
    what: &[u8],
) -> Result<usize, Told>
    ensures bound { ReadsAtMost result bytes.new }
    ensures bytes { ReadConsumes (I.remaining input.old) (I.remaining input.new) result bytes.new }
{
    input.read(bytes).map_err(|error| fail(errors, what, error))
}

// Reads until the input ends or there is no more room.
#[tactic(auto, using(crate::proofs::Filling::more_read, crate::proofs::Filling::taken))]
pub fn read_all<I: Read, E: Write>(
    input: &mut I,
    errors: &mut E,
    bytes: &mut [u8],
    what: &[u8],
) -> Result<usize, Told>
    ensures bound { ReadsAtMost result bytes.new }
    ensures bytes { IfOk result (λ n. Consumes (I.remaining input.old) (I.remaining input.new) (take n bytes.new)) }
    ensures end { IfOk result (λ n. n < length bytes.new → IsAtEnd (I.remaining input.new)) }
{
    // std has no read that fills a slice as far as the input goes and says how many bytes came.
    let mut at = 0;
    while at < bytes.len() {
        let count = read(input, errors, &mut bytes[at..], what)?;
        if count == 0 {
            break;
        }
        at += count;
    }
    Ok(at)
}

// Writes a text. For none nothing is done.
pub fn write<O: Write, E: Write>(
    output: &mut O,
    errors: &mut E,
    text: &[u8],
    what: &[u8],
) -> Result<(), Told>
    ensures nothing { length text.now ≡ 0 → IsOk result }
    ensures bytes { OnOk result (Appends (O.contents output.old) (O.contents output.new) text.now) }
{
    if text.is_empty() {
        return Ok(());
    }
    output
        .write_all(text)
        .map_err(|error| fail(errors, what, error))
}
