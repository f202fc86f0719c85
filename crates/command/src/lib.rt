// The arguments of a program that reads one file: none for standard input, or the file's name, or `--help` alone; and of one that takes a number
// before it.
#![tactic(auto, using(kit::specs::Pick::picks))]

ghost use Rattle.std.specs.Prelude.{◌≤◌, length};
ghost use Rattle.command.specs.Request.{NameWithin};

use console::{Source, Told};
use std::env::FillError;
use std::io;
use std::rt::Env;

mod typed;

pub use typed::read_number;

// What they ask for: an input, with what was said before its name, and the program and that name, as a failure is told; the help; or the usage.
#[derive(Drop)]
pub enum Request<'a, B> {
    Input(B, Source, &'a [u8]),
    Help,
    Usage,
}

// The system's numbers (as in `console`) for an argument that is not there, and for one that is too long.
const EINVAL: i32 = 22;

const ENAMETOOLONG: i32 = 36;

fn has_argument(rt: &HostRuntime, argument: usize) -> bool {
    let mut none = [0u8; 0];
    !matches!(rt.arg(argument, &mut none), Err(FillError::NotPresent))
}

fn help_alone(rt: &HostRuntime) -> bool {
    if has_argument(rt, 2) {
        return false;
    }
    let mut first = [0u8; 6];
    match rt.arg(1, &mut first) {
        Ok(size) => &first[0..size] == b"--help".as_slice(),
        Err(_) => false,
    }
}

// A text at an index; the index past it, as `listing` has it. A struct of `what` and `at` would have to say of each method that the buffer keeps its
// length.
#[tactic(auto, using(listing::proofs::ListingLaws::past_within))]
fn put(what: &mut [u8], at: usize, text: &[u8]) -> usize
    requires { at ≤ length what.old }
    ensures { result ≤ length what.new }
{
    listing::put_text(what, at, text)
}

// A file's name, which is no option. `what` is the program and that name.
fn file<'a, B: Drop>(
    rt: &HostRuntime,
    before: B,
    name: &[u8],
    what: &'a [u8],
) -> Result<Request<'a, B>, Told>
    ensures { NameWithin result what.now }
{
    if name.starts_with(b"-") {
        return Ok(Request::Usage);
    }
    let file = console::open(rt, &mut rt.stderr(), name, what)?;
    Ok(Request::Input(before, file, what))
}

// A name that is no argument, or too long for one, stands as FILE.
fn unnamed(rt: &HostRuntime, error: FillError, what: &mut [u8], at: usize) -> Told
    requires { at ≤ length what.old }
{
    let end = put(what, at, b"FILE");
    let code = match error {
        FillError::NotPresent => EINVAL,
        FillError::TooLong => ENAMETOOLONG,
    };
    let error = io::Error::from_raw_os_error(code);
    console::fail(&mut rt.stderr(), &what[0..end], error)
}

// An argument, a file's name, goes behind the program's name, which ends at an index.
fn named<'a, B: Drop>(
    rt: &HostRuntime,
    before: B,
    argument: usize,
    what: &'a mut [u8],
    at: usize,
) -> Result<Request<'a, B>, Told>
    requires { at ≤ length what.old }
    ensures { NameWithin result what.old }
{
    match rt.arg(argument, &mut what[at..]) {
        Ok(size) => {
            let what = &what[0..at + size];
            file(rt, before, &what[at..], what)
        }
        Err(error) => Err(unnamed(rt, error, what, at)),
    }
}

// The file that the last argument names, standard input where that is missing.
fn input<'a, B: Drop>(
    rt: &HostRuntime,
    before: B,
    argument: usize,
    program: &[u8],
    what: &'a mut [u8],
) -> Result<Request<'a, B>, Told>
    requires { argument ≤ 2 }
    ensures { NameWithin result what.old }
{
    if has_argument(rt, argument + 1) {
        return Ok(Request::Usage);
    }
    let at = put(what, 0, program);
    if !has_argument(rt, argument) {
        let end = put(what, at, b"standard input");
        return Ok(Request::Input(before, console::standard_input(rt), &what[0..end]));
    }
    named(rt, before, argument, what, at)
}

// `program` and `what` go as two: a program names them in one call alone. `program` is its name and ": ". It and the input's name stand in `what` afterwards, which is lent because the programs have no heap.
pub fn asked<'a>(
    rt: &HostRuntime,
    program: &[u8],
    what: &'a mut [u8],
) -> Result<Request<'a, ()>, Told>
    ensures { NameWithin result what.old }
{
    if help_alone(rt) {
        return Ok(Request::Help);
    }
    input(rt, (), 1, program, what)
}

// The first argument as a number. One that is longer than `what` is none.
fn first_number(rt: &HostRuntime, what: &mut [u8]) -> Option<u32> {
    match rt.arg(1, what) {
        Ok(size) => read_number(&what[0..size]),
        Err(_) => None,
    }
}

// The same of a program that takes a number as its first argument, and the file's name as its second.
pub fn asked_number<'a>(
    rt: &HostRuntime,
    program: &[u8],
    what: &'a mut [u8],
) -> Result<Request<'a, u32>, Told>
    ensures { NameWithin result what.old }
{
    if help_alone(rt) {
        return Ok(Request::Help);
    }
    match first_number(rt, what) {
        Some(number) => input(rt, number, 2, program, what),
        None => Ok(Request::Usage),
    }
}
