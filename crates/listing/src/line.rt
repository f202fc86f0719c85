// One line of the listing at an index of a slice. Each function answers the index past its text, and has no struct of both (lib.rt). No Display: `write!` costs more (digits.rt).
ghost use Rattle.std.specs.Prelude.{◌+◌, ◌≤◌, ◌<◌, length};
ghost use Rattle.answer.specs.AnswerWord.{Fits};
ghost use Rattle.listing.specs.Listing.{field_of, signed_of, warnings_of, answer_line, line_of};
ghost use Rattle.listing.specs.Put.{Put};

use crate::digits::{put_number, put_small};
use answer::Answer;

fn put_field(out: &mut [u8], at: usize, n: u64) -> usize
    requires { at + 21 ≤ length out.old }
    ensures { Put out.old at (field_of n) 21 out.new result }
{
    let end = put_number(out, at, n);
    out[end] = b' ';
    end + 1
}

// Beside put_field, since a line fits into 64 bytes only where a small field is known to have 5.
fn put_small_field(out: &mut [u8], at: usize, n: u32) -> usize
    requires { (n < 10000) × (at + 5 ≤ length out.old) }
    ensures { Put out.old at (field_of n) 5 out.new result }
{
    let end = put_small(out, at, n);
    out[end] = b' ';
    end + 1
}

// A number that is nearly always below 10000.
fn put_speed(out: &mut [u8], at: usize, n: u64) -> usize
    requires { at + 21 ≤ length out.old }
    ensures { Put out.old at (field_of n) 21 out.new result }
{
    if n < 10000 {
        return put_small_field(out, at, n as u32);
    }
    put_field(out, at, n)
}

// a from its code a + 60.
fn put_signed(out: &mut [u8], at: usize, code: u32) -> usize
    requires { (code < 128) × (at + 6 ≤ length out.old) }
    ensures { Put out.old at (signed_of code) 6 out.new result }
{
    if code < 60 {
        out[at] = b'-';
        return put_small_field(out, at + 1, 60 - code);
    }
    put_small_field(out, at, code - 60)
}

// Both are bits, as the listing's definition has them.
fn put_warnings(out: &mut [u8], at: usize, visual: u32, acoustic: u32) -> usize
    requires { (visual < 2) × (acoustic < 2) × (at + 4 ≤ length out.old) }
    ensures { Put out.old at (warnings_of visual acoustic) 4 out.new result }
{
    out[at] = (48 + visual) as u8;
    out[at + 1] = b' ';
    out[at + 2] = (48 + acoustic) as u8;
    out[at + 3] = b'\n';
    at + 4
}

// The line of an event, by its answer word's fields and v.
fn put_answer(out: &mut [u8], at: usize, number: u64, answer: Answer, speed: u32) -> usize
    requires { Fits answer × (at + 64 ≤ length out.old) }
    ensures { Put out.old at (answer_line number answer speed) 64 out.new result }
{
    let refusal = put_field(out, at, number);
    let velocity = put_small_field(out, refusal, answer.refusal);
    let desired = put_speed(out, velocity, speed as u64);
    let accel = put_small_field(out, desired, answer.desired);
    let warnings = put_signed(out, accel, answer.acceleration);
    let visual = event::bit(answer.visual);
    let acoustic = event::bit(answer.acoustic);
    put_warnings(out, warnings, visual, acoustic)
}

pub(crate) fn put_line(out: &mut [u8], at: usize, number: u64, word: u32, speed: u32) -> usize
    requires { at + 64 ≤ length out.old }
    ensures { Put out.old at (line_of number word speed) 64 out.new result }
{
    put_answer(out, at, number, Answer::from(word), speed)
}
