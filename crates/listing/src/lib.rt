// The printed listing (document 01, "The cab, alike, and the program"): text, numbers and lines in a lent slice of bytes. Each function answers
// the index past what it put; where there is too little room for it nothing is put and the index is the one handed in.
// Slice and index go in and the index comes out, here and in each file of the crate: by methods of a struct of both a line of `lesson` takes 266
// instructions in place of 204, and twice the time.
#![tactic(auto, using(kit::specs::Pick::picks))]

ghost use Rattle.std.specs.Prelude.{◌≡◌};
ghost use Rattle.listing.specs.Listing.{lines_past, lines_after};

use crate::line::put_line;
use crate::text::has_room;

mod digits;
mod hexadecimal;
mod line;
mod text;

pub use hexadecimal::put_word_line;
pub use text::{put_decimal, put_number_line, put_refused, put_text};

// A line for each event, by its answer word and v, the numbers rising from `first`. Room is 64 bytes for each. With fewer speeds than answers, or
// where first + answers.len() passes 2^64 - 1, nothing is put. Answers and speeds come in two slices, as `Car::trace` fills them, and answers alone are
// what C has of a lesson.
pub fn put_lines(out: &mut [u8], at: usize, first: u64, answers: &[u32], speeds: &[u32]) -> usize
    ensures { (result ≡ lines_past out.old at first answers.now speeds.now) × (out.new ≡ lines_after out.old at first answers.now speeds.now) }
{
    if !has_room(out, at, answers.len().saturating_mul(64)) {
        return at;
    }
    if first.checked_add(answers.len() as u64).is_none() {
        return at;
    }
    if speeds.len() < answers.len() {
        return at;
    }
    let mut end = at;
    // The number rises beside the two slices: zipped with them it would stand in a pair of pairs.
    let mut number = first;
    for (&word, &speed) in answers.iter().zip(speeds) {
        end = put_line(out, end, number, word, speed);
        number += 1;
    }
    end
}
