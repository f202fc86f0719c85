// Finds the event that passed a mark, and the seconds at or above it (document 02, §5). Standard input (words, little-endian) holds cases: 1 mark
// length record count words, the library's function on a record of that length; 2, 24 fields, mark count words, the calls on a car as it stands;
// 3 mark cut length words, an exercise file of so many bytes, handed over in pieces of that cut; 0 ends.
// Prints for a record the refusal, the event (0 for never) and the seconds; for a car the same, then its fields afterwards, the search's refusal and
// event, and the count's refusal and seconds; for a file the text of its mark.
#![tactic(auto)]

ghost use Rattle.std.specs.Prelude.{◌≤◌};

use car::Car;
use event::refusal::number;
use marking::Stage;
use passing::{Counted, Marked};
use std::convert::Infallible;
use std::num::NonZeroUsize;
use tester::{FILE_BYTES, Page, Reader};

// A lesson's words start here in the program's own array.
const START: usize = 3;

// No count of words is larger.
const MOST: usize = 3072;

// Words and mark stand apart, as the calls take them.
fn by_library(page: &mut Page<'_>, record: &[u32], words: &[u32], mark: u32) {
    let mut event = 99;
    let mut seconds = 99;
    let refusal = cruise::cruise_mark(record, words, mark, &mut event, &mut seconds);
    page.lesson_line(refusal, event, seconds);
}

fn by_lesson(page: &mut Page<'_>, car: Car, words: &[u32], mark: u32) {
    let answer = passing::of_lesson(car, words, mark);
    let refusal = number(&answer);
    let marked = answer.unwrap_or(Marked {
        car: car,
        passed: None,
        seconds: 0,
    });
    let event = marked.passed.unwrap_or(0);
    page.lesson_line(refusal, event, marked.seconds);
    page.car_line(marked.car);
}

fn by_search(page: &mut Page<'_>, car: Car, words: &[u32], mark: u32) {
    let answer = passing::search(car, words, mark);
    let refusal = number(&answer);
    let passed = answer.unwrap_or(None);
    page.count_line(refusal, passed.unwrap_or(0));
}

fn by_seconds(page: &mut Page<'_>, car: Car, words: &[u32], mark: u32) {
    let answer = passing::seconds(car, words, mark);
    let refusal = number(&answer);
    let counted = answer.unwrap_or(Counted {
        car: car,
        seconds: 0,
    });
    page.count_line(refusal, counted.seconds);
}

fn by_calls(page: &mut Page<'_>, car: Car, words: &[u32], mark: u32) {
    by_lesson(page, car, words, mark);
    by_search(page, car, words, mark);
    by_seconds(page, car, words, mark);
}

// The next words of the input, behind their count, in a part of the program's own array. It stands in `copies` too: in `tester` it
// would need a contract longer than itself.
fn lesson<'a>(words: &'a mut [u32; 3075], input: &mut Reader<'_>) -> &'a [u32] {
    let part = &mut words[START..START + input.size(MOST)];
    input.fill(part);
    part
}

fn record_case(input: &mut Reader<'_>, page: &mut Page<'_>) {
    let mark = input.next();
    let mut array = [0; 13];
    let record = &mut array[..input.size(13)];
    input.fill(record);
    let mut words = [0; 3075];
    by_library(page, record, lesson(&mut words, input), mark);
}

fn car_case(input: &mut Reader<'_>, page: &mut Page<'_>) {
    let car = tester::car_at(&input.take::<24>(), 0);
    let mark = input.next();
    let mut words = [0; 3075];
    by_calls(page, car, lesson(&mut words, input), mark);
}

// The text at the end of a file, after which so many bytes were not used.
#[tactic(auto, using(exercise::proofs::PiecesLaws::text_within))]
fn finish(page: &mut Page<'_>, stage: Stage, held: usize) {
    let mut text = [0u8; 85];
    let end = marking::put_result(stage, held, &mut text);
    page.text(&text[0..end]);
}

// A turn over a piece: how many bytes of it were used.
fn turn(stage: &mut Stage, piece: &[u8], mark: u32) -> usize {
    let turned = marking::turn(*stage, piece, mark);
    *stage = turned.stage;
    turned.used
}

// A file's text, by the bytes behind its settings word.
fn mark_pieces(page: &mut Page<'_>, car: Car, events: &[u8], cut: NonZeroUsize, mark: u32) {
    let mut stage = marking::start(car);
    let Ok(left) = tester::pieces(events, cut.get(), |piece| {
        Ok::<usize, Infallible>(turn(&mut stage, piece, mark))
    });
    finish(page, stage, left);
}

fn mark_file(page: &mut Page<'_>, bytes: &[u8], cut: NonZeroUsize, mark: u32) {
    match cleaning::open(bytes) {
        Ok(car) => mark_pieces(page, car, bytes.get(4..).unwrap_or(&[]), cut, mark),
        Err(refusal) => page.at = listing::put_refused(page.out, page.at, u32::from(refusal)),
    }
}

// A file; pieces of no byte are no case, and what stands here is the next kind.
fn file_case(input: &mut Reader<'_>, page: &mut Page<'_>) {
    let start = input.next;
    let mark = input.next();
    let Some(cut) = NonZeroUsize::new(input.size(4096)) else {
        input.next = start;
        return;
    };
    let mut bytes = [0u8; FILE_BYTES];
    mark_file(page, input.file(&mut bytes), cut, mark);
}

// A kind is the input's own number: an enum would name each case a second time.
fn case(kind: u32, input: &mut Reader<'_>, page: &mut Page<'_>) {
    match kind {
        1 => record_case(input, page),
        2 => car_case(input, page),
        _ => file_case(input, page),
    }
}

fn cases(words: &[u32], page: &mut Page<'_>) {
    tester::cases(words, page, case);
}

fn main(rt: HostRuntime) {
    let mut words = [0; 32768];
    let mut out = [0; 32768];
    let mut page = Page::new(&mut out);
    tester::run(
        &rt,
        &mut words,
        &mut page,
        b"marks: standard input",
        b"marks: standard output",
        cases,
    );
}
