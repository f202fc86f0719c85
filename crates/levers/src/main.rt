// Finds the fewest moves of the lever that reach a wanted speed (document 02, §13). Standard input (words, little-endian) holds cases: 1 wanted length
// record, the library's function on a record of that length; 2, 24 fields, wanted, the call on a car as it stands; 3 wanted cut length words, an exercise
// file of so many bytes, handed over in pieces of that cut; 0 ends.
// Prints for a record and for a car the refusal, the count and the six words; for a file the text of its moves.
#![tactic(auto)]

use car::Car;
use event::Refusal;
use event::refusal::number;
use std::convert::Infallible;
use std::num::NonZeroUsize;
use tester::{FILE_BYTES, Page, Reader};

// What the library is to store over.
const UNUSED: u32 = 0xDEAD_BEEF;

fn line(page: &mut Page<'_>, refusal: u32, count: usize, words: &[u32]) {
    page.number(refusal);
    page.count(count);
    page.words_line(words);
}

fn record_case(input: &mut Reader<'_>, page: &mut Page<'_>) {
    let wanted = input.next();
    let mut array = [0; 13];
    let record = &mut array[..input.size(13)];
    input.fill(record);
    let mut words = [UNUSED; 6];
    let mut count = 99;
    let refusal = cruise::cruise_moves(record, wanted, &mut words, &mut count);
    line(page, refusal, count, &words);
}

fn car_case(input: &mut Reader<'_>, page: &mut Page<'_>) {
    let car = tester::car_at(&input.take::<24>(), 0);
    let answer = lever::fewest(car, input.next());
    let refusal = number(&answer);
    let moves = answer.unwrap_or_default();
    line(page, refusal, moves.count, &moves.words);
}

// The text at the end of a file, after which so many bytes were not used.
fn finish(page: &mut Page<'_>, car: Car, wanted: u32, held: usize) {
    let mut text = [0; moving::ROOM];
    let end = moving::put_result(&mut text, car, wanted, held);
    page.text(&text[0..end]);
}

// A turn over a piece: how many bytes of it were used.
fn turn(car: &mut Car, piece: &[u8]) -> usize {
    let turned = moving::turn(*car, piece);
    *car = turned.car;
    turned.used
}

// A file's text, by the bytes behind its settings word.
fn move_pieces(page: &mut Page<'_>, first: Car, events: &[u8], cut: NonZeroUsize, wanted: u32) {
    let mut car = first;
    let Ok(left) = tester::pieces(events, cut.get(), |piece| {
        Ok::<usize, Infallible>(turn(&mut car, piece))
    });
    finish(page, car, wanted, left);
}

fn refuse(page: &mut Page<'_>, refusal: Refusal) {
    let mut text = [0; moving::ROOM];
    let end = moving::put_sentence(&mut text, u32::from(refusal));
    page.text(&text[0..end]);
}

fn moves_file(page: &mut Page<'_>, bytes: &[u8], cut: NonZeroUsize, wanted: u32) {
    match cleaning::open(bytes) {
        Ok(car) => move_pieces(page, car, bytes.get(4..).unwrap_or(&[]), cut, wanted),
        Err(refusal) => refuse(page, refusal),
    }
}

// A file; pieces of no byte are no case.
fn file_case(input: &mut Reader<'_>, page: &mut Page<'_>) {
    let wanted = input.next();
    let Some(cut) = NonZeroUsize::new(input.size(4096)) else {
        return;
    };
    let mut bytes = [0u8; FILE_BYTES];
    moves_file(page, input.file(&mut bytes), cut, wanted);
}

// A kind is the input's own number: an enum would name each case a second time.
fn case(kind: u32, input: &mut Reader<'_>, page: &mut Page<'_>) {
    match kind {
        1 => record_case(input, page),
        2 => car_case(input, page),
        _ => file_case(input, page),
    }
}

fn cases(words: &[u32], page: &mut Page<'_>) {
    tester::cases(words, page, case);
}

fn main(rt: HostRuntime) {
    let mut words = [0; 16384];
    let mut out = [0; 131072];
    let mut page = Page::new(&mut out);
    tester::run(
        &rt,
        &mut words,
        &mut page,
        b"levers: standard input",
        b"levers: standard output",
        cases,
    );
}
