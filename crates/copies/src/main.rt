// Makes clean copies (document 02, §2). Standard input (words, little-endian) holds cases: 1 mode signs towing room count words, a copy from settings
// into a buffer of that room, by the call and by the library's function; 2, 24 fields, room count words, a copy from a car as it stands;
// 3 cut length words, the clean file of an exercise file of so many bytes, handed over in pieces of that cut; 0 ends.
// Prints for each copy its refusal and the number written, then its buffer, and for a copy from a car its fields afterwards; for a clean
// file its refusal and the number of its words, then the words.
#![tactic(auto)]

ghost use Rattle.std.specs.Prelude.{◌≤◌};

use car::Car;
use copy::Part;
use event::Refusal;
use event::refusal::number;
use std::convert::Infallible;
use std::io;
use std::num::NonZeroUsize;
use tester::{FILE_BYTES, Page, Reader};

// A lesson's words start here in the program's own array.
const START: usize = 3;

// No room and no count of words is larger.
const MOST: usize = 3072;

// What a call is to store over, or to keep.
const UNUSED: u32 = 0xDEAD_BEEF;

// A clean file has no more words, as a file has.
const WORDS: usize = FILE_BYTES / 4;

fn copy_lines(page: &mut Page<'_>, refusal: u32, written: usize, buffer: &[u32]) {
    page.count_line(refusal, written);
    page.words_line(buffer);
}

// Words and buffer stand apart, as the calls take them.
fn by_call(page: &mut Page<'_>, settings: [u32; 3], words: &[u32], buffer: &mut [u32]) {
    let [mode, signs, towing] = settings;
    let copied = copy::of_lesson(mode, signs, towing, words, buffer);
    let refusal = number(&copied);
    copy_lines(page, refusal, copied.unwrap_or(0), buffer);
}

fn by_library(page: &mut Page<'_>, settings: u32, words: &[u32], buffer: &mut [u32]) {
    let mut written = 99;
    let refusal = cruise::cruise_copy(settings, words, buffer, &mut written);
    copy_lines(page, refusal, written, buffer);
}

fn by_car(page: &mut Page<'_>, car: Car, words: &[u32], buffer: &mut [u32]) {
    let copied = copy::from_car(car, words, buffer);
    let refusal = number(&copied);
    let part = copied.unwrap_or(Part {
        car: car,
        written: 0,
    });
    copy_lines(page, refusal, part.written, buffer);
    page.car_line(part.car);
}

// The next words of the input, behind their count, in a part of the program's own array. It stands in `marks` too: in `tester` it
// would need a contract longer than itself.
fn lesson<'a>(words: &'a mut [u32; 3075], input: &mut Reader<'_>) -> &'a [u32] {
    let part = &mut words[START..START + input.size(MOST)];
    input.fill(part);
    part
}

fn settings_case(input: &mut Reader<'_>, page: &mut Page<'_>) {
    let settings = input.take::<3>();
    let room = input.size(MOST);
    let mut array = [0; 3075];
    let words = lesson(&mut array, input);
    let mut buffer = [UNUSED; MOST];
    by_call(page, settings, words, &mut buffer[..room]);
    let mut other = [UNUSED; MOST];
    let [mode, signs, towing] = settings;
    let word = tester::settings_word(mode, signs, towing);
    by_library(page, word, words, &mut other[..room]);
}

fn car_case(input: &mut Reader<'_>, page: &mut Page<'_>) {
    let car = tester::car_at(&input.take::<24>(), 0);
    let room = input.size(MOST);
    let mut array = [0; 3075];
    let words = lesson(&mut array, input);
    let mut buffer = [UNUSED; MOST];
    by_car(page, car, words, &mut buffer[..room]);
}

// One turn over a piece, its bytes put behind those of the clean file: how many bytes of the piece were used.
#[tactic(auto, using(cleaning::proofs::PiecesLaws::end_within))]
fn turn(car: &mut Car, piece: &[u8], clean: &mut Page<'_>) -> usize {
    let mut bytes = [0u8; 4096];
    let turned = cleaning::turn(*car, piece, &mut bytes);
    *car = turned.car;
    clean.text(&bytes[0..turned.end]);
    turned.used
}

// The clean file's bytes, piece by piece behind the settings word, and the refusal of the file's end.
fn clean_pieces(
    first: Car,
    bytes: &[u8],
    cut: NonZeroUsize,
    clean: &mut Page<'_>,
) -> Result<(), Refusal> {
    let (settings, events) = bytes.split_at(bytes.len().min(4));
    let mut car = first;
    clean.text(settings);
    let Ok(left) = tester::pieces(events, cut.get(), |piece| {
        Ok::<usize, Infallible>(turn(&mut car, piece, clean))
    });
    cleaning::close(left)
}

fn clean_file(bytes: &[u8], cut: NonZeroUsize, clean: &mut Page<'_>) -> Result<(), Refusal> {
    let car = cleaning::open(bytes)?;
    clean_pieces(car, bytes, cut, clean)
}

#[tactic(auto, unfolding(wire::specs::Wire::words_count))]
fn clean_lines(page: &mut Page<'_>, refusal: u32, clean: &[u8]) {
    let mut words = [0; WORDS];
    let n = wire::words_of(clean, &mut words);
    copy_lines(page, refusal, n, &words[..n]);
}

// A file whose bytes are lent. Bytes and cut stand apart, as `tester::pieces` takes them.
fn clean_bytes(page: &mut Page<'_>, bytes: &[u8], cut: NonZeroUsize) {
    let mut array = [0u8; FILE_BYTES];
    let mut clean = Page::new(&mut array);
    let closed = clean_file(bytes, cut, &mut clean);
    let Page { out, at } = clean;
    if let Some(file) = out.get(..at) {
        clean_lines(page, number(&closed), file);
    }
}

// A file; pieces of no byte are no case, and what stands here is the next kind.
fn clean_case(input: &mut Reader<'_>, page: &mut Page<'_>) {
    let start = input.next;
    let Some(cut) = NonZeroUsize::new(input.size(4096)) else {
        input.next = start;
        return;
    };
    let mut bytes = [0u8; FILE_BYTES];
    clean_bytes(page, input.file(&mut bytes), cut);
}

// A kind is the input's own number: an enum would name each case a second time.
fn case(kind: u32, input: &mut Reader<'_>, page: &mut Page<'_>) {
    match kind {
        1 => settings_case(input, page),
        2 => car_case(input, page),
        _ => clean_case(input, page),
    }
}

fn cases(words: &[u32], page: &mut Page<'_>) {
    tester::cases(words, page, case);
}

fn main(rt: HostRuntime) -> io::Result<()> {
    let mut words = [0; 16384];
    let mut out = vec![in rt.alloc(); 0u8; 524288]?;
    let mut page = Page::new(out.as_mut_slice());
    tester::run(
        &rt,
        &mut words,
        &mut page,
        b"copies: standard input",
        b"copies: standard output",
        cases,
    );
    Ok(())
}
