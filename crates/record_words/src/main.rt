// Standard input holds records of 14 words: how many words a record has, 11 to 13, and thirteen words, zeros past its own.
// For each a line: the refusal; and of a car that was read its fields in the order of document 01, and 1 if the car written
// again, as an array and into a buffer of thirteen words, has the same words and the buffer's last word is kept, else 0.
#![tactic(auto)]

use car::Car;
use event::Refusal;
use tester::Page;

// What the buffer holds before a record is written into it.
const UNUSED: u32 = 7;

// Car and words stand apart: `loaded` alone has both, and would make and open a struct of them.
fn array_same(car: Car, words: [u32; 13]) -> bool {
    record::write(car).is_ok_and(|again| &again[..] == &words[..12])
}

fn buffer_same(car: Car, words: [u32; 13]) -> bool {
    let mut buffer = [UNUSED; 13];
    let written = record::write_into(car, &mut buffer);
    written.is_ok() & (&buffer[..12] == &words[..12]) & (buffer[12] == UNUSED)
}

fn loaded(page: &mut Page<'_>, car: Car, words: [u32; 13]) {
    page.number(0);
    page.numbers(&tester::fields_of(car));
    let same = array_same(car, words) & buffer_same(car, words);
    page.last(event::bit(same));
}

// A record of 11 or 12 words, else of all thirteen, by the input's own number.
fn read(words: &[u32; 13], count: u32) -> Result<Car, Refusal> {
    match count {
        11 => record::read_from(&words[..11]),
        12 => record::read_from(&words[..12]),
        _ => record::read_from(words),
    }
}

// All thirteen words beside the count, since the comparisons read past it.
fn line(page: &mut Page<'_>, count: u32, words: [u32; 13]) {
    match read(&words, count) {
        Ok(car) => loaded(page, car, words),
        Err(refusal) => page.last(u32::from(refusal)),
    }
}

fn lines(input: &[u32], page: &mut Page<'_>) {
    for record in input.chunks(14) {
        let mut words = [0; 13];
        tester::fill(&mut words, record, 1);
        line(page, tester::word(record, 0), words);
    }
}

fn main(rt: HostRuntime) {
    let mut words = [0; 16384];
    let mut out = [0; 131072];
    let mut page = Page::new(&mut out);
    tester::run(
        &rt,
        &mut words,
        &mut page,
        b"record_words: standard input",
        b"record_words: standard output",
        lines,
    );
}
