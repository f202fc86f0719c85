// Runs the calls of standard input (words, little-endian): 1 mode signs towing, a fresh car; 2 and 24 fields, a car as it stands; 3
// word, one word driven; 4 size count words, a lesson with an answer buffer of that size; 5 size, a record call with a buffer of that size; 6 kind metres
// kmh, a sighting, the floats as their bits; 0 ends.
// Prints for each its refusal (a lesson's counts behind it; a word's answer word, and whether the cars before and after it are alike; 1 for a
// sighting that is a fault), then its buffer, then the car's fields in document 01's order.
#![tactic(auto)]

use car::Car;
use car::lesson::Taught;
use event::refusal::number;
use tester::{Page, Reader};

// A lesson's words start here in the program's own array.
const START: usize = 3;

// No size is larger.
const MOST: usize = 32;

// What a call is to store over, or to keep.
const UNUSED: u32 = 0xDEAD_BEEF;

// Car, input and page stand apart: `tester::cases` hands the last two to each case anew, so that a struct of the three would be made for each.
fn fresh(car: &mut Car, input: &mut Reader<'_>, page: &mut Page<'_>) {
    let [mode, signs, towing] = input.take::<3>();
    let made = Car::fresh(mode, signs, towing);
    page.words_line(&[number(&made)]);
    if let Ok(first) = made {
        *car = first;
        page.car_line(first);
    }
}

fn set(car: &mut Car, input: &mut Reader<'_>) {
    *car = tester::car_at(&input.take::<24>(), 0);
}

fn drive(car: &mut Car, input: &mut Reader<'_>, page: &mut Page<'_>) {
    let word = input.next();
    let before = *car;
    let driven = before.drive(word);
    let mut answer = [0];
    let _ = before.lesson(&[word], &mut answer);
    let refusal = number(&driven);
    let after = driven.unwrap_or(before);
    *car = after;
    let alike = event::bit(alike::alike(before, after));
    page.words_line(&[refusal, answer[0], alike]);
}

fn taught(car: &mut Car, events: &[u32], buffer: &mut [u32], page: &mut Page<'_>) {
    let before = *car;
    let answer = before.lesson(events, buffer);
    let refusal = number(&answer);
    let taught = answer.unwrap_or(Taught {
        car: before,
        accepted: 0,
        refused: 0,
    });
    *car = taught.car;
    page.lesson_line(refusal, taught.accepted, taught.refused);
    page.words_line(buffer);
}

fn lesson(car: &mut Car, input: &mut Reader<'_>, page: &mut Page<'_>) {
    let size = input.size(MOST);
    let end = START + input.size(MOST);
    let mut events = [0; 64];
    let mut buffer = [UNUSED; 64];
    input.fill(&mut events[START..end]);
    taught(car, &events[START..end], &mut buffer[..size], page);
}

fn kept(car: &mut Car, buffer: &mut [u32], page: &mut Page<'_>) {
    let before = *car;
    let kept = trainer::keep(before, buffer);
    page.words_line(&[number(&kept)]);
    *car = kept.unwrap_or(before);
    page.words_line(buffer);
}

fn record_call(car: &mut Car, input: &mut Reader<'_>, page: &mut Page<'_>) {
    let size = input.size(MOST);
    let mut buffer = [UNUSED; 64];
    kept(car, &mut buffer[..size], page);
}

fn see(car: &mut Car, input: &mut Reader<'_>, page: &mut Page<'_>) {
    let [kind, metres, kmh] = input.take::<3>();
    let seen = scene::see(*car, tester::sighting(kind, metres, kmh));
    let refusal = number(&seen);
    let fault = matches!(seen, Ok(None));
    page.words_line(&[refusal, event::bit(fault)]);
    if let Ok(Some(after)) = seen {
        *car = after;
    }
}

// A kind is the input's own number: an enum would name each case a second time.
fn any_other(kind: u32, car: &mut Car, input: &mut Reader<'_>, page: &mut Page<'_>) {
    match kind {
        2 => set(car, input),
        3 => drive(car, input, page),
        4 => lesson(car, input, page),
        5 => record_call(car, input, page),
        _ => see(car, input, page),
    }
}

fn call(kind: u32, car: &mut Car, input: &mut Reader<'_>, page: &mut Page<'_>) {
    if kind == 1 {
        return fresh(car, input, page);
    }
    any_other(kind, car, input, page);
    page.car_line(*car);
}

fn calls(words: &[u32], page: &mut Page<'_>) {
    let Ok(first) = Car::fresh(1, 0, 0) else {
        return page.end_line();
    };
    let mut car = first;
    tester::cases(words, page, |kind, input, page| {
        call(kind, &mut car, input, page)
    });
}

fn main(rt: HostRuntime) {
    let mut words = [0; 16384];
    let mut out = [0; 131072];
    let mut page = Page::new(&mut out);
    tester::run(
        &rt,
        &mut words,
        &mut page,
        b"calls: standard input",
        b"calls: standard output",
        calls,
    );
}
