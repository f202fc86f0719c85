// Runs every function of the library over thirteen words of its own. Standard input (words, little-endian) holds calls: the kind, how
// many of the thirteen words are lent, and what the kind needs: 1 words, as many as are lent, to take their place; 2 mode signs towing, a fresh
// car; 3 word, one word driven; 4 room count words, a lesson with that room for answers; 5 kind metres kmh, a sighting, the floats as their
// bits; 0 ends.
// Prints for each, but kind 1, its refusal (a lesson's counts behind it, and in a line its sixteen words for answers) and the thirteen
// words; for each, of the words lent: the test's refusal; the figures' and the figures (of a the sign, 1 below 0, and the size); that of
// alike and whether the words before the call are alike.
#![tactic(auto)]

use tester::{Page, Reader};

// A lesson's words start here in the program's own array.
const START: usize = 3;

// No size is larger.
const MOST: usize = 16;

// What the library is to store over, or to keep.
const UNUSED: u32 = 0xDEAD_BEEF;

// The sign of a number, 1 below 0, and its size, held to 99.
fn signed(page: &mut Page<'_>, n: i32) {
    page.numbers(&[event::bit(n < 0), n.unsigned_abs().min(99)]);
}

// Words, input and page stand apart: each call is lent another part of the words, and `tester::cases` hands over input and page anew.
fn fresh(words: &mut [u32], input: &mut Reader<'_>, page: &mut Page<'_>) {
    let [mode, signs, towing] = input.take::<3>();
    let refusal = cruise::cruise_fresh(tester::settings_word(mode, signs, towing), words);
    page.words_line(&[refusal]);
}

fn drive(words: &mut [u32], input: &mut Reader<'_>, page: &mut Page<'_>) {
    let refusal = cruise::cruise_drive(words, input.next());
    page.words_line(&[refusal]);
}

// A lesson with as many answers as it is lent.
fn teach(words: &mut [u32], events: &[u32], answers: &mut [u32], page: &mut Page<'_>) {
    let mut accepted = 99;
    let mut refused = 99;
    let refusal = cruise::cruise_lesson(words, events, answers, &mut accepted, &mut refused);
    page.lesson_line(refusal, accepted, refused);
}

fn lesson(words: &mut [u32], input: &mut Reader<'_>, page: &mut Page<'_>) {
    let room = input.size(MOST);
    let last = START + input.size(MOST);
    let mut events = [UNUSED; 20];
    let mut answers = [UNUSED; MOST];
    input.fill(&mut events[START..last]);
    teach(words, &events[START..last], &mut answers[..room], page);
    page.words_line(&answers);
}

fn see(words: &mut [u32], input: &mut Reader<'_>, page: &mut Page<'_>) {
    let [kind, metres, kmh] = input.take::<3>();
    let refusal = cruise::cruise_see(words, kind, tester::float(metres), tester::float(kmh));
    page.words_line(&[refusal]);
}

// A kind is the input's own number: an enum would name each case a second time.
fn call(kind: u32, words: &mut [u32], input: &mut Reader<'_>, page: &mut Page<'_>) {
    match kind {
        1 => input.fill(words),
        2 => fresh(words, input, page),
        3 => drive(words, input, page),
        4 => lesson(words, input, page),
        _ => see(words, input, page),
    }
}

fn figures(page: &mut Page<'_>, words: &[u32]) {
    let mut speed = UNUSED;
    let mut desired = UNUSED;
    let mut acceleration = 99;
    let mut visual = UNUSED;
    let mut acoustic = UNUSED;
    let mut distance = UNUSED;
    let refusal = cruise::cruise_figures(
        words,
        &mut speed,
        &mut desired,
        &mut acceleration,
        &mut visual,
        &mut acoustic,
        &mut distance,
    );
    page.numbers(&[refusal, speed, desired]);
    signed(page, acceleration);
    page.numbers(&[visual, acoustic, distance]);
}

fn alike(page: &mut Page<'_>, words: &[u32], before: &[u32]) {
    let mut answer = UNUSED;
    let refusal = cruise::cruise_alike(words, before, &mut answer);
    page.numbers(&[refusal, answer]);
}

fn questions(page: &mut Page<'_>, words: &[u32], before: &[u32]) {
    page.number(cruise::cruise_test(words));
    figures(page, words);
    alike(page, words, before);
    page.end_line();
}

// The words, where the library was lent them to change.
fn show(page: &mut Page<'_>, kind: u32, words: &[u32]) {
    if kind > 1 {
        page.words_line(words);
    }
}

// A call over the first words, what the library left of them all, and its answers about the first. Over more than there are none is made.
fn report(kind: u32, words: &mut [u32; 13], input: &mut Reader<'_>, page: &mut Page<'_>) {
    let size = input.size(MOST);
    if words.len() < size {
        return show(page, kind, &words[..]);
    }
    let before = *words;
    call(kind, &mut words[..size], input, page);
    show(page, kind, &words[..]);
    questions(page, &words[..size], &before[..size]);
}

fn calls(input: &[u32], page: &mut Page<'_>) {
    let mut words = [UNUSED; 13];
    tester::cases(input, page, |kind, input, page| {
        report(kind, &mut words, input, page)
    });
}

fn main(rt: HostRuntime) {
    let mut words = [0; 16384];
    let mut out = [0; 131072];
    let mut page = Page::new(&mut out);
    tester::run(
        &rt,
        &mut words,
        &mut page,
        b"cruise_calls: standard input",
        b"cruise_calls: standard output",
        calls,
    );
}
