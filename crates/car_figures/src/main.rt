// A line for each three settings, 0 to 3, 0 to 2 and 0 to 2: the refusal of Car::fresh. Then for each car of standard input, 24 words in the
// order of document 01's fields, a line: refusal, speed, desired, acceleration, visual, acoustic, secure distance.
#![tactic(auto)]

use car::Car;
use event::bit;
use event::refusal::number;
use tester::Page;

fn sign(page: &mut Page<'_>, slows: bool) {
    if slows {
        page.text(b"-");
    }
}

fn line(page: &mut Page<'_>, car: Car) {
    let answer = car.figures();
    let refusal = number(&answer);
    let figures = answer.unwrap_or_default();
    let a = figures.acceleration;
    page.numbers(&[refusal, figures.speed, figures.desired]);
    sign(page, a.slows);
    page.numbers(&[a.size, bit(figures.visual), bit(figures.acoustic)]);
    page.last(figures.distance);
}

fn lines(page: &mut Page<'_>, words: &[u32]) {
    for fields in words.chunks_exact(24) {
        line(page, tester::car_at(fields, 0));
    }
}

fn fresh_lines(page: &mut Page<'_>) {
    for mode in 0..4 {
        for signs in 0..3 {
            for towing in 0..3 {
                page.last(number(&Car::fresh(mode, signs, towing)));
            }
        }
    }
}

fn all_lines(words: &[u32], page: &mut Page<'_>) {
    fresh_lines(page);
    lines(page, words);
}

fn main(rt: HostRuntime) {
    let mut words = [0; 16384];
    let mut out = [0; 131072];
    let mut page = Page::new(&mut out);
    tester::run(
        &rt,
        &mut words,
        &mut page,
        b"car_figures: standard input",
        b"car_figures: standard output",
        all_lines,
    );
}
