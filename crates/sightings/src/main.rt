// Turns the sightings of standard input (words, little-endian) into events: for each the kind, and metres and km/h as the floats' bits.
// Prints for each the refusal and the word that the library's function gives; and for the kinds 0 to 2 those of the calls: the event's refusal, 1 where
// there is an event, its range and its speed; the word's refusal, 1 where there is an event, and the word.
#![tactic(auto)]

use event::refusal::number;
use event::{Event, Input};
use sighting::Sighting;
use tester::Page;

// What the library is to store over.
const UNUSED: u32 = 0xDEAD_BEEF;

// A sighting as the input has it: its kind, any number, and the bits of its floats.
#[derive(Clone, Copy)]
struct Seen {
    kind: u32,
    metres: u32,
    kmh: u32,
}

fn by_library(page: &mut Page<'_>, seen: Seen) {
    let mut word = UNUSED;
    let refusal = cruise::cruise_sighting(
        seen.kind,
        tester::float(seen.metres),
        tester::float(seen.kmh),
        &mut word,
    );
    page.numbers(&[refusal, word]);
}

// A reading's range and speed; no sighting gives any other event.
fn by_event(page: &mut Page<'_>, sighting: Sighting) {
    let seen = sighting::radar_event(sighting);
    let refusal = number(&seen);
    match seen {
        Ok(Some(Event::Input(Input::Radar { range, speed }))) => page.numbers(&[
            0, 1, range, speed,
        ]),
        _ => page.numbers(&[refusal, 0, 0, 0]),
    }
}

fn by_word(page: &mut Page<'_>, sighting: Sighting) {
    let seen = sighting::radar_word(sighting);
    let refusal = number(&seen);
    match seen {
        Ok(Some(word)) => page.numbers(&[0, 1, word]),
        _ => page.numbers(&[refusal, 0, 0]),
    }
}

// The calls, where the kind is one of a sighting.
fn by_calls(page: &mut Page<'_>, seen: Seen) {
    if seen.kind > 2 {
        return;
    }
    let sighting = tester::sighting(seen.kind, seen.metres, seen.kmh);
    by_event(page, sighting);
    by_word(page, sighting);
}

fn line(page: &mut Page<'_>, seen: Seen) {
    by_library(page, seen);
    by_calls(page, seen);
    page.end_line();
}

fn lines(words: &[u32], page: &mut Page<'_>) {
    for chunk in words.chunks(3) {
        let mut words = [0; 3];
        tester::fill(&mut words, chunk, 0);
        let [kind, metres, kmh] = words;
        line(page, Seen { kind, metres, kmh });
    }
}

fn main(rt: HostRuntime) {
    let mut words = [0; 16384];
    let mut out = [0; 131072];
    let mut page = Page::new(&mut out);
    tester::run(
        &rt,
        &mut words,
        &mut page,
        b"sightings: standard input",
        b"sightings: standard output",
        lines,
    );
}
