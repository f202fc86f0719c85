// Reads and writes events. Standard input (words, little-endian) begins with a count: of so many event words that follow it each is read; behind
// them stand events, each its kind, its value and its second value, and each is written.
// For each word a line: the number by which it is refused, 0 to 3 or 24, and 1 if the event read from it is written as the same word again (or if it
// was refused), else 0. For each event a line: the number by which it is refused, and its word, 0 where it has none.
#![tactic(auto)]

use event::refusal::number;
use event::{Event, Input};
use tester::Page;

fn same(word: u32, event: Event) -> bool {
    u32::try_from(event) == Ok(word)
}

fn read(page: &mut Page<'_>, word: u32) {
    let read = Event::try_from(word);
    page.number(number(&read));
    let kept = read.map_or(true, |event| same(word, event));
    page.last(event::bit(kept));
}

// The event of a kind and its values; of a flag, 1 is set. Each kind that is not named is a tick's.
fn event(kind: u32, value: u32, second: u32) -> Event {
    let input = match kind {
        1 => Input::Key {
            position: value,
            ready: second == 1,
        },
        2 => Input::UpDown(value),
        3 => Input::ForeBack(value),
        4 => Input::Brake(value),
        5 => Input::Gas(value),
        6 => Input::Button(value),
        7 => Input::Gap(value),
        8 => Input::Sign(value),
        9 => Input::Radar {
            range: value,
            speed: second,
        },
        _ => return Event::Tick { ready: value == 1 },
    };
    Event::Input(input)
}

fn write(page: &mut Page<'_>, event: Event) {
    let written = u32::try_from(event);
    page.number(number(&written));
    page.last(written.unwrap_or(0));
}

fn lines(words: &[u32], page: &mut Page<'_>) {
    let count = tester::size(words, 0, words.len());
    let end = tester::past(words, 1, count);
    for word in words.get(1..end).unwrap_or(&[]) {
        read(page, *word);
    }
    for chunk in words.get(end..).unwrap_or(&[]).chunks(3) {
        let mut words = [0; 3];
        tester::fill(&mut words, chunk, 0);
        let [kind, value, second] = words;
        write(page, event(kind, value, second));
    }
}

fn main(rt: HostRuntime) {
    let mut words = [0; 16384];
    let mut out = [0; 131072];
    let mut page = Page::new(&mut out);
    tester::run(
        &rt,
        &mut words,
        &mut page,
        b"event_words: standard input",
        b"event_words: standard output",
        lines,
    );
}
