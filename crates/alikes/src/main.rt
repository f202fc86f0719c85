// Says which cars are alike. Standard input (words, little-endian) holds cases: 1 and two records of twelve words; 2 and two cars as they stand, as
// their fields; 3 word, one word driven on both records; 0 ends.
// Prints for 1 the refusal and the answer that the library gives; for 2 the call's; for 3 both refusals of the word, then as for 1.
#![tactic(auto)]

use tester::{Page, Reader};

// What the library is to store over.
const UNUSED: u32 = 0xDEAD_BEEF;

// Two records.
#[derive(Drop)]
struct Pair {
    first: [u32; 12],
    second: [u32; 12],
}

fn answer(pair: &Pair, page: &mut Page<'_>) {
    let mut alike = UNUSED;
    let refusal = cruise::cruise_alike(&pair.first, &pair.second, &mut alike);
    page.words_line(&[refusal, alike]);
}

fn records(pair: &mut Pair, input: &mut Reader<'_>, page: &mut Page<'_>) {
    input.fill(&mut pair.first);
    input.fill(&mut pair.second);
    answer(pair, page);
}

fn cars(input: &mut Reader<'_>, page: &mut Page<'_>) {
    let first = tester::car_at(&input.take::<24>(), 0);
    let second = tester::car_at(&input.take::<24>(), 0);
    page.words_line(&[event::bit(alike::alike(first, second))]);
}

fn drive(pair: &mut Pair, input: &mut Reader<'_>, page: &mut Page<'_>) {
    let word = input.next();
    page.number(cruise::cruise_drive(&mut pair.first, word));
    page.number(cruise::cruise_drive(&mut pair.second, word));
    answer(pair, page);
}

// A kind is the input's own number: an enum would name each case a second time.
fn case(kind: u32, pair: &mut Pair, input: &mut Reader<'_>, page: &mut Page<'_>) {
    match kind {
        1 => records(pair, input, page),
        2 => cars(input, page),
        _ => drive(pair, input, page),
    }
}

fn cases(words: &[u32], page: &mut Page<'_>) {
    let mut pair = Pair {
        first: [UNUSED; 12],
        second: [UNUSED; 12],
    };
    tester::cases(words, page, |kind, input, page| {
        case(kind, &mut pair, input, page)
    });
}

fn main(rt: HostRuntime) {
    let mut words = [0; 16384];
    let mut out = [0; 131072];
    let mut page = Page::new(&mut out);
    tester::run(
        &rt,
        &mut words,
        &mut page,
        b"alikes: standard input",
        b"alikes: standard output",
        cases,
    );
}
