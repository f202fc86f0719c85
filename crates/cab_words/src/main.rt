// Drives a car by the open call, which is lent a local car. Standard input (words, little-endian): how many words follow the settings,
// the settings' mode, signs and towing, the words. Prints for each word its refusal and the car's speed and desired speed behind it.
#![tactic(auto)]

ghost use Rattle.std.specs.Prelude.{◌≡◌};
ghost use Rattle.car.specs.Drive.{drive_of};

use car::Car;
use event::refusal::number;
use tester::{Page, Reader};

// Lends the car on to the open call: its refusal, 0 for none.
fn lent(car: &mut Car, word: u32) -> u32
    ensures { (result ≡ (drive_of car.old word).refusal) × (car.new ≡ (drive_of car.old word).car) }
{
    number(&cab::drive(car, word))
}

fn line(car: &mut Car, word: u32, page: &mut Page<'_>) {
    let refusal = lent(car, word);
    page.numbers(&[refusal, car.speed]);
    page.last(car.cruise.desired);
}

fn lines(first: Car, count: u32, mut input: Reader<'_>, page: &mut Page<'_>) {
    let mut car = first;
    for _ in 0..count {
        line(&mut car, input.next(), page);
    }
}

fn drive(words: &[u32], page: &mut Page<'_>) {
    let mut input = Reader { words, next: 0 };
    let [count, mode, signs, towing] = input.take::<4>();
    match Car::fresh(mode, signs, towing) {
        Ok(car) => lines(car, count, input, page),
        Err(refusal) => page.last(u32::from(refusal)),
    }
}

fn main(rt: HostRuntime) {
    let mut words = [0; 16384];
    let mut out = [0; 131072];
    let mut page = Page::new(&mut out);
    tester::run(
        &rt,
        &mut words,
        &mut page,
        b"cab_words: standard input",
        b"cab_words: standard output",
        drive,
    );
}
