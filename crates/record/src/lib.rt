// A car's record (document 01, "The record", and document 02, §12): twelve words, written from a good car and read back. Functions, and no
// `TryFrom`, as in layout.rt.
#![tactic(auto, using(kit::specs::Pick::picks))]

ghost use Rattle.std.specs.Prelude.{◌≡◌};
ghost use Rattle.event.specs.Refusal.{answer, number};
ghost use Rattle.record.specs.Record.{written_answer, offered, read_of, write_of, saved_refusal, saved_buffer};
ghost use Rattle.record.specs.RecordLesson.{lesson_answer, lesson_left, run_answer, run_left};

use car::Car;
use car::lesson::Ran;
use event::Refusal;

mod layout;

// The words of a good car. 18 for any other.
pub fn write(car: Car) -> Result<[u32; 12], Refusal>
    ensures { written_answer result ≡ write_of car }
{
    if !car.good() {
        return Err(Refusal::NotAccepted);
    }
    Ok(layout::pack(car))
}

// The gap 30 of a record is 25 in its car.
#[tactic(auto, using(kit::specs::Pick::picks), unfolding(crate::specs::Record::offered, car::specs::Car::with_gap))]
fn offered(mut car: Car) -> Car
    ensures { result ≡ offered car }
{
    if car.gap == 30 {
        car.gap = 25;
    }
    car
}

// The car that the words' fields say, where it is good and the words are those of the fields.
pub fn read(words: [u32; 12]) -> Result<Car, Refusal>
    ensures { answer result ≡ read_of words }
{
    let held = layout::unpack(words);
    let car = offered(held);
    if !car.good() || layout::pack(held) != words {
        return Err(Refusal::NotAccepted);
    }
    Ok(car)
}

// The record in lent words, of which there have to be twelve.
pub fn read_from(words: &[u32]) -> Result<Car, Refusal>
    ensures { answer result ≡ read_of words.now }
{
    match <[u32; 12]>::try_from(words) {
        Ok(record) => read(record),
        Err(_) => Err(Refusal::NotAccepted),
    }
}

// The record into the first twelve words of a lent buffer. Refused, the buffer is kept.
pub fn write_into(car: Car, buffer: &mut [u32]) -> Result<(), Refusal>
    ensures { (number result ≡ saved_refusal car buffer.old) × (buffer.new ≡ saved_buffer car buffer.old) }
{
    let words = write(car)?;
    if buffer.len() < 12 {
        return Err(Refusal::ShortRecord);
    }
    buffer[..12].copy_from_slice(&words);
    Ok(())
}

// A lesson's counts. No part of the outcome below: its readers would name two fields for one. Both are `Taught` and `Ran` without the car, which
// is the record here.
#[derive(Clone, Copy, Debug, Default, PartialEq, Eq)]
pub struct Outcome {
    pub accepted: usize,
    pub refused: usize,
}

// The same of a lesson that stops where a mark is passed, with the seconds that ended at or above a mark and whether one passed: a
// flag, since the counts say the same either way.
#[derive(Clone, Copy, Debug, Default, PartialEq, Eq)]
pub struct RunOutcome {
    pub accepted: usize,
    pub refused: usize,
    pub seconds: usize,
    pub found: bool,
}

impl From<Ran> for RunOutcome {
    ghost from_gives = { λ ran outcome. outcome ≡ record { accepted = ran.accepted; refused = ran.refused; seconds = ran.seconds; found = ran.found } };

    fn from(ran: Ran) -> RunOutcome {
        RunOutcome {
            accepted: ran.accepted,
            refused: ran.refused,
            seconds: ran.seconds,
            found: ran.found,
        }
    }
}

impl From<RunOutcome> for Outcome {
    ghost from_gives = { λ run outcome. outcome ≡ record { accepted = run.accepted; refused = run.refused } };

    fn from(run: RunOutcome) -> Outcome {
        Outcome {
            accepted: run.accepted,
            refused: run.refused,
        }
    }
}

// A lesson of the car whose record lent words are, up to the first word that passes the mark `halt` (0: nowhere), with the seconds that ended at
// `mark` or above: the record of the car afterwards takes its place where at least `least` words were accepted. The car's own test is the lesson's,
// and made once. Words, answers and the two marks come one by one, as the car's own lesson takes them.
pub fn run(
    words: &mut [u32],
    events: &[u32],
    answers: &mut [u32],
    halt: u32,
    mark: u32,
    least: usize,
) -> Result<RunOutcome, Refusal>
    ensures { run_answer result words.new answers.new ≡ run_left halt mark least words.old (read_of words.old) events.now answers.old }
{
    let Ok(record) = <[u32; 12]>::try_from(&*words) else {
        return Err(Refusal::NotAccepted);
    };
    let held = layout::unpack(record);
    if layout::pack(held) != record {
        return Err(Refusal::NotAccepted);
    }
    let ran = offered(held).run(events, answers, halt, mark)?;
    if ran.accepted >= least {
        words.copy_from_slice(&layout::pack(ran.car));
    }
    Ok(RunOutcome::from(ran))
}

// A lesson of the car whose record lent words are, written where at least `least` words were accepted.
pub fn lesson(
    words: &mut [u32],
    events: &[u32],
    answers: &mut [u32],
    least: usize,
) -> Result<Outcome, Refusal>
    ensures { lesson_answer result words.new answers.new ≡ lesson_left least words.old (read_of words.old) events.now answers.old }
{
    Ok(Outcome::from(run(words, events, answers, 0, 0, least)?))
}
