// The event that passed a mark, and the seconds at or above it (document 02, §5), of a lent lesson from a car handed in. The words are driven part
// by part, since nothing is lent for their answers.
#![tactic(auto, using(kit::specs::Pick::picks))]

ghost use Rattle.std.specs.Prelude.{true, ◌≡◌};
ghost use Rattle.kit.specs.Answer.{gives};
ghost use Rattle.event.specs.Refusal.{answer};
ghost use Rattle.car.specs.Good.{good_of};
ghost use Rattle.passing.specs.Passing.{search_answer, search_of, count_answer, count_of, mark_answer, mark_of};
ghost use Rattle.passing.specs.PassingShape.{find_of};

use car::Car;
use event::Refusal;

// The seconds that ended at or above the mark, and the car behind the lesson.
#[derive(Clone, Copy)]
pub struct Counted {
    pub car: Car,
    pub seconds: usize,
}

// The same with the number of the event that passed the mark. No Counted in it: its readers would name two fields for one. A search gives the seconds up to its find, and the car right after it.
#[derive(Clone, Copy)]
pub struct Marked {
    pub car: Car,
    pub passed: Option<usize>,
    pub seconds: usize,
}

// Words and mark stand beside the car in each function, and in no struct: nothing ties the one to the other.

// So many words are driven at a time.
const PART: usize = 1024;

// The first event that passes the mark, and the seconds up to it, or all, of a good car's lesson. No word behind it is driven. A
// `loop` whose `break` hands the number on: the form that document 01 names. That the car is good stands in the `requires`: a lesson takes any car and gives a plain one.
fn seek(first: Car, words: &[u32], mark: u32) -> Result<Marked, Refusal>
    requires { good_of first ≡ true }
    ensures { answer result ≡ gives (find_of mark first words.now) }
{
    let mut answers = [0; PART];
    let mut car = first;
    let mut seconds = 0;
    let mut before = 0;
    let mut parts = words.chunks(PART);
    let passed = loop {
        let Some(part) = parts.next() else {
            break None;
        };
        let ran = car.run(part, &mut answers, mark, mark)?;
        seconds += ran.seconds;
        car = ran.car;
        if ran.found {
            break Some(before + ran.accepted + ran.refused);
        }
        before += part.len();
    };
    Ok(Marked {
        car: car,
        passed: passed,
        seconds: seconds,
    })
}

// The seconds of a good car's lesson that end at or above the mark. Beside `seek`, of which it is the case that stops at 0: of each part it would
// have to be shown again that it finds none.
fn count(first: Car, words: &[u32], mark: u32) -> Result<Counted, Refusal>
    requires { good_of first ≡ true }
    ensures { count_answer first result ≡ count_of mark first words.now }
{
    let mut answers = [0; PART];
    let mut car = first;
    let mut seconds = 0;
    for part in words.chunks(PART) {
        let ran = car.run(part, &mut answers, 0, mark)?;
        seconds += ran.seconds;
        car = ran.car;
    }
    Ok(Counted {
        car: car,
        seconds: seconds,
    })
}

// The number of the event that passed the mark, counted from 1, refused ones too; none where no event did. 18 for a car that is not good.
#[tactic(auto, using(kit::specs::Pick::picks), unfolding(crate::specs::Passing::search_of, crate::specs::PassingShape::find_of))]
pub fn search(car: Car, words: &[u32], mark: u32) -> Result<Option<usize>, Refusal>
    ensures { search_answer result ≡ search_of mark car words.now }
{
    if !car.good() {
        return Err(Refusal::NotAccepted);
    }
    let find = seek(car, words, mark)?;
    Ok(find.passed)
}

// The seconds that ended at or above the mark. 18 for a car that is not good.
#[tactic(auto, using(kit::specs::Pick::picks), unfolding(crate::specs::Passing::count_of))]
pub fn seconds(car: Car, words: &[u32], mark: u32) -> Result<Counted, Refusal>
    ensures { count_answer car result ≡ count_of mark car words.now }
{
    if !car.good() {
        return Err(Refusal::NotAccepted);
    }
    count(car, words, mark)
}

// Both, in one pass: the search, then the seconds of the words behind its find. 18 for a car that is not good.
#[tactic(auto, using(kit::specs::Pick::picks, crate::proofs::Parts::from_within, crate::proofs::Parts::good_behind), unfolding(crate::specs::Passing::mark_of))]
pub fn of_lesson(car: Car, words: &[u32], mark: u32) -> Result<Marked, Refusal>
    ensures { mark_answer car result ≡ mark_of mark car words.now }
{
    if !car.good() {
        return Err(Refusal::NotAccepted);
    }
    let find = seek(car, words, mark)?;
    let from = find.passed.unwrap_or(words.len());
    let rest = count(find.car, &words[from..], mark)?;
    Ok(Marked {
        car: rest.car,
        passed: find.passed,
        seconds: find.seconds + rest.seconds,
    })
}
