// A clean copy of a lesson (document 02, §2): its accepted words, in order, in a lent buffer. Which words are accepted is read from the answer
// words of a lesson, part by part. Nothing is written before it is known that all fit. The words and the buffer are lent beside each other, as C lends
// them, and there is no heap for a Vec of the copy: the count of what was written comes out.
#![tactic(auto, using(kit::specs::Pick::picks))]

ghost use Rattle.std.specs.Prelude.{true, ◌≡◌, ◌+◌, ◌≤◌, ltb, length};
ghost use Rattle.kit.specs.Pick.{pick};
ghost use Rattle.kit.specs.Placed.{placed};
ghost use Rattle.event.specs.Refusal.{number};
ghost use Rattle.car.specs.Good.{good_of};
ghost use Rattle.history.specs.History.{accepted_words};
ghost use Rattle.copy.specs.Copy.{copy_answer, part_answer, copied_into, copied_part, copy_of, copy_buffer, part_of, part_buffer};
ghost use Rattle.copy.specs.CopyShape.{sifted_word, sifted};

use answer::Answer;
use car::Car;
use event::Refusal;

// The car behind a lesson, and how many words were written.
#[derive(Clone, Copy)]
pub struct Part {
    pub car: Car,
    pub written: usize,
}

// So many words are driven at a time.
const PART: usize = 1024;

// 19 where the words that a good car accepts are more than there is room for. Looks no further than is needed to know. That the car is good stands in
// the `requires`: a lesson takes any car and gives a plain one.
fn fits(first: Car, words: &[u32], room: usize) -> Result<(), Refusal>
    requires { good_of first ≡ true }
    ensures { number result ≡ pick (ltb room (length (accepted_words first words.now))) 19 0 }
{
    let mut answers = [0; PART];
    let mut car = first;
    let mut left = room;
    let mut ahead = words.len();
    for part in words.chunks(PART) {
        if ahead <= left {
            break;
        }
        let taught = car.lesson(part, &mut answers)?;
        if left < taught.accepted {
            return Err(Refusal::ShortAnswers);
        }
        left -= taught.accepted;
        ahead -= part.len();
        car = taught.car;
    }
    Ok(())
}

// A word into the copy at an index, if its answer holds no refusal, which is a number in any word; gives the index past it. As adapters, a filter of
// words and answers zipped with the places of the copy, it would be no plainer.
#[tactic(auto, using(kit::specs::Pick::picks, kit::specs::Placed::placed_one, kit::specs::Placed::placed_nothing), unfolding(crate::specs::CopyShape::sifted_word))]
fn sift_word(word: u32, answer: u32, copy: &mut [u32], at: usize) -> usize
    requires { at + length (sifted_word word answer) ≤ length copy.old }
    ensures { (result ≡ at + length (sifted_word word answer)) × (copy.new ≡ placed copy.old at (sifted_word word answer)) }
{
    if Answer::from(answer).refusal != 0 {
        return at;
    }
    copy[at] = word;
    at + 1
}

// All such words of a part, from an index on.
#[tactic(auto, using(crate::proofs::Parts::words_end, crate::proofs::Parts::answers_end))]
fn sift(words: &[u32], answers: &[u32], copy: &mut [u32], at: usize)
    requires { at + length (sifted words.now answers.now) ≤ length copy.old }
    ensures { copy.new ≡ placed copy.old at (sifted words.now answers.now) }
{
    let mut end = at;
    for (word, answer) in words.iter().zip(answers) {
        end = sift_word(*word, *answer, copy, end);
    }
}

// All words of a part, from an index on: one by one, so that the compiler has no slice copy to call `memmove` for. The archive for C asks for no more
// than `memset` from outside.
fn put_all(words: &[u32], copy: &mut [u32], at: usize)
    requires { at + length words.now ≤ length copy.old }
    ensures { copy.new ≡ placed copy.old at words.now }
{
    for (i, word) in words.iter().enumerate() {
        copy[at + i] = *word;
    }
}

// The accepted words of a part, by how many were refused and by the answers, from an index on. Copy and index go in together: the loop's invariant
// is of the whole copy, and of a part lent out it would have to be put together again.
fn put(refused: usize, words: &[u32], answers: &[u32], copy: &mut [u32], at: usize)
    requires { (refused ≡ 0 → sifted words.now answers.now ≡ words.now) × (at + length (sifted words.now answers.now) ≤ length copy.old) }
    ensures { copy.new ≡ placed copy.old at (sifted words.now answers.now) }
{
    if refused == 0 {
        put_all(words, copy, at);
    } else {
        sift(words, answers, copy, at);
    }
}

// The copy, where it fits, of a good car's lesson.
fn write(first: Car, words: &[u32], copy: &mut [u32]) -> Result<Part, Refusal>
    requires { (good_of first ≡ true) × (length (accepted_words first words.now) ≤ length copy.old) }
    ensures { (part_answer first result ≡ copied_part first words.now) × (copy.new ≡ copied_into first words.now copy.old) }
{
    let mut answers = [0; PART];
    let mut car = first;
    let mut written = 0;
    for part in words.chunks(PART) {
        let taught = car.lesson(part, &mut answers)?;
        put(taught.refused, part, &answers, copy, written);
        written += taught.accepted;
        car = taught.car;
    }
    Ok(Part {
        car: car,
        written: written,
    })
}

// A copy from a car as it stands, which a lesson that comes in parts goes on from. 18 for a car that is not good, then 19.
#[tactic(auto, using(kit::specs::Pick::picks, event::proofs::RefusalLaws::number_pos), unfolding(crate::specs::Copy::part_of, crate::specs::Copy::part_buffer, crate::specs::Copy::too_short, crate::specs::Copy::uncopied_part))]
pub fn from_car(car: Car, words: &[u32], copy: &mut [u32]) -> Result<Part, Refusal>
    ensures { (part_answer car result ≡ part_of car words.now copy.old) × (copy.new ≡ part_buffer car words.now copy.old) }
{
    if !car.good() {
        return Err(Refusal::NotAccepted);
    }
    fits(car, words, copy.len())?;
    write(car, words, copy)
}

// The copy of a lesson from the fresh car of its settings, and how many words were written. 17, then 19.
#[tactic(auto, using(settings::proofs::SettingsWordLaws::made_good, crate::proofs::CopyLaws::started_part, crate::proofs::CopyLaws::started_buffer_lem), unfolding(crate::specs::Copy::copy_of, crate::specs::Copy::copy_buffer, crate::specs::Copy::started_copy, crate::specs::Copy::unwritten, crate::specs::Copy::started_buffer))]
pub fn of_lesson(
    mode: u32,
    signs: u32,
    towing: u32,
    words: &[u32],
    copy: &mut [u32],
) -> Result<usize, Refusal>
    ensures { (copy_answer result ≡ copy_of mode signs towing words.now copy.old) × (copy.new ≡ copy_buffer mode signs towing words.now copy.old) }
{
    let car = Car::fresh(mode, signs, towing)?;
    let part = from_car(car, words, copy)?;
    Ok(part.written)
}
