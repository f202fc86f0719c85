// A lesson (document 01, "A lesson"): a lent run of event words, with one answer word for each. Words and room for answers come one by one, as
// C hands them over: that there is too little room is a refusal. So do the two marks: a count of seconds has none to stop at.
ghost use Rattle.std.specs.Prelude.{true, ◌&&◌, ◌||◌, not, ◌≡◌, eqb, leb, length, ◌≤◌};
ghost use Rattle.kit.specs.Pick.{pick};
ghost use Rattle.motion.specs.Acceleration.{acceleration_code};
ghost use Rattle.car.specs.Acceleration.{acceleration_of};
ghost use Rattle.car.specs.Lesson.{lesson_answer, answer_of, speed_of, lesson_of, answers_after, trace_short, trace_of, trace_after};
ghost use Rattle.car.specs.Mark.{run_answer, searched, ran_of, run_of, run_after};
ghost use Rattle.car.specs.LessonShape.{accepted_answer, over_of};

use crate::Car;
use crate::checked::GoodCar;
use crate::tick::Moved;
use answer::Answer;
use event::Refusal;

// The car after a lesson, and how many words it accepted and refused. No part of `Ran`: its readers would name two fields for one.
#[derive(Clone, Copy)]
pub struct Taught {
    pub car: Car,
    pub accepted: usize,
    pub refused: usize,
}

// A lesson that stops where a mark is passed (document 02, §5): the car behind the words driven, how many of them were accepted and refused,
// how many of their seconds ended at or above a mark, and whether one passed the mark that stops it: a flag, since the
// rest is said either way.
#[derive(Clone, Copy)]
pub struct Ran {
    pub car: Car,
    pub accepted: usize,
    pub refused: usize,
    pub seconds: usize,
    pub found: bool,
}

// The same as a lesson.
impl From<Ran> for Taught {
    ghost from_gives = { λ ran taught. taught ≡ record { car = ran.car; accepted = ran.accepted; refused = ran.refused } };

    fn from(ran: Ran) -> Taught {
        let car = ran.car;
        Taught {
            car: car,
            accepted: ran.accepted,
            refused: ran.refused,
        }
    }
}

// 1 for a second that ends at the mark or above.
fn counts(mark: u32, speed: u32) -> usize
    ensures { result ≡ pick (leb mark speed) 1 0 }
{
    usize::from(mark <= speed)
}

impl GoodCar {
    // The answer word of an accepted word that gave this car, by the code of its acceleration. Here and in a tick the code stands beside the car: a
    // lesson's loop would store a struct of both whole.
    fn answer(self, code: u32) -> u32
        requires { code ≡ acceleration_code (acceleration_of self.car) }
        ensures { result ≡ accepted_answer self.car }
    {
        u32::from(Answer {
            refusal: 0,
            visual: self.visual(),
            acoustic: self.acoustic(),
            acceleration: code,
            desired: self.car.cruise.desired,
        })
    }

    // A lesson of a good car with room for its answers; v after each word goes into a second buffer as far as that reaches. It stops behind
    // the word that passes the mark `halt`, and counts the seconds that end at `mark` or above.
    // The car is changed in place, and a, the answer word and whether v is below `halt` are worked out again only where a word can have changed them.
    // That is why a word's parts stand here once more, and not by `drive_tick` and `drive_input`: of a tick `moved` tells it. A refusal is its number,
    // as the answer word has it.
    // Answers go in by index: of a slice that a zip over its `iter_mut` filled, a proof knows the length alone.
    fn teach(
        self,
        words: &[u32],
        answers: &mut [u32],
        speeds: &mut [u32],
        halt: u32,
        mark: u32,
    ) -> Ran
        requires { length words.now ≤ length answers.old }
        ensures { (run_answer self.car (Ok result) ≡ ran_of halt mark self.car words.now) × (answers.new ≡ over_of answer_of self.car (searched halt self.car words.now) answers.old) × (speeds.new ≡ over_of speed_of self.car (searched halt self.car words.now) speeds.old) }
    {
        let mut car = self.car;
        let mut refused = 0;
        let mut seconds = 0;
        let mut below = self.car.speed < halt;
        let mut code = self.acceleration_code();
        let mut answer = self.answer(code);
        for (i, word) in words.iter().enumerate() {
            let mut refusal = 0;
            let mut stale = false;
            if event::is_tick(*word) {
                let good = GoodCar { car };
                let due = good.test_due();
                match car.check_tick(*word, due) {
                    Ok(()) => {
                        let moved = good.moved::<true>(code);
                        stale = car.differs(moved);
                        seconds += counts(mark, moved.speed);
                        car = car.tick(moved);
                        if due {
                            car = car.test_radar(event::tick_ready(*word));
                            stale = true;
                        }
                    }
                    Err(early) => {
                        refusal = u32::from(early);
                    }
                }
            } else {
                match event::read_input(*word) {
                    Ok(input) => match car.check::<true>(input) {
                        Ok(()) => {
                            car = car.next::<true>(input);
                            stale = true;
                        }
                        Err(unfit) => {
                            refusal = u32::from(unfit);
                        }
                    },
                    Err(unread) => {
                        refusal = u32::from(unread);
                    }
                }
            }
            let mut passed = false;
            if stale {
                let good = GoodCar { car };
                code = good.acceleration_code();
                answer = good.answer(code);
                passed = below & (halt <= car.speed);
                below = car.speed < halt;
            }
            if refusal != 0 {
                refused += 1;
            }
            answers[i] = answer::refusing(answer, refusal);
            if i < speeds.len() {
                speeds[i] = car.speed;
            }
            if passed {
                return Ran {
                    car: car,
                    accepted: i + 1 - refused,
                    refused: refused,
                    seconds: seconds,
                    found: true,
                };
            }
        }
        Ran {
            car: car,
            accepted: words.len() - refused,
            refused: refused,
            seconds: seconds,
            found: false,
        }
    }
}

impl Car {
    // A second gives another v or D.
    fn differs(self, moved: Moved) -> bool
        ensures { result ≡ (not (eqb moved.speed self.speed) || not (eqb moved.desired self.cruise.desired)) }
    {
        (moved.speed != self.speed) | (moved.desired != self.cruise.desired)
    }

    // A lesson that stops behind the first word that passes the mark `halt`, all of it where none does: a mark of 0 is never passed. 18 for a
    // car that is not good, then 19.
    pub fn run(
        self,
        words: &[u32],
        answers: &mut [u32],
        halt: u32,
        mark: u32,
    ) -> Result<Ran, Refusal>
        ensures { (run_answer self result ≡ run_of halt mark self words.now answers.old) × (answers.new ≡ run_after halt self words.now answers.old) }
    {
        let good = self.checked()?;
        if answers.len() < words.len() {
            return Err(Refusal::ShortAnswers);
        }
        let mut none = [0; 0];
        Ok(good.teach(words, answers, &mut none, halt, mark))
    }

    // 18 for a car that is not good, then 19.
    pub fn lesson(self, words: &[u32], answers: &mut [u32]) -> Result<Taught, Refusal>
        ensures { (lesson_answer self result ≡ lesson_of self words.now answers.old) × (answers.new ≡ answers_after self words.now answers.old) }
    {
        Ok(Taught::from(self.run(words, answers, 0, 0)?))
    }

    // The same with v after each word, in a slice of its own: answers alone are what C has.
    #[tactic(auto, using(kit::specs::Pick::picks), unfolding(crate::specs::Lesson::trace_short))]
    pub fn trace(
        self,
        words: &[u32],
        answers: &mut [u32],
        speeds: &mut [u32],
    ) -> Result<Taught, Refusal>
        ensures { (lesson_answer self result ≡ trace_of self words.now answers.old speeds.old) × (answers.new ≡ trace_after answer_of self words.now (trace_short words.now answers.old speeds.old) answers.old) × (speeds.new ≡ trace_after speed_of self words.now (trace_short words.now answers.old speeds.old) speeds.old) }
    {
        let good = self.checked()?;
        if (answers.len() < words.len()) | (speeds.len() < words.len()) {
            return Err(Refusal::ShortAnswers);
        }
        Ok(Taught::from(good.teach(words, answers, speeds, 0, 0)))
    }
}
