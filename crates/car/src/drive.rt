// One event word driven.
ghost use Rattle.std.specs.Prelude.{◌≡◌, true, false, eqb};
ghost use Rattle.event.specs.Words.{kind_of};
ghost use Rattle.event.specs.Refusal.{number};
ghost use Rattle.motion.specs.Acceleration.{acceleration_code};
ghost use Rattle.car.specs.Acceleration.{acceleration_of};
ghost use Rattle.car.specs.Drive.{drive_answer, input_next, step_of, drive_of};

use crate::Car;
use crate::checked::GoodCar;
use event::{Input, Refusal};

impl Car {
    // The next car by the input's rule. `LESSON` says whether a lesson's loop asks, or one word driven: `next`, `check` with its own checks, and `moved`
    // have an instance for each. A large function with two callers stays a call, and the loop would hand its car over in memory at every word.
    #[tactic(auto, using(kit::specs::Pick::picks), unfolding(crate::specs::Drive::input_next))]
    pub(crate) fn next<const LESSON: bool>(self, input: Input) -> Car
        ensures { result ≡ input_next self input }
    {
        match input {
            Input::Key { position, ready } => self.turn_key(position, ready),
            Input::UpDown(position) => self.move_up_down(position),
            Input::ForeBack(position) => self.move_fore_back(position),
            Input::Brake(brake) => self.press_brake(brake),
            Input::Gas(gas) => self.press_gas(gas),
            Input::Button(limit) => self.press_button(limit),
            Input::Gap(tenths) => self.choose_gap(tenths),
            Input::Sign(sign) => self.pass_sign(sign),
            Input::Radar { range, speed } => self.take_reading(range, speed),
        }
    }

    // 18 for a car that is not good, then the word's checks, then the rule. A tick is told by its word, as in a lesson.
    pub fn drive(self, word: u32) -> Result<Car, Refusal>
        ensures { drive_answer self result ≡ drive_of self word }
    {
        let mut good = self.checked()?;
        if event::is_tick(word) {
            let code = good.acceleration_code();
            good.drive_tick(word, code)?;
        } else {
            good.drive_input(word)?;
        }
        Ok(good.car)
    }
}

impl GoodCar {
    // An input's word: 1 to 14 and 24, then its rule. A refused word leaves the car as it was.
    pub(crate) fn drive_input(&mut self, word: u32) -> Result<(), Refusal>
        requires { eqb (kind_of word) 10 ≡ false }
        ensures refusal { number result ≡ (step_of self.old.car word).refusal }
        ensures car { self.new.car ≡ (step_of self.old.car word).car }
    {
        let car = self.car;
        let input = event::read_input_alone(word)?;
        car.check::<false>(input)?;
        self.car = car.next::<false>(input);
        Ok(())
    }

    // A tick's word, by the code of the car's acceleration: 2, 15 and 16, then a second.
    pub(crate) fn drive_tick(&mut self, word: u32, code: u32) -> Result<(), Refusal>
        requires { (code ≡ acceleration_code (acceleration_of self.old.car)) × (eqb (kind_of word) 10 ≡ true) }
        ensures refusal { number result ≡ (step_of self.old.car word).refusal }
        ensures car { self.new.car ≡ (step_of self.old.car word).car }
    {
        let good = *self;
        let mut car = good.car;
        let due = good.test_due();
        car.check_tick(word, due)?;
        car = car.tick(good.moved::<false>(code));
        if due {
            car = car.test_radar(event::tick_ready(word));
        }
        self.car = car;
        Ok(())
    }
}
