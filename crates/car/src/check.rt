// The checks 4 to 16 of a car (document 01, "From file, pupil, radar, clock and caller"): the first number that holds, or 0.
ghost use Rattle.std.specs.Prelude.{◌≡◌};
ghost use Rattle.event.specs.Refusal.{number};
ghost use Rattle.car.specs.Checks.{own_check, input_check};
ghost use Rattle.car.specs.LessonShape.{tick_refusal, key_needed};

use crate::Car;
use checks::{
    button_check, fore_back_check, key_check, key_on, pedal_check, radar_check, tick_check,
    up_down_check,
};
use event::{Input, Refusal};

impl Car {
    // Check 2 of a tick's word, then 15 and 16; `due` says whether the radar is tested in this second.
    #[tactic(auto, using(kit::specs::Pick::picks), unfolding(crate::specs::LessonShape::tick_refusal, event::specs::Words::unnamed_of))]
    pub(crate) fn check_tick(self, word: u32, due: bool) -> Result<(), Refusal>
        ensures { number result ≡ tick_refusal self word due }
    {
        event::check_tick(word)?;
        tick_check(self.radar.ready, due, self.now, event::tick_ready(word))
    }

    // What the input's own checks give.
    #[tactic(auto, using(kit::specs::Pick::picks), unfolding(crate::specs::Checks::own_check))]
    fn own_check<const LESSON: bool>(self, input: Input) -> Result<(), Refusal>
        ensures { number result ≡ own_check self input }
    {
        match input {
            Input::Key { position, ready } => key_check(self.key, self.speed, position, ready),
            Input::UpDown(position) => {
                up_down_check(self.levers.updown, self.levers.foreback, position)
            }
            Input::ForeBack(position) => {
                fore_back_check(self.levers.foreback, self.levers.updown, position)
            }
            Input::Brake(brake) => pedal_check(self.pedals.brake, self.pedals.gas, brake),
            Input::Gas(gas) => pedal_check(self.pedals.gas, self.pedals.brake, gas),
            Input::Button(limit) => button_check(
                self.limiter.button,
                self.levers.foreback,
                self.pedals.gas,
                self.speed,
                limit,
            ),
            Input::Gap(_) => Ok(()),
            Input::Sign(_) => Ok(()),
            Input::Radar { range: _, speed: _ } => radar_check(self.radar.ready),
        }
    }

    // Check 4: the kinds 4 to 9 need the key on, by number, as the document names them.
    #[tactic(auto, using(kit::specs::Pick::kinds), unfolding(crate::specs::LessonShape::key_needed))]
    fn check_key(self, input: Input) -> Result<(), Refusal>
        ensures { number result ≡ key_needed self input }
    {
        match event::kind(input) {
            4..=9 => key_on(self.key),
            _ => Ok(()),
        }
    }

    // Check 4, then the kind's own. `LESSON` as in `next`.
    pub(crate) fn check<const LESSON: bool>(self, input: Input) -> Result<(), Refusal>
        ensures { number result ≡ input_check self input }
    {
        self.check_key(input)?;
        self.own_check::<LESSON>(input)
    }
}
