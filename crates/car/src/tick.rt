// The tick (document 01, "Rules of each event"): one second.
ghost use Rattle.std.specs.Prelude.{◌≡◌, ◌&&◌, eqb, leb, ◌+◌, ◌-◌, ◌≤◌};
ghost use Rattle.motion.specs.Acceleration.{acceleration_code};
ghost use Rattle.motion.specs.AccelerationShape.{moved_by};
ghost use Rattle.motion.specs.Speed.{at_most};
ghost use Rattle.car.specs.Acceleration.{acceleration_of};
ghost use Rattle.car.specs.LessonShape.{second_passed, radar_tried};
ghost use Rattle.car.specs.Rules.{test_due, range_after, radar_tested, hold_desired, tick_desired, tick_speed};
ghost use Rattle.car.specs.Standing.{Ranges};

use crate::checked::GoodCar;
use crate::{Car, RangeRadar, ceiling};
use desired::long_held;
use motion::at_most;

#[tactic(auto, using(kit::specs::Pick::picks), unfolding(crate::specs::Rules::range_after))]
fn range_after(ready: bool, range: u32) -> u32
    ensures { result ≡ range_after ready range }
{
    if !ready {
        return 255;
    }
    if range == 255 {
        return 0;
    }
    range
}

#[tactic(auto, using(kit::specs::Pick::picks), unfolding(crate::specs::Rules::radar_tested))]
fn tested(mut radar: RangeRadar, ready: bool, now: u32) -> RangeRadar
    ensures { result ≡ radar_tested radar ready now }
{
    let range = range_after(ready, radar.range);
    radar.ready = ready;
    radar.range = range;
    radar.tested = now;
    radar
}

// D and v after a second.
#[derive(Clone, Copy)]
pub(crate) struct Moved {
    pub(crate) desired: u32,
    pub(crate) speed: u32,
}

impl Car {
    // A second passes.
    #[tactic(auto, using(kit::specs::Pick::picks), unfolding(crate::specs::LessonShape::second_passed))]
    pub(crate) fn tick(mut self, moved: Moved) -> Car
        requires { Ranges self }
        ensures { result ≡ second_passed self moved.desired moved.speed }
    {
        self.cruise.desired = moved.desired;
        self.speed = moved.speed;
        self.now = self.now + 1;
        self
    }

    // The radar is tested in the second that has passed.
    #[tactic(auto, using(kit::specs::Pick::picks), unfolding(crate::specs::LessonShape::radar_tried, crate::specs::Car::with_radar))]
    pub(crate) fn test_radar(mut self, ready: bool) -> Car
        ensures { result ≡ radar_tried self ready }
    {
        let radar = self.radar;
        let after = tested(radar, ready, self.now);
        self.radar = after;
        self
    }
}

impl GoodCar {
    // v after a second of the acceleration, by its code.
    #[tactic(auto, using(kit::specs::Pick::picks), unfolding(motion::specs::AccelerationShape::moved_by))]
    fn speed_after(self, code: u32) -> u32
        requires { code ≤ 127 }
        ensures { result ≡ moved_by self.car.speed code }
    {
        if code < 60 {
            return self
                .car
                .speed
                .saturating_sub((60 - code) * 36 / 10)
                .min(Car::SPEED_CEILING);
        }
        (self.car.speed + (code - 60) * 36 / 10).min(Car::SPEED_CEILING)
    }

    // The radar is tested in this second.
    #[tactic(auto, using(kit::specs::Pick::picks), unfolding(crate::specs::Rules::test_due))]
    pub(crate) fn test_due(self) -> bool
        ensures { result ≡ test_due self.car }
    {
        (self.car.key == 2) & (self.car.now + 1 == self.car.radar.tested + Car::TEST_PERIOD)
    }

    // D after h seconds with the lever out. For h below 2 it is D as it stands, where the good-car test's `held` has B.
    #[tactic(auto, using(kit::specs::Pick::picks), unfolding(crate::specs::Rules::hold_desired))]
    fn held_for(self, h: u32) -> u32
        requires { self.car.levers.updown ≡ 0 → ⊥ }
        ensures { result ≡ hold_desired self.car h }
    {
        if h < 2 {
            return self.car.cruise.desired;
        }
        long_held(
            ceiling(self.car.settings),
            self.car.levers.updown,
            self.car.levers.base,
            h,
        )
    }

    // v after a second with cruise on, by D after it and by v as the limiter leaves it.
    fn held_to(self, desired: u32, limited: u32) -> u32
        ensures { result ≡ at_most (eqb self.car.pedals.gas 0 && leb self.car.speed desired) desired limited }
    {
        let holds = (self.car.pedals.gas == 0) & (self.car.speed <= desired);
        at_most(holds, desired, limited)
    }

    // D after a second with cruise on, where the lever may be held.
    #[tactic(auto, using(kit::specs::Pick::picks), unfolding(crate::specs::Rules::hold_desired))]
    fn hold_desired(self) -> u32
        ensures { result ≡ hold_desired self.car (self.car.now + 1 - self.car.levers.time) }
    {
        if self.car.levers.updown == 0 {
            return self.car.cruise.desired;
        }
        self.held_for((self.car.now + 1).saturating_sub(self.car.levers.time))
    }

    // D and v after a second. The code is that of the car's acceleration; `LESSON` as in `next`.
    pub(crate) fn moved<const LESSON: bool>(self, code: u32) -> Moved
        requires { code ≡ acceleration_code (acceleration_of self.car) }
        ensures { result ≡ record { desired = tick_desired self.car; speed = tick_speed self.car (tick_desired self.car) } }
    {
        let free = self.speed_after(code);
        let limited = at_most(self.car.limiter.on, self.car.limiter.limit, free);
        if !self.car.cruise.on {
            return Moved {
                desired: self.car.cruise.desired,
                speed: limited,
            };
        }
        let desired = self.hold_desired();
        Moved {
            desired: desired,
            speed: self.held_to(desired, limited),
        }
    }
}
