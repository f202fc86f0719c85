// The good-car test: a car that an accepted record gives (document 01, "Standing rules" and "The record").
ghost use Rattle.std.specs.Prelude.{◌≡◌};
ghost use Rattle.car.specs.Good.{positions_of, numbers_of, ranges_of, times_of, off_of, rule_a, rule_b, rule_c, rule_d, rule_e, rule_f, obeys_of, good_at, good_of};

use crate::{Car, ceiling};
use desired::held;

impl Car {
    #[tactic(auto, using(kit::specs::Pick::picks), unfolding(crate::specs::Good::positions_of))]
    fn positions(self) -> bool
        ensures { result ≡ positions_of self }
    {
        (1 <= self.settings.mode)
            & (self.settings.mode <= 2)
            & (self.key <= 2)
            & (self.levers.updown <= 4)
            & (self.levers.foreback <= 2)
            & (self.pedals.brake <= Car::PEDAL_CEILING)
            & (self.pedals.gas <= Car::PEDAL_CEILING)
    }

    #[tactic(auto, using(kit::specs::Pick::picks), unfolding(crate::specs::Good::numbers_of))]
    fn numbers(self, top: u32) -> bool
        ensures { result ≡ numbers_of top self }
    {
        (self.speed <= Car::SPEED_CEILING)
            & (self.limiter.limit <= Car::SPEED_CEILING)
            & (self.cruise.desired <= top)
            & ((self.cruise.manual == 0) | (1200 <= self.cruise.manual))
            & (self.cruise.manual <= top)
            & (self.levers.base <= top)
            & (self.radar.range <= 255)
            & (self.radar.lead <= Car::SPEED_CEILING)
            & (self.radar.earlier <= Car::SPEED_CEILING)
            & (self.now <= Car::LESSON_LENGTH)
            & (self.radar.tested <= Car::LESSON_LENGTH)
    }

    #[tactic(auto, using(kit::specs::Pick::picks), unfolding(crate::specs::Good::ranges_of))]
    fn ranges(self, top: u32) -> bool
        ensures { result ≡ ranges_of top self }
    {
        self.positions() & self.numbers(top) & event::permitted_gap(self.gap)
    }

    // The rule on T and B, and T ≤ now.
    #[tactic(auto, using(kit::specs::Pick::picks), unfolding(crate::specs::Good::times_of))]
    fn times(self) -> bool
        ensures { result ≡ times_of self }
    {
        ((self.cruise.on & (self.levers.updown != 0))
            | ((self.levers.time == 0) & (self.levers.base == 0)))
            & (self.levers.time <= self.now)
    }

    fn off(self) -> bool
        ensures { result ≡ off_of self }
    {
        (self.pedals.brake == 0)
            & (self.pedals.gas == 0)
            & (self.speed == 0)
            & (self.cruise.desired == 0)
            & (self.cruise.manual == 0)
            & !self.limiter.button
            & !self.limiter.on
            & !self.cruise.on
            & (self.levers.time == 0)
            & (self.levers.base == 0)
            & !self.radar.ready
            & (self.radar.lead == 0)
            & (self.radar.earlier == 0)
            & (self.radar.tested == 0)
            & (self.radar.range == 255)
    }

    #[tactic(auto, using(kit::specs::Pick::picks), unfolding(crate::specs::Good::rule_a))]
    fn rule_a(self) -> bool
        ensures { result ≡ rule_a self }
    {
        ((self.pedals.brake == 0) | (self.pedals.gas == 0)) & ((self.key == 2) | self.off())
    }

    #[tactic(auto, using(kit::specs::Pick::picks), unfolding(crate::specs::Good::rule_b))]
    fn rule_b(self) -> bool
        ensures { result ≡ rule_b self }
    {
        (self.levers.updown == 0) | (self.levers.foreback == 0)
    }

    #[tactic(auto, using(kit::specs::Pick::picks), unfolding(crate::specs::Good::rule_c))]
    fn rule_c(self) -> bool
        ensures { result ≡ rule_c self }
    {
        !self.cruise.on
            | ((self.pedals.brake == 0) & (self.levers.foreback != 2) & (1 <= self.cruise.desired))
    }

    #[tactic(auto, using(kit::specs::Pick::picks), unfolding(crate::specs::Good::rule_d))]
    fn rule_d(self) -> bool
        ensures { result ≡ rule_d self }
    {
        (!self.limiter.on
            | (self.limiter.button & (self.pedals.gas <= 90) & (self.speed <= self.limiter.limit)))
            & (!self.limiter.button | ((self.key == 2) & (self.levers.foreback != 2)))
    }

    #[tactic(auto, using(kit::specs::Pick::picks), unfolding(crate::specs::Good::rule_e))]
    fn rule_e(self) -> bool
        ensures { result ≡ rule_e self }
    {
        ((self.radar.range == 255) == !self.radar.ready)
            & ((self.key != 2)
                | ((self.radar.tested <= self.now)
                    & (u64::from(self.now)
                        < u64::from(self.radar.tested) + u64::from(Car::TEST_PERIOD))))
    }

    #[tactic(auto, using(kit::specs::Pick::picks), unfolding(crate::specs::Good::rule_f))]
    fn rule_f(self, top: u32) -> bool
        ensures { result ≡ rule_f top self }
    {
        if !(self.cruise.on & (self.levers.updown != 0)) {
            return true;
        }
        let h = self.now.saturating_sub(self.levers.time);
        self.cruise.desired == held(top, self.levers.updown, self.levers.base, h)
    }

    #[tactic(auto, using(kit::specs::Pick::picks), unfolding(crate::specs::Good::obeys_of))]
    fn obeys(self, top: u32) -> bool
        ensures { result ≡ obeys_of top self }
    {
        self.times()
            & self.rule_a()
            & self.rule_b()
            & self.rule_c()
            & self.rule_d()
            & self.rule_e()
            & self.rule_f(top)
    }

    #[tactic(auto, using(kit::specs::Pick::picks), unfolding(crate::specs::Good::good_at))]
    fn good_at(self, top: u32) -> bool
        ensures { result ≡ good_at top self }
    {
        self.ranges(top) && self.obeys(top)
    }

    #[tactic(auto, using(kit::specs::Pick::picks), unfolding(crate::specs::Good::good_of))]
    pub fn good(self) -> bool
        ensures { result ≡ good_of self }
    {
        self.good_at(ceiling(self.settings))
    }
}
