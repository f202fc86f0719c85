// The rules of the nine events beside the tick (document 01, "Rules of each event"): one method for each, the car in whole and back whole.
ghost use Rattle.std.specs.Prelude.{◌≡◌};
ghost use Rattle.car.specs.Rules.{key_radar, key_turned, lever_desired, while_held, up_down_moved, engages, start_desired, engaged, forward, cruise_off, backward, fore_back_moved, brake_pressed, gas_pressed, button_pressed, gap_chosen, sign_acts, sign_after, sign_passed, reading_taken};

use crate::{Car, Cruise, Limiter, Pedals, RangeRadar, ceiling};
use desired::{manual_after, sign_desired, stepped};

#[tactic(auto, using(kit::specs::Pick::picks), unfolding(crate::specs::Rules::key_radar))]
fn key_radar(position: u32, ready: bool, now: u32) -> RangeRadar
    ensures { result ≡ key_radar position ready now }
{
    if position != 2 {
        return RangeRadar {
            ready: false,
            range: 255,
            lead: 0,
            earlier: 0,
            tested: 0,
        };
    }
    RangeRadar {
        ready: ready,
        range: if ready { 0 } else { 255 },
        lead: 0,
        earlier: 0,
        tested: now,
    }
}

// The number if cruise is on and the lever is put out, else 0.
#[tactic(auto, using(kit::specs::Pick::picks), unfolding(crate::specs::Rules::while_held))]
fn while_held(on: bool, position: u32, n: u32) -> u32
    ensures { result ≡ while_held on position n }
{
    if on & (position != 0) {
        return n;
    }
    0
}

impl Car {
    #[tactic(auto, using(kit::specs::Pick::picks), unfolding(crate::specs::Rules::key_turned))]
    pub(crate) fn turn_key(mut self, position: u32, ready: bool) -> Car
        ensures { result ≡ key_turned self position ready }
    {
        let radar = key_radar(position, ready, self.now);
        let pedals = Pedals { brake: 0, gas: 0 };
        let cruise = Cruise {
            on: false,
            desired: 0,
            manual: 0,
        };
        self.key = position;
        self.pedals = pedals;
        self.cruise = cruise;
        self.limiter.button = false;
        self.limiter.on = false;
        self.levers.time = 0;
        self.levers.base = 0;
        self.radar = radar;
        self.speed = 0;
        self
    }

    #[tactic(auto, using(kit::specs::Pick::picks), unfolding(crate::specs::Rules::lever_desired))]
    fn lever_desired(self, position: u32) -> u32
        ensures { result ≡ lever_desired self position }
    {
        if position == 0 {
            return self.cruise.desired;
        }
        if self.cruise.on {
            return stepped(ceiling(self.settings), position, self.cruise.desired);
        }
        self.speed.min(ceiling(self.settings))
    }

    #[tactic(auto, using(kit::specs::Pick::picks), unfolding(crate::specs::Rules::up_down_moved, crate::specs::Car::with_cruise, crate::specs::Car::with_levers))]
    pub(crate) fn move_up_down(mut self, position: u32) -> Car
        ensures { result ≡ up_down_moved self position }
    {
        let desired = self.lever_desired(position);
        let time = while_held(self.cruise.on, position, self.now);
        let base = while_held(self.cruise.on, position, desired);
        let manual = manual_after(desired, self.cruise.manual);
        self.levers.updown = position;
        self.levers.time = time;
        self.levers.base = base;
        self.cruise.desired = desired;
        self.cruise.manual = manual;
        self
    }

    #[tactic(auto, using(kit::specs::Pick::picks), unfolding(crate::specs::Rules::engages))]
    fn engages(self) -> bool
        ensures { result ≡ engages self }
    {
        (self.key == 2)
            & (self.pedals.brake == 0)
            & (self.cruise.on | (self.speed >= 200) | (self.cruise.desired > 0))
    }

    #[tactic(auto, using(kit::specs::Pick::picks), unfolding(crate::specs::Rules::start_desired))]
    fn start_desired(self) -> u32
        ensures { result ≡ start_desired self }
    {
        if self.cruise.desired == 0 {
            return self.speed.min(ceiling(self.settings));
        }
        self.cruise.desired
    }

    #[tactic(auto, using(kit::specs::Pick::picks), unfolding(crate::specs::Rules::engaged, crate::specs::Car::with_cruise))]
    fn engage(mut self, desired: u32) -> Car
        ensures { result ≡ engaged self desired }
    {
        self.cruise.on = true;
        self.cruise.desired = desired;
        self
    }

    #[tactic(auto, using(kit::specs::Pick::picks), unfolding(crate::specs::Rules::forward))]
    fn forward(self) -> Car
        ensures { result ≡ forward self }
    {
        if self.engages() {
            return self.engage(self.start_desired());
        }
        self
    }

    // T and B are 0 with cruise off.
    #[tactic(auto, using(kit::specs::Pick::picks), unfolding(crate::specs::Rules::cruise_off, crate::specs::Car::with_cruise, crate::specs::Car::with_levers))]
    fn cruise_off(mut self) -> Car
        ensures { result ≡ cruise_off self }
    {
        self.levers.time = 0;
        self.levers.base = 0;
        self.cruise.on = false;
        self
    }

    #[tactic(auto, using(kit::specs::Pick::picks), unfolding(crate::specs::Rules::backward, crate::specs::Rules::cruise_off, crate::specs::Car::with_limiter, crate::specs::Car::with_cruise, crate::specs::Car::with_levers))]
    fn backward(self) -> Car
        ensures { result ≡ backward self }
    {
        let mut car = self.cruise_off();
        car.limiter.button = false;
        car.limiter.on = false;
        car
    }

    #[tactic(auto, using(kit::specs::Pick::picks), unfolding(crate::specs::Rules::fore_back_moved, crate::specs::Rules::with_foreback, crate::specs::Car::with_levers))]
    pub(crate) fn move_fore_back(mut self, position: u32) -> Car
        ensures { result ≡ fore_back_moved self position }
    {
        self.levers.foreback = position;
        match position {
            1 => self.forward(),
            2 => self.backward(),
            _ => self,
        }
    }

    #[tactic(auto, using(kit::specs::Pick::picks), unfolding(crate::specs::Rules::brake_pressed, crate::specs::Rules::cruise_off, crate::specs::Car::with_pedals, crate::specs::Car::with_cruise, crate::specs::Car::with_levers))]
    pub(crate) fn press_brake(mut self, brake: u32) -> Car
        ensures { result ≡ brake_pressed self brake }
    {
        self.pedals.brake = brake;
        if brake > 0 {
            return self.cruise_off();
        }
        self
    }

    #[tactic(auto, using(kit::specs::Pick::picks), unfolding(crate::specs::Rules::gas_pressed, crate::specs::Car::with_limiter, crate::specs::Car::with_pedals))]
    pub(crate) fn press_gas(mut self, gas: u32) -> Car
        ensures { result ≡ gas_pressed self gas }
    {
        self.pedals.gas = gas;
        if gas > 90 {
            self.limiter.on = false;
        }
        self
    }

    #[tactic(auto, using(kit::specs::Pick::picks), unfolding(crate::specs::Rules::button_pressed, crate::specs::Car::with_limiter))]
    pub(crate) fn press_button(mut self, limit: u32) -> Car
        ensures { result ≡ button_pressed self limit }
    {
        let limiter = Limiter {
            button: true,
            on: true,
            limit: limit,
        };
        self.limiter = limiter;
        self
    }

    #[tactic(auto, using(kit::specs::Pick::picks), unfolding(crate::specs::Car::with_gap))]
    pub(crate) fn choose_gap(mut self, tenths: u32) -> Car
        ensures { result ≡ gap_chosen self tenths }
    {
        self.gap = tenths;
        self
    }

    #[tactic(auto, using(kit::specs::Pick::picks), unfolding(crate::specs::Rules::sign_acts))]
    fn sign_acts(self) -> bool
        ensures { result ≡ sign_acts self }
    {
        self.settings.signs
            & (self.settings.mode == 2)
            & self.cruise.on
            & (self.pedals.gas == 0)
            & (self.levers.updown == 0)
            & (self.levers.foreback == 0)
    }

    #[tactic(auto, using(kit::specs::Pick::picks), unfolding(crate::specs::Rules::sign_after))]
    fn sign_after(self, sign: u32) -> u32
        ensures { result ≡ sign_after self sign }
    {
        if self.sign_acts() {
            let top = ceiling(self.settings);
            return sign_desired(top, sign, self.cruise.desired, self.cruise.manual);
        }
        self.cruise.desired
    }

    #[tactic(auto, using(kit::specs::Pick::picks), unfolding(crate::specs::Rules::sign_passed, crate::specs::Car::with_cruise))]
    pub(crate) fn pass_sign(mut self, sign: u32) -> Car
        ensures { result ≡ sign_passed self sign }
    {
        let desired = self.sign_after(sign);
        self.cruise.desired = desired;
        self
    }

    #[tactic(auto, using(kit::specs::Pick::picks), unfolding(crate::specs::Rules::reading_taken, crate::specs::Car::with_radar))]
    pub(crate) fn take_reading(mut self, range: u32, speed: u32) -> Car
        ensures { result ≡ reading_taken self range speed }
    {
        let earlier = self.radar.lead;
        self.radar.earlier = earlier;
        self.radar.range = range;
        self.radar.lead = speed;
        self
    }
}
