// The cruise trainer's car (document 01, "The car and a fresh one"): its parts, its settings and a fresh one.
// A comment at each field gives the document's letter. Speeds are in tenths of km/h, times in seconds, ranges in metres. The fields'
// order is the one of several tried of which the compiler makes the fastest lesson; nothing else rests on it.
// Positions and numbers are any u32, as a record's words or a caller hand them over, and the good-car test says which are refused. A flag is no
// `Option`: D and Z stand while theirs is off, and the R of a radar that is not ready is the record's 255.
#![tactic(auto, using(kit::specs::Pick::picks))]

ghost use Rattle.std.specs.Prelude.{◌≡◌};
ghost use Rattle.event.specs.Refusal.{answer};
ghost use Rattle.car.specs.Car.{fresh_of, fresh_car, ceiling_of};

mod acceleration;
mod check;
mod checked;
mod distance;
pub mod drive;
pub mod figures;
mod good;
pub mod lesson;
mod rules;
mod tick;

use event::Refusal;

#[derive(Clone, Copy)]
pub struct Settings {
    pub mode: u32, // 1 normal cruise, 2 adaptive
    pub signs: bool,
    pub towing: bool,
}

#[derive(Clone, Copy)]
pub struct Levers {
    pub updown: u32, // L: 0 neutral, 1 up5, 2 up7, 3 down5, 4 down7
    pub foreback: u32, // M: 0 neutral, 1 forward, 2 backward
    pub time: u32, // T
    pub base: u32, // B
}

#[derive(Clone, Copy)]
pub struct Pedals {
    pub brake: u32, // b
    pub gas: u32, // g
}

#[derive(Clone, Copy)]
pub struct Limiter {
    pub button: bool, // H
    pub on: bool, // S
    pub limit: u32, // Z
}

#[derive(Clone, Copy)]
pub struct Cruise {
    pub desired: u32, // D
    pub manual: u32, // E, the last desired speed set by hand
    pub on: bool, // C
}

#[derive(Clone, Copy)]
pub struct RangeRadar {
    pub ready: bool, // P
    pub range: u32, // R: 0 nothing ahead, 255 not ready
    pub tested: u32, // Q, the time of the last test
    pub lead: u32, // W, the speed of the car ahead
    pub earlier: u32, // Y, the reading before it
}

#[derive(Clone, Copy)]
pub struct Car {
    pub gap: u32, // G, in tenths of a second
    pub cruise: Cruise,
    pub levers: Levers,
    pub key: u32, // 0 out, 1 in, 2 on
    pub now: u32,
    pub limiter: Limiter,
    pub pedals: Pedals,
    pub radar: RangeRadar,
    pub speed: u32, // v
    pub settings: Settings,
}

impl Car {
    pub const PEDAL_CEILING: u32 = number::bound::PEDAL;

    pub const SPEED_CEILING: u32 = number::bound::SPEED;

    pub const DESIRED_CEILING: u32 = 2000;

    pub const TOWING_CEILING: u32 = 1000;

    pub const TEST_PERIOD: u32 = 600;

    pub const LESSON_LENGTH: u32 = checks::LESSON_LENGTH;

    // A fresh car, or the refusal of its settings, which are any three numbers.
    #[tactic(auto, using(kit::specs::Pick::picks), unfolding(crate::specs::Car::fresh_of, crate::specs::Car::check17, crate::specs::Car::settings_of))]
    pub fn fresh(mode: u32, signs: u32, towing: u32) -> Result<Car, Refusal>
        ensures { answer result ≡ fresh_of mode signs towing }
    {
        if ((mode != 1) & (mode != 2)) | (signs > 1) | (towing > 1) {
            return Err(Refusal::Settings);
        }
        Ok(first(Settings {
            mode: mode,
            signs: signs == 1,
            towing: towing == 1,
        }))
    }
}

#[tactic(auto, using(kit::specs::Pick::picks), unfolding(crate::specs::Car::fresh_car))]
fn first(settings: Settings) -> Car
    ensures { result ≡ fresh_car settings }
{
    Car {
        settings: settings,
        key: 0,
        levers: Levers {
            updown: 0,
            foreback: 0,
            time: 0,
            base: 0,
        },
        pedals: Pedals { brake: 0, gas: 0 },
        limiter: Limiter {
            button: false,
            on: false,
            limit: 0,
        },
        cruise: Cruise {
            on: false,
            desired: 0,
            manual: 0,
        },
        radar: RangeRadar {
            ready: false,
            range: 255,
            lead: 0,
            earlier: 0,
            tested: 0,
        },
        gap: 20,
        speed: 0,
        now: 0,
    }
}

// The ceiling of D and B.
#[tactic(auto, using(kit::specs::Pick::picks), unfolding(crate::specs::Car::ceiling_of))]
pub fn ceiling(settings: Settings) -> u32
    ensures { result ≡ ceiling_of settings }
{
    if settings.towing {
        return Car::TOWING_CEILING;
    }
    Car::DESIRED_CEILING
}
