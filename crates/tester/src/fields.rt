// A car as its fields; 1 for a flag that is set. No `From`: neither type is this crate's.
ghost use Rattle.std.specs.Prelude.{◌≡◌, drop};
ghost use Rattle.tester.specs.Fields.{fields_of, car_of};
ghost use Rattle.tester.specs.Input.{first_of};

use crate::input::fill;
use car::{Car, Cruise, Levers, Limiter, Pedals, RangeRadar, Settings};
use event::bit;

pub fn fields_of(car: Car) -> [u32; 24]
    ensures { result ≡ fields_of car }
{
    [
        car.settings.mode,
        bit(car.settings.signs),
        bit(car.settings.towing),
        car.key,
        car.levers.updown,
        car.levers.foreback,
        car.pedals.brake,
        car.pedals.gas,
        bit(car.limiter.button),
        bit(car.limiter.on),
        bit(car.cruise.on),
        bit(car.radar.ready),
        car.speed,
        car.limiter.limit,
        car.cruise.desired,
        car.cruise.manual,
        car.levers.time,
        car.levers.base,
        car.radar.range,
        car.radar.lead,
        car.radar.earlier,
        car.gap,
        car.now,
        car.radar.tested,
    ]
}

// The car whose fields are the words from an index on.
pub fn car_at(words: &[u32], at: usize) -> Car
    ensures { result ≡ car_of (first_of 24 (drop at words.now)) }
{
    let mut fields = [0; 24];
    fill(&mut fields, words, at);
    Car {
        settings: Settings {
            mode: fields[0],
            signs: fields[1] == 1,
            towing: fields[2] == 1,
        },
        key: fields[3],
        levers: Levers {
            updown: fields[4],
            foreback: fields[5],
            time: fields[16],
            base: fields[17],
        },
        pedals: Pedals {
            brake: fields[6],
            gas: fields[7],
        },
        limiter: Limiter {
            button: fields[8] == 1,
            on: fields[9] == 1,
            limit: fields[13],
        },
        cruise: Cruise {
            on: fields[10] == 1,
            desired: fields[14],
            manual: fields[15],
        },
        radar: RangeRadar {
            ready: fields[11] == 1,
            range: fields[18],
            lead: fields[19],
            earlier: fields[20],
            tested: fields[23],
        },
        gap: fields[21],
        speed: fields[12],
        now: fields[22],
    }
}
