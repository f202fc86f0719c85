// The layout of the twelve words. Each starts with the mark 11 and its place: hexadecimal B0 to BB. Functions and no `From`: it would be of a car
// and an array, neither of which is this crate's.
ghost use Rattle.std.specs.Prelude.{◌≡◌};
ghost use Rattle.record.specs.Layout.{packed, unpacked, word_of};
ghost use Rattle.record.specs.LayoutShape.{Fits};

use car::{Car, Cruise, Levers, Limiter, Pedals, RangeRadar, Settings};
use event::bit;

// Word 0: mode, signs, key, L, M, H, S, C, P, towing.
fn first_word(car: Car) -> u32
    requires { Fits car }
    ensures { result ≡ word_of car 0 }
{
    let signs = bit(car.settings.signs);
    let button = bit(car.limiter.button);
    let limiter = bit(car.limiter.on);
    let cruise = bit(car.cruise.on);
    let ready = bit(car.radar.ready);
    let towing = bit(car.settings.towing);
    0xB000_0000
        + car.settings.mode
        + signs * 4
        + car.key * 8
        + car.levers.updown * 32
        + car.levers.foreback * 256
        + button * 1024
        + limiter * 2048
        + cruise * 4096
        + ready * 8192
        + towing * 16384
}

#[tactic(auto, using(kit::specs::Pick::picks), unfolding(crate::specs::Layout::packed))]
pub(crate) fn pack(car: Car) -> [u32; 12]
    requires { Fits car }
    ensures { result ≡ packed car }
{
    [
        first_word(car),
        0xB100_0000 + car.pedals.brake + car.pedals.gas * 256,
        0xB200_0000 + car.speed,
        0xB300_0000 + car.limiter.limit,
        0xB400_0000 + car.cruise.desired + car.cruise.manual * 2048,
        0xB500_0000 + car.levers.time,
        0xB600_0000 + car.levers.base,
        0xB700_0000 + car.radar.range + car.radar.lead * 256,
        0xB800_0000 + car.radar.earlier,
        0xB900_0000 + car.gap,
        0xBA00_0000 + car.now,
        0xBB00_0000 + car.radar.tested,
    ]
}

// The car that the words' fields say, whatever else they hold.
#[tactic(auto, using(kit::specs::Pick::picks), unfolding(crate::specs::Layout::unpacked, crate::specs::Layout::car_of))]
pub(crate) fn unpack(words: [u32; 12]) -> Car
    ensures { result ≡ unpacked words }
{
    let first = words[0];
    Car {
        settings: Settings {
            mode: first % 4,
            signs: first / 4 % 2 == 1,
            towing: first / 16384 % 2 == 1,
        },
        key: first / 8 % 4,
        levers: Levers {
            updown: first / 32 % 8,
            foreback: first / 256 % 4,
            time: words[5] % 131072,
            base: words[6] % 2048,
        },
        pedals: Pedals {
            brake: words[1] % 256,
            gas: words[1] / 256 % 256,
        },
        limiter: Limiter {
            button: first / 1024 % 2 == 1,
            on: first / 2048 % 2 == 1,
            limit: words[3] % 8192,
        },
        cruise: Cruise {
            on: first / 4096 % 2 == 1,
            desired: words[4] % 2048,
            manual: words[4] / 2048 % 2048,
        },
        radar: RangeRadar {
            ready: first / 8192 % 2 == 1,
            range: words[7] % 256,
            lead: words[7] / 256 % 8192,
            earlier: words[8] % 8192,
            tested: words[11] % 131072,
        },
        gap: words[9] % 32,
        speed: words[2] % 8192,
        now: words[10] % 131072,
    }
}
