// Two cars are alike (document 02, §9). No `PartialEq`: cars that are alike need not be equal.
#![tactic(auto, using(kit::specs::Pick::picks))]

ghost use Rattle.std.specs.Prelude.{◌≡◌, ◌&&◌, not, eqb};
ghost use Rattle.car.specs.Good.{lever_held};
ghost use Rattle.alike.specs.Alike.{positions_alike, numbers_alike, same_ago, times_alike, alike_of};

use car::Car;

#[tactic(auto, using(kit::specs::Pick::picks), unfolding(crate::specs::Alike::positions_alike))]
fn positions_alike(a: Car, b: Car) -> bool
    ensures { result ≡ positions_alike a b }
{
    (a.settings.mode == b.settings.mode)
        & (a.settings.signs == b.settings.signs)
        & (a.settings.towing == b.settings.towing)
        & (a.key == b.key)
        & (a.levers.updown == b.levers.updown)
        & (a.levers.foreback == b.levers.foreback)
        & (a.pedals.brake == b.pedals.brake)
        & (a.pedals.gas == b.pedals.gas)
        & (a.limiter.button == b.limiter.button)
        & (a.limiter.on == b.limiter.on)
        & (a.cruise.on == b.cruise.on)
        & (a.radar.ready == b.radar.ready)
}

#[tactic(auto, using(kit::specs::Pick::picks), unfolding(crate::specs::Alike::numbers_alike))]
fn numbers_alike(a: Car, b: Car) -> bool
    ensures { result ≡ numbers_alike a b }
{
    (a.speed == b.speed)
        & (a.limiter.limit == b.limiter.limit)
        & (a.cruise.desired == b.cruise.desired)
        & (a.cruise.manual == b.cruise.manual)
        & (a.levers.base == b.levers.base)
        & (a.radar.range == b.radar.range)
        & (a.radar.lead == b.radar.lead)
        & (a.radar.earlier == b.radar.earlier)
        & (a.gap == b.gap)
}

// Two times lie as many seconds before their cars' nows. The sums are of 64 bits: two times of 32 bits can wrap.
#[tactic(auto, using(kit::specs::Pick::picks), unfolding(crate::specs::Alike::same_ago))]
fn same_ago(now: u32, time: u32, other_now: u32, other_time: u32) -> bool
    ensures { result ≡ same_ago now time other_now other_time }
{
    now as u64 + other_time as u64 == other_now as u64 + time as u64
}

fn lever_held(car: Car) -> bool
    ensures { result ≡ lever_held car }
{
    car.cruise.on & (car.levers.updown != 0)
}

// The lever time counts while the lever is held, the test time with the key on.
#[tactic(auto, using(kit::specs::Pick::picks), unfolding(crate::specs::Alike::times_alike))]
fn times_alike(a: Car, b: Car) -> bool
    ensures { result ≡ times_alike a b }
{
    (!lever_held(a) | same_ago(a.now, a.levers.time, b.now, b.levers.time))
        & ((a.key != 2) | same_ago(a.now, a.radar.tested, b.now, b.radar.tested))
}

#[tactic(auto, using(kit::specs::Pick::picks), unfolding(crate::specs::Alike::alike_of))]
pub fn alike(a: Car, b: Car) -> bool
    ensures { result ≡ alike_of a b }
{
    positions_alike(a, b) & numbers_alike(a, b) & times_alike(a, b)
}
