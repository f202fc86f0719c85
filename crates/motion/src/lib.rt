// The acceleration a, in tenths of m/s², over plain numbers (document 01, "Rules of each event"). The code works with a + 60, the code that an
// answer word has of it: one number without a sign. Its terms and the speed after a second have products, which need the ranges of a good
// car, so their code is the car's own; their definitions and laws stand here.
#![tactic(auto, using(kit::specs::Pick::picks))]

ghost use Rattle.std.specs.Prelude.{◌≡◌, ◌+◌, ◌-◌};
ghost use Rattle.motion.specs.Acceleration.{backed_off, target, acceleration_code};
ghost use Rattle.motion.specs.AccelerationShape.{decoded};
ghost use Rattle.motion.specs.Speed.{at_most};

// A signed number as its sign and size; 0 does not slow. No i32, since the size of a code may pass 2^31, and no i64 or enum by sign, since
// whoever reads one wants both parts.
#[derive(Clone, Copy, Debug, Default, PartialEq, Eq)]
pub struct Acceleration {
    pub slows: bool,
    pub size: u32,
}

// a of its code. No `From`: a u32 may be many things beside a code.
#[tactic(auto, using(kit::specs::Pick::picks), unfolding(crate::specs::AccelerationShape::decoded))]
pub fn decoded(code: u32) -> Acceleration
    ensures { result ≡ decoded code }
{
    Acceleration {
        slows: code < 60,
        size: code.abs_diff(60),
    }
}

#[tactic(auto, using(kit::specs::Pick::picks, crate::proofs::AccelerationShapeLaws::backing))]
pub fn backed_off(speed: u32) -> u32
    ensures { result ≡ acceleration_code (backed_off speed) }
{
    if speed > 0 {
        return 30;
    }
    60
}

#[tactic(auto, using(kit::specs::Pick::picks), unfolding(crate::specs::Acceleration::target, crate::specs::Speed::at_most))]
pub fn target(ahead: bool, desired: u32, lead: u32) -> u32
    ensures { result ≡ target ahead desired lead }
{
    at_most(ahead, lead, desired)
}

#[tactic(auto, using(kit::specs::Pick::picks), unfolding(crate::specs::Speed::at_most))]
pub fn at_most(on: bool, most: u32, speed: u32) -> u32
    ensures { result ≡ at_most on most speed }
{
    if on {
        return speed.min(most);
    }
    speed
}
