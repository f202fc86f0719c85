// The whole number at or below a multiple of a float, from the float's bits: bit 31 the sign, bits 23-30 the power, bits 0-22 the digits. Not by
// std's conversion of ten times the float: that product is rounded.
ghost use Rattle.std.specs.Prelude.{◌≡◌, ◌*◌, ◌/◌, ◌^◌, ◌≤◌, ◌<◌, min};
ghost use Rattle.std.specs.Float.{binary32};
ghost use Rattle.std.specs.Float.Ieee.{of_bits};
ghost use Rattle.event.specs.Refusal.{answer};
ghost use Rattle.sighting.specs.Value.{floor_times};
ghost use Rattle.sighting.specs.SightingShape.{whole_of, large};

use event::Refusal;

// The bits of infinity; those of no number and of the numbers with a minus sign come after them.
const INFINITY: u32 = 0x7F80_0000;

// The bits of minus zero, which is the sign bit.
const MINUS_ZERO: u32 = 0x8000_0000;

// 2^23: one more than the digits' bits hold, and past every whole number that is looked at.
const LARGE: u32 = 0x0080_0000;

// What a float is taken times.
#[derive(Clone, Copy)]
pub(crate) struct Factor {
    pub(crate) times: u32,
    ghost bounds: { (times ≤ 10) × (1 ≤ times) },
}

// n / 2 ^ by, also where that is the width or more.
#[tactic(auto, using(kit::specs::Pick::picks, crate::proofs::WholeLaws::shifted_out))]
fn shifted(n: u32, by: u32) -> u32
    ensures { result ≡ n / 2 ^ by }
{
    if by < 32 { n >> by } else { 0 }
}

// Of the bits of a finite float with no minus sign. Below a power of 1 there is no leading digit; from 150 on the float is 2^23 or more.
#[tactic(auto, using(kit::specs::Pick::picks, crate::proofs::WholeLaws::held_small, crate::proofs::WholeLaws::held_below, crate::proofs::WholeLaws::held_beyond, crate::proofs::WholeLaws::held_large))]
fn of_finite(bits: u32, factor: Factor) -> u32
    requires { bits < 0x7f80_0000 }
    ensures { result ≡ min (floor_times factor.times (of_bits binary32 bits)) large }
{
    let times = factor.times;
    let power = bits / LARGE;
    let digits = bits % LARGE;
    if power >= 150 {
        return LARGE;
    }
    if power == 0 {
        return shifted(times * digits, 149);
    }
    shifted(times * (LARGE + digits), 150 - power).min(LARGE)
}

#[tactic(auto, using(kit::specs::Pick::picks, crate::proofs::WholeLaws::whole_minus_zero, crate::proofs::WholeLaws::whole_unusable, crate::proofs::WholeLaws::whole_usable, crate::proofs::ValueLaws::finite_usable, crate::proofs::ValueLaws::past_infinity_unusable))]
fn of_bits(bits: u32, factor: Factor) -> Result<u32, Refusal>
    ensures { answer result ≡ whole_of factor.times (of_bits binary32 bits) }
{
    if bits == MINUS_ZERO {
        return Ok(0);
    }
    if bits >= INFINITY {
        return Err(Refusal::BadFloat);
    }
    Ok(of_finite(bits, factor))
}

// A float that is no number has no bits of its own, and is told by differing from itself.
#[tactic(auto, using(kit::specs::Pick::picks, crate::proofs::WholeLaws::whole_unusable, crate::proofs::ValueLaws::differs_unusable, crate::proofs::ValueLaws::same_number))]
pub(crate) fn of_float(x: f32, factor: Factor) -> Result<u32, Refusal>
    ensures { answer result ≡ whole_of factor.times x }
{
    if x != x {
        return Err(Refusal::BadFloat);
    }
    of_bits(f32::to_bits(x), factor)
}
