// The acceleration a of a car (document 01, "Rules of each event"), by its code a + 60.
ghost use Rattle.std.specs.Prelude.{◌&&◌, ◌≡◌, ◌≤◌, leb};
ghost use Rattle.kit.specs.Bounds.{speed_ceiling};
ghost use Rattle.motion.specs.Acceleration.{speeding, slowing, brake_term, gas_term, braked, pulled, towards, cruising, acceleration_code};
ghost use Rattle.motion.specs.AccelerationShape.{strived, urged_code};
ghost use Rattle.car.specs.Acceleration.{target_of, acceleration_of};
ghost use Rattle.car.specs.Distance.{close};

use crate::checked::GoodCar;
use motion::{Acceleration, backed_off, decoded};

#[tactic(auto, using(motion::proofs::AccelerationShapeLaws::code_speeding))]
fn speeding(size: u32) -> u32
    requires { size ≤ 60 }
    ensures { result ≡ acceleration_code (speeding size) }
{
    60 + size
}

#[tactic(auto, using(motion::proofs::AccelerationShapeLaws::code_slowing))]
fn slowing(size: u32) -> u32
    requires { size ≤ 60 }
    ensures { result ≡ acceleration_code (slowing size) }
{
    60 - size
}

// A tenth of a difference of speeds in m/s, at least 1.
#[tactic(auto, using(kit::specs::Pick::picks), unfolding(motion::specs::AccelerationShape::strived))]
fn strived(difference: u32) -> u32
    requires { difference ≤ speed_ceiling }
    ensures { result ≡ strived difference }
{
    (difference * 10 / 36).max(1)
}

#[tactic(auto, using(motion::proofs::AccelerationShapeLaws::towards_at, motion::proofs::AccelerationShapeLaws::towards_below, motion::proofs::AccelerationShapeLaws::towards_above))]
fn towards(speed: u32, target: u32) -> u32
    requires { (speed ≤ speed_ceiling) × (target ≤ speed_ceiling) }
    ensures { result ≡ acceleration_code (towards speed target) }
{
    if speed == target {
        return speeding(0);
    }
    let strived = strived(speed.abs_diff(target));
    if speed < target {
        return speeding(strived.min(10));
    }
    slowing(strived.min(30))
}

impl GoodCar {
    // b×60÷225 and g×30÷225, in lowest terms: the factor is a power of two, so that only the quotient takes a product. Two
    // functions, since the document names and moves each by itself.
    #[tactic(auto, using(kit::specs::Pick::picks), unfolding(motion::specs::Acceleration::brake_term))]
    fn brake_term(self) -> u32
        ensures { result ≡ brake_term self.car.pedals.brake }
    {
        self.car.pedals.brake * 4 / 15
    }

    #[tactic(auto, using(kit::specs::Pick::picks), unfolding(motion::specs::Acceleration::gas_term))]
    fn gas_term(self) -> u32
        ensures { result ≡ gas_term self.car.pedals.gas }
    {
        self.car.pedals.gas * 2 / 15
    }

    #[tactic(auto, using(kit::specs::Pick::picks, motion::proofs::AccelerationLaws::brake_term_le), unfolding(motion::specs::Acceleration::braked))]
    fn braked(self) -> u32
        ensures { result ≡ acceleration_code (braked self.car.pedals.brake self.car.speed) }
    {
        if self.car.speed == 0 {
            return speeding(0);
        }
        slowing(self.brake_term())
    }

    // The gas term of a pedal in its range is at most 30 already.
    #[tactic(auto, using(kit::specs::Pick::picks, motion::proofs::AccelerationLaws::gas_term_le), unfolding(motion::specs::Acceleration::pulled))]
    fn pulled(self) -> u32
        ensures { result ≡ acceleration_code (pulled self.car.pedals.gas) }
    {
        speeding(self.gas_term())
    }

    // a from the code of s, by the gas.
    #[tactic(auto, using(kit::specs::Pick::picks), unfolding(motion::specs::AccelerationShape::urged_code))]
    fn urged(self, s: u32) -> u32
        ensures { result ≡ urged_code self.car.pedals.gas s }
    {
        if self.car.pedals.gas == 0 {
            return s;
        }
        self.pulled().max(s)
    }

    #[tactic(auto, using(motion::proofs::AccelerationShapeLaws::cruising_code, crate::proofs::AccelerationLaws::target_le), unfolding(crate::specs::Acceleration::target_of))]
    fn cruising(self) -> u32
        ensures { result ≡ acceleration_code (cruising self.car.pedals.gas self.car.speed (target_of self.car)) }
    {
        let target = motion::target(self.ahead(), self.car.cruise.desired, self.car.radar.lead);
        self.urged(towards(self.car.speed, target))
    }

    // Close, and no kick-down (gas above 90), which goes first.
    #[tactic(auto, using(kit::specs::Pick::picks), unfolding(crate::specs::Distance::close, crate::specs::Distance::within))]
    fn backs_off(self) -> bool
        ensures { result ≡ (leb self.car.pedals.gas 90 && close self.car) }
    {
        if !self.ahead() | (self.car.pedals.gas > 90) {
            return false;
        }
        self.car.radar.range < self.secure_distance()
    }

    // a + 60. A good car with cruise on has the key on and no brake, so that its cases can come first; with the key not on it has neither
    // pedal down, which gives 0 by the last case. Gas above 90 gives more than any s, so that `cruising` has kick-down too.
    #[tactic(auto, using(crate::proofs::AccelerationShapeLaws::close_case, crate::proofs::AccelerationShapeLaws::cruising_case, crate::proofs::AccelerationShapeLaws::braked_case, crate::proofs::AccelerationShapeLaws::pulled_case))]
    pub(crate) fn acceleration_code(self) -> u32
        ensures { result ≡ acceleration_code (acceleration_of self.car) }
    {
        if self.car.cruise.on {
            if self.backs_off() {
                return backed_off(self.car.speed);
            }
            return self.cruising();
        }
        if self.car.pedals.brake > 0 {
            return self.braked();
        }
        self.pulled()
    }

    #[tactic(auto, using(crate::proofs::AccelerationShapeLaws::decoded_code))]
    pub(crate) fn acceleration(self) -> Acceleration
        ensures { result ≡ acceleration_of self.car }
    {
        decoded(self.acceleration_code())
    }
}
