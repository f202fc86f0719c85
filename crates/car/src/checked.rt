// A good car as a type: what a second, the figures and a lesson start from.
ghost use Rattle.std.specs.Prelude.{◌≡◌, true, false, IfOk, IfErr};
ghost use Rattle.event.specs.declared.refusal.Refusal.TheVariants.{NotAccepted};
ghost use Rattle.car.specs.Good.{good_of};
ghost use Rattle.car.specs.Standing.{Good};

use crate::Car;
use event::Refusal;

#[derive(Clone, Copy)]
pub(crate) struct GoodCar {
    pub(crate) car: Car,
    ghost good: { Good car },
}

impl Car {
    // 18 for a car that is not good.
    pub(crate) fn checked(self) -> Result<GoodCar, Refusal>
        ensures ok { IfOk result (λ x. (x.car ≡ self) × (good_of self ≡ true)) }
        ensures err { IfErr result (λ r. (r ≡ NotAccepted) × (good_of self ≡ false)) }
    {
        if !self.good() {
            return Err(Refusal::NotAccepted);
        }
        Ok(GoodCar { car: self })
    }
}
