// The figures that the dials show of a car.
ghost use Rattle.std.specs.Prelude.{◌≡◌, Ok};
ghost use Rattle.car.specs.Figures.{figures_answer, figures_of, shown};

use crate::Car;
use crate::checked::GoodCar;
use event::Refusal;
use motion::Acceleration;

#[derive(Clone, Copy, Debug, Default, PartialEq, Eq)]
pub struct Figures {
    pub speed: u32,
    pub desired: u32,
    pub acceleration: Acceleration,
    pub visual: bool,
    pub acoustic: bool,
    pub distance: u32, // N
}

impl GoodCar {
    #[tactic(auto, using(kit::specs::Pick::picks), unfolding(crate::specs::Figures::shown))]
    fn shown(self) -> Figures
        ensures { figures_answer (Ok result) ≡ shown self.car }
    {
        Figures {
            speed: self.car.speed,
            desired: self.car.cruise.desired,
            acceleration: self.acceleration(),
            visual: self.visual(),
            acoustic: self.acoustic(),
            distance: self.secure_distance(),
        }
    }
}

impl Car {
    // 18 for a car that is not good.
    #[tactic(auto, using(kit::specs::Pick::picks), unfolding(crate::specs::Figures::figures_of, crate::specs::Figures::no_figures))]
    pub fn figures(self) -> Result<Figures, Refusal>
        ensures { figures_answer result ≡ figures_of self }
    {
        Ok(self.checked()?.shown())
    }
}
