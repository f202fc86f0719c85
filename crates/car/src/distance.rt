// Secure distance, "ahead" and the two warnings (document 01, "Rules of each event").
ghost use Rattle.std.specs.Prelude.{◌≡◌, ◌*◌, ◌≤◌};
ghost use Rattle.car.specs.DistanceShape.{following, largest_product};
ghost use Rattle.car.specs.Distance.{metres, secure_distance, ahead, within, visual, acoustic};

use crate::checked::GoodCar;

// The way in metres at a speed, in a time of tenths of a second. A good car's products are held by 32 bits.
#[tactic(auto, using(kit::specs::Pick::picks), unfolding(crate::specs::Distance::metres))]
fn metres(tenths: u32, speed: u32) -> u32
    requires { tenths * speed ≤ largest_product }
    ensures { result ≡ metres tenths speed }
{
    tenths * speed / 360
}

impl GoodCar {
    // The tenths of a second that the secure distance lasts.
    #[tactic(auto, using(kit::specs::Pick::picks), unfolding(crate::specs::DistanceShape::following))]
    fn following(self) -> u32
        ensures { result ≡ following self.car }
    {
        if self.car.radar.lead > 200 {
            return self.car.gap;
        }
        if (self.car.radar.lead == 0) | (self.car.radar.lead < self.car.radar.earlier) {
            return 25;
        }
        30
    }

    #[tactic(auto, using(kit::specs::Pick::picks), unfolding(crate::specs::Distance::ahead))]
    pub(crate) fn ahead(self) -> bool
        ensures { result ≡ ahead self.car }
    {
        (self.car.settings.mode == 2)
            & self.car.cruise.on
            & (1 <= self.car.radar.range)
            & (self.car.radar.range <= 254)
    }

    // N
    #[tactic(auto, using(kit::specs::Pick::picks, crate::specs::DistanceShape::following_le, crate::proofs::DistanceLaws::product_le, crate::specs::DistanceShape::secure_standing, crate::specs::DistanceShape::secure_following))]
    pub(crate) fn secure_distance(self) -> u32
        ensures { result ≡ secure_distance self.car }
    {
        if (self.car.radar.lead == 0) & (self.car.speed == 0) {
            return 2;
        }
        metres(self.following(), self.car.speed)
    }

    // A car ahead, nearer than the way in that many tenths of a second: R < p÷360 exactly when (R + 1)×360 ≤ p.
    #[tactic(auto, using(kit::specs::Pick::picks), unfolding(crate::specs::Distance::within, crate::specs::Distance::metres))]
    fn nearer(self, tenths: u32) -> bool
        requires { tenths ≤ 30 }
        ensures { result ≡ within self.car (metres tenths self.car.speed) }
    {
        if !self.ahead() {
            return false;
        }
        (self.car.radar.range + 1) * 360 <= tenths * self.car.speed
    }

    #[tactic(auto, using(kit::specs::Pick::picks), unfolding(crate::specs::Distance::visual))]
    pub(crate) fn visual(self) -> bool
        ensures { result ≡ visual self.car }
    {
        self.nearer(15)
    }

    #[tactic(auto, using(kit::specs::Pick::picks), unfolding(crate::specs::Distance::acoustic))]
    pub(crate) fn acoustic(self) -> bool
        ensures { result ≡ acoustic self.car }
    {
        self.nearer(8)
    }
}
