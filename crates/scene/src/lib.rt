// A sighting of the scene engine driven on a car (document 02, §7).
#![tactic(auto, using(kit::specs::Pick::picks))]

ghost use Rattle.std.specs.Prelude.{◌≡◌};
ghost use Rattle.std.specs.Result.{is_ok};
ghost use Rattle.event.specs.Refusal.{number};
ghost use Rattle.scene.specs.See.{see_answer, see_of};
ghost use Rattle.scene.specs.SeeShape.{kept_of};

use car::Car;
use event::Refusal;
use sighting::Sighting;

// A good car with no event is kept, with what there is instead of one: 18 comes first all the same.
#[tactic(auto, using(kit::specs::Pick::picks), unfolding(crate::specs::SeeShape::kept_of))]
fn kept(car: Car, outcome: Result<Option<Car>, Refusal>) -> Result<Option<Car>, Refusal>
    requires { see_answer car outcome ≡ record { car = car; refusal = number outcome; fault = is_ok outcome } }
    ensures { see_answer car result ≡ kept_of car (number outcome) (is_ok outcome) }
{
    if !car.good() {
        return Err(Refusal::NotAccepted);
    }
    outcome
}

// The car after a sighting; none for a fault of the engine: then there was no event. 18, then 22 and 23, then the checks of the event: its word
// is driven.
#[tactic(auto, using(kit::specs::Pick::picks, crate::proofs::SeeLaws::see_word, crate::proofs::SeeLaws::see_none, crate::proofs::SeeLaws::see_refused))]
pub fn see(car: Car, sighting: Sighting) -> Result<Option<Car>, Refusal>
    ensures { see_answer car result ≡ see_of car sighting }
{
    match sighting::radar_word(sighting) {
        Ok(Some(word)) => Ok(Some(car.drive(word)?)),
        Ok(None) => kept(car, Ok(None)),
        Err(refusal) => kept(car, Err(refusal)),
    }
}
