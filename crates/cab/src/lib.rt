// The cab's car (document 01, "The cab, alike, and the program"): lent to one call and changed there.
#![tactic(auto)]

ghost use Rattle.std.specs.Prelude.{◌≡◌};
ghost use Rattle.event.specs.Refusal.{number};
ghost use Rattle.car.specs.Drive.{drive_of};

use car::Car;
use event::Refusal;

// Drives one word: the car becomes the one that the call by value gives, and is kept where that refuses.
pub fn drive(car: &mut Car, word: u32) -> Result<(), Refusal>
    ensures { (number result ≡ (drive_of car.old word).refusal) × (car.new ≡ (drive_of car.old word).car) }
{
    *car = car.drive(word)?;
    Ok(())
}
