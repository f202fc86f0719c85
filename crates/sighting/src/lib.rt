// The scene engine's sightings (document 02, §7): a sighting becomes a radar event, and the event's word.
#![tactic(auto, using(kit::specs::Pick::picks))]

ghost use Rattle.std.specs.Prelude.{◌≡◌};
ghost use Rattle.sighting.specs.Value.{above};
ghost use Rattle.event.specs.Refusal.{answer};
ghost use Rattle.sighting.specs.Sighting.{reading_of, vehicle_of, seen_of, seen_word};
ghost use Rattle.sighting.specs.SightingShape.{at_speed};

use event::{Event, Input, Refusal};

mod whole;

use whole::Factor;

// What the engine sees: a car, with metres and km/h; a free road; nothing, for a fault of its own.
#[derive(Clone, Copy, Debug, PartialEq)]
pub enum Sighting {
    Vehicle(f32, f32),
    Free,
    Fault,
}

const FREE_ROAD: Event = Event::Input(Input::Radar { range: 0, speed: 0 });

#[tactic(auto, using(kit::specs::Pick::picks, crate::proofs::ValueLaws::above_500))]
fn too_fast(kmh: f32) -> bool
    ensures { result ≡ above 500 kmh }
{
    kmh > 500.0
}

// The reading of whole metres and tenths of km/h.
#[tactic(auto, using(kit::specs::Pick::picks, crate::proofs::SightingLaws::reading_far, crate::proofs::SightingLaws::reading_within))]
fn reading(metres: u32, tenths: u32) -> Event
    ensures { result ≡ reading_of metres tenths }
{
    if metres >= 255 {
        return FREE_ROAD;
    }
    Event::Input(Input::Radar {
        range: metres.max(1),
        speed: tenths,
    })
}

// A car at so many whole metres: its event.
#[tactic(auto, using(kit::specs::Pick::picks, crate::proofs::SightingShapeLaws::speed_refused, crate::proofs::SightingShapeLaws::speed_fast, crate::proofs::SightingShapeLaws::speed_read))]
fn at_speed(metres: u32, kmh: f32) -> Result<Option<Event>, Refusal>
    ensures { answer result ≡ at_speed metres kmh }
{
    let tenths = whole::of_float(kmh, Factor { times: 10 })?;
    if too_fast(kmh) {
        return Err(Refusal::TooFast);
    }
    Ok(Some(reading(metres, tenths)))
}

#[tactic(auto, using(kit::specs::Pick::picks, crate::proofs::SightingShapeLaws::metres_refused, crate::proofs::SightingShapeLaws::metres_read))]
fn vehicle(metres: f32, kmh: f32) -> Result<Option<Event>, Refusal>
    ensures { answer result ≡ vehicle_of metres kmh }
{
    at_speed(whole::of_float(metres, Factor { times: 1 })?, kmh)
}

// The event of a sighting; none of a fault.
#[tactic(auto, using(kit::specs::Pick::picks), unfolding(crate::specs::Sighting::seen_of))]
pub fn radar_event(sighting: Sighting) -> Result<Option<Event>, Refusal>
    ensures { answer result ≡ seen_of sighting }
{
    match sighting {
        Sighting::Vehicle(metres, kmh) => vehicle(metres, kmh),
        Sighting::Free => Ok(Some(FREE_ROAD)),
        Sighting::Fault => Ok(None),
    }
}

// The same with the event's word.
#[tactic(auto, using(kit::specs::Pick::picks, crate::proofs::SightingShapeLaws::word_written, crate::proofs::SightingShapeLaws::word_none, crate::proofs::SightingShapeLaws::word_refused), unfolding(crate::specs::SightingShape::written))]
pub fn radar_word(sighting: Sighting) -> Result<Option<u32>, Refusal>
    ensures { answer result ≡ seen_word sighting }
{
    match radar_event(sighting)? {
        Some(event) => Ok(Some(u32::try_from(event)?)),
        None => Ok(None),
    }
}
