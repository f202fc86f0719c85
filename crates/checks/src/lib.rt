// The checks 4 to 16 over plain numbers (document 01, "From file, pupil, radar, clock and caller"): the first number that holds, or 0.
// Positions stay numbers, and what a lever or pedal holds stands beside what is asked of it: a word or a car may hold any u32, and the laws say
// each number by itself.
#![tactic(auto, using(kit::specs::Pick::picks))]

ghost use Rattle.std.specs.Prelude.{◌≡◌, ◌&&◌, ◌||◌, not, eqb};
ghost use Rattle.kit.specs.Pick.{pick};
ghost use Rattle.event.specs.Refusal.{number};
ghost use Rattle.checks.specs.Checks.{key_on, key_skips, key_check, up_down_skips, up_down_check, fore_back_skips, fore_back_check, pedal_check, button_check, radar_check, tick_check};

use event::Refusal;

// The last second of the clock, at which no tick is accepted.
pub const LESSON_LENGTH: u32 = 86_400;

// 4, which stands before the kind's own checks.
#[tactic(auto, using(kit::specs::Pick::picks), unfolding(crate::specs::Checks::key_on))]
pub fn key_on(key: u32) -> Result<(), Refusal>
    ensures { number result ≡ key_on key 0 }
{
    if key != 2 {
        return Err(Refusal::KeyNotOn);
    }
    Ok(())
}

// From one of two positions to the other.
fn between(one: u32, two: u32, from: u32, to: u32) -> bool
    ensures { result ≡ (eqb from one && eqb to two || eqb from two && eqb to one) }
{
    ((from == one) & (to == two)) | ((from == two) & (to == one))
}

#[tactic(auto, using(kit::specs::Pick::picks), unfolding(crate::specs::Checks::key_skips))]
fn key_skips(from: u32, to: u32) -> bool
    ensures { result ≡ key_skips from to }
{
    between(0, 2, from, to)
}

#[tactic(auto, using(kit::specs::Pick::picks), unfolding(crate::specs::Checks::key_check))]
pub fn key_check(key: u32, speed: u32, position: u32, ready: bool) -> Result<(), Refusal>
    ensures { number result ≡ key_check key speed position ready }
{
    if position == key {
        return Err(Refusal::AlreadyHeld);
    }
    if speed > 0 {
        return Err(Refusal::KeyWhileMoving);
    }
    if key_skips(key, position) {
        return Err(Refusal::PositionSkipped);
    }
    if ready & (position != 2) {
        return Err(Refusal::ReadyBit);
    }
    Ok(())
}

// Of either lever, by what it and the other one hold, and whether the move skips a position: the two checks differ in that alone.
fn lever_check(held: u32, other: u32, position: u32, skips: bool) -> Result<(), Refusal>
    ensures { number result ≡ pick (eqb position held) 5 (pick skips 7 (pick (not (eqb other 0)) 8 0)) }
{
    if position == held {
        return Err(Refusal::AlreadyHeld);
    }
    if skips {
        return Err(Refusal::PositionSkipped);
    }
    if other != 0 {
        return Err(Refusal::OtherLeverOut);
    }
    Ok(())
}

#[tactic(auto, using(kit::specs::Pick::picks), unfolding(crate::specs::Checks::up_down_skips))]
fn up_down_skips(from: u32, to: u32) -> bool
    ensures { result ≡ up_down_skips from to }
{
    ((1 <= from) & (from <= 2) & (3 <= to)) | ((3 <= from) & (1 <= to) & (to <= 2))
}

// Of the up-down lever, by what it and the other lever hold.
#[tactic(auto, using(kit::specs::Pick::picks), unfolding(crate::specs::Checks::up_down_check))]
pub fn up_down_check(updown: u32, foreback: u32, position: u32) -> Result<(), Refusal>
    ensures { number result ≡ up_down_check updown foreback position }
{
    let skips = up_down_skips(updown, position);
    lever_check(updown, foreback, position, skips)
}

#[tactic(auto, using(kit::specs::Pick::picks), unfolding(crate::specs::Checks::fore_back_skips))]
fn fore_back_skips(from: u32, to: u32) -> bool
    ensures { result ≡ fore_back_skips from to }
{
    between(1, 2, from, to)
}

// Of the fore-back lever, by what it and the other lever hold.
#[tactic(auto, using(kit::specs::Pick::picks), unfolding(crate::specs::Checks::fore_back_check))]
pub fn fore_back_check(foreback: u32, updown: u32, position: u32) -> Result<(), Refusal>
    ensures { number result ≡ fore_back_check foreback updown position }
{
    let skips = fore_back_skips(foreback, position);
    lever_check(foreback, updown, position, skips)
}

// Of brake or gas, by what it and the other pedal hold.
#[tactic(auto, using(kit::specs::Pick::picks), unfolding(crate::specs::Checks::pedal_check))]
pub fn pedal_check(held: u32, other: u32, value: u32) -> Result<(), Refusal>
    ensures { number result ≡ pedal_check held other value }
{
    if value == held {
        return Err(Refusal::AlreadyHeld);
    }
    if other > 0 {
        return Err(Refusal::OtherPedalDown);
    }
    Ok(())
}

#[tactic(auto, using(kit::specs::Pick::picks), unfolding(crate::specs::Checks::button_check))]
pub fn button_check(
    button: bool,
    foreback: u32,
    gas: u32,
    speed: u32,
    limit: u32,
) -> Result<(), Refusal>
    ensures { number result ≡ button_check button foreback gas speed limit }
{
    if button {
        return Err(Refusal::ButtonIn);
    }
    if foreback == 2 {
        return Err(Refusal::ButtonWhileBackward);
    }
    if gas > 90 {
        return Err(Refusal::ButtonWhileGas);
    }
    if speed > limit {
        return Err(Refusal::AboveLimit);
    }
    Ok(())
}

#[tactic(auto, using(kit::specs::Pick::picks), unfolding(crate::specs::Checks::radar_check))]
pub fn radar_check(ready: bool) -> Result<(), Refusal>
    ensures { number result ≡ radar_check ready }
{
    if !ready {
        return Err(Refusal::RadarNotReady);
    }
    Ok(())
}

// Of a tick with the bit `said`, by whether the radar is ready, and whether it is tested in this second.
#[tactic(auto, using(kit::specs::Pick::picks), unfolding(crate::specs::Checks::tick_check))]
pub fn tick_check(ready: bool, due: bool, now: u32, said: bool) -> Result<(), Refusal>
    ensures { number result ≡ tick_check ready due now said }
{
    if (said != ready) & !due {
        return Err(Refusal::ReadyBit);
    }
    if now >= LESSON_LENGTH {
        return Err(Refusal::ClockAtEnd);
    }
    Ok(())
}
