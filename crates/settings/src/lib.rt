// The settings word (document 01, "The cab, alike, and the program", and document 02, §11): a word makes the fresh car of its settings, and
// settings are written as their word.
#![tactic(auto, using(kit::specs::Pick::picks))]

ghost use Rattle.std.specs.Prelude.{◌≡◌};
ghost use Rattle.event.specs.Refusal.{answer};
ghost use Rattle.settings.specs.SettingsWord.{start_of, write_of};

use car::Car;
use event::Refusal;

// The kind stands in the top four bits, above the 28 bits of the body.
const KIND: u32 = 13;

const BODY: u32 = 0x1000_0000;

// Of the body, bits 0-1 are the mode, bit 2 the signs, bit 3 towing, and those from bit 4 on unnamed.
const SIGNS: u32 = 4;

const TOWING: u32 = 8;

const UNNAMED: u32 = 16;

// The fresh car of a settings word. 17 for any other word. No `TryFrom`: a car is made of a record too.
#[tactic(auto, using(kit::specs::Pick::picks), unfolding(crate::specs::SettingsWord::start_of, crate::specs::SettingsWord::mode_of, crate::specs::SettingsWord::signs_of, crate::specs::SettingsWord::towing_of))]
pub fn start(word: u32) -> Result<Car, Refusal>
    ensures { answer result ≡ start_of word }
{
    let kind = word / BODY;
    let body = word % BODY;
    if (kind != KIND) | (body >= UNNAMED) {
        return Err(Refusal::Settings);
    }
    Car::fresh(body % SIGNS, body / SIGNS % 2, body / TOWING)
}

// The word of settings that make a car. 17 for any others: each is any number, as a caller hands them over.
#[tactic(auto, using(kit::specs::Pick::picks), unfolding(crate::specs::SettingsWord::word_of))]
pub fn write(mode: u32, signs: u32, towing: u32) -> Result<u32, Refusal>
    ensures { answer result ≡ write_of mode signs towing }
{
    Car::fresh(mode, signs, towing)?;
    Ok(KIND * BODY + mode + SIGNS * signs + TOWING * towing)
}
