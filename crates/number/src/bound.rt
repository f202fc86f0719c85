// The document's ceilings that several crates know (document 01, "The car and a fresh one").
pub const PEDAL: u32 = 225;

pub const SPEED: u32 = 5000;
