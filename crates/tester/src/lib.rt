// What the test programs share: words (little-endian) from standard input, text in a lent slice, and a car as its 24 fields in document 01's
// order: mode signs towing key L M b g H S C P v Z D E T B R W Y G now Q.
#![tactic(auto, using(kit::specs::Pick::picks))]

mod fields;
mod input;
mod output;
mod program;
mod reading;

pub use fields::{car_at, fields_of};
pub use input::{fill, float, further, past, read_words, settings_word, sighting, size, word};
pub use output::{Page, write};
pub use program::{cases, pieces, run};
pub use reading::{FILE_BYTES, Reader};
