// The words of standard input. A word past the end of the input reads as 0.
// Words and an index stand apart where the index is fixed, as at a record's words; one that moves is a `Reader`'s.
ghost use Rattle.std.specs.Prelude.{◌≡◌, ◌+◌, ◌≤◌, min, length, get_or, drop, IfOk};
ghost use Rattle.std.specs.Float.{binary32};
ghost use Rattle.std.specs.Float.Ieee.{of_bits};
ghost use Rattle.settings.specs.SettingsWord.{write_of};
ghost use Rattle.tester.specs.Input.{first_of, word_or0, sighting_of};

use console::Told;
use sighting::Sighting;

// Reads all of standard input, 131,072 bytes at most: its words, in the slice. `what` is the program and the input's name. No contract can say what
// is read.
#[tactic(auto, using(kit::specs::Pick::picks), unfolding(wire::specs::Wire::words_count))]
pub fn read_words<'a>(
    rt: &HostRuntime,
    words: &'a mut [u32],
    what: &[u8],
) -> Result<&'a [u32], Told>
    ensures { IfOk result (λ read. length read.now ≤ length words.old) }
{
    let mut bytes = [0; 131072];
    let count = console::read_all(&mut rt.stdin(), &mut rt.stderr(), &mut bytes, what)?;
    let read = wire::words_of(&bytes[..count], words);
    Ok(&words[..read])
}

pub fn word(words: &[u32], at: usize) -> u32
    ensures { result ≡ get_or words.now at 0 }
{
    words.get(at).copied().unwrap_or(0)
}

// The word at an index, held to a number.
pub fn size(words: &[u32], at: usize, most: usize) -> usize
    ensures { result ≡ min (get_or words.now at 0) most }
{
    most.min(word(words, at) as usize)
}

// The index so many places further, or the end.
pub fn further(at: usize, count: usize, end: usize) -> usize
    ensures { result ≡ min (at + count) end }
{
    at.saturating_add(count).min(end)
}

// The same among words.
pub fn past(words: &[u32], at: usize, count: usize) -> usize
    ensures { result ≡ min (at + count) (length words.now) }
{
    further(at, count, words.len())
}

// The words from an index on.
fn rest(words: &[u32], at: usize) -> &[u32]
    ensures { result.now ≡ drop at words.now }
{
    words.get(at..).unwrap_or(&[])
}

// Stores the words from an index on, one at each place of a slice.
pub fn fill(into: &mut [u32], words: &[u32], at: usize)
    ensures { into.new ≡ first_of (length into.old) (drop at words.now) }
{
    let from = rest(words, at);
    let count = from.len().min(into.len());
    into.fill(0);
    into[..count].copy_from_slice(&from[..count]);
}

// The word of settings; settings outside their values have none, and get 0, which is refused as they are.
#[tactic(auto, using(kit::specs::Pick::picks), unfolding(crate::specs::Input::word_or0))]
pub fn settings_word(mode: u32, signs: u32, towing: u32) -> u32
    ensures { result ≡ word_or0 (write_of mode signs towing) }
{
    settings::write(mode, signs, towing).unwrap_or(0)
}

// The float of a word's bits. All that are no number are one float: the language makes none of them from its bits.
pub fn float(bits: u32) -> f32
    ensures { result ≡ of_bits binary32 bits }
{
    if bits % 0x8000_0000 > 0x7F80_0000 {
        return f32::NAN;
    }
    f32::from_bits(bits)
}

// The sighting of a kind, 0 a vehicle, 1 a free road, any other a fault, and of two floats' bits.
// The kind is the input's own number, which the library's function is handed too.
#[tactic(auto, using(kit::specs::Pick::picks), unfolding(crate::specs::Input::sighting_of, kit::specs::Pick::pick))]
pub fn sighting(kind: u32, metres: u32, kmh: u32) -> Sighting
    ensures { result ≡ sighting_of kind metres kmh }
{
    match kind {
        0 => Sighting::Vehicle(float(metres), float(kmh)),
        1 => Sighting::Free,
        _ => Sighting::Fault,
    }
}
