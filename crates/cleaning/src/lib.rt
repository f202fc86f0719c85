// A clean exercise file (document 02, §2), made piece by piece as the bytes of a file come: `open` for its first four bytes, which go out as they
// are, `turn` for each piece behind them, `close` at the end. specs/Cleaning.antt has the clean file of a whole file, and proofs/PiecesLaws.antt that
// the bytes of the pieces, in order, are it.
#![tactic(auto, using(kit::specs::Pick::picks))]

ghost use Rattle.std.specs.Prelude.{◌≡◌, ◌≤◌, length};
ghost use Rattle.kit.specs.Placed.{placed};
ghost use Rattle.event.specs.Refusal.{answer, number};
ghost use Rattle.cleaning.specs.Cleaning.{open_of, end_refusal};
ghost use Rattle.cleaning.specs.Pieces.{idle, words_turn, turn_in, answered};

use car::Car;
use event::Refusal;

// What a turn gives: the car behind it, how many of its bytes it used, and where the clean bytes end in the lent slice. `exercise` has one with a
// stage for the car (the reason stands there).
#[derive(Clone, Copy)]
pub struct Turned {
    pub car: Car,
    pub used: usize,
    pub end: usize,
}

// A turn drives at most so many words, and needs so many bytes for those that are accepted.
const WORDS: usize = 1024;

const ROOM: usize = 4096;

// The settings word: the fresh car, or 17. Bytes behind the first four are passed over.
#[tactic(auto, using(kit::specs::Pick::picks), unfolding(crate::specs::Cleaning::open_of))]
pub fn open(bytes: &[u8]) -> Result<Car, Refusal>
    ensures { answer result ≡ open_of bytes.now }
{
    if bytes.len() < 4 {
        return Err(Refusal::Settings);
    }
    settings::start(wire::word_at(bytes, 0))
}

// Beside that of `exercise`, as the two structs are.
#[tactic(auto, using(kit::specs::Pick::picks), unfolding(crate::specs::Pieces::answered, crate::specs::Pieces::idle))]
fn nothing_done(car: Car) -> Turned
    ensures { result ≡ answered (idle car) }
{
    Turned {
        car: car,
        used: 0,
        end: 0,
    }
}

// The accepted ones of some words; nothing where the car is not good.
fn clean_words(car: Car, words: &[u32], out: &mut [u8]) -> Turned
    requires { (length words.now ≤ 1024) × (4096 ≤ length out.old) }
    ensures { (result ≡ answered (words_turn car words.now)) × (out.new ≡ placed out.old 0 (words_turn car words.now).bytes) }
{
    let mut accepted = [0u32; WORDS];
    let Ok(part) = copy::from_car(car, words, &mut accepted) else {
        return nothing_done(car);
    };
    Turned {
        car: part.car,
        used: 4 * words.len(),
        end: wire::bytes_of(&accepted[..part.written], out),
    }
}

// One turn over the bytes that have come and were not used: the bytes of its accepted words stand in `out` from index 0 on. With less than 4,096
// bytes there, or a car that is not good, nothing is done.
#[tactic(auto, using(kit::specs::Pick::picks, kit::specs::Placed::placed_nothing), unfolding(crate::specs::Pieces::turn_in, crate::specs::Pieces::idle, wire::specs::Wire::words_count))]
pub fn turn(car: Car, bytes: &[u8], out: &mut [u8]) -> Turned
    ensures { (result ≡ answered (turn_in out.old car bytes.now)) × (out.new ≡ placed out.old 0 (turn_in out.old car bytes.now).bytes) }
{
    if out.len() < ROOM {
        return nothing_done(car);
    }
    let mut words = [0u32; WORDS];
    let n = wire::words_of(bytes, &mut words);
    clean_words(car, &words[..n], out)
}

// The end of the file, after which so many bytes were not used.
#[tactic(auto, using(kit::specs::Pick::picks), unfolding(crate::specs::Cleaning::end_refusal))]
pub fn close(held: usize) -> Result<(), Refusal>
    ensures { number result ≡ end_refusal held }
{
    if held == 0 {
        return Ok(());
    }
    Err(Refusal::CutWord)
}
