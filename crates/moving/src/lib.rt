// The moves of the lever that reach a wanted speed from the last car of an exercise file (document 02, §13), found piece by piece as its bytes come:
// `cleaning::open` gives the car of its settings word, `turn` drives each piece behind that, and `put_result` is the end. specs/Moving.antt has the text
// of a whole file, and proofs/PiecesLaws.antt that the pieces give it.
#![tactic(auto, using(kit::specs::Pick::picks))]

ghost use Rattle.std.specs.Prelude.{◌≡◌, ◌+◌, ◌*◌, ◌≤◌, length};
ghost use Rattle.kit.specs.Placed.{placed};
ghost use Rattle.listing.specs.Put.{Put};
ghost use Rattle.lever.specs.Fewest.{moves_answer};
ghost use Rattle.moving.specs.Moving.{word_lines, sentence, end_answer, end_text};
ghost use Rattle.moving.specs.Pieces.{words_turn, turn_of};

use car::Car;
use event::Refusal;
use lever::Moves;

// What a turn gives: the car behind it, and how many of its bytes it used.
#[derive(Clone, Copy)]
pub struct Turned {
    pub car: Car,
    pub used: usize,
}

// A turn drives at most so many words.
const WORDS: usize = 1024;

// The longest text, a sentence, has so many bytes; six words have 54.
pub const ROOM: usize = 64;

// Some words driven; nothing where the car is not good.
fn drive(car: Car, words: &[u32]) -> Turned
    requires { length words.now ≤ 1024 }
    ensures { result ≡ words_turn car words.now }
{
    let mut answers = [0; WORDS];
    match car.lesson(words, &mut answers) {
        Ok(taught) => Turned {
            car: taught.car,
            used: 4 * words.len(),
        },
        Err(_) => Turned { car: car, used: 0 },
    }
}

// One turn over the bytes that have come and were not used.
#[tactic(auto, using(kit::specs::Pick::picks), unfolding(wire::specs::Wire::words_count))]
pub fn turn(car: Car, bytes: &[u8]) -> Turned
    ensures { result ≡ turn_of car bytes.now }
{
    let mut words = [0; WORDS];
    let n = wire::words_of(bytes, &mut words);
    drive(car, &words[..n])
}

// A line for each word, from an index on; the index past them comes out, as in `listing`.
fn put_words(out: &mut [u8], at: usize, words: &[u32]) -> usize
    requires { at + 9 * length words.now ≤ length out.old }
    ensures { Put out.old at (word_lines words.now) (9 * length words.now) out.new result }
{
    let mut end = at;
    for &word in words {
        end = listing::put_word_line(out, end, word);
    }
    end
}

// A refusal in a sentence, from the text's start; the index past it. The number may be any, as in `listing`.
#[tactic(auto, using(kit::specs::Pick::picks), unfolding(crate::specs::Moving::sentence))]
pub fn put_sentence(text: &mut [u8; ROOM], refusal: u32) -> usize
    ensures { Put text.old 0 (sentence refusal) 64 text.new result }
{
    match refusal {
        17 => listing::put_text(
            text,
            0,
            b"refused 17: the file does not start with a settings word\n",
        ),
        21 => listing::put_text(text, 0, b"refused 21: the file ends inside a word\n"),
        25 => listing::put_text(
            text,
            0,
            b"refused 25: cruise is off or a lever is out of neutral\n",
        ),
        26 => listing::put_text(
            text,
            0,
            b"refused 26: no list of at most six lever words gives that speed\n",
        ),
        _ => listing::put_refused(text, 0, refusal),
    }
}

// The list from the last car; 21 before what the car is refused with.
#[tactic(auto, using(kit::specs::Pick::picks), unfolding(crate::specs::Moving::end_answer, cleaning::specs::Cleaning::end_refusal))]
fn find(car: Car, wanted: u32, held: usize) -> Result<Moves, Refusal>
    ensures { moves_answer result ≡ end_answer wanted car held }
{
    cleaning::close(held)?;
    lever::fewest(car, wanted)
}

// The end of the file, after which so many bytes were not used, from the text's start; the index past it.
pub fn put_result(text: &mut [u8; ROOM], car: Car, wanted: u32, held: usize) -> usize
    ensures { Put text.old 0 (end_text wanted car held) 64 text.new result }
{
    match find(car, wanted, held) {
        Ok(moves) => put_words(text, 0, &moves.words[..moves.count]),
        Err(refusal) => put_sentence(text, u32::from(refusal)),
    }
}
