// The listing of an exercise file (document 01, "The cab, alike, and the program"), made piece by piece as its bytes come: `turn` for each
// piece, `close` at the end. specs/Exercise.antt has the listing of a whole file, and proofs/PiecesLaws.antt that the texts of the pieces, in order,
// are it.
#![tactic(auto, using(kit::specs::Pick::picks))]

ghost use Rattle.std.specs.Prelude.{◌≡◌, ◌+◌, ◌≤◌, ◌++◌, length, drop};
ghost use Rattle.kit.specs.Placed.{placed};
ghost use Rattle.exercise.specs.declared.Stage.TheVariants.{Awaited};
ghost use Rattle.exercise.specs.Exercise.{head_text};
ghost use Rattle.exercise.specs.Pieces.{idle, words_turn, events_turn, headed, turn_of, turn_in, close_in, answered_at};

use car::Car;
use event::Refusal;

// A lesson under way: the car, and the number of its next event.
#[derive(Clone, Copy)]
pub struct Place {
    car: Car,
    number: u64,
}

// How far a listing has come: the settings word has not, events are driven, or refused settings have ended it.
#[derive(Clone, Copy)]
pub enum Stage {
    Awaited,
    Driving(Place),
    Ended,
}

// What a turn gives: the stage behind it, how many of its bytes it used, and where its text ends in the lent slice, since there is no heap for a
// String. `cleaning` has one with a car for the stage: in a `Turned<S>` for both the laws of the two (specs/Pieces.antt) would say `behind`, where
// `stage` and `car` say what it is.
#[derive(Clone, Copy)]
pub struct Turned {
    pub stage: Stage,
    pub used: usize,
    pub end: usize,
}

// A turn drives at most so many words, and needs so many bytes for its text: 64 for each, and for the head line.
// That `out` has room stands in the `requires` of the functions below: were it an array (`first_chunk_mut`), the contract of each would have to say
// that its length stays.
const WORDS: usize = 1024;

const ROOM: usize = 65600;

#[tactic(auto, using(kit::specs::Pick::picks), unfolding(crate::specs::Pieces::answered_at, crate::specs::Pieces::idle))]
fn nothing_done(stage: Stage) -> Turned
    ensures { result ≡ answered_at 0 (idle stage) }
{
    Turned {
        stage: stage,
        used: 0,
        end: 0,
    }
}

// The words driven, and a line for each. Nothing where the numbers would pass 2^64 - 1 or the car is not good.
fn drive_words(place: Place, words: &[u32], out: &mut [u8]) -> Turned
    requires { (length words.now ≤ 1024) × (65536 ≤ length out.old) }
    ensures { (result ≡ answered_at 0 (words_turn place words.now)) × (out.new ≡ placed out.old 0 (words_turn place words.now).text) }
{
    let Some(number) = place.number.checked_add(words.len() as u64) else {
        return nothing_done(Stage::Driving(place));
    };
    // Two arrays, as `trace` fills them and `put_lines` takes them.
    let mut answers = [0; WORDS];
    let mut speeds = [0; WORDS];
    let Ok(taught) = place.car.trace(words, &mut answers, &mut speeds) else {
        return nothing_done(Stage::Driving(place));
    };
    Turned {
        stage: Stage::Driving(Place {
            car: taught.car,
            number: number,
        }),
        used: 4 * words.len(),
        end: listing::put_lines(out, 0, place.number, &answers[..words.len()], &speeds),
    }
}

// The events of some bytes.
#[tactic(auto, using(kit::specs::Pick::picks), unfolding(wire::specs::Wire::words_count))]
fn drive_bytes(place: Place, bytes: &[u8], out: &mut [u8]) -> Turned
    requires { 65536 ≤ length out.old }
    ensures { (result ≡ answered_at 0 (events_turn place bytes.now)) × (out.new ≡ placed out.old 0 (events_turn place bytes.now).text) }
{
    let mut words = [0; WORDS];
    let n = wire::words_of(bytes, &mut words);
    drive_words(place, &words[..n], out)
}

// The head line.
fn put_head(out: &mut [u8]) -> usize
    requires { 64 ≤ length out.old }
    ensures { (result ≡ length head_text) × (result ≤ 64) × (out.new ≡ placed out.old 0 head_text) }
{
    listing::put_text(out, 0, b"n refusal speed desired accel visual acoustic\n")
}

// The head line, and the events that have come with the settings word.
fn begin(car: Car, events: &[u8], out: &mut [u8]) -> Turned
    requires { 65600 ≤ length out.old }
    ensures { (result ≡ answered_at 0 (headed (events_turn (record { car = car; number = 1 }) events.now))) × (out.new ≡ placed out.old 0 (headed (events_turn (record { car = car; number = 1 }) events.now)).text) }
{
    let head = put_head(out);
    let place = Place {
        car: car,
        number: 1,
    };
    let turned = drive_bytes(place, events, &mut out[head..]);
    Turned {
        stage: turned.stage,
        used: 4 + turned.used,
        end: head + turned.end,
    }
}

// The settings word, once its four bytes have come.
fn open(bytes: &[u8], out: &mut [u8]) -> Turned
    requires { 65600 ≤ length out.old }
    ensures { (result ≡ answered_at 0 (turn_of Awaited bytes.now)) × (out.new ≡ placed out.old 0 (turn_of Awaited bytes.now).text) }
{
    let Some(events) = bytes.get(4..) else {
        return nothing_done(Stage::Awaited);
    };
    match settings::start(wire::word_at(bytes, 0)) {
        Ok(car) => begin(car, events, out),
        Err(refusal) => Turned {
            stage: Stage::Ended,
            used: bytes.len(),
            end: listing::put_refused(out, 0, u32::from(refusal)),
        },
    }
}

// One turn over the bytes that have come and were not used: its text stands in `out` from index 0 on. With less than 65,600 bytes there nothing
// is done.
pub fn turn(stage: Stage, bytes: &[u8], out: &mut [u8]) -> Turned
    ensures { (result ≡ answered_at 0 (turn_in out.old stage bytes.now)) × (out.new ≡ placed out.old 0 (turn_in out.old stage bytes.now).text) }
{
    if out.len() < ROOM {
        return nothing_done(stage);
    }
    match stage {
        Stage::Awaited => open(bytes, out),
        Stage::Driving(place) => drive_bytes(place, bytes, out),
        Stage::Ended => Turned {
            stage: Stage::Ended,
            used: bytes.len(),
            end: 0,
        },
    }
}

// The end of the file, after which so many bytes were not used: its text stands in `out` from index 0 on, and its end is answered. With less than
// 65,600 bytes there nothing is put.
pub fn close(stage: Stage, held: usize, out: &mut [u8]) -> usize
    ensures { (result ≡ length (close_in out.old stage held)) × (out.new ≡ placed out.old 0 (close_in out.old stage held)) }
{
    if out.len() < ROOM {
        return 0;
    }
    let refusal = match stage {
        Stage::Awaited => Refusal::Settings,
        Stage::Driving(_) if held == 0 => return 0,
        Stage::Driving(_) => Refusal::CutWord,
        Stage::Ended => return 0,
    };
    listing::put_refused(out, 0, u32::from(refusal))
}

// Moves the bytes that a turn did not use to the front, and counts them: there is no heap for a Vec, whose `drain` would do it.
pub fn keep(bytes: &mut [u8], used: usize) -> usize
    ensures { (result ≡ length (drop used bytes.old)) × (bytes.new ≡ drop used bytes.old ++ drop result bytes.old) }
{
    let Some(count) = bytes.len().checked_sub(used) else {
        return 0;
    };
    bytes.copy_within(used.., 0);
    count
}
