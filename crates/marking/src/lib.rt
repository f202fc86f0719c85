// The mark of an exercise file (document 02, §5), found piece by piece as its bytes come: `start` with the car of its settings word, `turn` for each
// piece behind that, `put_result` at the end. specs/Marking.antt has the text of a whole file, and proofs/PiecesLaws.antt that the pieces give it.
#![tactic(auto, using(kit::specs::Pick::picks))]

ghost use Rattle.std.specs.Prelude.{◌≡◌, ◌+◌, ◌≤◌, length, Some, None};
ghost use Rattle.kit.specs.Pick.{pick};
ghost use Rattle.kit.specs.Placed.{placed};
ghost use Rattle.event.specs.Refusal.{number};
ghost use Rattle.listing.specs.Put.{Put};
ghost use Rattle.marking.specs.Marking.{passed_text, seconds_text, refusal_text};
ghost use Rattle.marking.specs.Pieces.{fresh_stage, page_answer, page_of, further_of, stuck, turn_of, end_in};

use car::Car;
use event::Refusal;
use passing::Marked;

// How far a lesson has come: its car, its events so far, the one that passed the mark, and the seconds that ended at or above it.
#[derive(Clone, Copy)]
pub struct Stage {
    car: Car,
    events: usize,
    passed: Option<usize>,
    seconds: usize,
}

// The mark goes beside the stage and not into it: it is the same for all stages, and each turn would have to say that it stays.

// What a turn gives: the stage behind it, and how many of its bytes it used.
#[derive(Clone, Copy)]
pub struct Turned {
    pub stage: Stage,
    pub used: usize,
}

// A turn drives at most so many words.
const WORDS: usize = 1024;

// A result needs so many bytes: 27 for the event, 29 for the seconds, 29 for a refusal.
const ROOM: usize = 85;

// Before the first event.
#[tactic(auto, using(kit::specs::Pick::picks), unfolding(crate::specs::Pieces::fresh_stage))]
pub fn start(car: Car) -> Stage
    ensures { result ≡ fresh_stage car }
{
    Stage {
        car: car,
        events: 0,
        passed: None,
        seconds: 0,
    }
}

// Some words behind a stage: the event that passed the mark, looked for while there is none, and their own seconds.
#[tactic(auto, using(kit::specs::Pick::picks, crate::proofs::Turning::counted), unfolding(passing::specs::Passing::later))]
fn drive(stage: Stage, words: &[u32], mark: u32) -> Result<Marked, Refusal>
    requires { stage.events + length words.now ≤ 18446744073709551615 }
    ensures { page_answer stage result ≡ page_of mark stage.car stage.events stage.passed words.now }
{
    match stage.passed {
        Some(_) => {
            let page = passing::seconds(stage.car, words, mark)?;
            Ok(Marked {
                car: page.car,
                passed: stage.passed,
                seconds: page.seconds,
            })
        }
        None => {
            let page = passing::of_lesson(stage.car, words, mark)?;
            Ok(Marked {
                car: page.car,
                passed: page.passed.map(|n| stage.events + n),
                seconds: page.seconds,
            })
        }
    }
}

// The stage behind some words; none where a number could pass 2^64 - 1 or the car is not good.
#[tactic(auto, using(kit::specs::Pick::picks, crate::proofs::Turning::page_few, crate::proofs::Turning::not_good), unfolding(crate::specs::Pieces::stuck))]
fn further(stage: Stage, words: &[u32], mark: u32) -> Option<Stage>
    ensures { result ≡ pick (stuck stage words.now) None (Some (further_of mark stage words.now)) }
{
    let events = stage.events.checked_add(words.len())?;
    stage.seconds.checked_add(words.len())?;
    let page = drive(stage, words, mark).ok()?;
    Some(Stage {
        car: page.car,
        events: events,
        passed: page.passed,
        seconds: stage.seconds + page.seconds,
    })
}

// One turn over the bytes that have come and were not used.
#[tactic(auto, using(kit::specs::Pick::picks), unfolding(wire::specs::Wire::words_count))]
pub fn turn(stage: Stage, bytes: &[u8], mark: u32) -> Turned
    ensures { result ≡ turn_of mark stage bytes.now }
{
    let mut words = [0; WORDS];
    let n = wire::words_of(bytes, &mut words);
    match further(stage, &words[..n], mark) {
        Some(behind) => Turned {
            stage: behind,
            used: 4 * n,
        },
        None => Turned {
            stage: stage,
            used: 0,
        },
    }
}

// Texts go at an index of the slice, and the index past them comes out, as in `listing`, which puts them; a struct of both would be made and taken
// apart for the three.
fn put_passed(out: &mut [u8], at: usize, passed: Option<usize>) -> usize
    requires { at + 27 ≤ length out.old }
    ensures { Put out.old at (passed_text passed) 27 out.new result }
{
    match passed {
        Some(n) => listing::put_number_line(out, at, b"event ", n as u64),
        None => listing::put_text(out, at, b"never\n"),
    }
}

// As `put_refused` of `listing` by `put_number_line`, which is what the two share.
fn put_seconds(out: &mut [u8], at: usize, seconds: usize) -> usize
    requires { at + 29 ≤ length out.old }
    ensures { Put out.old at (seconds_text seconds) 29 out.new result }
{
    listing::put_number_line(out, at, b"seconds ", seconds as u64)
}

// The line of a refusal, if there is one.
#[tactic(auto, using(kit::specs::Pick::picks, crate::proofs::Writing::none_put), unfolding(crate::specs::Marking::refusal_text))]
fn put_refusal(out: &mut [u8], at: usize, end: Result<(), Refusal>) -> usize
    requires { at + 29 ≤ length out.old }
    ensures { Put out.old at (refusal_text (number end)) 29 out.new result }
{
    match end {
        Ok(()) => at,
        Err(refusal) => listing::put_refused(out, at, u32::from(refusal)),
    }
}

// The end of the file, after which so many bytes were not used: its text stands in `out` from index 0 on, and its end is answered. With less than 85
// bytes there nothing is put.
#[tactic(auto, using(kit::specs::Pick::picks, kit::specs::Placed::placed_nothing), unfolding(crate::specs::Pieces::end_in))]
pub fn put_result(stage: Stage, held: usize, out: &mut [u8]) -> usize
    ensures { (result ≡ length (end_in out.old stage held)) × (out.new ≡ placed out.old 0 (end_in out.old stage held)) }
{
    if out.len() < ROOM {
        return 0;
    }
    let seconds = put_passed(out, 0, stage.passed);
    let refusal = put_seconds(out, seconds, stage.seconds);
    put_refusal(out, refusal, cleaning::close(held))
}
