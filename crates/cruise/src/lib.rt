// The car for programs in other languages (c/cruise.h). A car crosses as the twelve words of its record; every function gives the
// refusal's number, or 0. Parameters are named as there; in a contract `record` is `«record»`, for antt has a word `record` of its own.
// What C can hand over is slices beside each other, kinds and refusals by number, and a place for each figure, with 0 for none.
#![tactic(auto, using(kit::specs::Pick::picks))]

ghost use Rattle.std.specs.Prelude.{◌≡◌, ◌≤◌, false};
ghost use Rattle.std.specs.Result.{result_unwrap_or};
ghost use Rattle.event.specs.Words.{bit_of};
ghost use Rattle.motion.specs.Acceleration.{signed};
ghost use Rattle.kit.specs.Answer.{number_of};
ghost use Rattle.event.specs.Refusal.{answer, number};
ghost use Rattle.settings.specs.SettingsWord.{start_of};
ghost use Rattle.car.specs.Figures.{figures_answer};
ghost use Rattle.record.specs.Record.{read_of};
ghost use Rattle.record.specs.RecordLesson.{LessonLeft, lesson_left};
ghost use Rattle.lever.specs.Fewest.{moves_answer};
ghost use Rattle.copy.specs.Copy.{Copied, copy_answer, started_copy, started_buffer};
ghost use Rattle.cruise.specs.Cruise.{Left, fresh_left, drive_left, figures_read, Dials, dials_of, alike_refusal, alike_answer, MarkLeft, mark_found, mark_left, MovesLeft, moves_left, sighting_of, handed_word, SightingLeft, sighting_left, see_left};

use answer::Answer;
use car::figures::Figures;
use event::{Refusal, refusal};
use lever::Moves;
use motion::Acceleration;
use passing::Marked;
use sighting::Sighting;

#[tactic(auto, using(kit::specs::Pick::picks), unfolding(crate::specs::Cruise::fresh_left))]
pub fn cruise_fresh(settings: u32, record: &mut [u32]) -> u32
    ensures { ◌≡◌ {A = Left} (record { refusal = result; words = «record».new }) (fresh_left «record».old (start_of settings)) }
{
    match settings::start(settings) {
        Ok(car) => refusal::number(&record::write_into(car, record)),
        Err(refusal) => u32::from(refusal),
    }
}

pub fn cruise_lesson(
    record: &mut [u32],
    words: &[u32],
    answers: &mut [u32],
    accepted: &mut usize,
    refused: &mut usize,
) -> u32
    ensures { ◌≡◌ {A = LessonLeft} (record { refusal = result; words = «record».new; answers = answers.new; accepted = accepted.new; refused = refused.new }) (lesson_left 0 «record».old (read_of «record».old) words.now answers.old) }
{
    let lesson = record::lesson(record, words, answers, 0);
    let counts = lesson.unwrap_or_default();
    *accepted = counts.accepted;
    *refused = counts.refused;
    refusal::number(&lesson)
}

// A lesson of one word, which is written where the word was accepted. Its answer word holds the word's refusal.
#[tactic(auto, using(kit::specs::Pick::picks, crate::proofs::CruiseLaws::drive_refused, crate::proofs::CruiseLaws::drive_answered))]
pub fn cruise_drive(record: &mut [u32], word: u32) -> u32
    ensures { ◌≡◌ {A = Left} (record { refusal = result; words = «record».new }) (drive_left «record».old (read_of «record».old) word) }
{
    let mut answers = [0; 1];
    match record::lesson(record, &[word], &mut answers, 1) {
        Ok(_) => Answer::from(answers[0]).refusal,
        Err(refusal) => u32::from(refusal),
    }
}

pub fn cruise_test(record: &[u32]) -> u32
    ensures { result ≡ number_of (read_of «record».now) }
{
    refusal::number(&record::read_from(record))
}

#[tactic(auto, using(kit::specs::Pick::picks), unfolding(crate::specs::Cruise::figures_read))]
fn figures(record: &[u32]) -> Result<Figures, Refusal>
    ensures { figures_answer result ≡ figures_read (read_of «record».now) }
{
    record::read_from(record)?.figures()
}

// Not by `From`, which could not ask that the size fits.
#[tactic(auto, using(kit::specs::Pick::picks, crate::proofs::SignedNumber::slows_signed, crate::proofs::SignedNumber::speeds_signed))]
fn signed(a: Acceleration) -> i32
    requires { a.size ≤ 60 }
    ensures { result ≡ signed a }
{
    let size = a.size as i32;
    if a.slows {
        return 0 - size;
    }
    size
}

#[tactic(auto, using(kit::specs::Pick::picks, crate::proofs::CruiseLaws::dial_small), unfolding(crate::specs::Cruise::dials_of))]
pub fn cruise_figures(
    record: &[u32],
    speed: &mut u32,
    desired: &mut u32,
    acceleration: &mut i32,
    visual: &mut u32,
    acoustic: &mut u32,
    distance: &mut u32,
) -> u32
    ensures { ◌≡◌ {A = Dials} (record { refusal = result; speed = speed.new; desired = desired.new; acceleration = acceleration.new; visual = visual.new; acoustic = acoustic.new; distance = distance.new }) (dials_of (figures_read (read_of «record».now))) }
{
    let figures = figures(record);
    let dials = figures.unwrap_or_default();
    *speed = dials.speed;
    *desired = dials.desired;
    *acceleration = signed(dials.acceleration);
    *visual = event::bit(dials.visual);
    *acoustic = event::bit(dials.acoustic);
    *distance = dials.distance;
    refusal::number(&figures)
}

// Whether the cars of two records are alike, or the refusal of the first record that has none.
fn compare(a: &[u32], b: &[u32]) -> Result<bool, Refusal>
    ensures { (number result ≡ alike_refusal (read_of a.now) (read_of b.now)) × (bit_of (result_unwrap_or result false) ≡ alike_answer (read_of a.now) (read_of b.now)) }
{
    let first = record::read_from(a)?;
    let second = record::read_from(b)?;
    Ok(alike::alike(first, second))
}

pub fn cruise_alike(a: &[u32], b: &[u32], alike: &mut u32) -> u32
    ensures { (result ≡ alike_refusal (read_of a.now) (read_of b.now)) × (alike.new ≡ alike_answer (read_of a.now) (read_of b.now)) }
{
    let compared = compare(a, b);
    *alike = event::bit(compared.unwrap_or(false));
    refusal::number(&compared)
}

fn copied(settings: u32, words: &[u32], copy: &mut [u32]) -> Result<usize, Refusal>
    ensures { (copy_answer result ≡ started_copy (start_of settings) words.now copy.old) × (copy.new ≡ started_buffer (start_of settings) words.now copy.old) }
{
    let car = settings::start(settings)?;
    let part = copy::from_car(car, words, copy)?;
    Ok(part.written)
}

pub fn cruise_copy(settings: u32, words: &[u32], copy: &mut [u32], written: &mut usize) -> u32
    ensures { (◌≡◌ {A = Copied} (record { written = written.new; refusal = result }) (started_copy (start_of settings) words.now copy.old)) × (copy.new ≡ started_buffer (start_of settings) words.now copy.old) }
{
    let copied = copied(settings, words, copy);
    *written = copied.unwrap_or(0);
    refusal::number(&copied)
}

// What was found, with the record's car.
fn marked(record: &[u32], words: &[u32], mark: u32) -> Result<Marked, Refusal>
    ensures { mark_found result ≡ mark_left mark (read_of «record».now) words.now }
{
    passing::of_lesson(record::read_from(record)?, words, mark)
}

pub fn cruise_mark(
    record: &[u32],
    words: &[u32],
    mark: u32,
    event: &mut usize,
    seconds: &mut usize,
) -> u32
    ensures { ◌≡◌ {A = MarkLeft} (record { refusal = result; event = event.new; seconds = seconds.new }) (mark_left mark (read_of «record».now) words.now) }
{
    match marked(record, words, mark) {
        Ok(marked) => {
            *event = marked.passed.unwrap_or(0);
            *seconds = marked.seconds;
            0
        }
        Err(refusal) => {
            *event = 0;
            *seconds = 0;
            u32::from(refusal)
        }
    }
}

// The list, from the record's car.
fn fewest(record: &[u32], wanted: u32) -> Result<Moves, Refusal>
    ensures { moves_answer result ≡ moves_left (read_of «record».now) wanted }
{
    lever::fewest(record::read_from(record)?, wanted)
}

#[tactic(auto, using(kit::specs::Pick::picks), unfolding(lever::specs::Fewest::turned_away))]
pub fn cruise_moves(record: &[u32], wanted: u32, moves: &mut [u32; 6], count: &mut usize) -> u32
    ensures { ◌≡◌ {A = MovesLeft} (record { refusal = result; count = count.new; words = moves.new }) (moves_left (read_of «record».now) wanted) }
{
    match fewest(record, wanted) {
        Ok(list) => {
            let words = list.words;
            *moves = words;
            *count = list.count;
            0
        }
        Err(refusal) => {
            *moves = [0; 6];
            *count = 0;
            u32::from(refusal)
        }
    }
}

// A sighting by its kind's number and two figures, as C hands them over: this is where the three become one value.
#[tactic(auto, using(kit::specs::Pick::picks), unfolding(crate::specs::Cruise::sighting_of, kit::specs::Pick::pick))]
fn sighting(kind: u32, metres: f32, kmh: f32) -> Result<Sighting, Refusal>
    ensures { answer result ≡ sighting_of kind metres kmh }
{
    match kind {
        0 => Ok(Sighting::Vehicle(metres, kmh)),
        1 => Ok(Sighting::Free),
        2 => Ok(Sighting::Fault),
        _ => Err(Refusal::NoSuchKind),
    }
}

// The word of its event.
#[tactic(auto, using(kit::specs::Pick::picks), unfolding(crate::specs::Cruise::handed_word))]
fn handed(kind: u32, metres: f32, kmh: f32) -> Result<Option<u32>, Refusal>
    ensures { answer result ≡ handed_word (sighting_of kind metres kmh) }
{
    sighting::radar_word(sighting(kind, metres, kmh)?)
}

#[tactic(auto, using(kit::specs::Pick::picks), unfolding(crate::specs::Cruise::sighting_left))]
pub fn cruise_sighting(kind: u32, metres: f32, kmh: f32, word: &mut u32) -> u32
    ensures { ◌≡◌ {A = SightingLeft} (record { refusal = result; word = word.new }) (sighting_left (handed_word (sighting_of kind metres kmh))) }
{
    let handed = handed(kind, metres, kmh);
    *word = match handed {
        Ok(Some(radar)) => radar,
        _ => 0,
    };
    refusal::number(&handed)
}

#[tactic(auto, using(kit::specs::Pick::picks, crate::proofs::CruiseLaws::see_driven, crate::proofs::CruiseLaws::see_fault, crate::proofs::CruiseLaws::see_refusal))]
pub fn cruise_see(record: &mut [u32], kind: u32, metres: f32, kmh: f32) -> u32
    ensures { ◌≡◌ {A = Left} (record { refusal = result; words = «record».new }) (see_left «record».old (read_of «record».old) (sighting_of kind metres kmh)) }
{
    match handed(kind, metres, kmh) {
        Ok(Some(word)) => cruise_drive(record, word),
        Ok(None) => cruise_test(record),
        Err(refusal) => u32::from(record::read_from(record).err().unwrap_or(refusal)),
    }
}
