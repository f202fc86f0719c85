// The car for C (crates/cruise/c/cruise.h): each function is that of its name in `cruise`, under the same contract. Each stands in both, since no
// crate can stand on a static library; slices, kinds and refusals are as C hands them over.
#![tactic(auto)]

ghost use Rattle.std.specs.Prelude.{◌≡◌};
ghost use Rattle.kit.specs.Answer.{number_of};
ghost use Rattle.settings.specs.SettingsWord.{start_of};
ghost use Rattle.record.specs.Record.{read_of};
ghost use Rattle.record.specs.RecordLesson.{LessonLeft, lesson_left};
ghost use Rattle.copy.specs.Copy.{Copied, started_copy, started_buffer};
ghost use Rattle.cruise.specs.Cruise.{Left, fresh_left, drive_left, figures_read, Dials, dials_of, alike_refusal, alike_answer, MarkLeft, mark_left, MovesLeft, moves_left, sighting_of, handed_word, SightingLeft, sighting_left, see_left};

#[unsafe(no_mangle)]
pub extern "C" fn cruise_fresh(settings: u32, record: &mut [u32]) -> u32
    ensures { ◌≡◌ {A = Left} (record { refusal = result; words = «record».new }) (fresh_left «record».old (start_of settings)) }
{
    cruise::cruise_fresh(settings, record)
}

#[unsafe(no_mangle)]
pub extern "C" fn cruise_drive(record: &mut [u32], word: u32) -> u32
    ensures { ◌≡◌ {A = Left} (record { refusal = result; words = «record».new }) (drive_left «record».old (read_of «record».old) word) }
{
    cruise::cruise_drive(record, word)
}

#[unsafe(no_mangle)]
pub extern "C" fn cruise_lesson(
    record: &mut [u32],
    words: &[u32],
    answers: &mut [u32],
    accepted: &mut usize,
    refused: &mut usize,
) -> u32
    ensures { ◌≡◌ {A = LessonLeft} (record { refusal = result; words = «record».new; answers = answers.new; accepted = accepted.new; refused = refused.new }) (lesson_left 0 «record».old (read_of «record».old) words.now answers.old) }
{
    cruise::cruise_lesson(record, words, answers, accepted, refused)
}

#[unsafe(no_mangle)]
pub extern "C" fn cruise_copy(
    settings: u32,
    words: &[u32],
    copy: &mut [u32],
    written: &mut usize,
) -> u32
    ensures { (◌≡◌ {A = Copied} (record { written = written.new; refusal = result }) (started_copy (start_of settings) words.now copy.old)) × (copy.new ≡ started_buffer (start_of settings) words.now copy.old) }
{
    cruise::cruise_copy(settings, words, copy, written)
}

#[unsafe(no_mangle)]
pub extern "C" fn cruise_mark(
    record: &[u32],
    words: &[u32],
    mark: u32,
    event: &mut usize,
    seconds: &mut usize,
) -> u32
    ensures { ◌≡◌ {A = MarkLeft} (record { refusal = result; event = event.new; seconds = seconds.new }) (mark_left mark (read_of «record».now) words.now) }
{
    cruise::cruise_mark(record, words, mark, event, seconds)
}

#[unsafe(no_mangle)]
pub extern "C" fn cruise_moves(
    record: &[u32],
    wanted: u32,
    moves: &mut [u32; 6],
    count: &mut usize,
) -> u32
    ensures { ◌≡◌ {A = MovesLeft} (record { refusal = result; count = count.new; words = moves.new }) (moves_left (read_of «record».now) wanted) }
{
    cruise::cruise_moves(record, wanted, moves, count)
}

#[unsafe(no_mangle)]
pub extern "C" fn cruise_sighting(kind: u32, metres: f32, kmh: f32, word: &mut u32) -> u32
    ensures { ◌≡◌ {A = SightingLeft} (record { refusal = result; word = word.new }) (sighting_left (handed_word (sighting_of kind metres kmh))) }
{
    cruise::cruise_sighting(kind, metres, kmh, word)
}

#[unsafe(no_mangle)]
pub extern "C" fn cruise_see(record: &mut [u32], kind: u32, metres: f32, kmh: f32) -> u32
    ensures { ◌≡◌ {A = Left} (record { refusal = result; words = «record».new }) (see_left «record».old (read_of «record».old) (sighting_of kind metres kmh)) }
{
    cruise::cruise_see(record, kind, metres, kmh)
}

#[unsafe(no_mangle)]
pub extern "C" fn cruise_test(record: &[u32]) -> u32
    ensures { result ≡ number_of (read_of «record».now) }
{
    cruise::cruise_test(record)
}

#[unsafe(no_mangle)]
pub extern "C" fn cruise_figures(
    record: &[u32],
    speed: &mut u32,
    desired: &mut u32,
    acceleration: &mut i32,
    visual: &mut u32,
    acoustic: &mut u32,
    distance: &mut u32,
) -> u32
    ensures { ◌≡◌ {A = Dials} (record { refusal = result; speed = speed.new; desired = desired.new; acceleration = acceleration.new; visual = visual.new; acoustic = acoustic.new; distance = distance.new }) (dials_of (figures_read (read_of «record».now))) }
{
    cruise::cruise_figures(
        record,
        speed,
        desired,
        acceleration,
        visual,
        acoustic,
        distance,
    )
}

#[unsafe(no_mangle)]
pub extern "C" fn cruise_alike(a: &[u32], b: &[u32], alike: &mut u32) -> u32
    ensures { (result ≡ alike_refusal (read_of a.now) (read_of b.now)) × (alike.new ≡ alike_answer (read_of a.now) (read_of b.now)) }
{
    cruise::cruise_alike(a, b, alike)
}
