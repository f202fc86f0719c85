// Event words (document 01, "Event words"): a word is read into an event, and an event is written as its word.
#![tactic(auto, using(kit::specs::Pick::picks))]

ghost use Rattle.std.specs.Prelude.{◌≡◌, true, not, eqb, ◌≤◌};
ghost use Rattle.kit.specs.Answer.{gives, refused};
ghost use Rattle.kit.specs.Pick.{pick};
ghost use Rattle.event.specs.Refusal.{refusal_number, answer, number};
ghost use Rattle.event.specs.Words.{kind_of, input_kind, body_of, permitted_gap, input_range, range_refusal, unnamed_of, judged, key_word, radar_word, inputs_of, input_of, ready_of, tick_word, read_of, bit_of, input_word, input_writing, write_of};

use number::bound;

pub mod refusal;

pub use refusal::Refusal;

// What the pupil, the signs and the radar do: nine of the ten kinds of event, with the values that a word of the kind holds.
// A value is any u32: what lies outside its range is refused where the event is written.
#[derive(Clone, Copy)]
pub enum Input {
    Key { position: u32, ready: bool },
    UpDown(u32),
    ForeBack(u32),
    Brake(u32),
    Gas(u32),
    Button(u32),
    Gap(u32),
    Sign(u32),
    Radar { range: u32, speed: u32 },
}

// One of the nine, or a second of the clock.
#[derive(Clone, Copy)]
pub enum Event {
    Input(Input),
    Tick { ready: bool },
}

// A word's kind stands in its top four bits, above the 28 bits of its body.
const KIND: u32 = 0x1000_0000;

// The kind of a tick. Most words of a lesson are ticks, so that they are told before the other kinds.
const TICK: u32 = 10;

// A tick's bodies with no unnamed bit set are those below this.
const TICK_BODIES: u32 = 2;

#[tactic(auto, using(kit::specs::Pick::picks), unfolding(crate::specs::Words::read_of, crate::specs::Words::input_event))]
impl TryFrom<u32> for Event {
    type Error = Refusal;

    ghost try_from_gives = { λ word r. answer r ≡ read_of word };

    fn try_from(word: u32) -> Result<Event, Refusal> {
        if is_tick(word) {
            return read_tick(word);
        }
        Ok(Event::Input(read_input_alone(word)?))
    }
}

pub fn is_tick(word: u32) -> bool
    ensures { result ≡ eqb (kind_of word) 10 }
{
    word / KIND == TICK
}

// Check 2 of a tick's word.
pub fn check_tick(word: u32) -> Result<(), Refusal>
    ensures { number result ≡ unnamed_of 2 (body_of word) }
{
    unnamed(TICK_BODIES, word % KIND)
}

pub fn tick_ready(word: u32) -> bool
    ensures { result ≡ ready_of (body_of word) }
{
    word % KIND == 1
}

#[tactic(auto, using(kit::specs::Pick::picks), unfolding(crate::specs::Words::tick_word, crate::specs::Words::unnamed_of))]
fn read_tick(word: u32) -> Result<Event, Refusal>
    ensures { answer result ≡ tick_word (body_of word) }
{
    check_tick(word)?;
    Ok(Event::Tick {
        ready: tick_ready(word),
    })
}

// The input of a word, or its refusal, for a word that is no tick. No `TryFrom`: of a tick's word it says that there is no such kind.
#[tactic(auto, using(kit::specs::Pick::picks), unfolding(crate::specs::Words::input_of))]
pub fn read_input(word: u32) -> Result<Input, Refusal>
    ensures { answer result ≡ input_of word }
{
    read_kind::<true>(word / KIND, word % KIND)
}

// The same for a word that comes alone, and not in a lesson.
#[tactic(auto, using(kit::specs::Pick::picks), unfolding(crate::specs::Words::input_of))]
pub fn read_input_alone(word: u32) -> Result<Input, Refusal>
    ensures { answer result ≡ input_of word }
{
    read_kind::<false>(word / KIND, word % KIND)
}

// The kinds beside the tick: here the numbers of a word become the enum. `LESSON` says whether a lesson's loop asks, or whoever has one word: each has an
// instance of its own, since a large function with two callers stays a call, which the loop would pay for at every word.
#[tactic(auto, using(kit::specs::Pick::picks), unfolding(crate::specs::Words::inputs_of, crate::specs::Words::key_on_of))]
fn read_kind<const LESSON: bool>(kind: u32, body: u32) -> Result<Input, Refusal>
    ensures { answer result ≡ inputs_of kind body }
{
    match kind {
        1 => key_word(body),
        2 => judge(8, body, Input::UpDown(body)),
        3 => judge(4, body, Input::ForeBack(body)),
        4 => judge(256, body, Input::Brake(body)),
        5 => judge(256, body, Input::Gas(body)),
        6 => judge(8192, body, Input::Button(body)),
        7 => judge(32, body, Input::Gap(body)),
        8 => judge(2048, body, Input::Sign(body)),
        9 => radar_word(body),
        _ => Err(Refusal::NoSuchKind),
    }
}

// The kind number of an input: check 4 names its kinds by a range of numbers.
#[tactic(auto, using(kit::specs::Pick::picks), unfolding(crate::specs::Words::input_kind))]
pub fn kind(input: Input) -> u32
    ensures { result ≡ input_kind input }
{
    match input {
        Input::Key {
            position: _,
            ready: _,
        } => 1,
        Input::UpDown(_) => 2,
        Input::ForeBack(_) => 3,
        Input::Brake(_) => 4,
        Input::Gas(_) => 5,
        Input::Button(_) => 6,
        Input::Gap(_) => 7,
        Input::Sign(_) => 8,
        Input::Radar { range: _, speed: _ } => 9,
    }
}

#[tactic(auto, using(kit::specs::Pick::picks), unfolding(crate::specs::Words::key_word))]
fn key_word(body: u32) -> Result<Input, Refusal>
    ensures { answer result ≡ key_word body }
{
    let input = Input::Key {
        position: body % 4,
        ready: body / 4 == 1,
    };
    judge(8, body, input)
}

#[tactic(auto, using(kit::specs::Pick::picks), unfolding(crate::specs::Words::radar_word))]
fn radar_word(body: u32) -> Result<Input, Refusal>
    ensures { answer result ≡ radar_word body }
{
    let input = Input::Radar {
        range: body % 256,
        speed: body / 256,
    };
    judge(2097152, body, input)
}

// Check 2: a body with a bit at or above the named ones.
#[tactic(auto, using(kit::specs::Pick::picks), unfolding(crate::specs::Words::unnamed_of))]
fn unnamed(named: u32, body: u32) -> Result<(), Refusal>
    ensures { number result ≡ unnamed_of named body }
{
    if body >= named {
        return Err(Refusal::UnnamedBit);
    }
    Ok(())
}

// Checks 2, 3 and 24: an unnamed bit, and a value outside its range.
#[tactic(auto, using(kit::specs::Pick::picks), unfolding(crate::specs::Words::judged, crate::specs::Words::unnamed_of))]
fn judge(named: u32, body: u32, input: Input) -> Result<Input, Refusal>
    ensures { answer result ≡ judged named body input }
{
    unnamed(named, body)?;
    ranged(input)
}

// Checks 3 and 24: a value outside its range.
fn ranged(input: Input) -> Result<Input, Refusal>
    ensures { answer result ≡ pick (not (input_range input)) (refused (range_refusal input)) (gives input) }
{
    if !input_in_range(input) {
        return Err(range_refusal(input));
    }
    Ok(input)
}

// Of a value outside its range: the gap that was once the longest has a number of its own.
#[tactic(auto, using(kit::specs::Pick::picks), unfolding(crate::specs::Words::range_refusal))]
fn range_refusal(input: Input) -> Refusal
    ensures { refusal_number result ≡ range_refusal input }
{
    match input {
        Input::Gap(30) => Refusal::GapWithdrawn,
        _ => Refusal::OutOfRange,
    }
}

#[tactic(auto, using(kit::specs::Pick::picks), unfolding(crate::specs::Words::input_range))]
fn input_in_range(input: Input) -> bool
    ensures { result ≡ input_range input }
{
    match input {
        Input::Key { position, ready: _ } => position <= 2,
        Input::UpDown(x) => x <= 4,
        Input::ForeBack(x) => x <= 2,
        Input::Brake(x) => x <= bound::PEDAL,
        Input::Gas(x) => x <= bound::PEDAL,
        Input::Button(limit) => limit <= bound::SPEED,
        Input::Gap(tenths) => permitted_gap(tenths),
        Input::Sign(s) => s <= 2000,
        Input::Radar { range, speed } => (range <= 254) & (speed <= bound::SPEED),
    }
}

// The gaps that may be chosen, in tenths of a second.
#[tactic(auto, using(kit::specs::Pick::picks), unfolding(crate::specs::Words::permitted_gap))]
pub fn permitted_gap(tenths: u32) -> bool
    ensures { result ≡ permitted_gap tenths }
{
    (tenths == 20) | (tenths == 25)
}

#[tactic(auto, using(kit::specs::Pick::picks), unfolding(crate::specs::Words::write_of, crate::specs::Words::in_range, crate::specs::Words::word_of, kit::specs::Pick::pick))]
impl TryFrom<Event> for u32 {
    type Error = Refusal;

    ghost try_from_gives = { λ event r. answer r ≡ write_of event };

    fn try_from(event: Event) -> Result<u32, Refusal> {
        match event {
            Event::Input(input) => write_input(input),
            Event::Tick { ready } => Ok(TICK * KIND + bit(ready)),
        }
    }
}

fn write_input(input: Input) -> Result<u32, Refusal>
    ensures { answer result ≡ input_writing input }
{
    ranged(input)?;
    Ok(input_word(input))
}

#[tactic(auto, using(kit::specs::Pick::picks), unfolding(crate::specs::Words::input_word, crate::specs::Words::input_range, crate::specs::Words::permitted_gap))]
fn input_word(input: Input) -> u32
    requires { input_range input ≡ true }
    ensures { result ≡ input_word input }
{
    match input {
        Input::Key { position, ready } => KIND + position + 4 * bit(ready),
        Input::UpDown(x) => 2 * KIND + x,
        Input::ForeBack(x) => 3 * KIND + x,
        Input::Brake(x) => 4 * KIND + x,
        Input::Gas(x) => 5 * KIND + x,
        Input::Button(limit) => 6 * KIND + limit,
        Input::Gap(tenths) => 7 * KIND + tenths,
        Input::Sign(s) => 8 * KIND + s,
        Input::Radar { range, speed } => 9 * KIND + range + 256 * speed,
    }
}

// A flag as a bit: `u32::from`, with what the writers of words ask of it.
#[tactic(auto, using(kit::specs::Pick::picks), unfolding(crate::specs::Words::bit_of))]
pub fn bit(flag: bool) -> u32
    ensures { (result ≡ bit_of flag) × (result ≤ 1) }
{
    u32::from(flag)
}
