// The fewest moves of the up-down lever that reach a wanted desired speed (document 02, §13): a list of 0 words is looked for, then one of 1, and so on to
// six, and among those of one length the one whose words come first.
#![tactic(auto, using(kit::specs::Pick::picks))]

ghost use Rattle.std.specs.Prelude.{◌≡◌, length};
ghost use Rattle.std.specs.Option.{is_some, unwrap_or, option_map};
ghost use Rattle.lever.specs.Fewest.{ready_to_move, moves_answer};
ghost use Rattle.lever.specs.FewestShape.{moved_to, seek_of, shortest_of, held, fewest_of};

use car::Car;
use event::Refusal;

// No list has more words.
const MOST: usize = 6;

// The list's words, 0 past its end, and how many they are.
#[derive(Clone, Copy, Debug, Default, PartialEq, Eq)]
pub struct Moves {
    pub words: [u32; MOST],
    pub count: usize,
}

// What is looked for: a D, and the ceiling that a move is held to.
#[derive(Clone, Copy)]
struct Goal {
    ceiling: u32,
    wanted: u32,
}

// The word that moves the lever to the first of its positions, neutral; those of the others follow it.
const NEUTRAL: u32 = 0x2000_0000;

const POSITIONS: u32 = 5;

// D after a move to the position with cruise on.
#[tactic(auto, using(kit::specs::Pick::picks), unfolding(crate::specs::FewestShape::moved_to))]
fn moved(goal: Goal, position: u32, desired: u32) -> u32
    ensures { result ≡ moved_to goal.ceiling position desired }
{
    if position == 0 {
        return desired;
    }
    desired::stepped(goal.ceiling, position, desired)
}

// The first list of as many words as are lent, from where the lever stands and its D to neutral and the wanted D: whether there is one, which then
// stands in the words.
fn seek(goal: Goal, position: u32, desired: u32, words: &mut [u32]) -> bool
    ensures { (result ≡ is_some (seek_of goal (length words.old) position desired)) × (words.new ≡ unwrap_or (seek_of goal (length words.old) position desired) words.old) }
{
    let Some((first, rest)) = words.split_first_mut() else {
        return (position == 0) & (desired == goal.wanted);
    };
    for next in 0..POSITIONS {
        if checks::up_down_check(position, 0, next).is_ok()
            && seek(goal, next, moved(goal, next, desired), rest)
        {
            *first = NEUTRAL + next;
            return true;
        }
    }
    false
}

// The shortest list from neutral and a D, the first of its length.
fn shortest(goal: Goal, desired: u32) -> Option<Moves>
    ensures { result ≡ option_map held (shortest_of goal desired 7 0) }
{
    for count in 0..MOST + 1 {
        let mut words = [0; MOST];
        if seek(goal, 0, desired, &mut words[..count]) {
            return Some(Moves {
                words: words,
                count: count,
            });
        }
    }
    None
}

#[tactic(auto, using(kit::specs::Pick::picks), unfolding(crate::specs::Fewest::ready_to_move))]
fn ready(car: Car) -> bool
    ensures { result ≡ ready_to_move car }
{
    car.cruise.on & (car.levers.updown == 0) & (car.levers.foreback == 0)
}

// 18 for a car that is not good, 25 with cruise off or a lever out of neutral, 26 where no list of at most six words does it.
#[tactic(auto, using(kit::specs::Pick::picks, crate::proofs::Seeking::answered), unfolding(crate::specs::FewestShape::fewest_of))]
pub fn fewest(car: Car, wanted: u32) -> Result<Moves, Refusal>
    ensures { moves_answer result ≡ fewest_of car wanted }
{
    if !car.good() {
        return Err(Refusal::NotAccepted);
    }
    if !ready(car) {
        return Err(Refusal::NotReadyToMove);
    }
    let goal = Goal {
        ceiling: car::ceiling(car.settings),
        wanted: wanted,
    };
    shortest(goal, car.cruise.desired).ok_or(Refusal::OutOfReach)
}
