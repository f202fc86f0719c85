// The answer word (document 01, "A lesson"): what a word's refusal and the car after it are written as, and read back from.
#![tactic(auto, using(kit::specs::Pick::picks))]

ghost use Rattle.std.specs.Prelude.{◌≡◌, ◌+◌, ◌%◌, ◌^◌};
ghost use Rattle.answer.specs.AnswerWord.{word_of, read_of};

// A word's refusal or 0, and of the car afterwards the warnings, a + 60 and D.
#[derive(Clone, Copy, Debug, PartialEq, Eq)]
pub struct Answer {
    pub refusal: u32, // a number: five bits hold more than the refusals
    pub visual: bool,
    pub acoustic: bool,
    pub acceleration: u32,
    pub desired: u32,
}

// The word; 32 bits of it where a field has more bits than its own.
#[tactic(auto, using(kit::specs::Pick::picks), unfolding(crate::specs::AnswerWord::word_of))]
impl From<Answer> for u32 {
    ghost from_gives = { λ answer word. word ≡ word_of answer % 2 ^ 32 };

    fn from(answer: Answer) -> u32 {
        let visual = event::bit(answer.visual);
        let acoustic = event::bit(answer.acoustic);
        let word = 0xC000_0000
            + answer.refusal as u64
            + 32 * visual as u64
            + 64 * acoustic as u64
            + 128 * answer.acceleration as u64
            + 16384 * answer.desired as u64;
        (word % 0x1_0000_0000) as u32
    }
}

// The word of the same figures with a refusal, from that with none. The refusal is its number, 0 for none, as the lesson's loop has it.
pub fn refusing(word: u32, refusal: u32) -> u32
    ensures { result ≡ (word + refusal) % 2 ^ 32 }
{
    word.wrapping_add(refusal)
}

// The fields that a word's bits say, whatever else it holds.
#[tactic(auto, using(kit::specs::Pick::picks), unfolding(crate::specs::AnswerWord::read_of))]
impl From<u32> for Answer {
    ghost from_gives = { λ word answer. answer ≡ read_of word };

    fn from(word: u32) -> Answer {
        Answer {
            refusal: word % 32,
            visual: word / 32 % 2 == 1,
            acoustic: word / 64 % 2 == 1,
            acceleration: word / 128 % 128,
            desired: word / 16384 % 2048,
        }
    }
}
