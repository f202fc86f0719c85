// Text in a lent slice. Each method of a page puts a text behind the page's and moves the index past it; where there is too little room for the
// text nothing is put and the index stays. Numbers go by `listing`'s call: `write!` would put part of a number where there is too little room. Room for a number is 21 bytes. A line is put part by part: those that have room.
ghost use Rattle.std.specs.Prelude.{◌≡◌, true, false, [], ◌∷◌, ◌<◌, length};
ghost use Rattle.tester.specs.Fields.{fields_of};
ghost use Rattle.tester.specs.Output.{page, put_text, put_ended, put_number, put_last, put_end_line, put_numbers, put_words_line};
ghost use Rattle.tester.specs.Puts.{Puts, shown};

use crate::fields::fields_of;
use car::Car;

// A lent slice, and the index past the text in it.
#[derive(Drop)]
pub struct Page<'a> {
    pub out: &'a mut [u8],
    pub at: usize,
}

impl<'a> Page<'a> {
    // One with no text yet.
    pub fn new(out: &'a mut [u8]) -> Page<'a>
        ensures { (result.out.ghost_name ≡ out.entry.ghost_name) × (shown result ≡ page out.old 0) }
    {
        Page { out, at: 0 }
    }
}

impl Page<'_> {
    #[tactic(auto, using(kit::specs::Pick::picks), unfolding(crate::specs::Output::put))]
    pub fn text(&mut self, bytes: &[u8])
        ensures { Puts self.old self.new (λ p. put_text p bytes.now) }
    {
        self.at = listing::put_text(self.out, self.at, bytes);
    }

    pub fn end_line(&mut self)
        ensures { Puts self.old self.new put_end_line }
    {
        self.text(b"\n");
    }

    // A number and the byte that ends it.
    #[tactic(auto, using(kit::specs::Pick::picks), unfolding(crate::specs::Output::put))]
    fn ended(&mut self, n: u64, byte: u8)
        ensures { Puts self.old self.new (λ p. put_ended p n byte) }
    {
        if self.out.len() < 21 {
            return;
        }
        if self.out.len() - 21 < self.at {
            return;
        }
        self.at = listing::put_decimal(self.out, self.at, n);
        self.text(&[byte]);
    }

    // A number and a blank.
    pub fn number(&mut self, n: u32)
        ensures { Puts self.old self.new (λ p. put_number p n) }
    {
        self.ended(n as u64, b' ');
    }

    // A count of words and a blank. Beside `number`, since a usize is no `Into<u64>`.
    pub fn count(&mut self, count: usize)
        ensures { Puts self.old self.new (λ p. put_number p count) }
    {
        self.ended(count as u64, b' ');
    }

    // The last number of a line, and the line's end.
    pub fn last(&mut self, n: u32)
        ensures { Puts self.old self.new (λ p. put_last p n) }
    {
        self.ended(n as u64, b'\n');
    }

    // Each number and a blank.
    pub fn numbers(&mut self, words: &[u32])
        ensures { Puts self.old self.new (λ p. put_numbers p words.now) }
    {
        for word in words {
            self.number(*word);
        }
    }

    // A line of numbers.
    pub fn words_line(&mut self, words: &[u32])
        ensures { Puts self.old self.new (λ p. put_words_line p words.now) }
    {
        self.numbers(words);
        self.end_line();
    }

    // The line of a refusal and a count.
    #[tactic(auto, using(kit::specs::Pick::picks), unfolding(crate::specs::Output::put_numbers))]
    pub fn count_line(&mut self, refusal: u32, n: usize)
        ensures { Puts self.old self.new (λ p. put_words_line p (refusal ∷ n ∷ [])) }
    {
        self.number(refusal);
        self.count(n);
        self.end_line();
    }

    // The line of a lesson: its refusal and two counts. Beside `count_line`: for a slice of counts the loop and the laws of `numbers` would stand
    // twice, since a usize is no u32.
    #[tactic(auto, using(kit::specs::Pick::picks), unfolding(crate::specs::Output::put_numbers))]
    pub fn lesson_line(&mut self, refusal: u32, accepted: usize, refused: usize)
        ensures { Puts self.old self.new (λ p. put_words_line p (refusal ∷ accepted ∷ refused ∷ [])) }
    {
        self.number(refusal);
        self.count(accepted);
        self.count(refused);
        self.end_line();
    }

    // A line of a car's fields.
    pub fn car_line(&mut self, car: Car)
        ensures { Puts self.old self.new (λ p. put_words_line p (fields_of car)) }
    {
        self.words_line(&fields_of(car));
    }

    // Writes the text to standard output, and says whether all of it went out. `what` is the program and the output's name.
    pub fn write(&self, rt: &HostRuntime, what: &[u8]) -> bool
        ensures { (length self.now.out.now < self.now.at → result ≡ false) × (self.now.at ≡ 0 → result ≡ true) }
    {
        write(rt, self.out, self.at, what)
    }
}

// Writes the text before an index to standard output, and says whether all of it went out. `what` is the program and the output's name.
// A bool: a text that ends past `out` is no failure that was told.
pub fn write(rt: &HostRuntime, out: &[u8], end: usize, what: &[u8]) -> bool
    ensures { (length out.now < end → result ≡ false) × (end ≡ 0 → result ≡ true) }
{
    let Some(text) = out.get(..end) else {
        return false;
    };
    console::write(&mut rt.stdout(), &mut rt.stderr(), text, what).is_ok()
}
