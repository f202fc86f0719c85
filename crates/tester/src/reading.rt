// The input's words one after the other; those past its end are zeros.
ghost use Rattle.std.specs.Prelude.{◌≡◌, ◌+◌, min, length, get_or, drop};
ghost use Rattle.tester.specs.Input.{first_of};
ghost use Rattle.tester.specs.Reading.{Passes, words_for, file_size, file_of};

use crate::input::{fill, past, word};

// The words, and the index of the next one.
#[derive(Drop)]
pub struct Reader<'a> {
    pub words: &'a [u32],
    pub next: usize,
}

// An exercise file of the input has no more bytes, and so many words.
pub const FILE_BYTES: usize = 4112;

const FILE_WORDS: usize = 1028;

impl Reader<'_> {
    pub fn next(&mut self) -> u32
        ensures { (result ≡ get_or self.old.words.now self.old.next 0) × Passes self.old self.new 1 }
    {
        let word = word(self.words, self.next);
        self.next = past(self.words, self.next, 1);
        word
    }

    // The next word, held to a number.
    pub fn size(&mut self, most: usize) -> usize
        ensures { (result ≡ min (get_or self.old.words.now self.old.next 0) most) × Passes self.old self.new 1 }
    {
        most.min(self.next() as usize)
    }

    // The next words, one at each place of a slice.
    pub fn fill(&mut self, into: &mut [u32])
        ensures { (into.new ≡ first_of (length into.old) (drop self.old.next self.old.words.now)) × Passes self.old self.new (length into.old) }
    {
        fill(into, self.words, self.next);
        self.next = past(self.words, self.next, into.len());
    }

    // An exercise file, behind the number of its bytes, which is held to the room: the bytes of the next words.
    pub fn file<'a>(&mut self, bytes: &'a mut [u8; FILE_BYTES]) -> &'a [u8]
        ensures { (result.now ≡ file_of self.old) × Passes self.old self.new (1 + words_for (file_size self.old)) }
    {
        let length = self.size(FILE_BYTES);
        let mut words = [0; FILE_WORDS];
        let part = &mut words[..length.div_ceil(4)];
        self.fill(part);
        wire::bytes_of(part, bytes);
        &bytes[..length]
    }

    // As many words as are asked for.
    pub fn take<const N: usize>(&mut self) -> [u32; N]
        ensures { (result ≡ first_of N (drop self.old.next self.old.words.now)) × Passes self.old self.new N }
    {
        let mut words = [0; N];
        self.fill(&mut words);
        words
    }
}
