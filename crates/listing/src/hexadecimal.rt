// A word in hexadecimal at an index of a slice; no struct has these two (lib.rt).
ghost use Rattle.std.specs.Prelude.{◌≡◌, ◌<◌};
ghost use Rattle.listing.specs.Listing.{hex_digit, word_line, put_past, put_after};

use crate::text::put_text;

// A digit below 16, a capital letter from ten on.
#[tactic(auto, using(kit::specs::Pick::picks), unfolding(crate::specs::Listing::hex_digit))]
fn hex_digit(n: u32) -> u8
    requires { n < 16 }
    ensures { result ≡ hex_digit n }
{
    if n < 10 {
        return (48 + n) as u8;
    }
    (55 + n) as u8
}

// A word's eight digits and the end of the line. Room is 9 bytes.
#[tactic(auto, using(kit::specs::Pick::picks), unfolding(crate::specs::Listing::word_line))]
pub fn put_word_line(out: &mut [u8], at: usize, word: u32) -> usize
    ensures { (result ≡ put_past out.old at 9 (word_line word)) × (out.new ≡ put_after out.old at 9 (word_line word)) }
{
    let digits = [
        hex_digit(word / 0x1000_0000),
        hex_digit(word / 0x100_0000 % 16),
        hex_digit(word / 0x10_0000 % 16),
        hex_digit(word / 0x1_0000 % 16),
        hex_digit(word / 0x1000 % 16),
        hex_digit(word / 0x100 % 16),
        hex_digit(word / 0x10 % 16),
        hex_digit(word % 16),
        b'\n',
    ];
    put_text(out, at, &digits)
}
