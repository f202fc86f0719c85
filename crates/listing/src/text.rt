// A text, a number, and a line of both at an index of a slice; no struct has these two (lib.rt).
ghost use Rattle.std.specs.Prelude.{◌≡◌, ◌+◌, leb, length};
ghost use Rattle.listing.specs.Listing.{decimal_of, number_line, refused_text, put_past, put_after};

use crate::digits::put_number;

// Whether a slice has so many bytes from an index on.
pub(crate) fn has_room(out: &[u8], at: usize, most: usize) -> bool
    ensures { result ≡ leb (at + most) (length out.now) }
{
    at.checked_add(most).is_some_and(|end| end <= out.len())
}

pub fn put_text(out: &mut [u8], at: usize, text: &[u8]) -> usize
    ensures { (result ≡ put_past out.old at (length text.now) text.now) × (out.new ≡ put_after out.old at (length text.now) text.now) }
{
    if !has_room(out, at, text.len()) {
        return at;
    }
    let end = at + text.len();
    out[at..end].copy_from_slice(text);
    end
}

// A number, in decimal digits. Room is 20 bytes.
pub fn put_decimal(out: &mut [u8], at: usize, n: u64) -> usize
    ensures { (result ≡ put_past out.old at 20 (decimal_of n)) × (out.new ≡ put_after out.old at 20 (decimal_of n)) }
{
    if !has_room(out, at, 20) {
        return at;
    }
    put_number(out, at, n)
}

// A name, a number and the end of the line. Room is 21 bytes more than the name has.
pub fn put_number_line(out: &mut [u8], at: usize, name: &[u8], n: u64) -> usize
    ensures { (result ≡ put_past out.old at (length name.now + 21) (number_line name.now n)) × (out.new ≡ put_after out.old at (length name.now + 21) (number_line name.now n)) }
{
    if !has_room(out, at, name.len() + 21) {
        return at;
    }
    let number = put_text(out, at, name);
    let end = put_decimal(out, number, n);
    put_text(out, end, b"\n")
}

// "refused", a refusal's number and the end of the line. Room is 29 bytes. Any number is taken: a `Refusal` would ask more of callers.
#[tactic(auto, using(kit::specs::Pick::picks), unfolding(crate::specs::Listing::ascii, crate::specs::Listing::refused_text))]
pub fn put_refused(out: &mut [u8], at: usize, refusal: u32) -> usize
    ensures { (result ≡ put_past out.old at 29 (refused_text refusal)) × (out.new ≡ put_after out.old at 29 (refused_text refusal)) }
{
    put_number_line(out, at, b"refused ", refusal as u64)
}
