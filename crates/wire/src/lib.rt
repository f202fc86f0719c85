// Little-endian words of 32 bits in a slice of bytes.
#![tactic(auto, using(kit::specs::Pick::picks))]

ghost use Rattle.std.specs.Prelude.{◌≡◌};
ghost use Rattle.wire.specs.Wire.{word_at, words_count, words_after, bytes_count, bytes_after};

// The word whose first byte stands at an index, or 0 where it does not lie within the slice. No `Option`: 0 is a word of no kind, which whoever
// reads one refuses in any case.
#[tactic(auto, using(kit::specs::Pick::picks), unfolding(crate::specs::Wire::word_at))]
pub fn word_at(bytes: &[u8], at: usize) -> u32
    ensures { result ≡ word_at bytes.now at }
{
    let Some(rest) = bytes.get(at..) else {
        return 0;
    };
    let Some(four) = rest.first_chunk::<4>() else {
        return 0;
    };
    u32::from_le_bytes(*four)
}

// As many whole words from the start as there are and as fit, and their number. The rest of `words` is kept: with no heap the
// words go into the caller's room, and so do the bytes of `bytes_of`.
pub fn words_of(bytes: &[u8], words: &mut [u32]) -> usize
    ensures { (result ≡ words_count bytes.now words.old) × (words.new ≡ words_after bytes.now words.old) }
{
    let (fours, _) = bytes.as_chunks::<4>();
    let count = fours.len().min(words.len());
    // By index: of a slice that a zip over its `iter_mut` filled, a proof knows the length alone.
    for (i, four) in fours[..count].iter().enumerate() {
        words[i] = u32::from_le_bytes(*four);
    }
    count
}

// The bytes of as many words from the start as there are and as fit, and the number of those bytes. The rest of `bytes` is kept.
pub fn bytes_of(words: &[u32], bytes: &mut [u8]) -> usize
    ensures { (result ≡ bytes_count words.now bytes.old) × (bytes.new ≡ bytes_after words.now bytes.old) }
{
    let count = words.len().min(bytes.len() / 4);
    // By index: of a slice that `chunks_exact_mut` lent out, a proof knows the length alone.
    for (i, word) in words[..count].iter().enumerate() {
        bytes[4 * i..4 * i + 4].copy_from_slice(&word.to_le_bytes());
    }
    4 * count
}
