// What the programs do alike: all of standard input, and the text of it to standard output; cases by their kinds; a file's bytes in pieces.
ghost use Rattle.std.specs.Prelude.{◌≡◌, true, ◌≤◌, length, get_or, IfOk};

use crate::input::{further, read_words};
use crate::output::Page;
use crate::reading::Reader;

// Lets `lines` put its text of the words into the page, and writes the page's text; says whether all of it went out. `input` and `output` are the
// program and their names. Each main is this call; one that had the arrays too would need this contract a second time, and `copies` and `marks` have
// others. A bool, as `Page::write` gives.
pub fn run<F: FnOnce(&[u32], &mut Page<'_>)>(
    rt: &HostRuntime,
    words: &mut [u32],
    page: &mut Page<'_>,
    input: &[u8],
    output: &[u8],
    lines: F,
) -> bool
    requires { F.IsAlwaysCallable lines }
    ensures { result ≡ true → (read : _) × (lent : _) × (left : _) × F.post lines read lent tt left × (lent.now ≡ page.old) × (left.now ≡ page.new) × (page.new.at ≤ length page.new.out.now) }
{
    let Ok(read) = read_words(rt, words, input) else {
        return false;
    };
    lines(read, page);
    page.write(rt, output)
}

// Runs the cases of the words, each by the kind that stands in front of it, up to a kind 0: as many as there are words at most, since each takes
// one. `case` puts a case's text into the page.
pub fn cases<F: FnMut(u32, &mut Reader<'_>, &mut Page<'_>)>(
    words: &[u32],
    page: &mut Page<'_>,
    mut case: F,
)
    requires { F.IsAlwaysCallable case }
    ensures { get_or words.now 0 0 ≡ 0 → (page.new ≡ page.old) }
{
    let mut input = Reader { words, next: 0 };
    for _ in 0..words.len() {
        let kind = input.next();
        if kind == 0 {
            break;
        }
        case(kind, &mut input, page);
    }
}

// Hands over bytes in pieces of a cut, each with the bytes before it that were not used; `turn` answers how many it used. How many were left over.
// A loop by its ends, and no `chunks`, whose parts have no bytes of the one before. A cut of 0 is one of 1.
pub fn pieces<E, F: FnMut(&[u8]) -> Result<usize, E>>(
    bytes: &[u8],
    cut: usize,
    mut turn: F,
) -> Result<usize, E>
    requires { F.IsAlwaysCallable turn }
    ensures { IfOk result (λ left. left ≤ length bytes.now) }
{
    let mut from = 0;
    let mut to = 0;
    while to < bytes.len() {
        to = further(to, cut.max(1), bytes.len());
        from = further(from, turn(&bytes[from..to])?, to);
    }
    Ok(bytes.len() - from)
}
