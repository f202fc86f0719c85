// Lists the exercise files in data/, each cut into pieces of a size of its own: the expected output is their listings in the same order. All
// are outside ones but roundabout.bin, kickdown.bin, settling.bin, towing.bin, old-gap.bin and lever.bin, whose listings, of the same names, were worked
// out by hand. The longest, clock-end.bin, is the input of `lesson`.
#![tactic(auto)]

ghost use Rattle.std.specs.Prelude.{◌≤◌, length};

use console::Told;
use exercise::Stage;

fn write(rt: &HostRuntime, text: &[u8]) -> Result<(), Told> {
    console::write(
        &mut rt.stdout(),
        &mut rt.stderr(),
        text,
        b"vectors: standard output",
    )
}

// One turn over a piece, its text written: how many bytes were used.
#[tactic(auto, using(exercise::proofs::PiecesLaws::text_within, exercise::proofs::PiecesLaws::end_within))]
fn turn(rt: &HostRuntime, stage: &mut Stage, piece: &[u8], out: &mut [u8]) -> Result<usize, Told> {
    let turned = exercise::turn(*stage, piece, out);
    *stage = turned.stage;
    write(rt, &out[0..turned.end])?;
    Ok(turned.used)
}

// The listing of the bytes of a file.
#[tactic(auto, using(exercise::proofs::PiecesLaws::text_within))]
fn list_pieces(rt: &HostRuntime, bytes: &[u8], cut: usize, out: &mut [u8]) -> Result<(), Told> {
    let mut stage = Stage::Awaited;
    let left = tester::pieces(bytes, cut, |piece| turn(rt, &mut stage, piece, out))?;
    let end = exercise::close(stage, left, out);
    write(rt, &out[0..end])
}

// Lists a file, whose name stands behind the program's.
// A call for each file: from a table a name of fewer than nine bytes would have to be answered, by no listing.
fn list(rt: &HostRuntime, what: &[u8], cut: usize) -> Result<(), Told>
    requires { 9 ≤ length what.now }
{
    let mut file = console::open(rt, &mut rt.stderr(), &what[9..], what)?;
    let mut bytes = [0u8; 65536];
    let mut out = [0u8; 65600];
    let count = console::read_all(&mut file, &mut rt.stderr(), &mut bytes, what)?;
    list_pieces(rt, &bytes[..count], cut, &mut out)
}

fn odd_files(rt: &HostRuntime) -> Result<(), Told> {
    list(rt, b"vectors: example.bin", 1)?;
    list(rt, b"vectors: settings-alone.bin", 3)?;
    list(rt, b"vectors: settings-bit-3.bin", 5)?;
    list(rt, b"vectors: nothing.bin", 1)?;
    list(rt, b"vectors: cut-first.bin", 2)?;
    list(rt, b"vectors: cut-later.bin", 3)?;
    list(rt, b"vectors: bad-settings-0.bin", 1)?;
    list(rt, b"vectors: bad-settings-1.bin", 3)?;
    list(rt, b"vectors: bad-settings-2.bin", 4)?;
    list(rt, b"vectors: bad-settings-3.bin", 5)?;
    list(rt, b"vectors: bad-settings-4.bin", 8)
}

fn words(rt: &HostRuntime) -> Result<(), Told> {
    list(rt, b"vectors: every-kind-every-low-bit.bin", 5)?;
    list(rt, b"vectors: random-words.bin", 7)
}

fn walks(rt: &HostRuntime) -> Result<(), Told> {
    list(rt, b"vectors: walk-1.bin", 1)?;
    list(rt, b"vectors: walk-2.bin", 13)?;
    list(rt, b"vectors: walk-3.bin", 4)?;
    list(rt, b"vectors: walk-4.bin", 1001)?;
    list(rt, b"vectors: walk-5.bin", 4095)?;
    list(rt, b"vectors: walk-6.bin", 4096)
}

// Files of many pieces, of whole ones, and cut behind one.
fn pages(rt: &HostRuntime) -> Result<(), Told> {
    list(rt, b"vectors: pages-cycle.bin", 4093)?;
    list(rt, b"vectors: pages-whole.bin", 4096)?;
    list(rt, b"vectors: pages-cut.bin", 4096)
}

// Back to the old speed after a roundabout: D kept, taken by forward, and cleared. A car too close kicks down and lifts again. Cruise settles: from far
// above, from far below and from one above, where v passes D and comes back. Towing, D ends at 1000 by the levers, by forward, by a hold and by signs.
// A lesson stored while the gap 30 could be chosen runs on. The lever alone takes D from 21.6 to 57.0 km/h, where `moves` goes on.
fn by_hand(rt: &HostRuntime) -> Result<(), Told> {
    list(rt, b"vectors: roundabout.bin", 4)?;
    list(rt, b"vectors: kickdown.bin", 4)?;
    list(rt, b"vectors: settling.bin", 4)?;
    list(rt, b"vectors: towing.bin", 4)?;
    list(rt, b"vectors: old-gap.bin", 5)?;
    list(rt, b"vectors: lever.bin", 4)
}

fn all(rt: &HostRuntime) -> Result<(), Told> {
    odd_files(rt)?;
    words(rt)?;
    walks(rt)?;
    pages(rt)?;
    by_hand(rt)
}

fn main(rt: HostRuntime) {
    let _ = all(&rt);
}
