// A program that works off an input piece by piece: what it was asked is answered, the input is read and the text goes out, and a failure is told.
// No contract can say what comes in.
#![tactic(auto)]

ghost use Rattle.std.specs.Prelude.{◌≡◌, ◌≤◌, length, IfOk, IsOk, IsErr};
ghost use Rattle.kit.specs.Placed.{placed};
ghost use Rattle.listing.specs.Listing.{refused_text};

use car::Car;
use command::Request;
use console::{Source, Told};
use event::Refusal;

// What a program says of itself: the name of its output, its usage and its help.
#[derive(Clone, Copy)]
pub struct Texts<'a> {
    pub output: &'a [u8],
    pub usage: &'a str,
    pub help: &'a [u8],
}

impl Texts<'_> {
    fn say_usage(&self, rt: &HostRuntime) {
        let usage = self.usage;
        let _ = eprintln!(rt; "{usage}");
    }

    fn say_help(&self, rt: &HostRuntime) -> Result<(), Told> {
        console::write(&mut rt.stdout(), &mut rt.stderr(), self.help, self.output)
    }
}

// An input and standard output, each with its name, as a failure is told.
#[derive(Drop)]
pub struct Pipe<'a> {
    pub rt: &'a HostRuntime,
    source: Source,
    input: &'a [u8],
    output: &'a [u8],
}

// What a turn did: how many of its bytes it used, and where its text ends, since there is no heap for a String. Without the stage or the car that
// `exercise`'s and `cleaning`'s have beside these two: that a program's work keeps itself.
#[derive(Clone, Copy)]
pub struct Turned {
    pub used: usize,
    pub end: usize,
}

// What a program makes of its input. The programs' turns are alike but for what each keeps and calls, and this trait is what they share.
pub trait Work {
    // One turn over the bytes that have come and were not used: its text stands in `out` from index 0 on.
    fn turn(&mut self, bytes: &[u8], out: &mut [u8]) -> Turned
        ensures used { result.used ≤ length bytes.now }
        ensures end { result.end ≤ length out.new };

    // No byte that may still come is asked for.
    fn has_ended(&self) -> bool {
        false
    }
}

// The most bytes that are held at once, those kept and those that came behind them.
const PIECE: usize = 4096;

// `read` and `read_all` are two, as `console`'s are: the one gives what has come, the other waits for the end.
impl Pipe<'_> {
    // Reads what has come, at least a byte where the input has not ended.
    fn read(&mut self, bytes: &mut [u8]) -> Result<usize, Told>
        ensures { IfOk result (λ n. n ≤ length bytes.new) }
    {
        console::read(&mut self.source, &mut self.rt.stderr(), bytes, self.input)
    }

    // Reads until the input ends or there is no more room. A count comes back, as from `console`'s reads and std's.
    pub fn read_all(&mut self, bytes: &mut [u8]) -> Result<usize, Told>
        ensures { IfOk result (λ n. n ≤ length bytes.new) }
    {
        console::read_all(&mut self.source, &mut self.rt.stderr(), bytes, self.input)
    }

    // The car of the settings word that the input begins with, or its refusal.
    pub fn read_settings(&mut self) -> Result<Result<Car, Refusal>, Told> {
        let mut first = [0; 4];
        let count = self.read_all(&mut first)?;
        Ok(cleaning::open(&first[..count]))
    }

    // Writes a text. For none nothing is done.
    pub fn write(&self, text: &[u8]) -> Result<(), Told>
        ensures { length text.now ≡ 0 → IsOk result }
    {
        let rt = self.rt;
        console::write(&mut rt.stdout(), &mut rt.stderr(), text, self.output)
    }

    // Works off the bytes that have come, and keeps what is left of them.
    fn advance<W: Work>(
        &self,
        work: &mut W,
        bytes: &mut [u8],
        out: &mut [u8],
    ) -> Result<usize, Told>
        ensures { IfOk result (λ n. n ≤ length bytes.new) }
    {
        let turned = work.turn(bytes, out);
        self.write(&out[0..turned.end])?;
        Ok(exercise::keep(bytes, turned.used))
    }

    // Piece after piece, as much as has come, until the input or the work has ended: how many bytes were not used. The text of a piece is out before
    // the next is awaited.
    pub fn work_off<W: Work>(&mut self, work: &mut W, out: &mut [u8]) -> Result<usize, Told>
        ensures { IfOk result (λ held. held ≤ 4096) }
    {
        // So many of the bytes are held: there is no heap for a Vec of them.
        let mut bytes = [0u8; PIECE];
        let mut held = 0;
        // A count and no `loop`, which would have to end: nothing says that an input does.
        for _ in 0..u64::MAX {
            let count = self.read(&mut bytes[held..])?;
            if count == 0 {
                break;
            }
            held = self.advance(work, &mut bytes[0..held + count], out)?;
            if work.has_ended() {
                break;
            }
        }
        Ok(held)
    }
}

// The line of a refusal; the index past it. The number may be any, as in `listing`, whose text it is.
#[tactic(auto, using(listing::proofs::ListingLaws::put_room, listing::proofs::ListingLaws::refused_length))]
pub fn put_refused(line: &mut [u8; 29], refusal: u32) -> usize
    ensures line { line.new ≡ placed line.old 0 (refused_text refusal) }
    ensures end { (result ≡ length (refused_text refusal)) × (result ≤ 29) }
{
    listing::put_refused(line, 0, refusal)
}

// Works off the input, or says help or usage: what the programs' `main`s share.
pub fn answer<B: Drop, F: FnOnce(B, &mut Pipe) -> Result<(), Told> + Drop>(
    rt: &HostRuntime,
    texts: Texts,
    request: Result<Request<B>, Told>,
    work: F,
) -> Result<(), Told>
    requires callable { F.IsAlwaysCallable work }
    ensures told { IsErr request.entry → IsErr result }
    ensures usage { request.entry ≡ Ok Request.Usage → IsOk result }
{
    match request? {
        Request::Input(before, source, input) => {
            let mut pipe = Pipe {
                rt,
                source,
                input,
                output: texts.output,
            };
            work(before, &mut pipe)
        }
        Request::Help => texts.say_help(rt),
        Request::Usage => {
            texts.say_usage(rt);
            Ok(())
        }
    }
}
