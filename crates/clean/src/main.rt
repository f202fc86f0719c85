// The program `clean` (document 02, §2): the clean exercise file of an exercise file, on standard output. The work is `cleaning`'s, and the input's
// pieces are `pieces`'.
#![tactic(auto)]

use car::Car;
use console::Told;
use event::Refusal;
use pieces::{Pipe, Texts, Turned, Work};
use std::io::Write;

const TEXTS: Texts<'static> = Texts {
    output: b"clean: standard output",
    usage: "usage: clean [FILE] (clean --help says more)",
    help: b"usage: clean [FILE]
Takes the words that the car refuses out of an exercise.
FILE, or standard input, holds 32-bit words, lowest byte first: a settings word
(D0000000 + mode 1 or 2, + 4 for road signs, + 8 for towing), then event words.
Written is a file of the same kind: the settings word, then the accepted words.
'lesson' refuses none of them and ends in the same figures.
A file that does not start with a settings word: nothing is written, and
'refused 17' on standard error.
A file that ends inside a word: 'refused 21' on standard error, after the
accepted ones of its whole words.
The accepted ones of all words that have come are out before more are awaited.
A read or write that fails is told in a line on standard error, and nothing more
is written. All went well exactly when standard error is empty and the program
was not ended by a signal (exit status 0): a script should look at both.
docs/REFERENCE.md has every word and refusal.
",
};

// The car behind the words that have come.
#[derive(Drop)]
struct Events {
    car: Car,
}

impl Work for Events {
    #[tactic(auto, using(cleaning::proofs::PiecesLaws::used_within, cleaning::proofs::PiecesLaws::end_within))]
    fn turn(&mut self, bytes: &[u8], out: &mut [u8]) -> Turned {
        let turned = cleaning::turn(self.car, bytes, out);
        self.car = turned.car;
        Turned {
            used: turned.used,
            end: turned.end,
        }
    }
}

// A refusal, on standard error.
fn tell(pipe: &Pipe, refusal: Refusal) {
    let mut line = [0; 29];
    let end = pieces::put_refused(&mut line, u32::from(refusal));
    let _ = pipe.rt.stderr().write_all(&line[..end]);
}

// The settings word, and then the accepted ones of the words behind it.
fn clean_events(pipe: &mut Pipe, settings: &[u8], car: Car) -> Result<(), Told> {
    pipe.write(settings)?;
    let mut events = Events { car };
    let mut out = [0; 4096];
    let held = pipe.work_off(&mut events, &mut out)?;
    if let Err(refusal) = cleaning::close(held) {
        tell(pipe, refusal);
    }
    Ok(())
}

// Not by `read_settings`: the bytes go out too.
fn clean(pipe: &mut Pipe) -> Result<(), Told> {
    let mut first = [0; 4];
    let count = pipe.read_all(&mut first)?;
    match cleaning::open(&first[..count]) {
        Ok(car) => clean_events(pipe, &first[..count], car),
        Err(refusal) => {
            tell(pipe, refusal);
            Ok(())
        }
    }
}

fn main(rt: HostRuntime) {
    let mut what = [0; 4104];
    let request = command::asked(&rt, b"clean: ", &mut what);
    let _ = pieces::answer(&rt, TEXTS, request, |_, pipe| clean(pipe));
}
