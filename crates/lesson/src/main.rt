// The program `lesson` (document 01, "The cab, alike, and the program"): the listing of an exercise file, on standard output. The work is
// `exercise`'s, and the input's pieces are `pieces`'.
#![tactic(auto)]

use console::Told;
use exercise::Stage;
use pieces::{Pipe, Texts, Turned, Work};

const TEXTS: Texts<'static> = Texts {
    output: b"lesson: standard output",
    usage: "usage: lesson [FILE] (lesson --help says more)",
    help: b"usage: lesson [FILE]
Drives a fresh car through an exercise and prints a line for each event.
FILE, or standard input, holds 32-bit words, lowest byte first: a settings word
(D0000000 + mode 1 or 2, + 4 for road signs, + 8 for towing), then event words.
Printed is a head line, then for each event: its number, its refusal (0: none),
speed and desired speed in tenths of km/h, acceleration in tenths of m/s2, and
the visual and acoustic warning (1: on).
A file that does not start with a settings word: 'refused 17' alone.
A file that ends inside a word: 'refused 21' as the last line.
The lines of all words that have come are printed before more are awaited, so a
lesson can be followed live through a pipe.
A read or write that fails is told in a line on standard error, and nothing more
is printed. All went well exactly when standard error is empty and the program
was not ended by a signal (exit status 0): a script should look at both.
docs/REFERENCE.md has every word, refusal and figure.
",
};

// How far the listing has come.
#[derive(Drop)]
struct Listing {
    stage: Stage,
}

impl Work for Listing {
    #[tactic(auto, using(exercise::proofs::PiecesLaws::used_within, exercise::proofs::PiecesLaws::end_within))]
    fn turn(&mut self, bytes: &[u8], out: &mut [u8]) -> Turned {
        let turned = exercise::turn(self.stage, bytes, out);
        self.stage = turned.stage;
        Turned {
            used: turned.used,
            end: turned.end,
        }
    }

    fn has_ended(&self) -> bool {
        matches!(self.stage, Stage::Ended)
    }
}

#[tactic(auto, using(exercise::proofs::PiecesLaws::text_within))]
fn list(pipe: &mut Pipe) -> Result<(), Told> {
    let mut listing = Listing {
        stage: Stage::Awaited,
    };
    let mut out = [0; 65600];
    let held = pipe.work_off(&mut listing, &mut out)?;
    let end = exercise::close(listing.stage, held, &mut out);
    // With `..end` the check asks for the length of what is lent too, and finds no proof.
    pipe.write(&out[0..end])
}

fn main(rt: HostRuntime) {
    let mut what = [0; 4104];
    let request = command::asked(&rt, b"lesson: ", &mut what);
    let _ = pieces::answer(&rt, TEXTS, request, |_, pipe| list(pipe));
}
