// The program `mark` (document 02, §5): the event of an exercise file that passed a mark, and the seconds at or above it, on standard output. The
// work is `marking`'s, and the input's pieces are `pieces`'.
#![tactic(auto)]

use car::Car;
use console::Told;
use event::Refusal;
use marking::Stage;
use pieces::{Pipe, Texts, Turned, Work};

const TEXTS: Texts<'static> = Texts {
    output: b"mark: standard output",
    usage: "usage: mark MARK [FILE] (mark --help says more)",
    help: b"usage: mark MARK [FILE]
Finds the event of an exercise that passed a speed mark, and counts the seconds
that ended at or above it.
MARK is a speed in tenths of km/h: decimal digits, at most 4294967295.
FILE, or standard input, holds 32-bit words, lowest byte first: a settings word
(D0000000 + mode 1 or 2, + 4 for road signs, + 8 for towing), then event words.
Printed is 'event' and the number of the first event at which the speed went
from below the mark to the mark or above, counted as 'lesson' counts them, or
'never'; then 'seconds' and their number. A mark of 0 is never passed, and
counts each accepted tick. The result is printed once the file has ended.
A file that does not start with a settings word: 'refused 17' alone.
A file that ends inside a word: 'refused 21' as the last line.
A read or write that fails is told in a line on standard error, and there is no
result. All went well exactly when standard error is empty and the status is 0.
docs/REFERENCE.md has every word and refusal.
",
};

// How far the lesson has come.
#[derive(Drop)]
struct Search {
    mark: u32,
    stage: Stage,
}

impl Work for Search {
    // There is no text before the end.
    #[tactic(auto, using(marking::proofs::PiecesLaws::used_within))]
    fn turn(&mut self, bytes: &[u8], _out: &mut [u8]) -> Turned {
        let turned = marking::turn(self.stage, bytes, self.mark);
        self.stage = turned.stage;
        Turned {
            used: turned.used,
            end: 0,
        }
    }
}

// The line of a refused settings word.
fn refuse(pipe: &Pipe, refusal: Refusal) -> Result<(), Told> {
    let mut line = [0; 29];
    let end = pieces::put_refused(&mut line, u32::from(refusal));
    pipe.write(&line[..end])
}

// The result of the words behind the settings word.
#[tactic(auto, using(exercise::proofs::PiecesLaws::text_within))]
fn mark_events(pipe: &mut Pipe, mark: u32, car: Car) -> Result<(), Told> {
    let mut search = Search {
        mark,
        stage: marking::start(car),
    };
    let mut text = [0; 85];
    let held = pipe.work_off(&mut search, &mut text)?;
    let end = marking::put_result(search.stage, held, &mut text);
    // With `..end` the check asks for the length of what is lent too, and finds no proof.
    pipe.write(&text[0..end])
}

fn mark_file(pipe: &mut Pipe, mark: u32) -> Result<(), Told> {
    match pipe.read_settings()? {
        Ok(car) => mark_events(pipe, mark, car),
        Err(refusal) => refuse(pipe, refusal),
    }
}

fn main(rt: HostRuntime) {
    let mut what = [0; 4104];
    let request = command::asked_number(&rt, b"mark: ", &mut what);
    let _ = pieces::answer(&rt, TEXTS, request, |mark, pipe| mark_file(pipe, mark));
}
