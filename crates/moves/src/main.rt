// The program `moves` (document 02, §13): the fewest moves of the up-down lever that reach a wanted speed from the last car of an exercise file, on
// standard output. The work is `moving`'s and `lever`'s, and the input's pieces are `pieces`'.
#![tactic(auto)]

use car::Car;
use console::Told;
use event::Refusal;
use pieces::{Pipe, Texts, Turned, Work};

const TEXTS: Texts<'static> = Texts {
    output: b"moves: standard output",
    usage: "usage: moves WANTED [FILE] (moves --help says more)",
    help: b"usage: moves WANTED [FILE]
Finds the fewest moves of the up-down lever that set a wanted speed at the end
of an exercise, without a second passing.
WANTED is a desired speed in tenths of km/h: decimal digits, at most 4294967295.
FILE, or standard input, holds 32-bit words, lowest byte first: a settings word
(D0000000 + mode 1 or 2, + 4 for road signs, + 8 for towing), then event words.
Printed are at most six words that reach it from the exercise's last car, one a
line in hexadecimal. The car accepts each, the lever ends in neutral; no list
is shorter, and none as short comes before it. With that speed set: no line.
Or one line, 'refused' and its number and reason: 17 no settings word, 21 a file
that ends inside a word, 25 cruise off or a lever out of neutral, 26 no list of
at most six words reaches it. It is printed once the file has ended.
A read or write that fails is told in a line on standard error, and there is no
result. All went well exactly when standard error is empty and the status is 0.
docs/REFERENCE.md has every word and refusal.
",
};

// The car behind the words that have come.
#[derive(Drop)]
struct Events {
    car: Car,
}

impl Work for Events {
    // There is no text before the end.
    #[tactic(auto, using(moving::proofs::PiecesLaws::used_within))]
    fn turn(&mut self, bytes: &[u8], _out: &mut [u8]) -> Turned {
        let turned = moving::turn(self.car, bytes);
        self.car = turned.car;
        Turned {
            used: turned.used,
            end: 0,
        }
    }
}

// The sentence of a refused settings word.
fn refuse(pipe: &Pipe, refusal: Refusal) -> Result<(), Told> {
    let mut text = [0; moving::ROOM];
    let end = moving::put_sentence(&mut text, u32::from(refusal));
    pipe.write(&text[0..end])
}

// The answer to the car behind the words behind the settings word.
fn move_last(pipe: &mut Pipe, wanted: u32, car: Car) -> Result<(), Told> {
    let mut events = Events { car };
    let mut text = [0; moving::ROOM];
    let held = pipe.work_off(&mut events, &mut text)?;
    let end = moving::put_result(&mut text, events.car, wanted, held);
    pipe.write(&text[0..end])
}

fn moves_file(pipe: &mut Pipe, wanted: u32) -> Result<(), Told> {
    match pipe.read_settings()? {
        Ok(car) => move_last(pipe, wanted, car),
        Err(refusal) => refuse(pipe, refusal),
    }
}

fn main(rt: HostRuntime) {
    let mut what = [0; 4104];
    let request = command::asked_number(&rt, b"moves: ", &mut what);
    let _ = pieces::answer(&rt, TEXTS, request, |wanted, pipe| moves_file(pipe, wanted));
}
