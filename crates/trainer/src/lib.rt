// The record call (document 01, "A lesson"). The theorem about every list of calls stands in specs/.
#![tactic(auto, using(kit::specs::Pick::picks))]

ghost use Rattle.std.specs.Prelude.{◌≡◌};
ghost use Rattle.record.specs.Record.{saved_buffer};
ghost use Rattle.trainer.specs.RecordCall.{keep_answer, kept_of};

use car::Car;
use event::Refusal;

// Writes the car's record into a buffer of any length and, unless that is refused, reads the same twelve words back and goes on with
// the car read.
pub fn keep(car: Car, buffer: &mut [u32]) -> Result<Car, Refusal>
    ensures { (keep_answer car result ≡ kept_of car buffer.old) × (buffer.new ≡ saved_buffer car buffer.old) }
{
    record::write_into(car, buffer)?;
    let first = buffer.len().min(12);
    record::read_from(&buffer[..first])
}
