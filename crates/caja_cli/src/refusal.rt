// The line for an input that a stage refuses.

ghost use Rattle.std.specs.Prelude.{◌≡◌, IfOk};
ghost use Rattle.caja_cli.specs.Output.{refusal};

use crate::status::Status;
use caja_units::Memory;
use std::alloc::Global;

/// What is written for an input that a stage refuses: of whom, the stage, the number of the refusal there, and its place.
pub fn refused(
    alloc: Global,
    who: &[u8],
    stage: &str,
    number: u8,
    place: u32,
) -> Result<(Vec<u8>, Status), Memory>
    ensures text { IfOk result (λ r. r.0.items ≡ refusal who.now stage.now number place) }
    ensures status { IfOk result (λ r. r.1 ≡ Status.Refused) }
{
    let mut line = Vec::from_slice(alloc, b"refused ")?;
    line.extend_from_slice(who)?;
    line.push(b' ')?;
    line.extend_from_slice(stage.as_bytes())?;
    line.push(b' ')?;
    let number = number.to_string(alloc)?;
    line.extend_from_slice(number.as_bytes())?;
    line.push(b' ')?;
    let place = place.to_string(alloc)?;
    line.extend_from_slice(place.as_bytes())?;
    line.push(b'\n')?;
    Ok((line, Status::Refused))
}
