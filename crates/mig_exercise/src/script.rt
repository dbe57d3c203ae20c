ghost use Rattle.std.specs.Prelude.{◌≡◌, IfOk, OnOk, [], ◌∷◌, ◌++◌};
ghost use Rattle.mig_exercise.specs.Common.{little_bytes, line_said};
ghost use Rattle.mig_machine_script.specs.ScriptLines.LineOf.{Write};
ghost use Rattle.mig_machine_script.specs.declared.script.Line.TheVariants.{Dot};
ghost use Rattle.mig_exercise.specs.ExerciseHosts.{IsExerciseSize};
ghost use Rattle.mig_exercise.specs.ExerciseScripts.{script_of_exercise};

use crate::numbers::{next_number, number_before};
use crate::pages::first_data;
use mig_bytes::{Memory, put_u64_le};
use mig_machine_script::{Line, Script};
use std::alloc::Global;

/// The line that writes a number at the front of a frame.
fn write_of(alloc: Global, pfn: u64, number: u64) -> Result<Line, Memory>
    ensures { IfOk result (λ line. line_said line ≡ Write pfn 0 (little_bytes 8 number)) }
{
    let mut bytes = [0; 8];
    put_u64_le(&mut bytes, 0, number);
    match bytes.to_vec(alloc) {
        Ok(bytes) => Ok(Line::Write { pfn, at: 0, bytes }),
        Err(_) => Err(Memory),
    }
}

/// Puts a line behind the others, and a dot behind it.
fn push_group(lines: &mut Vec<Line>, line: Line) -> Result<(), Memory>
    ensures { OnOk result (lines.new.items ≡ lines.old.items ++ line ∷ Dot ∷ []) }
{
    if lines.push(line).is_err() || lines.push(Line::Dot).is_err() {
        return Err(Memory);
    }
    Ok(())
}

/// The script of the exercise with so many frames, from 8 to 65536. The seed tells where its lines write, and what.
pub fn exercise_script(alloc: Global, seed: u64, frames: u64) -> Result<Script, Memory>
    requires { IsExerciseSize frames }
    ensures { IfOk result (λ script. script ≡ script_of_exercise seed frames) }
{
    let first = first_data(frames);
    let count = frames - first;
    let mut number = number_before(seed, count);
    let Ok(mut lines) = Vec::with_capacity(alloc, 4 * frames as usize) else {
        return Err(Memory);
    };
    for i in 0..2 * frames {
        let place = next_number(number);
        number = next_number(place);
        push_group(&mut lines, write_of(alloc, first + place % count, number)?)?;
    }
    Ok(Script::new(lines))
}
