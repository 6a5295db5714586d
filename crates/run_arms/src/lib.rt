// What one step of a run is made of, on judged tables: reading its record, the call of each operation, and then the process moves on and
// the line is written. Core functions: the caller knows that the tables were judged.
#![tactic(auto)]

pub mod arms;
mod members;
pub mod reading;
pub mod set_arms;
pub mod soon;

ghost use Rattle.std.specs.Prelude.{◌≡◌, ◌+◌, ◌≤◌, ◌<◌, length, set};
ghost use Rattle.model.specs.Counts.{linkage_at};
ghost use Rattle.trace.specs.Lines.{put, line_bytes};
ghost use Rattle.run_laws.specs.StepIs.{Went};
ghost use Rattle.run_laws.specs.Performed.{unless_refused};
ghost use Rattle.machine.specs.Run.{line_size};

use model::answer::Answer;
use model::{Counts, Refusal};
use run_laws::Effect;
use trace::put_line;

// The process at place f is at record r now.
pub fn place(positions: &mut [u32], f: u32, r: u32)
    requires { f < length positions.old }
    ensures { positions.new ≡ set positions.old f r }
{
    positions[f as usize] = r;
}

// The line of time, the process at place f and record r goes to byte i.
pub fn write(c: Counts, trace: &mut [u8], f: u32, time: u64, r: u32, i: usize)
    requires f_bound { c.heads + f < 4294967296 }
    requires line_size_in_bounds { i + line_size ≤ length trace.old }
    ensures { trace.new ≡ put trace.old i (line_bytes time (linkage_at c f) r) }
{
    put_line(trace, i, time, c.heads + f, r);
}

// After an accepted call of the process at place f: it is at next now, and the line of time, process and record r goes to byte i.
pub fn move_on(
    c: Counts,
    positions: &mut [u32],
    trace: &mut [u8],
    f: u32,
    time: u64,
    r: u32,
    i: usize,
    next: u32,
)
    requires f_in_bounds { f < length positions.old }
    requires f_bound { c.heads + f < 4294967296 }
    requires line_size_in_bounds { i + line_size ≤ length trace.old }
    ensures { Went c f time r i next positions.old trace.old positions.new trace.new }
{
    place(positions, f, next);
    write(c, trace, f, time, r, i);
}

// An accepted call means e.
pub fn unless_refused(
    a: Result<Answer, Refusal>,
    e: Result<Effect, Refusal>,
) -> Result<Effect, Refusal>
    ensures { result ≡ unless_refused a e }
{
    a?;
    e
}
