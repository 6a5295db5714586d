// The public calls and queries of SIMSET and SIMULATION: each is lent the whole model and a call as a value, judges the model, and makes
// the call or tells the answer. Refusals come in the order 1, 2, 3, then the rest; a refused call changes no word.
#![tactic(auto)]

mod by_case;
mod told;

ghost use Rattle.std.specs.Prelude.{◌≡◌};
ghost use Rattle.model_laws.specs.Called.{called, asked};
ghost use Rattle.model_laws.specs.Tables.{model_of};
ghost use Rattle.simset_laws.specs.Told.{set_answered};
ghost use Rattle.simulation_laws.specs.PublicCalls.{sequencing_answered, query_told};

use crate::by_case::tell;
use crate::told::{sequencing_answer, set_answer};
use model::answer::Answer;
use model::call::{Query, SequencingCall, SetCall};
use model::{Counts, Refusal};
use model_judge::judge_tables;

// Out, follow, precede and into answer the head of the set that x left, or none; clear answers how many it removed.
pub fn set_call(
    c: Counts,
    links: &mut [u32],
    axis: &[u32],
    times: &[u64],
    marks: &[u8],
    call: SetCall,
) -> Result<Answer, Refusal>
    ensures { record {
      tables = model_of links.new axis.now times.now marks.now;
      answer = result;
    }
        ≡ called c (set_answered c call) (model_of links.old axis.now times.now
        marks.now) }
{
    judge_tables(c, links, axis, times, marks)?;
    set_answer(c, links, call)
}

// Hold, passivate, wait, cancel, activate, reactivate and finish. Wait answers the head of the set that current left, or none.
pub fn sequencing_call(
    c: Counts,
    links: &mut [u32],
    axis: &mut [u32],
    times: &mut [u64],
    marks: &mut [u8],
    call: SequencingCall,
) -> Result<Answer, Refusal>
    ensures { record { tables = model_of links.new axis.new times.new marks.new; answer = result }
        ≡ called c (sequencing_answered c call) (model_of links.old axis.old times.old
        marks.old) }
{
    judge_tables(c, links, axis, times, marks)?;
    sequencing_answer(c, links, axis, times, marks, call)
}

// What first, last, suc, pred, empty and cardinal tell of the sets, and current, time, idle, terminated, evtime and nextev of the axis.
pub fn query(
    c: Counts,
    links: &[u32],
    axis: &[u32],
    times: &[u64],
    marks: &[u8],
    query: Query,
) -> Result<Answer, Refusal>
    ensures { result ≡ asked c (query_told c query) (model_of links.now axis.now times.now
        marks.now) }
{
    judge_tables(c, links, axis, times, marks)?;
    tell(c, links, axis, times, marks, query)
}
