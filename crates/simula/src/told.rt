// What a call tells of the model before it: the head of the set that its link leaves, and of clear how many leave.
ghost use Rattle.std.specs.Prelude.{◌≡◌, ◌+◌};
ghost use Rattle.ring_laws.specs.Table.{Sound};
ghost use Rattle.model.specs.Counts.{Allowed, total};
ghost use Rattle.model_laws.specs.Tables.{model_of};
ghost use Rattle.simset_laws.specs.Promise.{Moved};
ghost use Rattle.simset_laws.specs.Told.{set_told, links_answered};
ghost use Rattle.simulation_laws.specs.Calls.{wait_told};
ghost use Rattle.simulation_laws.specs.Promise.{Judged, Takeable};
ghost use Rattle.simulation_laws.specs.PublicCalls.{sequencing_told, sequencing_answered};

use crate::by_case::{sequencing_step, set_step};
use model::answer::Answer;
use model::call::{SequencingCall, SetCall};
use model::{Counts, Refusal};
use ring::Rings;
use simset::heads::head_at;
use simula_queries::on_links;
use simulation::steps::current_link;
use simulation_axis::first;

fn set_told(c: Counts, links: &[u32], call: SetCall) -> Result<Answer, Refusal>
    requires { Sound (total c + 1) links.now }
    ensures { result ≡ set_told c call links.now }
{
    match call {
        SetCall::Out(x) | SetCall::Follow(x, _) | SetCall::Precede(x, _) | SetCall::Into(x, _) =>
            on_links::head(c, links, x),
        SetCall::Clear(x) => on_links::cardinal(c, links, x),
    }
}

// The head of the set in which current stands.
fn wait_told(c: Counts, links: &[u32], axis: &[u32]) -> Result<Answer, Refusal>
    requires judged { Judged c axis.now }
    requires sound { Sound (total c + 1) links.now }
    ensures { result ≡ wait_told c links.now axis.now }
{
    let notices = Rings {
        words: axis,
        m: c.processes as usize + 2,
    };
    let sets = Rings {
        words: links,
        m: c.total() + 1,
    };
    let x = current_link(c, first(notices));
    Ok(Answer::Linkage(head_at(sets, c.heads, x)))
}

fn sequencing_told(
    c: Counts,
    links: &[u32],
    axis: &[u32],
    call: SequencingCall,
) -> Result<Answer, Refusal>
    requires judged { Judged c axis.now }
    requires sound { Sound (total c + 1) links.now }
    ensures { result ≡ sequencing_told c call links.now axis.now }
{
    match call {
        SequencingCall::Wait(_) => wait_told(c, links, axis),
        _ => Ok(Answer::Done),
    }
}

// The step of a call, answered by what was told before it.
pub(crate) fn set_answer(c: Counts, links: &mut [u32], call: SetCall) -> Result<Answer, Refusal>
    requires sound { Sound (total c + 1) links.old }
    requires allowed { Allowed c }
    ensures { Moved (total c + 1) (links_answered c call links.entry.now) (record { links = links.exit.now; answer = result }) }
{
    let told = set_told(c, links, call);
    set_step(c, links, call)?;
    told
}

pub(crate) fn sequencing_answer(
    c: Counts,
    links: &mut [u32],
    axis: &mut [u32],
    times: &mut [u64],
    marks: &mut [u8],
    call: SequencingCall,
) -> Result<Answer, Refusal>
    requires takeable { Takeable c axis.old times.old }
    requires sound { Sound (total c + 1) links.old }
    ensures { record { tables = model_of links.new axis.new times.new marks.new; answer = result }
        ≡ sequencing_answered c call (model_of links.old axis.old times.old marks.old) }
{
    let told = sequencing_told(c, links, axis, call);
    sequencing_step(c, links, axis, times, marks, call)?;
    told
}
