// Each case of a call or query, made on the tables of a judged model by the step of that name. A set that is entered is counted, since a
// single call has no bound of its size.
ghost use Rattle.std.specs.Prelude.{◌≡◌, ◌+◌};
ghost use Rattle.ring_laws.specs.Table.{Sound};
ghost use Rattle.model.specs.Counts.{Allowed, total};
ghost use Rattle.model_laws.specs.Tables.{model_of};
ghost use Rattle.simset_laws.specs.Plain.{links_after};
ghost use Rattle.simset_laws.specs.Promise.{Moved};
ghost use Rattle.simulation_laws.specs.Calls.{wait_step};
ghost use Rattle.simulation_laws.specs.Promise.{sqs, Judged, Takeable};
ghost use Rattle.simulation_laws.specs.StepPromise.{WaitMade};
ghost use Rattle.simulation_laws.specs.PublicCalls.{sequencing_after, query_told};

use model::answer::Answer;
use model::call::{Query, SequencingCall, SetCall};
use model::{Counts, Refusal};
use simset::room::unknown_bounds;
use simula_queries::{on_axis, on_links};

pub(crate) fn set_step(c: Counts, links: &mut [u32], call: SetCall) -> Result<Answer, Refusal>
    requires sound { Sound (total c + 1) links.old }
    requires allowed { Allowed c }
    ensures { Moved (total c + 1) (links_after c call links.entry.now) (record { links = links.exit.now; answer = result }) }
{
    let mut bounds = unknown_bounds(c);
    match call {
        SetCall::Out(x) => simset::steps::out(c, links, x),
        SetCall::Follow(x, y) => simset::steps::follow(c, links, x, y, &mut bounds),
        SetCall::Precede(x, y) => simset::steps::precede(c, links, x, y, &mut bounds),
        SetCall::Into(x, y) => simset::steps::into(c, links, x, y, &mut bounds),
        SetCall::Clear(x) => simset::steps::clear(c, links, x),
    }
}

fn wait(
    c: Counts,
    links: &mut [u32],
    axis: &mut [u32],
    times: &mut [u64],
    y: u32,
) -> Result<Answer, Refusal>
    requires takeable { Takeable c axis.old times.old }
    requires sound { Sound (total c + 1) links.old }
    ensures { WaitMade c (wait_step c y links.old (sqs axis.old times.old)) links.new
        axis.new times.new result }
{
    let mut bounds = unknown_bounds(c);
    simulation::steps::wait(c, links, axis, times, y, &mut bounds)
}

pub(crate) fn sequencing_step(
    c: Counts,
    links: &mut [u32],
    axis: &mut [u32],
    times: &mut [u64],
    marks: &mut [u8],
    call: SequencingCall,
) -> Result<Answer, Refusal>
    requires takeable { Takeable c axis.old times.old }
    requires sound { Sound (total c + 1) links.old }
    ensures { record { tables = model_of links.new axis.new times.new marks.new; answer = result }
        ≡ sequencing_after c call (model_of links.old axis.old times.old marks.old) }
{
    match call {
        SequencingCall::Hold(t) => simulation::steps::hold(c, axis, times, t),
        SequencingCall::Passivate => simulation::steps::passivate(c, axis, times),
        SequencingCall::Wait(y) => wait(c, links, axis, times, y),
        SequencingCall::Cancel(x) => simulation::steps::cancel(c, axis, times, x),
        SequencingCall::Activate(clause, x, y, t) => {
            simulation::steps::activate(c, axis, times, marks, false, clause, x, y, t)
        }
        SequencingCall::Reactivate(clause, x, y, t) => {
            simulation::steps::activate(c, axis, times, marks, true, clause, x, y, t)
        }
        SequencingCall::Finish => simulation::steps::finish(c, axis, times, marks),
    }
}

// What a query tells.
pub(crate) fn tell(
    c: Counts,
    links: &[u32],
    axis: &[u32],
    times: &[u64],
    marks: &[u8],
    query: Query,
) -> Result<Answer, Refusal>
    requires judged { Judged c axis.now }
    requires sound { Sound (total c + 1) links.now }
    ensures { result ≡ query_told c query (model_of links.now axis.now times.now marks.now) }
{
    match query {
        Query::First(x) => on_links::first(c, links, x),
        Query::Last(x) => on_links::last(c, links, x),
        Query::Suc(x) => on_links::suc(c, links, x),
        Query::Pred(x) => on_links::pred(c, links, x),
        Query::Empty(x) => on_links::empty(c, links, x),
        Query::Cardinal(x) => on_links::cardinal(c, links, x),
        Query::Current => on_axis::current(c, axis, times),
        Query::Time => on_axis::time(c, axis, times),
        Query::Idle(x) => on_axis::idle(c, axis, times, x),
        Query::Terminated(x) => on_axis::terminated(c, marks, x),
        Query::Evtime(x) => on_axis::evtime(c, axis, times, x),
        Query::Nextev(x) => on_axis::nextev(c, axis, times, x),
    }
}
