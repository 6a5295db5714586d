// The calls of a request's number and operands (docs/CALLS.md), as values.
ghost use Rattle.std.specs.Prelude.{◌≡◌, eqb};
ghost use Rattle.calls.specs.Calls.{is_turn};

use calls_served::head::Head;
use model::call::{Query, SequencingCall, SetCall};

// Accum on a numbered element of the list or on its first alone, through the lent form or in place and by value.
#[derive(Clone, Copy)]
pub(crate) enum AccumCall {
    ListedLent(u32),
    AloneLent,
    Listed(u32),
    Alone,
}

#[derive(Clone, Copy)]
pub(crate) enum Call {
    // Refusals 1 and 2 of a model.
    Judge,
    Set(SetCall),
    Sequencing(SequencingCall),
    Query(Query),
    Accum(AccumCall),
    // The tables filled for a fresh model.
    Fresh,
    // A run of the sheet, going on from the tables of the request.
    Run,
    // The layout of a sheet; answers the number of its records.
    Check,
    // The tables of a fresh run.
    FreshRun,
    // As Run, but with room for just one line it is made by one turn.
    Turn,
}

impl Call {
    // Which call a request is, if there is such a call; 43 alone may be made by one turn.
    pub(crate) fn of(head: Head) -> Option<Call>
        ensures { is_turn result ≡ eqb head.call 43 }
    {
        let x = head.x;
        let y = head.y;
        let t = head.t;
        Some(match head.call {
            0 => Call::Judge,
            1 => Call::Set(SetCall::Out(x)),
            2 => Call::Set(SetCall::Follow(x, y)),
            3 => Call::Set(SetCall::Precede(x, y)),
            4 => Call::Set(SetCall::Into(x, y)),
            5 => Call::Set(SetCall::Clear(x)),
            6 => Call::Sequencing(SequencingCall::Hold(t)),
            7 => Call::Sequencing(SequencingCall::Passivate),
            8 => Call::Sequencing(SequencingCall::Wait(y)),
            9 => Call::Sequencing(SequencingCall::Cancel(x)),
            10 => Call::Sequencing(SequencingCall::Activate(head.clause, x, y, t)),
            11 => Call::Sequencing(SequencingCall::Reactivate(head.clause, x, y, t)),
            12 => Call::Query(Query::Empty(x)),
            13 => Call::Accum(AccumCall::ListedLent(x)),
            20 => Call::Query(Query::First(x)),
            21 => Call::Query(Query::Last(x)),
            22 => Call::Query(Query::Suc(x)),
            23 => Call::Query(Query::Pred(x)),
            24 => Call::Query(Query::Cardinal(x)),
            25 => Call::Query(Query::Current),
            26 => Call::Query(Query::Time),
            27 => Call::Query(Query::Idle(x)),
            28 => Call::Query(Query::Terminated(x)),
            29 => Call::Query(Query::Evtime(x)),
            30 => Call::Query(Query::Nextev(x)),
            31 => Call::Accum(AccumCall::AloneLent),
            32 => Call::Sequencing(SequencingCall::Finish),
            35 => Call::Accum(AccumCall::Listed(x)),
            36 => Call::Accum(AccumCall::Alone),
            37 => Call::Fresh,
            40 => Call::Run,
            41 => Call::Check,
            42 => Call::FreshRun,
            43 => Call::Turn,
            _ => return None,
        })
    }
}
