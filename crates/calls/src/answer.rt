// Makes a call on the tables of its request.
use crate::call::Call;
use crate::{accum_calls, turn_call};
use calls_served::head::Head;
use calls_served::reply::{Reply, accepted, answered, refused};
use model::Refusal;
use model_fresh::fresh;
use model_judge::judge_tables;
use run::fresh::fresh_run;
use run::run;
use run_answer::end_code;
use run_laws::Ran;
use sheet_check::check::check;
use simula::{query, sequencing_call, set_call};

fn judged(judged: Result<(), Refusal>) -> Reply {
    match judged {
        Ok(()) => accepted(0),
        Err(q) => refused(q),
    }
}

// The number of a sheet's records.
fn checked(sheet: &[u8]) -> Reply {
    match check(sheet) {
        Ok(header) => accepted(header.records as u64),
        Err(q) => refused(q),
    }
}

fn ended(ran: Ran) -> Reply {
    Reply {
        code: end_code(ran.end),
        lines: ran.lines,
        answer: 0,
    }
}

pub(crate) fn answer(
    call: Call,
    head: Head,
    links: &mut [u32],
    axis: &mut [u32],
    times: &mut [u64],
    marks: &mut [u8],
    accums: &mut [i64],
    positions: &mut [u32],
    sheet: &[u8],
    trace: &mut [u8],
) -> Reply {
    let c = head.counts;
    let one_line = turn_call::has_one_line(trace.len());
    match call {
        Call::Judge => judged(judge_tables(c, links, axis, times, marks)),
        Call::Set(k) => answered(set_call(c, links, axis, times, marks, k)),
        Call::Sequencing(k) => answered(sequencing_call(c, links, axis, times, marks, k)),
        Call::Query(q) => answered(query(c, links, axis, times, marks, q)),
        Call::Accum(k) => answered(accum_calls::answer(k, head, links, axis, times, marks, accums)),
        Call::Fresh => judged(fresh(c, links, axis, times, marks)),
        Call::FreshRun => judged(fresh_run(sheet, links, axis, times, marks, positions, accums)),
        Call::Check => checked(sheet),
        Call::Turn if one_line => ended(turn_call::run_by_turn(
            sheet, links, axis, times, marks, positions, accums, trace,
        )),
        Call::Run | Call::Turn => ended(run(
            sheet, links, axis, times, marks, positions, accums, trace,
        )),
    }
}
