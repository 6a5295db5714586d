// Requests one after the other.
use crate::call::Call;
use crate::flow::Flow;
use crate::respond::respond;
use calls_served::head::{HEAD_BYTES, contents_bytes, head_at, model_fits, run_fits};
use std::io::{Read, Write};

// Answers the next request, and says whether there was one: one that is cut short, of an unknown call, or past the buffers stops the flow.
// Waits for the rest of it and for room for a response, which is no longer.
fn step<R: Read, W: Write>(flow: &mut Flow<R, W>) -> bool {
    if !flow.await_bytes(HEAD_BYTES) {
        return false;
    }
    let head = head_at(&flow.input, flow.at);
    let Some(call) = Call::of(head) else {
        return false;
    };
    let n = head.sizes;
    if !(model_fits(n) && run_fits(n)) {
        return false;
    }
    let all = HEAD_BYTES + contents_bytes(n);
    if !(flow.await_bytes(all) && flow.make_room(all)) {
        return false;
    }
    let at = flow.at + HEAD_BYTES;
    flow.out = respond(call, head, &flow.input, at, &mut flow.output, flow.out);
    flow.at += all;
    true
}

// Until the input ends or a request stops the flow. Nothing proves that an input ends, so turns are counted.
pub(crate) fn serve<R: Read, W: Write>(flow: &mut Flow<R, W>) {
    for _ in 0..u64::MAX {
        if !step(flow) {
            flow.write_out();
            return;
        }
    }
}
