// A request that stands in the input, from its contents to its response.
ghost use Rattle.std.specs.Prelude.{◌+◌, ◌≤◌, length};
ghost use Rattle.calls_served.specs.Contents.{model_bytes, run_bytes, Served};

use crate::answer::answer;
use crate::call::Call;
use calls_served::contents::{model_in, model_out, reply_out, run_in, run_out};
use calls_served::head::Head;

// Answers a whole request, whose contents start at `at`, at the place `out`; answers the place behind the response.
// The call is lent tables that are as long as the contents: the first parts of the buffers.
pub(crate) fn respond(
    call: Call,
    head: Head,
    input: &[u8],
    at: usize,
    output: &mut [u8],
    out: usize,
) -> usize
    requires sizes_in_bounds { at + model_bytes head.sizes + run_bytes head.sizes ≤ length input.now }
    requires sizes_in_bounds_2 { out + 16 + model_bytes head.sizes + run_bytes head.sizes ≤ length output.old }
    requires served { Served head.sizes }
    ensures { result ≤ length output.old }
{
    let n = head.sizes;
    let mut links = [0u32; 8448];
    let mut axis = [0u32; 4352];
    let mut times = [0u64; 1088];
    let mut marks = [0u8; 1088];
    let mut accums = [0i64; 240];
    let mut positions = [0u32; 1088];
    let mut trace = [0u8; 66000];
    let next = model_in(n, input, at, &mut links, &mut axis, &mut times, &mut marks);
    let sheet = run_in(n, input, next, &mut accums, &mut positions, &mut trace);
    let reply = answer(
        call,
        head,
        &mut links[..n.links as usize],
        &mut axis[..n.axis as usize],
        &mut times[..n.times as usize],
        &mut marks[..n.marks as usize],
        &mut accums[..3 * n.accums as usize],
        &mut positions[..n.positions as usize],
        &input[sheet..sheet + n.sheet as usize],
        &mut trace[..n.trace as usize],
    );
    let a = reply_out(reply, output, out);
    let b = model_out(n, output, a, &links, &axis, &times, &marks);
    run_out(n, output, b, &accums, &positions, &trace)
}
