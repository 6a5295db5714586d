// A program for tests: reads requests, makes each call on the tables that a request brings, and writes a response for each.
#![tactic(auto)]

mod accum_calls;
mod answer;
mod call;
mod flow;
mod respond;
mod serve;
mod streams;
mod turn_call;

use flow::Flow;
use serve::serve;
use std::io;

// A read or a write that failed is the program's error.
fn main(rt: HostRuntime) -> io::Result<()> {
    let mut flow = Flow::new(rt.stdin(), rt.stdout());
    serve(&mut flow);
    flow.streams.moved
}
