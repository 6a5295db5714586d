// What the fields of a record may hold.
ghost use Rattle.std.specs.Prelude.{◌≡◌, ◌||◌, eqb, nat_abs};
ghost use Rattle.sheet.specs.Accepted.{is_operand, is_accumulator, may_hold, fields_fine, record_fine};

use crate::operations::uses_of;
use model::Counts;
use sheet::header::Header;
use sheet::operations::{Holds, Uses};
use sheet::records::{CURRENT, Record};

// The most accumulators that a run has.
pub const MAX_ACCUMULATORS: u32 = 64;

// Operations are 1 to 13 and clauses 0 to 6.
pub const MAX_OPERATION: u8 = 13;

pub const MAX_CLAUSE: u8 = 6;

// 0 to N, 65,536, or 65,536 and a head.
#[tactic(auto, unfolding(sheet::specs::Accepted::is_operand))]
fn is_operand(counts: Counts, v: u32) -> bool
    ensures { result ≡ is_operand counts v }
{
    v as usize <= counts.total() || v == CURRENT || CURRENT < v && counts.is_head(v - CURRENT)
}

// 1 to 64.
fn is_accumulator(v: u32) -> bool
    ensures { result ≡ is_accumulator v }
{
    1 <= v && v <= MAX_ACCUMULATORS
}

// Whether x or y may hold v.
#[tactic(auto, unfolding(sheet::specs::Accepted::may_hold))]
fn may_hold(header: Header, holds: Holds, v: u32) -> bool
    ensures { result ≡ may_hold header holds v }
{
    match holds {
        Holds::Nothing => v == 0,
        Holds::Operand => is_operand(header.counts, v),
        Holds::RecordNumber => v <= header.records,
        Holds::AccumulatorNumber => is_accumulator(v),
    }
}

// A clause that is not used is 0.
fn clause_fine(used: bool, clause: u8) -> bool
    ensures { result ≡ (used || eqb clause 0) }
{
    used || clause == 0
}

// A t that is not used is 0.
fn t_fine(used: bool, t: i64) -> bool
    ensures { result ≡ (used || eqb (nat_abs t) 0) }
{
    used || t == 0
}

// The fields hold what they may hold, and 0 where they are not used.
#[tactic(auto, unfolding(sheet::specs::Accepted::fields_fine))]
fn fields_fine(header: Header, uses: Uses, call: Record) -> bool
    ensures { result ≡ fields_fine header uses call }
{
    clause_fine(uses.clause, call.clause)
        && may_hold(header, uses.x, call.x)
        && may_hold(header, uses.y, call.y)
        && t_fine(uses.t, call.t)
}

// Next, operation and clause are in their ranges, and the fields are as the operation has them.
#[tactic(auto, unfolding(sheet::specs::Accepted::record_fine))]
pub(crate) fn record_fine(header: Header, call: Record) -> bool
    ensures { result ≡ record_fine header call }
{
    call.next <= header.records
        && 1 <= call.operation
        && call.operation <= MAX_OPERATION
        && call.clause <= MAX_CLAUSE
        && fields_fine(header, uses_of(call.operation, call.clause), call)
}
