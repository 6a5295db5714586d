// The set calls on the links of a judged model: refusal 3 by the operands' kinds, for those that enter a set 10 by its room, or the
// procedure. Runs use these too. They are lent the counts and the words that their callers have: as `Rings` the words would come with a half
// that a clause ties to the counts, in place of the clause that says they are sound.
ghost use Rattle.std.specs.Prelude.{◌≡◌, ◌+◌, ◌<◌};
ghost use Rattle.ring_laws.specs.Table.{Sound};
ghost use Rattle.model.specs.Counts.{total, is_head, is_linkage};
ghost use Rattle.simset_laws.specs.Calls.{or_none, out_step, follow_step, precede_step, into_step, clear_step};
ghost use Rattle.simset_laws.specs.Full.{set_at, full_for};
ghost use Rattle.simset_laws.specs.Promise.{Moved};
ghost use Rattle.simset_laws.specs.BoundLaws.{Covers};
ghost use Rattle.simset_laws.specs.Entering.{Entered, Beside};
ghost use Rattle.simset_laws.specs.KnownRoom.{Roomy};

use crate::procedures;
use crate::room::{FREE_LINKAGES, no_room};
use model::answer::Answer;
use model::{Counts, Refusal};
use ring::RingsMut;

// A linkage, or none.
fn linkage_or_none(c: Counts, y: u32) -> bool
    ensures { result ≡ or_none (is_linkage c y) y }
{
    y == 0 || c.is_linkage(y)
}

// A head, or none: heads are numbered from 1.
pub fn head_or_none(c: Counts, y: u32) -> bool
    ensures { result ≡ or_none (is_head c y) y }
{
    y <= c.heads
}

// The links of a model with these counts, as rings.
pub fn sets(c: Counts, links: &mut [u32]) -> RingsMut<'_>
    requires { Sound (total c + 1) links.old }
    ensures value { (result.words.now ≡ links.old) × (result.m ≡ total c + 1) }
    ensures same { result.words.ghost_name ≡ links.entry.ghost_name }
{
    RingsMut {
        words: links,
        m: c.total() + 1,
    }
}

pub fn out(c: Counts, links: &mut [u32], x: u32) -> Result<Answer, Refusal>
    requires { Sound (total c + 1) links.old }
    ensures { Moved (total c + 1) (out_step c x links.entry.now) (record { links = links.exit.now; answer = result }) }
{
    if !c.is_link(x) {
        return Err(Refusal::Operand);
    }
    sets(c, links).unlink(x as usize);
    Ok(Answer::Done)
}

// May x, a link, be put beside y? Where there are not many links, this asks no more than whether y is a linkage or none.
fn beside(c: Counts, links: &[u32], x: u32, y: u32, bounds: &mut [u32]) -> Result<(), Refusal>
    requires sound { Sound (total c + 1) links.now }
    requires x_bound { x < total c + 1 }
    requires covers { Covers c 0 links.now bounds.old }
    ensures { Beside c (set_at (total c + 1) c.heads y links.now) links.now (or_none (is_linkage c y) y)
        (full_for c x y links.now) bounds.new result }
{
    if y <= bounds[FREE_LINKAGES] {
        return Ok(());
    }
    if !linkage_or_none(c, y) {
        return Err(Refusal::Operand);
    }
    if no_room(c, links, x, y, bounds) {
        return Err(Refusal::Full);
    }
    Ok(())
}

pub fn follow(
    c: Counts,
    links: &mut [u32],
    x: u32,
    y: u32,
    bounds: &mut [u32],
) -> Result<Answer, Refusal>
    requires sound { Sound (total c + 1) links.old }
    requires covers { Covers c 0 links.old bounds.old }
    ensures { Entered c links.entry.now (follow_step c x y links.entry.now) bounds.new
        (record { links = links.exit.now; answer = result }) }
{
    if !c.is_link(x) {
        return Err(Refusal::Operand);
    }
    beside(c, links, x, y, bounds)?;
    procedures::follow(&mut sets(c, links), x, y);
    Ok(Answer::Done)
}

pub fn precede(
    c: Counts,
    links: &mut [u32],
    x: u32,
    y: u32,
    bounds: &mut [u32],
) -> Result<Answer, Refusal>
    requires sound { Sound (total c + 1) links.old }
    requires covers { Covers c 0 links.old bounds.old }
    ensures { Entered c links.entry.now (precede_step c x y links.entry.now) bounds.new
        (record { links = links.exit.now; answer = result }) }
{
    if !c.is_link(x) {
        return Err(Refusal::Operand);
    }
    beside(c, links, x, y, bounds)?;
    procedures::precede(&mut sets(c, links), x, y);
    Ok(Answer::Done)
}

pub fn into(
    c: Counts,
    links: &mut [u32],
    x: u32,
    y: u32,
    bounds: &mut [u32],
) -> Result<Answer, Refusal>
    requires sound { Sound (total c + 1) links.old }
    requires covers { Covers c 0 links.old bounds.old }
    ensures { Entered c links.entry.now (into_step c x y links.entry.now) bounds.new
        (record { links = links.exit.now; answer = result }) }
{
    if !(c.is_link(x) && head_or_none(c, y)) {
        return Err(Refusal::Operand);
    }
    if no_room(c, links, x, y, bounds) {
        return Err(Refusal::Full);
    }
    procedures::precede(&mut sets(c, links), x, y);
    Ok(Answer::Done)
}

// Into, where y is a head whose set has room, or none.
pub fn into_known(c: Counts, links: &mut [u32], x: u32, y: u32) -> Result<Answer, Refusal>
    requires sound { Sound (total c + 1) links.old }
    requires roomy { Roomy c links.old x y }
    ensures { Moved (total c + 1) (into_step c x y links.entry.now) (record { links = links.exit.now; answer = result }) }
{
    if !c.is_link(x) {
        return Err(Refusal::Operand);
    }
    procedures::precede(&mut sets(c, links), x, y);
    Ok(Answer::Done)
}

pub fn clear(c: Counts, links: &mut [u32], x: u32) -> Result<Answer, Refusal>
    requires { Sound (total c + 1) links.old }
    ensures { Moved (total c + 1) (clear_step c x links.entry.now) (record { links = links.exit.now; answer = result }) }
{
    if !c.is_head(x) {
        return Err(Refusal::Operand);
    }
    procedures::clear(&mut sets(c, links), x as usize);
    Ok(Answer::Done)
}
