// The set queries on the links of a judged model: refusal 3 by the operand's kind, or the answer. As in simset's
// steps, the words are lent beside the counts.
ghost use Rattle.std.specs.Prelude.{◌≡◌, ◌+◌};
ghost use Rattle.ring_laws.specs.Table.{Sound};
ghost use Rattle.model.specs.Counts.{total};
ghost use Rattle.simset_laws.specs.Calls.{first_told, last_told, suc_told, pred_told, empty_told, cardinal_told};
ghost use Rattle.simset_laws.specs.Told.{head_told};

use model::answer::Answer;
use model::{Counts, Refusal};
use ring::Rings;
use simset::heads::head_at;
use simset::procedures::link_or;

pub fn first(c: Counts, links: &[u32], x: u32) -> Result<Answer, Refusal>
    requires { Sound (total c + 1) links.now }
    ensures { result ≡ first_told c x links.now }
{
    if !c.is_head(x) {
        return Err(Refusal::Operand);
    }
    let i = x as usize;
    Ok(Answer::Linkage(link_or(c.heads, links[i])))
}

pub fn last(c: Counts, links: &[u32], x: u32) -> Result<Answer, Refusal>
    requires { Sound (total c + 1) links.now }
    ensures { result ≡ last_told c x links.now }
{
    if !c.is_head(x) {
        return Err(Refusal::Operand);
    }
    let i = c.total() + 1 + x as usize;
    Ok(Answer::Linkage(link_or(c.heads, links[i])))
}

pub fn suc(c: Counts, links: &[u32], x: u32) -> Result<Answer, Refusal>
    requires { Sound (total c + 1) links.now }
    ensures { result ≡ suc_told c x links.now }
{
    if !c.is_linkage(x) {
        return Err(Refusal::Operand);
    }
    let i = x as usize;
    Ok(Answer::Linkage(link_or(c.heads, links[i])))
}

pub fn pred(c: Counts, links: &[u32], x: u32) -> Result<Answer, Refusal>
    requires { Sound (total c + 1) links.now }
    ensures { result ≡ pred_told c x links.now }
{
    if !c.is_linkage(x) {
        return Err(Refusal::Operand);
    }
    let i = c.total() + 1 + x as usize;
    Ok(Answer::Linkage(link_or(c.heads, links[i])))
}

pub fn empty(c: Counts, links: &[u32], x: u32) -> Result<Answer, Refusal>
    requires { Sound (total c + 1) links.now }
    ensures { result ≡ empty_told c x links.now }
{
    if !c.is_head(x) {
        return Err(Refusal::Operand);
    }
    let i = x as usize;
    Ok(Answer::Truth(links[i] == x))
}

pub fn cardinal(c: Counts, links: &[u32], x: u32) -> Result<Answer, Refusal>
    requires { Sound (total c + 1) links.now }
    ensures { result ≡ cardinal_told c x links.now }
{
    if !c.is_head(x) {
        return Err(Refusal::Operand);
    }
    let sets = Rings {
        words: links,
        m: c.total() + 1,
    };
    Ok(Answer::Number(sets.count(x as usize, sets.m) as u64))
}

// The head of the set in which a link stands, none where it stands in none: what the calls tell that take it out.
pub fn head(c: Counts, links: &[u32], x: u32) -> Result<Answer, Refusal>
    requires { Sound (total c + 1) links.now }
    ensures { result ≡ head_told c x links.now }
{
    if !c.is_link(x) {
        return Err(Refusal::Operand);
    }
    let sets = Rings {
        words: links,
        m: c.total() + 1,
    };
    Ok(Answer::Linkage(head_at(sets, c.heads, x)))
}
