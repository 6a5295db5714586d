// What a call answers: this, or the refusal.
ghost use Rattle.std.specs.Prelude.{◌≡◌};
ghost use Rattle.model.specs.Answers.{code_of, value_of};

use crate::Refusal;

#[derive(Clone, Copy)]
pub enum Answer {
    // Nothing to tell.
    Done,
    // A linkage's number, 0 for none.
    Linkage(u32),
    // A count or a time.
    Number(u64),
    Truth(bool),
}

// 0 for accepted, else the refusal's number.
pub fn code(answered: Result<Answer, Refusal>) -> u32
    ensures { result ≡ code_of answered }
{
    match answered {
        Ok(_) => 0,
        Err(refusal) => refusal.number(),
    }
}

// The value as a number: truth is 1, and 0 stands where there is none.
pub fn value(answered: Result<Answer, Refusal>) -> u64
    ensures { result ≡ value_of answered }
{
    match answered {
        Ok(Answer::Linkage(x)) => x as u64,
        Ok(Answer::Number(n)) => n,
        Ok(Answer::Truth(b)) => b as u64,
        Ok(Answer::Done) | Err(_) => 0,
    }
}
