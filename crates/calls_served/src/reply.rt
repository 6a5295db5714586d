// What a call answers: the first 16 bytes of its response.
ghost use Rattle.std.specs.Prelude.{◌≡◌};
ghost use Rattle.model.specs.Refusals.{refusal_number};
ghost use Rattle.model.specs.Answers.{code_of, value_of};

use model::Refusal;
use model::answer::{Answer, code, value};

#[derive(Clone, Copy)]
pub struct Reply {
    pub code: u32,
    pub lines: u32,
    pub answer: u64,
}

pub fn accepted(answer: u64) -> Reply
    ensures { result ≡ record { code = 0; lines = 0; answer = answer } }
{
    Reply {
        code: 0,
        lines: 0,
        answer,
    }
}

pub fn refused(q: Refusal) -> Reply
    ensures { result ≡ record { code = refusal_number q; lines = 0; answer = 0 } }
{
    Reply {
        code: q.number(),
        lines: 0,
        answer: 0,
    }
}

pub fn answered(a: Result<Answer, Refusal>) -> Reply
    ensures { result ≡ record { code = code_of a; lines = 0; answer = value_of a } }
{
    Reply {
        code: code(a),
        lines: 0,
        answer: value(a),
    }
}
