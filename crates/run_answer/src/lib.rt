// A run's answer as a number: lines × 256 + code.
#![tactic(auto)]

ghost use Rattle.std.specs.Prelude.{◌≡◌};
ghost use Rattle.run_laws.specs.Run.{end_code, ran_number};

use machine::End;
use run_laws::Ran;

// 0 finished, 200 full, else the refusal's number.
pub fn end_code(e: End) -> u32
    ensures { result ≡ end_code e }
{
    match e {
        End::Finished => 0,
        End::Full => 200,
        End::Refused(q) => q.number(),
    }
}

#[tactic(auto, unfolding(run_laws::specs::Run::ran_number))]
pub fn number(ran: Ran) -> u64
    ensures { result ≡ ran_number ran }
{
    ran.lines as u64 * 256 + end_code(ran.end) as u64
}
