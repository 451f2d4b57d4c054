// The answer of the closing check: a verdict or a refusal. specs/ has which it is and what it means, proofs/ that it means that.

#![tactic(auto)]

ghost use Rattle.std.specs.Prelude.{◌≡◌};
ghost use Rattle.refusals.specs.Told.{told};
ghost use Rattle.check_answer.specs.Answer.{number_of, gap_in, gap_of};

use kapitsa_joint::Maxima;
use refusals::Refusal;

// A verdict comes with the measured gap: the largest reach of each dimension.
#[derive(Clone, Copy)]
pub enum Verdict {
    Closed(Maxima),
    Open(Maxima),
}

impl Verdict {
    pub fn gap(self) -> Maxima
        ensures { result ≡ gap_in self }
    {
        match self {
            Verdict::Closed(gap) => gap,
            Verdict::Open(gap) => gap,
        }
    }
}

// 1 closed, 0 open, or the refusal's number.
pub fn number(answer: Result<Verdict, Refusal>) -> u32
    ensures { result ≡ number_of (told answer) }
{
    match answer {
        Ok(Verdict::Closed(_)) => 1,
        Ok(Verdict::Open(_)) => 0,
        Err(refusal) => refusal.number(),
    }
}

// Twice +0.0 where there is no verdict.
pub fn gap(answer: Result<Verdict, Refusal>) -> Maxima
    ensures { result ≡ gap_of (told answer) }
{
    match answer {
        Ok(verdict) => verdict.gap(),
        Err(_) => Maxima {
            linear: 0.0,
            angular: 0.0,
        },
    }
}
