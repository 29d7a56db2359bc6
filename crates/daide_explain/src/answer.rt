//! The body of the answer to a message, for those who print it.

ghost use Rattle.std.specs.Prelude.{◌≡◌, ◌*◌, ◌≤◌, ◌%◌, ◌++◌, length, IfOk, OnOk, OnErr};
ghost use Rattle.daide_causes.specs.Causes.{WasRefused};
ghost use Rattle.daide_reader.specs.Verdict.{IsPlaceIn};
ghost use Rattle.daide_protocol.specs.Answers.{answer_body};

use daide_causes::Growth;
use daide_protocol::answers::{CLOSE_WORD, ERR_WORD, HUH_OPEN, PRN_OPEN};
use daide_reader::Verdict;
use std::alloc::AllocError;

/// Appends the answer to a message that is not paired.
fn append_prn<A: Growth>(body: &[u8], answer: &mut Vec<u8, A>) -> Result<(), AllocError>
    ensures answer { OnOk result (answer.new.items ≡ answer.old.items ++ answer_body body.now Verdict.Prn) }
    ensures refused { OnErr result (WasRefused A.Refuses) }
{
    A::append(answer, &PRN_OPEN)?;
    A::append(answer, body)?;
    A::append(answer, &CLOSE_WORD)
}

/// Appends the answer to a message with an error place.
fn append_huh<A: Growth>(place: u16, body: &[u8], answer: &mut Vec<u8, A>) -> Result<(), AllocError>
    requires { 2 * place ≤ length body.now }
    ensures answer { OnOk result (answer.new.items ≡ answer.old.items ++ answer_body body.now (Verdict.Huh place)) }
    ensures refused { OnErr result (WasRefused A.Refuses) }
{
    let (before, after) = body.split_at(2 * place as usize);
    A::append(answer, &HUH_OPEN)?;
    A::append(answer, before)?;
    A::append(answer, &ERR_WORD)?;
    A::append(answer, after)?;
    A::append(answer, &CLOSE_WORD)
}

/// Appends the body of the answer to a message.
fn append_answer<A: Growth>(
    verdict: Verdict,
    body: &[u8],
    answer: &mut Vec<u8, A>,
) -> Result<(), AllocError>
    requires { IsPlaceIn body.now verdict }
    ensures answer { OnOk result (answer.new.items ≡ answer.old.items ++ answer_body body.now verdict) }
    ensures refused { OnErr result (WasRefused A.Refuses) }
{
    match verdict {
        Verdict::Relay => A::append(answer, body),
        Verdict::Prn => append_prn(body, answer),
        Verdict::Huh(place) => append_huh(place, body, answer),
    }
}

/// Returns the body of the answer to a message, as the session sends it. The only error is that the allocator refused
/// memory (`refused`).
pub fn answer_of<A: Growth>(
    alloc: A,
    verdict: Verdict,
    body: &[u8],
) -> Result<Vec<u8, A>, AllocError>
    requires even { length body.now % 2 ≡ 0 }
    requires within { IsPlaceIn body.now verdict }
    ensures even { IfOk result (λ answer. length answer.items % 2 ≡ 0) }
    ensures body { IfOk result (λ answer. answer.items ≡ answer_body body.now verdict) }
    ensures refused { OnErr result (WasRefused A.Refuses) }
{
    let mut answer = Vec::new(alloc);
    append_answer(verdict, body, &mut answer)?;
    Ok(answer)
}
