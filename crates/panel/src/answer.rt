// What a call answers to C.
ghost use Rattle.std.specs.Prelude.{◌≡◌};
ghost use Rattle.panel.specs.Answers.{panel_answer};

use marks::Refusal;

// A refusal is told as this plus its number; no count is as great.
pub(crate) const REFUSED: u64 = 1 << 40;

// The one number that tells a count or a refusal.
#[tactic(auto, using(crate::proofs::Numbers::number_few))]
pub(crate) fn number_of_answer(answer: Result<usize, Refusal>) -> u64
    ensures { result ≡ panel_answer answer }
{
    match answer {
        Ok(count) => count as u64,
        Err(refusal) => REFUSED + refusal.number(),
    }
}
