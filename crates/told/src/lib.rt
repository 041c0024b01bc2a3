// The answer as C has it: number and detail, 0 and 0 where the call is accepted.
#![tactic(auto)]

ghost use Rattle.std.specs.Prelude.{◌≡◌};
ghost use Rattle.answer.specs.Answer.{answer_of};
ghost use Rattle.told.specs.Told as Told;

use answer::Refusal;

// The number and the detail of an answer.
#[repr(C)]
#[derive(Clone, Copy)]
pub struct LnavAnswer {
    pub number: u8,
    pub detail: usize,
}

impl<T: Copy> From<Result<T, Refusal>> for LnavAnswer {
    ghost from_gives = { λ answer r. r ≡ Told.told (answer_of answer) };

    #[tactic(auto, unfolding(crate::specs::Told::told, answer::specs::Answer::number, answer::specs::Answer::detail))]
    fn from(answer: Result<T, Refusal>) -> LnavAnswer {
        match answer {
            Ok(_) => LnavAnswer {
                number: 0,
                detail: 0,
            },
            Err(r) => LnavAnswer {
                number: r.number(),
                detail: r.detail(),
            },
        }
    }
}
