// The number of a record's kind.
ghost use Rattle.std.specs.Prelude.{◌≡◌};
ghost use Rattle.kind.specs.Number.{kind_number};

use crate::kind::kind_of;
use record::Record;

#[tactic(auto, using(crate::proofs::laws::Number::number_of_kind), unfolding(crate::specs::Number::kind_number))]
pub fn kind_number(r: Record) -> u8
    ensures { result ≡ kind_number r }
{
    kind_of(r).number()
}
