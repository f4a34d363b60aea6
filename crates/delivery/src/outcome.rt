ghost use Rattle.std.specs.Prelude.{◌≡◌};
ghost use Rattle.delivery.specs.Deliveries.{ranks};

use order::Standing;

// What a delivery answers: the word was taken, was known, or shows its speaker to be two-faced.
#[derive(Clone, Copy, PartialEq, Eq, Debug)]
pub enum Outcome {
    Taken = 0,
    Known = 1,
    TwoFaced = 2,
}

// A row is taken if it is newer than the kept one, and shows its speaker to be two-faced if neither is.
impl From<Standing> for Outcome {
    ghost from_gives = { λ standing outcome. outcome ≡ ranks standing };

    fn from(standing: Standing) -> Outcome {
        match standing {
            Standing::Newer => Outcome::Taken,
            Standing::Known => Outcome::Known,
            Standing::Inconsistent => Outcome::TwoFaced,
        }
    }
}
