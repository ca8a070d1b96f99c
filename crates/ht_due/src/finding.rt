ghost use Rattle.std.specs.Prelude.{◌≡◌, IfErr, IfOk};
ghost use Rattle.ht_due.specs.Dues.{Ascends};
ghost use Rattle.ht_due.specs.Places.{BelongsAt, StandsAt};

use crate::Due;

// Where a due stands, or else where it would.
pub(crate) fn find(dues: &[Due], due: Due) -> Result<usize, usize>
    requires { Ascends dues.now }
    ensures found { IfOk result (λ place. StandsAt due dues.now place) }
    ensures missed { IfErr result (λ place. BelongsAt due dues.now place) }
{
    dues.binary_search(&due)
}
