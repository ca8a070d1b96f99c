ghost use Rattle.std.specs.Prelude.{◌≡◌, ◌<◌, ◌≤◌, ◌+◌, ◌-◌, ◌^◌, length, IfSome, option_map};
ghost use Rattle.ht_tree.specs.Puts.{IsResized};
ghost use Rattle.ht_tree.specs.Sizes as spec;

use crate::Row;
use ht_models::Models;

/// The tasks of the tree of a row, which of a sub task are counted with its top task.
pub(crate) fn top_size(models: &Models, row: &Row) -> u64
    requires { row.now.model < length models.now }
    ensures value { result ≡ spec.top_size models.now row.now }
    ensures small { result < 2 ^ 32 }
{
    match row.parent {
        Some(_) => 0,
        None => u64::from(models.model(row.model).size),
    }
}

/// The tasks of all trees, of which one row is changed or new. They are counted wide, since plans pass
/// through more tasks than the tables ever hold.
pub(crate) fn resized(models: &Models, total: u128, before: Option<&Row>, row: &Row) -> u128
    requires row { row.now.model < length models.now }
    requires before { IfSome before
        (λ r. (r.now.model < length models.now) × (spec.top_size models.now r.now ≤ total)) }
    requires total { total < 2 ^ 100 }
    ensures resized { IsResized models.now total row.now (option_map (λ r. r.now) before.entry)
        result }
    ensures small { spec.top_size models.now row.now < 2 ^ 32 }
{
    let rest = match before {
        Some(before) => total - u128::from(top_size(models, before)),
        None => total,
    };
    rest + u128::from(top_size(models, row))
}
