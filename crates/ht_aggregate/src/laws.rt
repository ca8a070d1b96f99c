//! Laws of the definitions, for proofs alone: the functions do nothing.
ghost use Rattle.std.specs.Prelude.{◌≡◌, ◌≤◌, ℕ, All, List, Option, length};
ghost use Rattle.ht_base.specs.declared.limits.TheConstants.{LONGEST_TEXT};
ghost use Rattle.ht_base.specs.Kinds.{kind_of_how, kind_of_value};
ghost use Rattle.ht_base.specs.declared.how.How.{How};
ghost use Rattle.ht_base.specs.declared.value.Value.{Value};
ghost use Rattle.ht_base.specs.declared.value.Value.TheVariants.{Text};
ghost use Rattle.ht_aggregate.specs.Aggregates.{IsAggregate};
ghost use Rattle.ht_aggregate.specs.Given.{texts};

/// An aggregate has one result of the same values.
pub fn each_aggregate_has_one_result()
    ensures { (how : How) (values : List Value) (a b : Option Value) → IsAggregate how values a
        → IsAggregate how values b → a ≡ b }
{}

/// There is a result of the same values for each aggregate.
pub fn each_aggregate_has_a_result()
    ensures { (how : How) (values : List Value)
        → (result : Option Value) × IsAggregate how values result }
{}

/// The result is of the aggregate's kind, and no longer than a text may be where none of the texts is.
pub fn each_result_fits()
    ensures kind { (how : How) (values : List Value) (value : Value)
        → IsAggregate how values (Some value) → kind_of_value value ≡ kind_of_how how }
    ensures short { (how : How) (values : List Value) (text : List ℕ)
        → All (λ t. length t ≤ LONGEST_TEXT) (texts values)
        → IsAggregate how values (Some (Text text)) → length text ≤ LONGEST_TEXT }
{}
