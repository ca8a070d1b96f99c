//! A law of values, for proofs alone: the function does nothing.
ghost use Rattle.std.specs.Prelude.{◌≡◌, IsTrue, Some};
ghost use Rattle.ht_base.specs.declared.kind.Kind.{Kind};
ghost use Rattle.ht_expr.specs.Kinds.{Declared};
ghost use Rattle.ht_expr.specs.KindTable.{kind_of};
ghost use Rattle.ht_expr.specs.Trees.{Tree};
ghost use Rattle.ht_value.specs.Environment.{has_parts};
ghost use Rattle.ht_value.specs.Values.{kind_of_outcome, value};
ghost use Rattle.ht_value.specs.declared.environment.Env.{Env};

/// An expression that has a kind gives a value of this kind, where the declared parts that have values
/// have them of theirs.
pub fn each_kind_has_a_value()
    ensures { (kinds : Declared) (env : Env) (tree : Tree) (kind : Kind)
        → IsTrue (has_parts kinds env) → kind_of kinds tree ≡ Some kind
        → kind_of_outcome (value kinds env tree) ≡ Some kind }
{}
