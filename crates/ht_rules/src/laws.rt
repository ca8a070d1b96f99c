ghost use Rattle.std.specs.Prelude.{◌≡◌, is_some};
ghost use Rattle.ht_base.specs.State.{contains_state};
ghost use Rattle.ht_base.specs.declared.operation.Op.{Op};
ghost use Rattle.ht_base.specs.declared.state.State.{State};
ghost use Rattle.ht_rules.specs.Changes.{next};
ghost use Rattle.ht_rules.specs.Judging.{allowed};
ghost use Rattle.ht_rules.specs.Sets.{every_role};

/// The two tables speak of the same states: somebody may do an operation in a state exactly where the
/// table of changes has a line for it.
pub fn tables_agree()
    ensures { (state : State) (op : Op)
        → contains_state (allowed op every_role) state ≡ is_some (next state op) }
{}
