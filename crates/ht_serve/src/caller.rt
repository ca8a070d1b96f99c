ghost use Rattle.std.specs.Prelude.{◌∷◌, [], ◌++◌, List, MatchResult, OnErr, OnOk};
ghost use Rattle.ht_base.specs.Events.{IsValid};
ghost use Rattle.ht_base.specs.declared.event.Event.{Event};
ghost use Rattle.ht_serve.specs.Calls.{Call};

use ht_base::{Event, Reply, Spent, Stepper};

/// A machine over events and replies, which takes each valid event.
pub trait TakesEvents: Stepper<Event = Event, Reply = Reply> {
    ghost takes_valid: { (e : Event) → IsValid e → Self.takes e };
}

/// Who makes the calls of a connection.
pub trait Caller {
    /// Between two of its states it made these calls, in order, each once.
    ghost made: { Self → Self → List Call → Type 0 };

    /// No turn is left for it.
    ghost spent: { Self → Type 0 };

    /// What holds before its calls, and behind each.
    ghost stands: { Self → Type 0 };

    /// What a call keeps besides, of the caller before it and the caller behind it.
    ghost same: { Self → Self → Type 0 } = { λ _ _. Unit {0} };

    /// Makes one call, or none where no turn is left.
    fn call(&mut self, event: &Event) -> Result<Reply, Spent>
        requires stands { stands self.old }
        requires valid { IsValid event.now }
        ensures stands { stands self.new }
        ensures made { MatchResult result
            (λ r. made self.old self.new (record { event = event.now; reply = r } ∷ []))
            (λ _. made self.old self.new []) }
        ensures spent { OnErr result (spent self.new) }
        ensures kept { spent self.old → spent self.new }
        ensures only { OnOk result (spent self.new → spent self.old) }
        ensures same { same self.old self.new };

    ghost made_none: { (q : Self) → made q q [] };

    ghost made_more: { (p q r : Self) (xs ys : List Call) → made p q xs → made q r ys → made p r (xs ++ ys) };

    ghost same_self: { (q : Self) → same q q };

    ghost same_on: { (p q r : Self) → same p q → same q r → same p r };
}
