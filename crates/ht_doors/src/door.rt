ghost use Rattle.std.specs.Prelude.{◌≡◌, ◌∷◌, ◌++◌, [], option_map, IfOk, OnErr, OnOk};
ghost use Rattle.ht_doors.specs.Doors.{AreJoined, DoorState, IsAccepted, count_on, link_of};
ghost use Rattle.ht_outside.specs.Causes.{HasCause, next_count};

use ht_outside::{Failed, Link};

/// Where connections come from, and where they are handed back.
pub trait Door: Sized + Drop {
    type L: Link + Drop + Send;

    /// How many links were taken, how many calls failed, and the links that were handed back, where
    /// the door tells them. No call makes a door begin or cease to tell, and none tells which link
    /// comes next. Both counts stop at 18446744073709551615.
    ghost door_state: { Self → DoorState };

    /// Begins to listen at this port.
    fn listen(&mut self, port: u16) -> Result<(), Failed>
        ensures links { (door_state self.new).links ≡ (door_state self.old).links }
        ensures back { (door_state self.new).back ≡ (door_state self.old).back }
        ensures cause { HasCause (door_state self.old).faults (door_state self.new).faults result };

    /// Another door to the same place, for another thread. Its counts begin at 0, and no link was
    /// handed back to it.
    fn fork(&mut self) -> Result<Self, Failed>
        ensures links { (door_state self.new).links ≡ (door_state self.old).links }
        ensures back { (door_state self.new).back ≡ (door_state self.old).back }
        ensures fork { IfOk result (λ d.
            door_state d ≡ record {
              links = 0;
              faults = 0;
              back = option_map (λ _. []) (door_state self.old).back;
            }) }
        ensures cause { HasCause (door_state self.old).faults (door_state self.new).faults result };

    /// Takes the next link.
    fn accept(&mut self) -> Result<Self::L, Failed>
        ensures counted { OnOk result
            ((door_state self.new).links ≡ next_count (door_state self.old).links) }
        ensures links { OnErr result
            ((door_state self.new).links ≡ (door_state self.old).links) }
        ensures back { (door_state self.new).back ≡ (door_state self.old).back }
        ensures fresh { IfOk result (λ l.
            IsAccepted (door_state self.old).back
            (link_of (Self.L.Source.source_state l) (Self.L.Sink.sink_state l))) }
        ensures cause { HasCause (door_state self.old).faults (door_state self.new).faults result };

    /// Hands a link back, as it stands then. After a failure it is dropped.
    fn leave(&mut self, link: Self::L) -> Result<(), Failed>
        ensures links { (door_state self.new).links ≡ (door_state self.old).links }
        ensures added { OnOk result
            ((door_state self.new).back ≡ option_map
            (λ b. b ++ link_of (Self.L.Source.source_state link) (Self.L.Sink.sink_state link) ∷ [])
            (door_state self.old).back) }
        ensures back { OnErr result ((door_state self.new).back ≡ (door_state self.old).back) }
        ensures cause { HasCause (door_state self.old).faults (door_state self.new).faults result };

    /// Adds the counts of a fork to its own, and puts the links that were handed back to the fork
    /// behind its own. It takes no memory.
    fn join(&mut self, fork: Self)
        ensures links { (door_state self.new).links
            ≡ count_on (door_state self.old).links (door_state fork).links }
        ensures faults { (door_state self.new).faults
            ≡ count_on (door_state self.old).faults (door_state fork).faults }
        ensures back { AreJoined (door_state self.old).back (door_state fork).back
            (door_state self.new).back };
}
