//! Laws of networks in octets.
ghost use Rattle.std.specs.Prelude.{◌≡◌, ℕ, List, true, None, Some};
ghost use Rattle.network_defs.specs.declared.session_defs.direction.Direction.{Direction};
ghost use Rattle.network_defs.specs.session_defs.Message.{SessionMessage};
ghost use Rattle.network_defs.specs.session_defs.System.{System, Behind};
ghost use Rattle.network_defs.specs.session_defs.Octets.{OctetNetwork, OctetAct, octet_run, moved};
ghost use Rattle.network_defs.specs.session_defs.Refined.{AreLines, IsHonest, Refined, MovesFirst, Ends};
ghost use Rattle.network_defs.specs.session_defs.Example.{CutInTwo};

/// However the octets between honest nodes are moved, lost and cut, a run in octets is a run in messages that puts the same. Where
/// it ends, it does so at one of its acts, and a run in messages ends at what that act is: the same call, or a delivery over the
/// same direction. No stream of a joined session has a fault.
pub fn octets_carry_messages<S, X>()
    ensures refined { (system : System S X) (old : OctetNetwork S) (pending : Direction → List SessionMessage) →
        (acts : List (OctetAct X)) (new : Behind (OctetNetwork S)) →
        IsHonest system → AreLines old pending →
        octet_run system old acts ≡ Some new → Refined system old pending new }
    ensures ended { (system : System S X) (old : OctetNetwork S) (pending : Direction → List SessionMessage) →
        (acts : List (OctetAct X)) →
        IsHonest system → AreLines old pending →
        octet_run system old acts ≡ None → Ends system old pending acts }
{}

/// A move over a joined session delivers some first messages of those that are pending, in order: all where all octets are moved.
pub fn moves_deliver<S, X>()
    ensures { (system : System S X) (old : OctetNetwork S) (pending : Direction → List SessionMessage) →
        (direction : Direction) (count : ℕ) (new : Behind (OctetNetwork S)) →
        IsHonest system → AreLines old pending →
        old.joined direction ≡ true → moved system old direction count ≡ Some new → MovesFirst system old pending direction count new }
{}

/// A label withdraw whose octets come in two pieces is taken with the second one.
pub fn a_message_cut_in_two()
    ensures { CutInTwo }
{}
