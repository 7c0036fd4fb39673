//! Laws of the sessions of the whole network.
ghost use Rattle.std.specs.Prelude.{◌≡◌, ℕ, List, true, None, Some};
ghost use Rattle.std.specs.List.{AllByRecursion};
ghost use Rattle.scenario_defs.specs.declared.event.Script.{Script};
ghost use Rattle.scenario_defs.specs.declared.event.Timed.{Timed};
ghost use Rattle.scenario_defs.specs.declared.scenario.Scenario.{Scenario};
ghost use Rattle.network_defs.specs.declared.session_defs.direction.Direction.{Direction};
ghost use Rattle.network_defs.specs.session_defs.Message.{SessionMessage};
ghost use Rattle.network_defs.specs.session_defs.System.{Behind};
ghost use Rattle.network_defs.specs.session_defs.Octets.{OctetNetwork, OctetAct, octet_run, moved};
ghost use Rattle.network_defs.specs.session_defs.Refined.{AreLines, IsHonestWhile, Refined, MovesFirst, Ends};
ghost use Rattle.network_defs.specs.Costs.{Cores};
ghost use Rattle.network_defs.specs.Nodes.{Nodes, start_nodes};
ghost use Rattle.network_defs.specs.Run.{Traced, Run};
ghost use Rattle.network_defs.specs.World.{World};
ghost use Rattle.network_laws.specs.Costs.{KnowCosts};
ghost use Rattle.network_laws.specs.Limits.{AreWithin};
ghost use Rattle.network_laws.specs.SoundRun.{SoundRun};
ghost use Rattle.network_laws.specs.Sound.{SoundScenario, Sound};
ghost use Rattle.network_laws.specs.Honest.{IsSoundEvent, SoundCall, sound_system};

/// The nodes of a network in which nothing has happened are sound.
pub fn start_is_sound()
    ensures { (scenario : Scenario) (cores : Cores) → SoundScenario scenario → Sound scenario (start_nodes scenario cores) }
{}

/// Edges and core nodes are honest: as long as they are sound, whatever they put over BGP or LDP is a spelled unit, and they stay
/// sound.
pub fn nodes_are_honest()
    ensures { (scenario : Scenario) → IsHonestWhile (sound_system scenario) (Sound scenario) }
{}

/// A move over a joined session of the network delivers some first messages of those that are pending, in order: all where all octets
/// are moved.
pub fn moves_of_the_network_deliver()
    ensures { (scenario : Scenario) (old : OctetNetwork Nodes) (pending : Direction → List SessionMessage) (direction : Direction)
        (count : ℕ) (new : Behind (OctetNetwork Nodes)) → Sound scenario old.state → AreLines old pending →
        old.joined direction ≡ true → moved (sound_system scenario) old direction count ≡ Some new →
        MovesFirst (sound_system scenario) old pending direction count new }
{}

/// However the octets of the network's sessions are moved, lost and cut, a run in octets is a run in messages that puts the same.
/// Where it ends for want of a label, it does so at one of its acts, and a run in messages ends at what that act is: the same call, or
/// a delivery over the same direction. No stream of a joined session has a fault, and the nodes stay sound.
pub fn octets_of_the_network_carry_messages()
    ensures refined { (scenario : Scenario) (old : OctetNetwork Nodes) (pending : Direction → List SessionMessage)
        (acts : List (OctetAct (SoundCall scenario))) (new : Behind (OctetNetwork Nodes)) →
        Sound scenario old.state → AreLines old pending → octet_run (sound_system scenario) old acts ≡ Some new →
        Refined (sound_system scenario) old pending new × Sound scenario new.network.state }
    ensures ended { (scenario : Scenario) (old : OctetNetwork Nodes) (pending : Direction → List SessionMessage)
        (acts : List (OctetAct (SoundCall scenario))) → Sound scenario old.state → AreLines old pending →
        octet_run (sound_system scenario) old acts ≡ None → Ends (sound_system scenario) old pending acts }
{}

/// In every run of a sound scenario, by events of sound values, the nodes stay sound, and the octets in transit over each session that
/// is joined, after what its receiver holds back, are whole units. So no stream of a joined session has a fault.
pub fn runs_stay_sound()
    ensures { (cores : Cores) (script : Script) (events : List Timed) (trace : List Traced) (new : World) → SoundScenario script.scenario →
        AllByRecursion (λ (timed : Timed). IsSoundEvent script.scenario timed.event) events → Run cores script events trace new →
        Sound script.scenario new.network.state × ((pending : Direction → List SessionMessage) × AreLines new.network pending) }
{}

/// After each event of such a run every node of the scenario has acted on the present costs of the links, and knows the core by them.
pub fn nodes_know_the_present_costs()
    ensures { (cores : Cores) (script : Script) (events : List Timed) (trace : List Traced) (new : World) →
        SoundRun cores script events trace new → KnowCosts script.scenario cores new.network.state }
{}

/// In every run, by whatever events, no edge holds more entries of its interfaces, notes or selections than its limits: 1,024, 256 and 256.
pub fn limits_hold()
    ensures { (cores : Cores) (script : Script) (events : List Timed) (trace : List Traced) (new : World) →
        Run cores script events trace new → AreWithin new }
{}
