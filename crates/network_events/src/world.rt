//! A network that goes through events, one after another.
ghost use Rattle.std.specs.Prelude.{◌≡◌, ◌+◌, ◌<◌, ◌++◌, ◌^◌, length, true, false, None, IfOk, OnOk, OnErr};
ghost use Rattle.scenario_defs.specs.Rules.{IsEventOf, Rules};
ghost use Rattle.mvpn_model.specs.Past.{ticks_of};
ghost use Rattle.network_defs.specs.Nodes.{is_edge};
ghost use Rattle.network_events.specs.Behind.{IsBegun, Steps};
ghost use Rattle.network_events.specs.Lending.{InEachRun, IsCore, IsEdge, IsPool};
ghost use Rattle.network_events.specs.Telling.{Appends, Tells};

use crate::dispatch::meet;
use crate::halt::{EventAnswer, Halt};
use mldp_node::LdpNode;
use mv_base::{NoMemory, NodeId};
use network_acts::of_network_laws::core_laws::each_scenario_has_cores;
use network_acts::of_run_laws::script_values::event_has_octets;
use network_acts::{Edge, Network, Pool};
use scenario_defs::{Event, Lines, ReportLine, Scenario};
use std::alloc::Global;
use std::marker::Model;
use std::mem;

/// A network, and why it goes no further, where it has halted. Contracts see it as a `WorldView`. It must be closed.
///
/// A world that has not halted is after some events of its scenario: it comes to be by `of`, and changes by `step` alone.
pub struct World {
    network: Network,
    halt: Option<Halt>,
}

impl Model for World {
    ghost use Rattle.network_events.specs.WorldView.{WorldView, world_code};

    ghost Value = { WorldView };

    ghost coded = { world_code };

    ghost view = { λ w. record { network = w.network; halt = w.halt } };

    ghost use Rattle.std.specs.Prelude.{◌≡◌, None};
    ghost use Rattle.network_events.specs.Behind.{IsReached};

    ghost invariant = { λ w. w.halt ≡ None → IsReached (record { network = w.network; halt = w.halt }) };
}

/// What an event came to: a refused one gives the line that says so.
fn tell(line: u32, answer: EventAnswer, lines: &mut Lines) -> Result<(), Halt>
    ensures { Tells line answer lines.old lines.new result }
{
    match answer {
        Ok(None) => Ok(()),
        Ok(Some(reason)) => match lines.push(ReportLine::Refused { line, reason }) {
            Ok(()) => Ok(()),
            Err(_) => Err(Halt::NoMemory),
        },
        Err(halt) => Err(halt),
    }
}

/// Appends the lines of an event to those of before, all or none.
fn append(own: Lines, lines: &mut Lines) -> Result<(), NoMemory>
    ensures ok { OnOk result (lines.new ≡ lines.old ++ own) }
    ensures err { OnErr result (lines.new ≡ lines.old) }
{
    if lines.is_empty() {
        *lines = own;
        return Ok(());
    }
    let none = Lines::new(lines.alloc());
    let mut all = mem::replace(lines, none).into_vec();
    let mut more = own.into_vec();
    let appended = all.append(&mut more);
    *lines = Lines::from_vec(all);
    match appended {
        Ok(()) => Ok(()),
        Err(_) => Err(NoMemory),
    }
}

/// The lines of an event go to the end of those of before, and it comes to what it was told to; where memory is wanting, none goes there.
fn hand_over(told: Result<(), Halt>, own: Lines, lines: &mut Lines) -> Result<(), Halt>
    ensures { Appends told own lines.old lines.new result }
{
    if let Err(Halt::NoMemory) = told {
        return told;
    }
    match append(own, lines) {
        Ok(()) => told,
        Err(NoMemory) => Err(Halt::NoMemory),
    }
}

impl World {
    /// The network of a scenario that meets its rules, before any event.
    pub fn of(alloc: Global, scenario: Scenario) -> Result<World, NoMemory>
        requires { Rules scenario }
        ensures { IfOk result (IsBegun scenario) }
    {
        each_scenario_has_cores();
        let network = Network::of(alloc, scenario)?;
        Ok(World {
            network,
            halt: None,
        })
    }

    /// The scenario.
    pub fn scenario(&self) -> &Scenario
        ensures { result.now ≡ self.now.network.scenario }
    {
        self.network.scenario()
    }

    /// How many datagrams were accepted.
    pub fn accepted(&self) -> u64
        ensures own { result ≡ self.now.network.datagrams.count }
        ensures is { InEachRun self.now (λ scenario world. result ≡ length world.datagrams) }
    {
        self.network.datagrams.count()
    }

    /// The node of that number, which is an edge of the scenario. It takes no memory.
    pub fn edge(&self, node: NodeId) -> &Edge
        requires edge { is_edge self.now.network.scenario node ≡ true }
        ensures { InEachRun self.now (IsEdge node result.now) }
    {
        self.network.edge(node)
    }

    /// The label part of the node of that number, which is a core node of the scenario. It takes no memory.
    pub fn core_node(&self, node: NodeId) -> &LdpNode
        requires within { node.0 < length self.now.network.scenario.nodes }
        requires core { is_edge self.now.network.scenario node ≡ false }
        ensures { InEachRun self.now (IsCore node result.now) }
    {
        self.network.core_node(node)
    }

    /// The buffers of the copies on links. It takes no memory.
    pub fn pool(&self) -> &Pool
        ensures now { result.now ≡ self.now.network.datagrams.copies.buffers }
        ensures is { InEachRun self.now (λ scenario world. IsPool world self.now) }
    {
        self.network.datagrams.pool()
    }

    /// One event, which is at that line: it is refused, with the line that says so, or its acts are done, with their lines. These are
    /// appended.
    pub fn step(&mut self, line: u32, event: &Event, lines: &mut Lines) -> Result<(), Halt>
        requires event { self.old.halt ≡ None → IsEventOf self.old.network.scenario event.now }
        requires clock { self.old.halt ≡ None → self.old.network.plane.clock + ticks_of event.now < 2 ^ 63 }
        ensures { Steps line event.now self.old self.new lines.old lines.new result }
    {
        if let Some(halt) = self.halt {
            return Err(halt);
        }
        event_has_octets(event);
        let mut own = Lines::new(lines.alloc());
        let answer = meet(&mut self.network, event, &mut own);
        let told = tell(line, answer, &mut own);
        let result = hand_over(told, own, lines);
        if let Err(halt) = result {
            self.halt = Some(halt);
        }
        result
    }

    /// Frees all that it has, and spends the label bindings of its nodes.
    pub fn close(self) {
        let World { network, halt: _ } = self;
        network.close();
    }
}
