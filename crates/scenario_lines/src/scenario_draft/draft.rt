//! What the lines so far declared.
ghost use Rattle.std.specs.Prelude.{◌≡◌, ◌++◌, ◌∷◌, ◌≤◌, [], length, nat_eq, OnOk, None};
ghost use Rattle.std.specs.Map.{lookup};
ghost use Rattle.std.specs.Cmp.Lexicographic.{pointwise};
ghost use Rattle.scenario_lines.specs.scenario_draft.Naming.{named};
ghost use Rattle.scenario_lines.specs.scenario_draft.Settings.{highest, with_setting};
ghost use Rattle.scenario_lines.specs.scenario_draft.Adding.{added, empty_draft, IsNew};

use crate::scenario_draft::line::Line;
use crate::scenario_draft::setting::{Given, Setting};
use indexmap::IndexMap;
use line_words::is_name;
use mv_base::{NoMemory, Seq};
use scenario_defs::{Events, Name, Scenario, Script, Thing, Timed};
use std::alloc::Global;
use std::marker::Model;

/// Adds a new name.
fn declare(names: &mut IndexMap<Name, Thing>, name: Name, thing: Thing) -> Result<(), NoMemory>
    requires { lookup (pointwise nat_eq name) names.old.entries ≡ None }
    ensures { OnOk result (names.new.entries ≡ names.old.entries ++ (name, thing) ∷ []) }
{
    names.insert(name, thing)?;
    Ok(())
}

/// Gives the setting that value.
fn set(scenario: &mut Scenario, setting: Setting, value: u64)
    requires { value ≤ highest setting }
    ensures { scenario.new ≡ with_setting scenario.old setting value }
{
    match setting {
        Setting::Life => scenario.life = value,
        Setting::Delay => scenario.delay = value,
        Setting::Labels => scenario.labels = value as u32,
        Setting::System => scenario.system = value as u16,
    }
}

/// The script so far, with the names that are declared.
#[derive(Drop)]
pub struct Draft {
    scenario: Scenario,
    given: Given,
    begun: bool,
    events: Events,
    names: IndexMap<Name, Thing>,
}

impl Model for Draft {
    ghost use Rattle.scenario_lines.specs.scenario_draft.Drafted.{Drafted};

    ghost Value = { Drafted };

    ghost view = { λ d. record { scenario = d.scenario; given = d.given; begun = d.begun; events = d.events; names = d.names.entries } };
}

impl Draft {
    /// Nothing is declared, and each setting has its default.
    pub fn new(alloc: Global) -> Self
        ensures { result ≡ empty_draft }
    {
        Draft {
            scenario: Scenario {
                life: 2,
                delay: 3,
                labels: 4096,
                system: 65000,
                nodes: Seq::new(alloc),
                links: Seq::new(alloc),
                vrfs: Seq::new(alloc),
                sites: Seq::new(alloc),
                ifaces: Seq::new(alloc),
            },
            given: Given::none(),
            begun: false,
            events: Seq::new(alloc),
            names: IndexMap::new(alloc),
        }
    }

    /// The allocator that the draft grows by.
    pub fn alloc(&self) -> Global {
        self.events.alloc()
    }

    pub fn scenario(&self) -> &Scenario
        ensures { result.now ≡ self.now.scenario }
    {
        &self.scenario
    }

    /// Which settings were given.
    pub fn given(&self) -> Given
        ensures { result ≡ self.now.given }
    {
        self.given
    }

    /// Whether the line `events` was read.
    pub fn begun(&self) -> bool
        ensures { result ≡ self.now.begun }
    {
        self.begun
    }

    pub fn event_count(&self) -> usize
        ensures { result ≡ length self.now.events }
    {
        self.events.len()
    }

    fn find(&self, name: &Name) -> Option<Thing>
        ensures { result ≡ lookup (pointwise nat_eq name.now) self.now.names }
    {
        self.names.get(name).copied()
    }

    /// The thing that a word names.
    pub fn named(&self, text: &[u8]) -> Option<Thing>
        ensures { result ≡ named self.now text.now }
    {
        if !is_name(text) {
            return None;
        }
        match Name::of(text) {
            Some(name) => self.find(&name),
            None => None,
        }
    }

    /// Adds what a line says, or answers `NoMemory`. Nothing is promised of the draft then: the name of a thing may have been
    /// added without the thing.
    pub fn add(&mut self, line: u32, said: Line) -> Result<(), NoMemory>
        requires { IsNew self.old said }
        ensures { OnOk result (self.new ≡ added self.old line said) }
    {
        match said {
            Line::Blank => {}
            Line::Setting { setting, value } => {
                self.given = self.given.with(setting);
                set(&mut self.scenario, setting, value);
            }
            Line::Node { id, node } => {
                declare(&mut self.names, node.name, Thing::Node(id))?;
                self.scenario.nodes.push(node)?;
            }
            Line::Link { link } => self.scenario.links.push(link)?,
            Line::Vrf { id, vrf } => {
                declare(&mut self.names, vrf.name, Thing::Vrf(id))?;
                self.scenario.vrfs.push(vrf)?;
            }
            Line::Site { id, site } => {
                declare(&mut self.names, site.name, Thing::Site(id))?;
                self.scenario.sites.push(site)?;
            }
            Line::Iface { id, iface } => {
                declare(&mut self.names, iface.name, Thing::Iface(id))?;
                self.scenario.ifaces.push(iface)?;
            }
            Line::Events => self.begun = true,
            Line::Event { event } => self.events.push(Timed { line, event })?,
        }
        Ok(())
    }

    /// The script, `end` being the number of the line after the last one.
    pub fn into_script(self, end: u32) -> Script
        ensures { result ≡ record { scenario = self.scenario; events = self.events; end = end } }
    {
        let Draft {
            scenario,
            events,
            ..
        } = self;
        Script {
            scenario,
            events,
            end,
        }
    }
}
