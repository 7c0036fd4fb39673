//! What the lines so far said.
ghost use Rattle.std.specs.Prelude.{◌≡◌, Some, IfOk, option_map};
ghost use Rattle.std.specs.Int.{w32, from_be_bytes};
ghost use Rattle.ingress_text.specs.Drafted.{nothing, role_at, role_of, said_by, peer_of, input_at, stepped};

use crate::input::{Input, Line, Role, Root, Said, Step};
use mv_base::{NoMemory, Seq};
use std::alloc::Global;
use std::collections::BTreeMap;
use std::marker::Model;

/// The number by which addresses are ordered.
pub(crate) fn number_of(addr: [u8; 4]) -> u32
    ensures { result ≡ from_be_bytes w32 addr }
{
    u32::from_be_bytes(addr)
}

/// What the peer of the line does.
fn role_of(said: &Said) -> Role
    ensures { result ≡ role_of said.now }
{
    match said {
        Said::Leaf { .. } => Role::Leaf,
        Said::From { .. } => Role::From,
    }
}

/// The peer of the line.
pub(crate) fn peer_of(said: &Said) -> [u8; 4]
    ensures { result ≡ peer_of said.now }
{
    match said {
        Said::Leaf { leaf, .. } => *leaf,
        Said::From { peer, .. } => *peer,
    }
}

/// The route of the root, where its line was read, and the lines after it, with what each peer does.
#[derive(Drop)]
pub struct Draft {
    root: Option<Root>,
    lines: Seq<Line>,
    roles: BTreeMap<u32, Role>,
}

impl Model for Draft {
    ghost use Rattle.std.specs.Prelude.{◌≡◌, ℕ};
    ghost use Rattle.std.specs.BTreeMap as tree;
    ghost use Rattle.std.specs.Ordering.{nat_cmp};
    ghost use Rattle.ingress_text.specs.Drafted.{Drafted, role_at};

    ghost Value = { Drafted };

    ghost view = { λ d. record { root = d.root; lines = d.lines } };

    ghost invariant = { λ d. (n : ℕ) → tree.get nat_cmp d.roles n ≡ role_at d.lines n };
}

impl Draft {
    /// Nothing was said.
    pub fn new(alloc: Global) -> Self
        ensures { result ≡ nothing }
    {
        Draft {
            root: None,
            lines: Seq::new(alloc),
            roles: BTreeMap::new(alloc),
        }
    }

    /// The root, where its line was read.
    pub fn root(&self) -> Option<&Root>
        ensures { option_map (λ root. root.now) result ≡ self.now.root }
    {
        self.root.as_ref()
    }

    /// What the peer of that address does by the lines so far.
    pub fn role(&self, addr: [u8; 4]) -> Option<Role>
        ensures { result ≡ role_at self.now.lines (from_be_bytes w32 addr) }
    {
        self.roles.get(&number_of(addr)).copied()
    }

    /// Adds what the line of that number says after that of the root.
    fn say(self, number: u32, said: Said) -> Result<Draft, NoMemory>
        ensures { IfOk result (λ draft. draft ≡ said_by self number said) }
    {
        let Draft {
            root,
            mut lines,
            mut roles,
        } = self;
        roles.insert(number_of(peer_of(&said)), role_of(&said))?;
        lines.push(Line { number, said })?;
        Ok(Draft { root, lines, roles })
    }

    /// The root of the first line.
    fn begin(self, root: Root) -> Draft
        ensures { result ≡ record self { root = Some root } }
    {
        let Draft { lines, roles, .. } = self;
        Draft {
            root: Some(root),
            lines,
            roles,
        }
    }

    /// Adds what the line of that number says.
    pub fn add(self, number: u32, step: Step) -> Result<Draft, NoMemory>
        ensures { IfOk result (λ draft. draft ≡ stepped self number step) }
    {
        match step {
            Step::Blank => Ok(self),
            Step::Root(root) => Ok(self.begin(root)),
            Step::Said(said) => self.say(number, said),
        }
    }

    /// What the lines said, where that of the root is one of them.
    pub fn into_input(self) -> Option<Input>
        ensures { result ≡ input_at self }
    {
        let Draft { root, lines, .. } = self;
        let root = root?;
        Some(Input { root, lines })
    }
}
