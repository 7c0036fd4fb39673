//! Sets of 1 to 8 Route Targets.
ghost use Rattle.std.specs.Prelude.{◌≡◌, ◌<◌, ◌↔◌, length, IfOk, IsTrue, Contains, ◌&&◌};
ghost use Rattle.std.specs.List.{list_all, list_any};
ghost use Rattle.mv_base.specs.route_targets.Targets.{has, shares, same, HasCommon, same_target};

use crate::route_targets::{ExtComm, Target};
use std::marker::Model;

/// The most targets of one set.
pub const TARGET_LIMIT: usize = 8;

/// 1 to 8 targets, which contracts see as their list.
#[derive(Clone, Copy)]
pub struct Targets {
    targets: [Target; 8],
    len: usize,
}

impl Model for Targets {
    ghost use Rattle.std.specs.Prelude.{◌-◌, ◌++◌, List, length, take, replicate};
    ghost use Rattle.mv_base.specs.declared.route_targets.communities.Target.{Target};

    ghost Value = { List Target };

    ghost use Rattle.mv_base.specs.route_targets.Padding.{IsPadded, padded, padded-take};

    ghost view = { λ t. take t.len t.targets };

    ghost invariant = { IsPadded };

    ghost inverse = { padded };

    ghost inverse_ok = { padded-take };
}

/// Why a list of targets is no set of targets.
#[derive(Clone, Copy, Debug, PartialEq, Eq)]
pub enum TargetsFault {
    Empty,
    TooMany,
}

impl Targets {
    /// The set of these targets, of which there are 1 to 8.
    pub fn of(list: &[Target]) -> Result<Targets, TargetsFault>
        ensures ok { IfOk result (λ targets. targets ≡ list.now) }
        ensures empty { (result ≡ Err TargetsFault.Empty) ↔ (length list.now ≡ 0) }
        ensures too_many { (result ≡ Err TargetsFault.TooMany) ↔ (TARGET_LIMIT < length list.now) }
    {
        if list.is_empty() {
            return Err(TargetsFault::Empty);
        }
        if list.len() > TARGET_LIMIT {
            return Err(TargetsFault::TooMany);
        }
        let mut targets = [Target(ExtComm([0; 8])); 8];
        let (front, _spare) = targets.split_at_mut(list.len());
        front.copy_from_slice(list);
        Ok(Targets {
            targets,
            len: list.len(),
        })
    }

    /// The targets, in the order in which they were given.
    pub fn as_slice(&self) -> &[Target]
        ensures value { result.now ≡ self.now }
        ensures some { 0 < length self.now }
    {
        &self.targets[..self.len]
    }

    /// Whether the target is one of the set.
    pub fn has(&self, target: Target) -> bool
        ensures value { result ≡ has self.now target }
        ensures member { IsTrue result ↔ Contains self.now target }
    {
        is_in(self.as_slice(), target)
    }
}

fn is_in(targets: &[Target], target: Target) -> bool
    ensures value { result ≡ has targets.now target }
    ensures member { IsTrue result ↔ Contains targets.now target }
{
    targets.iter().any(|own| target.same(*own))
}

fn all_in(a: &[Target], b: &[Target]) -> bool
    ensures { result ≡ list_all (has b.now) a.now }
{
    a.iter().all(|target| is_in(b, *target))
}

/// Whether the lists have the same members.
pub fn same_members(a: &[Target], b: &[Target]) -> bool
    ensures { result ≡ same a.now b.now }
{
    all_in(a, b) && all_in(b, a)
}

/// Whether the sets share a member.
pub fn shares(a: &Targets, b: &Targets) -> bool
    ensures value { result ≡ shares a.now b.now }
    ensures common { IsTrue result ↔ HasCommon a.now b.now }
{
    a.as_slice().iter().any(|target| b.has(*target))
}

/// Whether the sets have the same members.
pub fn same(a: &Targets, b: &Targets) -> bool
    ensures { result ≡ same a.now b.now }
{
    same_members(a.as_slice(), b.as_slice())
}
