//! The ends of a node's sessions.
ghost use Rattle.std.specs.Prelude.{◌≡◌, ◌<◌, ◌^◌, true, Some, count_by, IfOk, OnOk};
ghost use Rattle.std.specs.FinMap as maps;
ghost use Rattle.mldp.specs.mldp_msgs.Spelling.{IsWritable, IsRouter};
ghost use Rattle.label_defs.specs.LabelData.{is_hold_due};
ghost use Rattle.label_defs.specs.Node.{raises_of, waiting_for, one_more};
ghost use Rattle.label_defs.specs.Steps.{holds_run, hold_run};
ghost use Rattle.mldp_node.specs.label_ends.Ends.{all_down, with_raise, without_end, with_put, told_over};

use crate::label_ends::end_maps::{
    Raises, UpEnds, Waiting, append, change, count_at, count_due, forget, is_hold_due, one_more,
    take, told,
};
use indexmap::IndexMap;
use label_defs::{End, Put};
use mldp::mldp_msgs::encode;
use mv_base::{Addr, Bytes, NoMemory, NodeId};
use std::alloc::Global;
use std::marker::Model;

/// The ends of a node's LDP sessions, by neighbour, with the octets that wait to be handed to them.
///
/// After want of memory nothing is said of what it has.
#[derive(Drop)]
pub struct Ends {
    alloc: Global,
    up: UpEnds,
    raises: Raises,
    waiting: Waiting,
}

impl Model for Ends {
    ghost use Rattle.std.specs.FinMap as maps;
    ghost use Rattle.indexmap.specs.IndexMap.{IsUnique};
    ghost use Rattle.mldp_node.specs.label_ends.Ends.{Ends, ends_code};
    ghost use Rattle.mldp_node.specs.label_ends.Maps.{is_node};

    ghost Value = { Ends };

    ghost coded = { ends_code };

    ghost view = { λ e. record {
      up = maps.from_entries e.up.entries;
      raises = maps.from_entries e.raises.entries;
      waiting = maps.from_entries e.waiting.entries;
    } };

    ghost invariant = { λ e. IsUnique is_node e.up };
}

impl Ends {
    /// All ends are down, and nothing waits. It takes no memory.
    pub fn of(alloc: Global) -> Ends
        ensures { result ≡ all_down }
    {
        Ends {
            alloc,
            up: IndexMap::new(alloc),
            raises: IndexMap::new(alloc),
            waiting: IndexMap::new(alloc),
        }
    }

    /// The end of the session with the neighbour comes up, and its hold was not run. It answers how often it came up.
    pub fn raise(&mut self, peer: NodeId, now: u64) -> Result<u64, NoMemory>
        ensures count { IfOk result (λ count. count ≡ one_more (raises_of self.old.raises peer)) }
        ensures raised { OnOk result (self.new ≡ with_raise peer now self.old) }
    {
        let count = one_more(count_at(&self.raises, peer));
        self.raises.insert(peer, count)?;
        self.up.insert(
            peer,
            End {
                raised: now,
                held: false,
                next: 1,
            },
        )?;
        Ok(count)
    }

    /// The end notices the loss of its session: it is down, and what waits for it is dropped. It takes no memory.
    pub fn lose(&mut self, peer: NodeId)
        ensures { self.new ≡ without_end peer self.old }
    {
        forget(&mut self.up, peer);
        let _ = take(&mut self.waiting, self.alloc, peer);
    }

    /// Tells the message, where its end is up: with its next id, in a PDU of its own after what waits.
    pub fn tell(&mut self, addr: Addr, put: &Put) -> Result<(), NoMemory>
        requires writable { IsWritable put.now.message }
        requires router { IsRouter addr }
        ensures { OnOk result (self.new ≡ with_put addr self.old put.now) }
    {
        match self.end(put.to) {
            None => Ok(()),
            Some(end) => self.tell_over(addr, put, end),
        }
    }

    /// The end of the session with the neighbour, where it is up. It takes no memory.
    pub fn end(&self, peer: NodeId) -> Option<End>
        ensures { result ≡ maps.get self.now.up peer }
    {
        self.up.get(&peer).copied()
    }

    /// How many holds are due. It takes no memory.
    pub fn due(&self, life: u64, now: u64) -> u64
        ensures value { result ≡ count_by (is_hold_due life now) (maps.values self.now.up) }
        ensures few { result < 2 ^ 63 }
    {
        count_due(self.up.values().as_slice(), life, now)
    }

    /// Runs each hold that is due. It takes no memory.
    pub fn run_holds(&mut self, life: u64, now: u64)
        ensures { self.new ≡ record self.old { up = holds_run life now self.old.up } }
    {
        self.up.retain(
            |_peer: &NodeId, end: &mut End| -> bool
                ensures { (result ≡ true) × (end.new ≡ hold_run life now end.old) }
            {
                end.held = end.held || is_hold_due(life, now, end);
                true
            },
        );
    }

    /// All that waits for the neighbour is handed out. It takes no memory.
    pub fn take_out(&mut self, peer: NodeId) -> Bytes
        ensures octets { result ≡ waiting_for self.old.waiting peer }
        ensures rest { self.new ≡ record self.old { waiting = maps.remove self.old.waiting peer } }
    {
        take(&mut self.waiting, self.alloc, peer)
    }

    fn tell_over(&mut self, addr: Addr, put: &Put, end: End) -> Result<(), NoMemory>
        requires writable { IsWritable put.now.message }
        requires router { IsRouter addr }
        requires up { maps.get self.old.up put.now.to ≡ Some end }
        ensures { OnOk result (self.new ≡ told_over addr self.old put.now end) }
    {
        let octets = encode(self.alloc, addr, end.next, &put.message)?;
        append(&mut self.waiting, self.alloc, put.to, octets.as_slice())?;
        change(&mut self.up, put.to, told(end));
        Ok(())
    }
}
