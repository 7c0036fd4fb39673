//! The blocks of a pool, and which of them are free.
ghost use Rattle.std.specs.Prelude.{◌≡◌, ◌<◌, ◌+◌, ◌≤◌, None, IfOk, IfErr, IfSome};
ghost use Rattle.std.specs.FinMap as map;
ghost use Rattle.buf_pool.specs.Held.{held, AreHeld, IsLive, HasRoom, shared, given_back};

use crate::block::Block;
use crate::node::Node;
use mv_base::NoMemory;
use std::alloc::Global;
use std::marker::Model;

/// Buffers by name, each with its octets and its count. A block keeps its name, its index, for good. So many are free as
/// `spare` says: `free` names the first of them, and each names the next one.
#[derive(Drop)]
pub(crate) struct Table {
    alloc: Global,
    blocks: Vec<Block<Node, Global>>,
    free: usize,
    spare: usize,
}

impl Model for Table {
    ghost use Rattle.buf_pool.specs.Stock.{Stock, stock_code};

    ghost Value = { Stock };

    ghost coded = { stock_code };

    ghost use Rattle.std.specs.Prelude.{length};
    ghost use Rattle.buf_pool.specs.Table.{buffers, IsTable};

    ghost view = { λ p. record { held = buffers 0 p.blocks.items; blocks = length p.blocks.items } };

    ghost invariant = { λ p. IsTable p.blocks.items p.spare p.free };
}

impl Table {
    /// No buffers. It takes no memory.
    pub(crate) fn of(alloc: Global) -> Table
        ensures { result ≡ record { held = map.empty; blocks = 0 } }
    {
        Table {
            alloc,
            blocks: Vec::new(alloc),
            free: 0,
            spare: 0,
        }
    }

    /// A new buffer with these octets and that count, in a free block where there is one.
    pub(crate) fn put(&mut self, bytes: &[u8], copies: u32) -> Result<usize, NoMemory>
        requires { 0 < copies }
        ensures new { IfOk result (λ name. map.get self.old.held name ≡ None) }
        ensures put { IfOk result (λ name. self.new.held ≡ map.insert self.old.held name (held bytes.now copies)) }
        ensures again { map.len self.old.held < self.old.blocks → self.new.blocks ≡ self.old.blocks }
        ensures grown { self.new.blocks ≤ self.old.blocks + 1 }
        ensures unchanged { IfErr result (λ _. self.new ≡ self.old) }
    {
        let octets = Vec::from_slice(self.alloc, bytes)?;
        if self.spare == 0 {
            let name = self.blocks.len();
            let node = Node {
                count: copies,
                next: 0,
                octets,
            };
            let Ok(block) = Block::put(self.alloc, node) else {
                return Err(NoMemory);
            };
            self.blocks.push(block)?;
            return Ok(name);
        }
        let name = self.free;
        let node = self.blocks[name].share();
        node.count = copies;
        node.octets = octets;
        self.free = node.next;
        self.spare -= 1;
        Ok(name)
    }

    /// The octets of the buffer.
    pub(crate) fn get(&self, name: usize) -> &[u8]
        requires { IsLive self.now.held name }
        ensures { IfSome (map.get self.now.held name) (λ h. result.now ≡ h.octets) }
    {
        self.blocks[name].get().octets.as_slice()
    }

    /// So many more hold the buffer.
    pub(crate) fn share(&mut self, name: usize, more: u32)
        requires live { IsLive self.old.held name }
        requires room { HasRoom self.old.held name more }
        ensures { self.new ≡ record { held = shared self.old.held name more; blocks = self.old.blocks } }
    {
        self.blocks[name].share().count += more;
    }

    /// One fewer holds the buffer. It ends where none is left.
    pub(crate) fn give_back(&mut self, name: usize)
        requires { IsLive self.old.held name }
        ensures { self.new ≡ record { held = given_back self.old.held name; blocks = self.old.blocks } }
    {
        let node = self.blocks[name].share();
        node.count -= 1;
        if node.count == 0 {
            node.octets = Vec::new(self.alloc);
            node.next = self.free;
            self.free = name;
            self.spare += 1;
        }
    }

    /// How many buffers are live. Each is held by someone.
    pub(crate) fn live(&self) -> usize
        ensures live { result ≡ map.len self.now.held }
        ensures held { AreHeld self.now.held }
    {
        self.blocks.len() - self.spare
    }
}
