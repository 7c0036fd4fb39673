//! Shared buffers of octets, each with a count of those who hold it.
ghost use Rattle.std.specs.Prelude.{◌≡◌, ◌<◌, ◌+◌, ◌^◌, None, IfOk, IfErr, IfSome};
ghost use Rattle.std.specs.FinMap as map;
ghost use Rattle.buf_pool.specs.Held.{held, AreHeld, IsLive, HasRoom, shared, given_back};

use crate::table::Table;
use mv_base::NoMemory;
use std::alloc::Global;
use std::marker::Model;

/// The name of a buffer in its pool. A name that has ended is given to a later buffer.
#[derive(Clone, Copy, Debug, PartialEq, Eq)]
pub struct Buf {
    name: usize,
}

impl Model for Buf {
    ghost use Rattle.std.specs.Prelude.{ℕ};

    ghost Value = { ℕ };

    ghost view = { λ b. b.name };

    ghost inverse = { λ n. record { name = n } };
}

/// Live buffers by name, each with its octets and how many hold it. All memory goes back when the pool ends.
#[derive(Drop)]
pub struct Pool {
    table: Table,
}

impl Model for Pool {
    ghost use Rattle.buf_pool.specs.Held.{Buffers, buffers_code};

    ghost Value = { Buffers };

    ghost coded = { buffers_code };

    ghost view = { λ p. p.table.held };
}

impl Pool {
    /// A pool with no buffer. It takes no memory.
    pub fn of(alloc: Global) -> Pool
        ensures { result ≡ map.empty }
    {
        Pool {
            table: Table::of(alloc),
        }
    }

    /// A new buffer with these octets, which so many hold.
    pub fn put(&mut self, bytes: &[u8], copies: u32) -> Result<Buf, NoMemory>
        requires { 0 < copies }
        ensures new { IfOk result (λ buf. map.get self.old buf ≡ None) }
        ensures put { IfOk result (λ buf. self.new ≡ map.insert self.old buf (held bytes.now copies)) }
        ensures unchanged { IfErr result (λ _. self.new ≡ self.old) }
    {
        let name = self.table.put(bytes, copies)?;
        Ok(Buf { name })
    }

    /// The octets of the buffer.
    pub fn get(&self, buf: &Buf) -> &[u8]
        requires { IsLive self.now buf.now }
        ensures { IfSome (map.get self.now buf.now) (λ h. result.now ≡ h.octets) }
    {
        self.table.get(buf.name)
    }

    /// So many more hold the buffer.
    pub fn share(&mut self, buf: &Buf, more: u32)
        requires live { IsLive self.old buf.now }
        requires room { HasRoom self.old buf.now more }
        ensures { self.new ≡ shared self.old buf.now more }
    {
        self.table.share(buf.name, more);
    }

    /// One fewer holds the buffer. It ends where none is left.
    pub fn give_back(&mut self, buf: &Buf)
        requires { IsLive self.old buf.now }
        ensures { self.new ≡ given_back self.old buf.now }
    {
        self.table.give_back(buf.name);
    }

    /// How many buffers are live. Each is held by someone.
    pub fn live(&self) -> usize
        ensures live { result ≡ map.len self.now }
        ensures held { AreHeld self.now }
    {
        self.table.live()
    }
}
