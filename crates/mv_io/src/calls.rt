//! The numbers of the calls that fail.
ghost use Rattle.std.specs.Prelude.{◌≡◌, ◌≤◌, ◌↔◌, IsTrue, Contains};
ghost use Rattle.std.specs.Bool.{OnTrue, OnFalse};
ghost use Rattle.mv_io.specs.Causes.{next};

use mv_base::Seq;

/// Numbers of calls. The first call has the number 1, and the number of a call stays at 2 ^ 64 - 1 once it is there.
pub type CallNumbers = Seq<u64>;

/// The calls so far, those that fail, and how many did.
#[derive(Drop)]
pub(crate) struct Calls {
    made: u64,
    failing: CallNumbers,
    faults: u64,
}

impl Calls {
    pub(crate) fn of(failing: CallNumbers) -> Self
        ensures made { result.made ≡ 0 }
        ensures failing { result.failing ≡ failing }
        ensures faults { result.faults ≡ 0 }
    {
        Calls {
            made: 0,
            failing,
            faults: 0,
        }
    }

    /// Counts a call, and answers whether it is one that fails. The count of faults rises exactly there.
    pub(crate) fn fails(&mut self) -> bool
        ensures made { self.new.made ≡ next self.old.made }
        ensures chosen { IsTrue result ↔ Contains self.old.failing (next self.old.made) }
        ensures later { self.old.faults ≤ self.new.faults }
        ensures rose { OnTrue result (self.new.faults ≡ next self.old.faults) }
        ensures unchanged { OnFalse result (self.new.faults ≡ self.old.faults) }
        ensures same { self.new.failing ≡ self.old.failing }
    {
        self.made = self.made.saturating_add(1);
        let fails = self.failing.as_slice().contains(&self.made);
        if fails {
            self.faults = self.faults.saturating_add(1);
        }
        fails
    }
}
