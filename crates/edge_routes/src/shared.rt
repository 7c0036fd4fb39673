//! Values that several have.
ghost use Rattle.std.specs.Prelude.{◌≡◌, IfOk};

use mv_base::NoMemory;
use std::alloc::{AllocError, Global};
use std::cmp::Ordering;
use std::marker::Model;
use std::rc::Rc;

/// A value that several have, and that is in memory once. Contracts see the value.
#[derive(Drop)]
pub struct Shared<T: Drop> {
    inner: Rc<T>,
}

impl<T: Drop> Model for Shared<T> {
    ghost Value = { T };

    ghost view = { λ s. s.inner.value };
}

impl<T: Drop> Shared<T> {
    /// The value, which nobody else has yet.
    pub fn of(alloc: Global, value: T) -> Result<Shared<T>, NoMemory>
        ensures { IfOk result (λ shared. shared ≡ value) }
    {
        match Rc::new(alloc, value) {
            Ok(inner) => Ok(Shared { inner }),
            Err(_) => Err(NoMemory),
        }
    }

    /// The same value, for one more.
    pub fn share(&self) -> Result<Shared<T>, NoMemory>
        ensures { IfOk result (λ shared. shared ≡ self.now) }
    {
        match self.inner.clone() {
            Ok(inner) => Ok(Shared { inner }),
            Err(_) => Err(NoMemory),
        }
    }

    /// The value.
    pub fn lent(&self) -> &T
        ensures { result.now ≡ self.now }
    {
        self.inner.as_ref()
    }
}

impl<T: Drop> Clone for Shared<T> {
    ghost is_clone = { λ own copy. copy ≡ own };

    fn clone(&self) -> Result<Shared<T>, AllocError> {
        let inner = self.inner.clone()?;
        Ok(Shared { inner })
    }
}

impl<T: PartialEq + Drop> PartialEq for Shared<T> {
    ghost eq = { T.eq };

    ghost laws = { T.laws };

    fn eq(&self, other: &Shared<T>) -> bool {
        self.lent() == other.lent()
    }
}

impl<T: Eq + Drop> Eq for Shared<T> {
    ghost laws = { T.Eq.laws };
}

impl<T: PartialOrd + Drop> PartialOrd for Shared<T> {
    ghost partial_cmp = { T.partial_cmp };

    ghost laws = { T.PartialOrd.laws };

    fn partial_cmp(&self, other: &Shared<T>) -> Option<Ordering> {
        self.lent().partial_cmp(other.lent())
    }
}

impl<T: Ord + Drop> Ord for Shared<T> {
    ghost cmp = { T.cmp };

    ghost total = { T.total };

    ghost matches_partial_cmp = { T.matches_partial_cmp };

    ghost matches_eq = { T.matches_eq };

    fn cmp(&self, other: &Shared<T>) -> Ordering {
        self.lent().cmp(other.lent())
    }
}
