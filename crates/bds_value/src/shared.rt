//! A value that several may hold, and that contracts see as the value.
ghost use Rattle.std.specs.Prelude.{◌≡◌, IfOk, IfErr};

use crate::listed::NoMemory;
use std::alloc::Global;
use std::marker::Model;
use std::rc::Rc;

/// An `Rc` that contracts see as its value, so that a share equals what it shares.
#[derive(Debug, Drop)]
pub struct Shared<T> {
    inner: Rc<T>,
}

impl<T> Model for Shared<T> {
    ghost Value = { T };

    ghost coded = { T.code };

    ghost view = { λ s. s.inner.value };
}

impl<T> Shared<T> {
    pub fn get(&self) -> &T
        ensures { result.now ≡ self.now }
    {
        self.inner.as_ref()
    }

    /// Whether this is the only holder.
    pub fn is_only(&self) -> bool {
        Rc::strong_count(&self.inner) == 1
    }

    /// The value, where this is the only holder.
    pub fn into_inner(self) -> Result<T, Shared<T>>
        ensures ok { IfOk result (λ value. value ≡ self) }
        ensures err { IfErr result (λ shared. shared ≡ self) }
    {
        let Shared { inner } = self;
        match Rc::try_unwrap(inner) {
            Ok(value) => Ok(value),
            Err(inner) => Err(Shared { inner }),
        }
    }
}

impl<T> Shared<T> {
    ghost use Rattle.std.specs.Prelude.{◌≡◌, IfSome};
    ghost use Rattle.std.specs.Borrow.{sem};
    ghost use Rattle.bds_value.specs.Lending.{LendsHeld};

    /// The value for writing, where this is the only holder.
    pub fn get_mut(&mut self) -> Option<&mut T>
        ensures* writes_back { sem 𝓛 (LendsHeld T.row self.entry result) }
        ensures value { IfSome result (λ x. x.now ≡ self.old) }
    {
        Rc::get_mut(&mut self.inner)
    }
}

impl<T: Drop> Shared<T> {
    pub fn of(alloc: Global, value: T) -> Result<Shared<T>, NoMemory>
        ensures { IfOk result (λ s. s ≡ value) }
    {
        match Rc::new(alloc, value) {
            Ok(inner) => Ok(Shared { inner }),
            Err(_) => Err(NoMemory),
        }
    }

    /// One more holder of the value.
    pub fn share(&self) -> Result<Shared<T>, NoMemory>
        ensures { IfOk result (λ s. s ≡ self.now) }
    {
        match self.inner.clone() {
            Ok(inner) => Ok(Shared { inner }),
            Err(_) => Err(NoMemory),
        }
    }
}
