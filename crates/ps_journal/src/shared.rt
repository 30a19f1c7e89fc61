//! Values with several owners, seen as what they are.
ghost use Rattle.std.specs.Prelude.{◌≡◌, IfOk};
ghost use Rattle.std.specs.Arc.{arc_value};

use std::alloc::{AllocError, Global};
use std::marker::Model;
use std::sync::Arc;

/// A value that has several owners, in any threads. Clauses see the value.
#[derive(Drop)]
pub struct Shared<T> {
    arc: Arc<T>,
}

impl<T> Model for Shared<T> {
    ghost use Rattle.std.specs.Arc.{arc_value};

    ghost Value = { T };

    ghost coded = { T.code };

    ghost view = { λ s. arc_value s.arc };
}

impl<T: Drop> Shared<T> {
    /// The value, to be shared. Takes memory.
    pub fn new(alloc: Global, value: T) -> Result<Shared<T>, AllocError>
        ensures { IfOk result (λ s. s ≡ value) }
    {
        let arc = Arc::new(alloc, value)?;
        Ok(Shared { arc })
    }
}

impl<T> Shared<T> {
    /// The value of an `Arc`. Takes no memory.
    pub fn of(arc: Arc<T>) -> Shared<T>
        ensures { result ≡ arc_value arc }
    {
        Shared { arc }
    }

    /// One owner more.
    pub fn share(&self) -> Result<Shared<T>, AllocError>
        ensures { IfOk result (λ s. s ≡ self.now) }
    {
        let arc = Arc::try_clone(&self.arc)?;
        Ok(Shared { arc })
    }

    /// The `Arc` that holds the value. Takes no memory.
    pub fn as_arc(&self) -> &Arc<T>
        ensures { arc_value result.now ≡ self.now }
    {
        &self.arc
    }

    /// The value.
    pub fn get(&self) -> &T
        ensures { result.now ≡ self.now }
    {
        &self.arc
    }
}
