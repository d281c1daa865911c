//! A vector that contracts see as the list of its elements.
//!
//! Contracts that compare values would see a `Vec` with its capacity and its place in memory. A
//! type that they compare keeps a `Listed` instead. It is made from a vector and gives it back
//! without taking memory.
#![tactic(auto)]

ghost use Rattle.std.specs.Prelude.{◌≡◌, length};

use std::marker::Model;

/// A vector of `T`, seen as the list of its elements.
#[derive(Debug, Drop)]
pub struct Listed<T> {
    items: Vec<T>,
}

impl<T> Model for Listed<T> {
    ghost use Rattle.std.specs.Prelude.{List};

    ghost Value = { List T };

    ghost view = { λ a. a.items.items };
}

impl<T> Listed<T> {
    /// The elements of `items`, in order.
    pub fn of(items: Vec<T>) -> Self
        ensures { result ≡ items.items }
    {
        Listed { items }
    }

    /// The elements, in order.
    pub fn as_slice(&self) -> &[T]
        ensures { result.now ≡ self.now }
    {
        self.items.as_slice()
    }

    /// Gives the vector back.
    pub fn into_vec(self) -> Vec<T>
        ensures { result.items ≡ self }
    {
        self.items
    }
}
