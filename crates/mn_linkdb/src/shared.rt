ghost use Rattle.std.specs.Prelude.{◌≡◌, IfOk};

use std::alloc::{AllocError, Global};
use std::marker::Model;
use std::rc::Rc;

/// A list that several own, and that stays as it is. Contracts see the list of its elements.
#[derive(Drop)]
pub struct SharedList<T> {
    elements: Rc<Vec<T>>,
}

impl<T> Model for SharedList<T> {
    ghost use Rattle.std.specs.Prelude.{List};

    ghost Value = { List T };

    ghost view = { λ l. l.elements.value.items };
}

impl<T: Drop> SharedList<T> {
    /// The list of a vector's elements, with one owner.
    pub fn from_vec(alloc: Global, elements: Vec<T>) -> Result<SharedList<T>, AllocError>
        ensures { IfOk result (λ list. list ≡ elements.items) }
    {
        match Rc::new(alloc, elements) {
            Ok(elements) => Ok(SharedList { elements }),
            Err(_) => Err(AllocError),
        }
    }

    /// The same list, with one owner more. It copies no element.
    pub fn share(&self) -> Result<SharedList<T>, AllocError>
        ensures { IfOk result (λ list. list ≡ self.now) }
    {
        let elements = self.elements.clone()?;
        Ok(SharedList { elements })
    }
}

impl<T> SharedList<T> {
    /// The elements in order.
    pub fn as_slice(&self) -> &[T]
        ensures { result.now ≡ self.now }
    {
        &self.elements
    }
}
