//! Lists.
ghost use Rattle.std.specs.Prelude.{◌≡◌, [], ◌∷◌};
ghost use Rattle.check_findings.specs.Lists.{Gains, only_if};

use std::alloc::AllocError;
use std::marker::Model;

/// A success, or an allocation failure.
pub type Pushed = Result<(), AllocError>;

/// Appends an element. Returns an error if an allocation failed; the list is then unspecified.
pub fn push<T: Drop>(list: &mut Vec<T>, element: T) -> Pushed
    ensures { Gains list.old list.new result (element ∷ []) }
{
    list.push(element)?;
    Ok(())
}

/// Appends an element if the condition holds, like `push`.
pub fn push_if<T: Drop>(list: &mut Vec<T>, condition: bool, element: T) -> Pushed
    ensures { Gains list.old list.new result (only_if condition element) }
{
    if condition {
        list.push(element)?;
    }
    Ok(())
}

/// Elements of an enum's variant. Contracts see only the elements.
#[derive(Drop)]
pub struct Elements<T: Drop> {
    elements: Vec<T>,
}

impl<T: Drop> Model for Elements<T> {
    ghost use Rattle.std.specs.Prelude.{List};

    ghost Value = { List T };

    ghost view = { λ n. n.elements.items };
}

impl<T: Drop> Elements<T> {
    /// Wraps these elements.
    pub fn new(elements: Vec<T>) -> Elements<T>
        ensures { result ≡ elements.items }
    {
        Elements { elements }
    }

    /// Returns the elements in order.
    pub fn as_slice(&self) -> &[T]
        ensures { result.now ≡ self.now }
    {
        self.elements.as_slice()
    }
}
