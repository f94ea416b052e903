//! Changes of components.
use check_findings::Name;

/// A difference between a component and the first old component of its name. At most one of `Type`,
/// `Length`, `Content` and `Attributes` is reported: the first.
#[derive(Clone, Copy)]
pub enum ComponentDifference {
    Added,
    Removed,
    Type,
    Length,
    /// The stored contents.
    Content,
    /// The bytes between name and content.
    Attributes,
    /// The old offset. Another difference comes first.
    MovedFrom(u64),
}

/// A change of a component. Offsets count from the start of its region, in bytes.
#[derive(Drop)]
pub struct ComponentChange {
    /// The new offset, or the old one of a removed component.
    pub at: u64,
    pub name: Name,
    pub what: ComponentDifference,
}
