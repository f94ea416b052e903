/// A section of a descriptor.
#[derive(Drop)]
pub struct Section {
    /// At most 31 bytes from `parse`. The section FMAP receives the table.
    pub name: Vec<u8>,
    /// Area flags. `parse` sets only 8 (preserve).
    pub flags: u16,
    /// In bytes from the parent's start, if explicit; for the root, the base address.
    pub offset: Option<u32>,
    /// In bytes, if explicit.
    pub size: Option<u32>,
    /// The sections in braces, in order.
    pub parts: Vec<Section>,
}
