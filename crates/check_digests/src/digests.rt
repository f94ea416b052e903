//! The digests of a component.
ghost use Rattle.std.specs.Prelude.{IfOk};
ghost use Rattle.std.specs.Prelude.{option_copied, ◌≡◌};

use flash_format::Digest;
use std::alloc::{AllocError, Global};
use std::boxed::Box;
use std::marker::Model;

/// The digests of a component. The stored digest has its own memory, because most components of a
/// large listing have none.
#[derive(Drop)]
pub struct ComponentDigests {
    stored: Option<Box<Digest>>,
    content: [u8; 32],
}

impl Model for ComponentDigests {
    ghost use Rattle.std.specs.Option.{option_map};
    ghost use Rattle.check_digests.specs.Digests.{SeenDigests};

    ghost Value = { SeenDigests };

    ghost view = { λ d. record {
      stored = option_map (λ b. b.value) d.stored;
      content = d.content;
    } };
}

impl ComponentDigests {
    /// Makes the digests of a component from the stored digest, if any, and SHA-256 of its content.
    pub(crate) fn new(
        alloc: Global,
        stored: Option<Digest>,
        content: [u8; 32],
    ) -> Result<ComponentDigests, AllocError>
        ensures { IfOk result (λ digests.
            digests ≡ record { stored = stored; content = content }) }
    {
        let stored = match stored {
            Some(digest) => Some(Box::new(alloc, digest)?),
            None => None,
        };
        Ok(ComponentDigests { stored, content })
    }

    /// Returns the digest in the first hash attribute, or `None` if the component has none of
    /// SHA-256 or SHA-512.
    pub fn stored(&self) -> Option<&Digest>
        ensures { option_copied result ≡ self.now.stored }
    {
        self.stored.as_deref()
    }

    /// Returns SHA-256 of the content, as it is stored.
    pub fn content(&self) -> &[u8]
        ensures { result.now ≡ self.now.content }
    {
        &self.content
    }
}
