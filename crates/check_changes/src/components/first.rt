//! The first component of each name.
ghost use Rattle.std.specs.Prelude.{◌≡◌, ◌∷◌, List, All, IfOk, IfSome, OnOk, option_copied};
ghost use Rattle.std.proofs.Props.{props};
ghost use Rattle.check_changes.specs.Components.{first_of, is_first_of};
ghost use Rattle.check_changes.specs.Components.{IsListedIn, HasFirstComponents};
ghost use Rattle.check_changes.specs.declared.components.listing.Listed.{Listed};

use crate::components::listing::Listed;
use flash_device::Region;
use std::alloc::{AllocError, Global};
use std::collections::HashMap;
use std::hash::RandomState;

/// Components by name, hashed with random keys, since an image's author chooses names.
pub type Firsts<'a> = HashMap<&'a [u8], &'a Listed, RandomState>;

/// The components of a region, and the first of each name.
#[derive(Drop)]
pub struct Listing<'a> {
    pub region: Region,
    pub all: &'a [Listed],
    first: Firsts<'a>,
    ghost notes: { HasFirstComponents first all.now } by { Prim.hlevel props },
    ghost cells: { All (IsListedIn region.size) all.now } by { Prim.hlevel props },
}

impl<'a> Listing<'a> {
    /// Returns the first component with this component's name.
    pub fn namesake(&self, listed: &'a Listed) -> Option<&'a Listed>
        ensures first { option_copied result ≡ first_of listed.now.name self.now.all.now }
        ensures listed { IfSome result (λ l. IsListedIn self.now.region.size l.now) }
    {
        self.first.get(listed.name.as_slice()).copied()
    }

    /// Returns whether the component is the first of its name.
    pub fn is_first(&self, listed: &'a Listed) -> bool
        ensures { result ≡ is_first_of self.now.all.now listed.now }
    {
        self.namesake(listed)
            .is_some_and(|first| first.cell.at == listed.cell.at)
    }
}

/// Returns the listing of these components.
pub fn with_firsts<'a>(
    alloc: Global,
    keys: RandomState,
    region: Region,
    all: &'a [Listed],
) -> Result<Listing<'a>, AllocError>
    requires { All (IsListedIn region.size) all.now }

    ensures { IfOk result (λ l. (l.region ≡ region) × (l.all.now ≡ all.now)) }
{
    let mut left = all.len();
    let mut first = HashMap::with_capacity_and_hasher(alloc, left, keys)?;
    // Backwards: the first component replaces later namesakes.
    while left > 0 {
        left -= 1;
        let listed = &all[left];
        first.insert(listed.name.as_slice(), listed)?;
    }
    Ok(Listing { region, all, first })
}
