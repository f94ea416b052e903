//! Printed names of the checks of an entry.
ghost use Rattle.std.specs.Prelude.{◌≡◌};
ghost use Rattle.flash_format.specs.DamageNames.{damage_name};

use crate::head::DamageKind;

impl DamageKind {
    /// Returns the printed name of the check, as in the refusal of a damaged entry.
    pub fn name(self) -> &'static str
        ensures { result.now ≡ damage_name self }
    {
        match self {
            DamageKind::Offset => "offset",
            DamageKind::AttrOffset => "attributes",
            DamageKind::Extent => "extent",
            DamageKind::Name => "name",
            DamageKind::AttrLength => "attribute length",
        }
    }
}
