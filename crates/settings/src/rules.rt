//! What the unit does of its own accord as legs begin and end.

/// What the unit does of its own accord as legs begin and end; nothing, unless the settings say otherwise.
#[derive(Clone, Copy, PartialEq, Eq)]
pub struct LegRules {
    /// Whether a leg that begins, or is switched on, asks its publisher for a picture at once (a PLI, RFC 4585, section 6.3.1).
    pub early_pictures: bool,
    /// Whether the subscriber of a leg is told when its publisher is gone (a BYE of the leg's source, RFC 3550, section 6.6).
    pub leg_goodbyes: bool,
}
