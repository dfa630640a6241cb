//! The two causes for which places go. A place whose node clashes is dead without kids here; only
//! the certificate tells the two apart.

/// Why a place is gone.
#[derive(Clone, Copy, Drop)]
pub(crate) enum Cause {
    /// All its kids, of which there may be none, went before it.
    Dead,
    /// It waits for the until of this number, which its kids put off for ever.
    Wait(u16),
}
