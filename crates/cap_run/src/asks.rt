//! What a judge asks of freed objects, and of authorities that no object owns.

/// What a judge asks beyond what every run keeps.
#[derive(Debug, Clone, Copy, PartialEq, Eq)]
pub struct Asks {
    /// That a new extent shares no address with that of a freed object that a place holds (`StillHeld`).
    pub held: bool,
    /// That no freed object owns the authority of an access (`OwnerFreed`).
    pub used: bool,
    /// That an access through an authority without owner touches no byte of a live object (`NotOwned`).
    pub owned: bool,
}
