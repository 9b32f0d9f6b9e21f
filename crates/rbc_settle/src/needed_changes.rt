//! The changes that bring a train up to date.

use crate::change::{LimitChange, StopChange};

/// What has to be done to a train: first the changes to its stop identifiers, then those to its restriction
/// identifiers.
#[derive(Drop)]
pub struct Changes {
    pub stops: Vec<StopChange>,
    pub limits: Vec<LimitChange>,
}
