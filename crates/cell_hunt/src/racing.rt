//! The races of a run.

use crate::site::Sites;

/// Two steps of a run that race, by their places in the record, counted from 0, and where they come from.
#[derive(Clone, Copy)]
pub struct Racing {
    pub first: u32,
    pub second: u32,
    pub sites: Sites,
}
