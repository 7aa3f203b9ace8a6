//! The steps with which the processors of a run end.

use crate::site::Site;

/// A step with which a processor ceases to run, by its place in the record, counted from 0, and where it comes from.
#[derive(Clone, Copy)]
pub struct Ended {
    pub step: u32,
    pub site: Site,
}
