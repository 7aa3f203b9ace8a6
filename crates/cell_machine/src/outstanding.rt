//! What is shown of a queued command that isn't complete.

use mfc_command::Command;
use mfc_lists::Element;

/// A queued command that isn't complete, and how far it has come.
#[derive(Clone, Copy, Debug, PartialEq, Eq)]
pub struct Outstanding {
    /// Its number, which is how many were issued to that queue before it.
    pub number: u32,
    pub command: Command,
    /// How many elements of a list were read; 0 of every other command.
    pub read: u16,
    /// The element of a list that is in progress.
    pub element: Option<Element>,
    /// How many parts it has, or of a list the element that was read last, and how many of these aren't done.
    pub parts: u32,
    pub left: u32,
    /// Whether the list waits for an acknowledgement.
    pub stalled: bool,
}
