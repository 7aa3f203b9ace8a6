//! A lost value.

/// Which value is lost.
#[derive(Clone, Copy, Debug, PartialEq, Eq)]
pub enum LossKind {
    /// The value of a signal register in overwrite mode (CBEA, "SPU signal notification").
    Signal {
        /// The processor whose register it is.
        spe: u8,
        /// Which of its registers, 1 or 2.
        register: u8,
    },
    /// The atomic status of a PUTLLC that stored nothing, because its reservation was lost.
    FailedStore {
        /// The processor that issued the PUTLLC.
        spe: u8,
    },
    /// A tag status (CBEA, "Tag-group status").
    TagStatus {
        /// The processor that requested the status.
        spe: u8,
    },
}

/// A value that no step of the run reads.
#[derive(Clone, Copy, Debug, PartialEq, Eq)]
pub struct Loss {
    /// Which value it is.
    pub kind: LossKind,
    /// The place in the run of the step that set the value, from 0.
    pub lost: u32,
    /// The place of the step that replaced it. `None` if the run ends first, which is reported of a `FailedStore` only.
    pub by: Option<u32>,
}
