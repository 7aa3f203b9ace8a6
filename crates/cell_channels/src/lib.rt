//! The channels of a processor: their ways and counts, the parameters of the next command, the atomic slot and the stall status.
#![tactic(auto)]

mod channels;
mod numbers;
mod ways;

pub use channels::{BadChannel, Channels, Counts, NotReady, SlotTaken};
pub use numbers::{
    MFC_CMD, MFC_LSA, MFC_RD_ATOMIC_STAT, MFC_RD_LIST_STALL_STAT, MFC_RD_TAG_MASK, MFC_RD_TAG_STAT,
    MFC_TAG_ID, MFC_WR_LIST_STALL_ACK, MFC_WR_TAG_MASK, MFC_WR_TAG_UPDATE, SPU_RD_EVENT_MASK,
    SPU_RD_EVENT_STAT, SPU_RD_IN_MBOX, SPU_RD_SIG_NOTIFY_1, SPU_RD_SIG_NOTIFY_2, SPU_WR_EVENT_ACK,
    SPU_WR_EVENT_MASK, SPU_WR_OUT_INTR_MBOX, SPU_WR_OUT_MBOX, way,
};
pub use ways::Way;
