// The channels by their numbers.
ghost use Rattle.std.specs.Prelude.{◌≡◌, Some};
ghost use Rattle.cell_channels.specs.Table.{way_of};

use crate::ways::Way;

pub const SPU_RD_EVENT_STAT: u8 = 0;

pub const SPU_WR_EVENT_MASK: u8 = 1;

pub const SPU_WR_EVENT_ACK: u8 = 2;

pub const SPU_RD_SIG_NOTIFY_1: u8 = 3;

pub const SPU_RD_SIG_NOTIFY_2: u8 = 4;

pub const SPU_RD_EVENT_MASK: u8 = 11;

pub const MFC_RD_TAG_MASK: u8 = 12;

pub const MFC_LSA: u8 = 16;

pub const MFC_EAH: u8 = 17;

pub const MFC_EAL: u8 = 18;

pub const MFC_SIZE: u8 = 19;

pub const MFC_TAG_ID: u8 = 20;

pub const MFC_CMD: u8 = 21;

pub const MFC_WR_TAG_MASK: u8 = 22;

pub const MFC_WR_TAG_UPDATE: u8 = 23;

pub const MFC_RD_TAG_STAT: u8 = 24;

pub const MFC_RD_LIST_STALL_STAT: u8 = 25;

pub const MFC_WR_LIST_STALL_ACK: u8 = 26;

pub const MFC_RD_ATOMIC_STAT: u8 = 27;

pub const SPU_WR_OUT_MBOX: u8 = 28;

pub const SPU_RD_IN_MBOX: u8 = 29;

pub const SPU_WR_OUT_INTR_MBOX: u8 = 30;

/// The way of a channel, or None exactly where there is no such channel.
#[tactic(auto, unfolding(crate::specs::Table::way_of))]
pub fn way(ch: u8) -> Option<Way>
    ensures { result ≡ way_of ch }
{
    match ch {
        SPU_RD_EVENT_STAT => Some(Way::Read),
        SPU_WR_EVENT_MASK => Some(Way::Write),
        SPU_WR_EVENT_ACK => Some(Way::Write),
        SPU_RD_SIG_NOTIFY_1 => Some(Way::Read),
        SPU_RD_SIG_NOTIFY_2 => Some(Way::Read),
        SPU_RD_EVENT_MASK => Some(Way::Read),
        MFC_RD_TAG_MASK => Some(Way::Read),
        MFC_LSA => Some(Way::Write),
        MFC_EAH => Some(Way::Write),
        MFC_EAL => Some(Way::Write),
        MFC_SIZE => Some(Way::Write),
        MFC_TAG_ID => Some(Way::Write),
        MFC_CMD => Some(Way::Write),
        MFC_WR_TAG_MASK => Some(Way::Write),
        MFC_WR_TAG_UPDATE => Some(Way::Write),
        MFC_RD_TAG_STAT => Some(Way::Read),
        MFC_RD_LIST_STALL_STAT => Some(Way::Read),
        MFC_WR_LIST_STALL_ACK => Some(Way::Write),
        MFC_RD_ATOMIC_STAT => Some(Way::Read),
        SPU_WR_OUT_MBOX => Some(Way::Write),
        SPU_RD_IN_MBOX => Some(Way::Read),
        SPU_WR_OUT_INTR_MBOX => Some(Way::Write),
        _ => None,
    }
}
