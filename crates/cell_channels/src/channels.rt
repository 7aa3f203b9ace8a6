// The state behind the channels, but for the queue, the tags and the mailboxes.
ghost use Rattle.std.specs.Prelude.{◌≡◌, ◌≤◌, ◌<◌, ◌^◌, Some, None, if◌then◌else◌, IfOk, OnErr, OnOk, is_ok, is_some, is_none, not, ◌==◌, bit_or};
ghost use Rattle.cell_channels.specs.Table.{way_of};
ghost use Rattle.cell_channels.specs.State.{opening_channels, with_param, count_of};

use crate::numbers::{
    MFC_CMD, MFC_EAH, MFC_EAL, MFC_LSA, MFC_RD_ATOMIC_STAT, MFC_RD_LIST_STALL_STAT,
    MFC_RD_TAG_STAT, MFC_SIZE, SPU_RD_EVENT_STAT, SPU_RD_IN_MBOX, SPU_RD_SIG_NOTIFY_1,
    SPU_RD_SIG_NOTIFY_2, SPU_WR_OUT_INTR_MBOX, SPU_WR_OUT_MBOX, way,
};
use mfc_command::{AtomicOp, Params};

/// There is no such channel.
#[derive(Clone, Copy, Debug, PartialEq, Eq)]
pub struct BadChannel;

/// The atomic slot has a command already.
#[derive(Clone, Copy, Debug, PartialEq, Eq)]
pub struct SlotTaken;

/// The channel's count is 0.
#[derive(Clone, Copy, Debug, PartialEq, Eq)]
pub struct NotReady;

/// What the counts of some channels are taken from.
#[derive(Clone, Copy, Debug, PartialEq, Eq)]
pub struct Counts {
    /// How many places of the queue are free.
    pub free: u32,
    /// Whether a tag status is fixed and unread.
    pub tags: bool,
    /// How many values the inbound mailbox has.
    pub inbound: u32,
    /// How many places of the outbound mailbox are free.
    pub outbound: u32,
    /// How many places of the outbound interrupt mailbox are free.
    pub intr: u32,
    /// Whether signal register 1 is ready.
    pub sig1: bool,
    /// Whether signal register 2 is ready.
    pub sig2: bool,
    /// Whether the event status isn't 0.
    pub event: bool,
}

/// The parameters of the next command, the atomic slot, and the statuses of atomic commands and of stalled lists.
#[derive(Clone, Copy, Debug, PartialEq, Eq)]
pub struct Channels {
    params: Params,
    /// The atomic command that was issued and not yet done.
    slot: Option<AtomicOp>,
    /// The unread status of the latest atomic command that was done.
    atomic: Option<u32>,
    /// The tag groups with an unread stall, where group t is bit value 2^t.
    stalls: u32,
}

impl Channels {
    /// Parameters that are all 0, a free slot and no status.
    pub fn new() -> Channels
        ensures { result ≡ opening_channels }
    {
        let params = Params {
            lsa: 0,
            eah: 0,
            eal: 0,
            size: 0,
            tag: 0,
        };
        Channels {
            params,
            slot: None,
            atomic: None,
            stalls: 0,
        }
    }

    /// The parameters of a command, as they stand.
    pub fn params(&self) -> Params
        ensures { result ≡ self.now.params }
    {
        self.params
    }

    /// Sets the parameter of a channel from 16 to 20 (CBEA, "MFC commands"), and leaves all else.
    pub fn set_param(&mut self, ch: u8, value: u32)
        requires { (16 ≤ ch) × (ch ≤ 20) }
        ensures { self.new ≡ record self.old { params = with_param self.old.params ch value } }
    {
        match ch {
            MFC_LSA => self.params.lsa = value,
            MFC_EAH => self.params.eah = value,
            MFC_EAL => self.params.eal = value,
            MFC_SIZE => self.params.size = value,
            _ => self.params.tag = value,
        }
    }

    /// The count of a channel. BadChannel comes exactly where there is no such channel.
    #[tactic(auto, unfolding(crate::specs::Table::way_of, crate::specs::State::count_of))]
    pub fn count(&self, ch: u8, c: Counts) -> Result<u32, BadChannel>
        ensures listed { is_ok result ≡ is_some (way_of ch) }
        ensures count { IfOk result (λ n. count_of self.now c ch ≡ Some n) }
    {
        match ch {
            SPU_RD_EVENT_STAT => Ok(one_if(c.event)),
            SPU_RD_SIG_NOTIFY_1 => Ok(one_if(c.sig1)),
            SPU_RD_SIG_NOTIFY_2 => Ok(one_if(c.sig2)),
            MFC_CMD => Ok(c.free),
            MFC_RD_TAG_STAT => Ok(one_if(c.tags)),
            MFC_RD_LIST_STALL_STAT => Ok(one_if(self.stalls != 0)),
            MFC_RD_ATOMIC_STAT => Ok(one_if(self.atomic.is_some())),
            SPU_WR_OUT_MBOX => Ok(c.outbound),
            SPU_RD_IN_MBOX => Ok(c.inbound),
            SPU_WR_OUT_INTR_MBOX => Ok(c.intr),
            _ => always_one(ch),
        }
    }

    /// The atomic command that was issued and not yet done, or None exactly where the slot is free.
    pub fn slot(&self) -> Option<AtomicOp>
        ensures { result ≡ self.now.slot }
    {
        self.slot
    }

    /// Puts an atomic command into the slot; that there is one is this project's profile. SlotTaken comes exactly where it isn't free, and then
    /// nothing changes.
    pub fn set_slot(&mut self, a: AtomicOp) -> Result<(), SlotTaken>
        ensures free { is_ok result ≡ is_none self.old.slot }
        ensures ok { OnOk result (self.new ≡ record self.old { slot = Some a }) }
        ensures err { OnErr result (self.new ≡ self.old) }
    {
        if self.slot.is_some() {
            return Err(SlotTaken);
        }
        self.slot = Some(a);
        Ok(())
    }

    /// Frees the slot, and keeps the status of its command (CBEA, "MFC atomic update commands"), in place of an unread one as this project's profile has it.
    pub fn atomic_done(&mut self, status: u32)
        ensures { self.new ≡ record self.old { slot = None; atomic = Some status } }
    {
        self.slot = None;
        self.atomic = Some(status);
    }

    /// Whether the status of an atomic command is there that wasn't read.
    pub fn has_atomic(&self) -> bool
        ensures { result ≡ is_some self.now.atomic }
    {
        self.atomic.is_some()
    }

    /// Takes the status of an atomic command. NotReady comes exactly where none is there.
    pub fn read_atomic(&mut self) -> Result<u32, NotReady>
        ensures ready { is_ok result ≡ is_some self.old.atomic }
        ensures ok { IfOk result (λ status. self.old.atomic ≡ Some status) }
        ensures taken { self.new ≡ record self.old { atomic = None } }
    {
        self.atomic.take().ok_or(NotReady)
    }

    /// Sets the bit of a tag group, below 32, in the stall status, which is this project's profile.
    pub fn stall(&mut self, tag: u8)
        requires { tag < 32 }
        ensures { self.new ≡ record self.old { stalls = bit_or self.old.stalls (2 ^ tag) } }
    {
        self.stalls |= 1 << tag;
    }

    /// The tag groups with an unread stall, where group t is bit value 2^t.
    pub fn stalls(&self) -> u32
        ensures { result ≡ self.now.stalls }
    {
        self.stalls
    }

    /// Whether a bit of the stall status is set.
    pub fn has_stall(&self) -> bool
        ensures { result ≡ not (self.now.stalls == 0) }
    {
        self.stalls != 0
    }

    /// Takes all bits of the stall status. NotReady comes exactly where no bit is set.
    pub fn read_stall(&mut self) -> Result<u32, NotReady>
        ensures ready { is_ok result ≡ not (self.old.stalls == 0) }
        ensures ok { IfOk result (λ bits. self.old.stalls ≡ bits) }
        ensures taken { self.new ≡ record self.old { stalls = 0 } }
    {
        let bits = self.stalls;
        self.stalls = 0;
        if bits == 0 {
            return Err(NotReady);
        }
        Ok(bits)
    }
}

/// The count of a channel behind which there is one thing or none.
fn one_if(there: bool) -> u32
    ensures { result ≡ (if there then 1 else 0) }
{
    u32::from(there)
}

/// The count 1, where there is such a channel.
fn always_one(ch: u8) -> Result<u32, BadChannel>
    ensures listed { is_ok result ≡ is_some (way_of ch) }
    ensures one { IfOk result (λ n. n ≡ 1) }
{
    match way(ch) {
        Some(_) => Ok(1),
        None => Err(BadChannel),
    }
}
