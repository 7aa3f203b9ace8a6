//! The channel operations that instructions ask for.

ghost use Rattle.std.specs.Prelude.{◌≡◌, false, true};
ghost use Rattle.std.specs.Option.{option_map_or};
ghost use Rattle.run_permute.specs.Online.{is_plain, is_settled_channel, is_read_of, is_write_to};

use cell_base::ChannelOp;

fn is_settled_channel(ch: u8) -> bool
    ensures { result ≡ is_settled_channel ch }
{
    ch == 12 || (16 <= ch && ch <= 30)
}

/// Whether a settled run may have the operation: it counts nothing, reads and writes the settled channels alone, and requests a tag status of
/// all groups alone.
fn is_plain(op: ChannelOp) -> bool
    ensures { result ≡ is_plain op }
{
    match op {
        ChannelOp::Read { ch, .. } => is_settled_channel(ch),
        ChannelOp::Count { .. } => false,
        ChannelOp::Write { ch, value } => is_settled_channel(ch) && (ch != 23 || 1 < value),
    }
}

/// Whether a settled run may have it, where there is one.
pub fn may_ask(op: Option<ChannelOp>) -> bool
    ensures { result ≡ option_map_or is_plain op true }
{
    match op {
        Some(op) => is_plain(op),
        None => true,
    }
}

/// Whether it is a read of the channel.
pub fn reads(channel: u8, op: Option<ChannelOp>) -> bool
    ensures { result ≡ option_map_or (is_read_of channel) op false }
{
    match op {
        Some(ChannelOp::Read { ch, .. }) => ch == channel,
        Some(ChannelOp::Count { .. }) => false,
        Some(ChannelOp::Write { .. }) => false,
        None => false,
    }
}

/// Whether it is a write to the channel.
pub fn writes(channel: u8, op: Option<ChannelOp>) -> bool
    ensures { result ≡ option_map_or (is_write_to channel) op false }
{
    match op {
        Some(ChannelOp::Write { ch, .. }) => ch == channel,
        Some(ChannelOp::Read { .. }) => false,
        Some(ChannelOp::Count { .. }) => false,
        None => false,
    }
}
