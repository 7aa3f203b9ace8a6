//! Numbers that look random.

ghost use Rattle.std.specs.Prelude.{◌≡◌};
ghost use Rattle.cell_hunt.specs.Mixing.{mixed, with_number};

/// A number with its bits mixed, as SplitMix64 does.
#[tactic(auto, unfolding(crate::specs::Mixing::mixed))]
pub fn mixed(n: u64) -> u64
    ensures { result ≡ mixed n }
{
    let once = (n ^ (n >> 30)).wrapping_mul(0xbf58_476d_1ce4_e5b9);
    let twice = (once ^ (once >> 27)).wrapping_mul(0x94d0_49bb_1331_11eb);
    twice ^ (twice >> 31)
}

/// The digest of a list with one number more.
pub fn with_number(digest: u64, n: u64) -> u64
    ensures { result ≡ with_number digest n }
{
    mixed((digest ^ n).wrapping_add(0x9e37_79b9_7f4a_7c15))
}
