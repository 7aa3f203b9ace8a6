// A set of the parts of a transfer, as bits.
ghost use Rattle.std.specs.Prelude.{◌≡◌, ℕ, ◌<◌, ◌≤◌, ◌||◌, ◌==◌, true, false, not, filter, length, IfOk};
ghost use Rattle.std.specs.List.{list_all, range_with_len};
ghost use Rattle.mfc_queue.specs.At.{IsAt};
ghost use Rattle.mfc_queue.specs.Sets.{has_part};

/// How many words hold the set.
const WORDS: usize = 3;

/// How many parts a word tells of.
const WORD_BITS: u32 = 64;

/// A set of parts below 192: part k is the bit of value 2^(k % 64) of word k / 64.
#[derive(Clone, Copy)]
pub(crate) struct PartSet {
    words: [u64; 3],
    ghost whole: { length words ≡ 3 },
}

impl PartSet {
    /// The set of no part.
    pub(crate) fn new() -> PartSet
        ensures { (k : ℕ) → has_part result.words k ≡ false }
    {
        PartSet { words: [0; WORDS] }
    }

    /// Whether the part is in the set.
    pub(crate) fn has(&self, part: u32) -> bool
        requires { part < 192 }
        ensures { result ≡ has_part self.now.words part }
    {
        let word = self.words[(part / WORD_BITS) as usize];
        (word >> (part % WORD_BITS)) & 1 == 1
    }

    /// Puts the part into the set.
    pub(crate) fn insert(&mut self, part: u32)
        requires { part < 192 }
        ensures { (k : ℕ) → has_part self.new.words k ≡ (has_part self.old.words k || part == k) }
    {
        self.words[(part / WORD_BITS) as usize] |= 1 << (part % WORD_BITS);
    }

    /// The part at place `n` of those below `below` that aren't in the set, or how far `n` is behind the last one.
    pub(crate) fn missing_at(&self, below: u32, n: u64) -> Result<u32, u64>
        requires { below ≤ 192 }
        ensures at { IsAt result n (filter (λ k. not (has_part self.now.words k)) (range_with_len 0 below)) }
        ensures few { IfOk result (λ k. k < below) }
    {
        let mut rest = n;
        for k in 0..below {
            if self.has(k) {
                continue;
            }
            if rest == 0 {
                return Ok(k);
            }
            rest -= 1;
        }
        Err(rest)
    }
}
