//! The later of two steps.

ghost use Rattle.race_check.specs.Crowds.{IsLater};

/// The later of two steps, of which there may be none.
pub fn later(a: Option<u32>, b: Option<u32>) -> Option<u32>
    ensures { IsLater a b result }
{
    let Some(i) = a else {
        return b;
    };
    let Some(k) = b else {
        return a;
    };
    if i < k { b } else { a }
}
