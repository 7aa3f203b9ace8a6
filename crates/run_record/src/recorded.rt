//! What was read of a record.

ghost use Rattle.std.specs.Prelude.{◌≡◌};

use cell_base::Step;
use std::marker::Model;

/// The steps of a record, and where it ends in the text.
#[derive(Drop)]
pub struct Recorded {
    pub(crate) steps: Vec<Step>,
    pub(crate) end: usize,
}

impl Model for Recorded {
    ghost use Rattle.run_record.specs.Form.{Reading};

    ghost Value = { Reading };

    ghost view = { λ r. record { steps = r.steps.items; end = r.end } };
}

impl Recorded {
    /// The steps in their order.
    pub fn steps(&self) -> &[Step]
        ensures { result.now ≡ self.now.steps }
    {
        &self.steps
    }

    /// The index of the byte after the record, which is the text's length where nothing follows.
    pub fn end(&self) -> usize
        ensures { result ≡ self.now.end }
    {
        self.end
    }
}
