//! One instruction of the SPU: what it does to the registers and the local store, and what comes next.
#![tactic(auto)]

ghost use Rattle.std.specs.Prelude.{◌≡◌, ◌<◌, ℕ, List, Option};
ghost use Rattle.cell_base.specs.declared.steps.ChannelOp.{ChannelOp};
ghost use Rattle.spu_decode.specs.Spelling.{FieldsFit};
ghost use Rattle.spu_exec.specs.Meaning.{meaning, Outcome, with_value, with_stored};
ghost use Rattle.spu_exec.specs.Places.{IsPlace, LeadsToPlace, RegisterFits};

mod address;
mod ahead;
mod branch;
mod compute;
mod flow;
mod transfer;

pub use address::next_pc;
pub use ahead::{leads_to, loads_at, stores_at};
use branch::flow_of;
use cell_base::Quad;
pub use flow::Flow;
use local_store::LocalStore;
use spu_decode::Instr;
use spu_regs::Regs;
use transfer::{stored_at, value_of};

/// Executes an instruction that stands at `pc`, a multiple of 4 below 262,144.
/// A channel instruction leaves registers and store as they are, for the machine to act on.
#[inline(always)]
#[tactic(auto, unfolding(crate::specs::Meaning::meaning))]
pub fn exec(i: Instr, pc: u32, regs: &mut Regs, ls: &mut LocalStore) -> Flow
    requires fits { FieldsFit i }
    requires here { IsPlace pc }
    ensures means { record { regs = regs.new; store = ls.new; flow = result } ≡ meaning i pc regs.old ls.old }
    ensures leads { LeadsToPlace result }
    ensures channel { (op : ChannelOp) → result ≡ Flow.Channel op → (regs.new ≡ regs.old) × (ls.new ≡ ls.old) × RegisterFits op }
{
    let a = regs.get(i.ra);
    let b = regs.get(i.rb);
    let c = regs.get(i.rc);
    let t = regs.get(i.rt);
    let flow = flow_of(i, pc, a, b, t);
    let stored = stored_at(i, pc, a, b);
    let value = value_of(i, pc, a, b, c, t, ls);
    set_value(regs, i.rt, value);
    store(ls, stored, t);
    flow
}

/// Puts a value into register `rt`, if there is one.
#[inline(always)]
fn set_value(regs: &mut Regs, rt: u8, value: Option<Quad>)
    requires { rt < 128 }
    ensures { regs.new ≡ with_value rt value regs.old }
{
    if let Some(q) = value {
        regs.set(rt, q);
    }
}

/// Puts a quadword into the store at an address, if there is one.
#[inline(always)]
fn store(ls: &mut LocalStore, at: Option<u32>, t: Quad)
    ensures { ls.new ≡ with_stored at t ls.old }
{
    if let Some(at) = at {
        ls.set_quad(at, t);
    }
}
