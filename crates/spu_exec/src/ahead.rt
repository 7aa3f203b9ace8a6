//! What an instruction would do, which is asked before it is executed.

ghost use Rattle.std.specs.Prelude.{◌≡◌, ◌<◌, ℕ, List};
ghost use Rattle.cell_base.specs.declared.steps.ChannelOp.{ChannelOp};
ghost use Rattle.spu_decode.specs.Spelling.{FieldsFit};
ghost use Rattle.spu_regs.specs.Registers.{register};
ghost use Rattle.spu_exec.specs.Meaning.{meaning, loaded_at, stored_at};

use crate::branch::flow_of;
use crate::flow::Flow;
use crate::transfer;
use spu_decode::Instr;
use spu_regs::Regs;

/// What would come after an instruction at `pc`, which is below 262,144.
#[tactic(auto, unfolding(crate::specs::Meaning::meaning))]
pub fn leads_to(i: Instr, pc: u32, regs: &Regs) -> Flow
    requires fits { FieldsFit i }
    requires here { pc < 262144 }
    ensures flow { (store : List ℕ) → result ≡ (meaning i pc regs.now store).flow }
    ensures channel { (op : ChannelOp) (store : List ℕ) → result ≡ Flow.Channel op → ((meaning i pc regs.now store).regs ≡ regs.now) × ((meaning i pc regs.now store).store ≡ store) }
{
    flow_of(i, pc, regs.get(i.ra), regs.get(i.rb), regs.get(i.rt))
}

/// The address at which an instruction at `pc` would load a quadword, if it loads one. Its bits outside 0x3FFF0 mean nothing.
pub fn loads_at(i: Instr, pc: u32, regs: &Regs) -> Option<u32>
    requires { FieldsFit i }
    ensures { result ≡ loaded_at i.row i.imm pc (register regs.now i.ra) (register regs.now i.rb) }
{
    transfer::loaded_at(i, pc, regs.get(i.ra), regs.get(i.rb))
}

/// The address at which an instruction at `pc` would store a quadword, if it stores one. Its bits outside 0x3FFF0 mean nothing.
pub fn stores_at(i: Instr, pc: u32, regs: &Regs) -> Option<u32>
    requires { FieldsFit i }
    ensures { result ≡ stored_at i.row i.imm pc (register regs.now i.ra) (register regs.now i.rb) }
{
    transfer::stored_at(i, pc, regs.get(i.ra), regs.get(i.rb))
}
