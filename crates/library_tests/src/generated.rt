// The generator's program against its source.

use crate::holds;
use cell_gen::generate;
use cell_machine::Machine;
use spu_asm::assemble;
use std::alloc::{AllocError, Global};
use std::process::Abort;
use std::test::Fail;

/// How many bytes the program has.
const PROGRAM_BYTES: usize = 124;

/// The source behind the lines that name the block and the rounds.
const ROUNDS: &str = "\
round:\tbrz $7,done
\twrch $ch16,$3
\twrch $ch18,$4
\twrch $ch19,$5
\til $8,0x40
\twrch $ch21,$8
\til $8,1
\twrch $ch22,$8
\til $8,2
\twrch $ch23,$8
\trdch $9,$ch24
\til $10,128
\tori $11,$3,0
add:\tlqd $12,0($11)
\tai $12,$12,1
\tstqd $12,0($11)
\tai $11,$11,16
\tai $10,$10,-1
\tbrnz $10,add
\til $8,0x20
\twrch $ch21,$8
\til $8,2
\twrch $ch23,$8
\trdch $9,$ch24
\tai $7,$7,-1
\tbr round
done:\tstop 0
";

/// The program of a processor, with so many rounds, as a source.
fn source(alloc: Global, spe: u8, n: u32) -> Result<String, AllocError> {
    let base = 2048 * u32::from(spe);
    format!(in alloc; "\tila $3,0x1000\n\tila $4,{base}\n\til $5,2048\n\til $7,{n}\n{ROUNDS}")
}

/// The text of that source's image.
fn assembled(rt: &impl Abort, alloc: Global, spe: u8, n: u32) -> Result<Vec<u8>, Fail> {
    let text = source(alloc, spe, n)?;
    assert!(rt; text.len() < 1000);
    let image = assemble(alloc, text.as_bytes())?;
    Ok(image.text().to_vec(alloc)?)
}

/// What the store of a processor begins with.
fn stored(rt: &impl Abort, alloc: Global, spe: u8, n: u32) -> Result<[u8; PROGRAM_BYTES], Fail> {
    let machine = Machine::new(alloc, generate(alloc, n)?)?;
    assert!(rt; spe < machine.setup().spes());
    let mut program = [0; PROGRAM_BYTES];
    machine.local(spe).copy_out(0, &mut program);
    Ok(program)
}

#[test]
fn the_program_is_its_source_assembled(rt: HostRuntime) -> Result<(), Fail> {
    let alloc = rt.alloc();
    for (spe, n) in [(0, 0), (7, 64), (3, 5)] {
        let program = stored(&rt, alloc, spe, n)?;
        let text = assembled(&rt, alloc, spe, n)?;
        holds(&rt, program.as_slice() == text.as_slice());
    }
    Ok(())
}
