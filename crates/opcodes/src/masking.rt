// Which elements an instruction operates on.
ghost use Rattle.std.specs.Prelude.{◌≤◌};
ghost use Rattle.opcodes.specs.Working.{OperatedSet};

use crate::Instruction;
use numbers::bits;

// Their set.
pub fn operated(instruction: Instruction, vlr: u64, vmr: u64) -> u64
    requires { vlr ≤ 64 }
    ensures { OperatedSet instruction vlr vmr result }
{
    bits::chosen_below(
        instruction.moe & !instruction.work.ignores_moe(),
        instruction.mtf,
        vmr,
        vlr,
    )
}
