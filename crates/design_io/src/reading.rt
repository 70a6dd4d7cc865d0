ghost use Rattle.std.specs.Prelude.{◌≡◌, ◌<◌, ◌≤◌, length, IfOk, IfErr, IsErrOf};
ghost use Rattle.design_io.specs.Faults.{Rose};
ghost use Rattle.design_io.specs.Inputs.{IsTooLong, ReadsText, TakesAll, faults_after, line_at};

use crate::Source;
use std::alloc::Global;
use thiserror::Error;

/// Why not all was read.
#[derive(Clone, Copy, Debug, PartialEq, Eq, Error)]
pub enum ReadEnd {
    /// A read failed, and was counted as one fault.
    #[error("read fault")]
    Failed,
    /// There are more bytes than the limit, and the first one past it stands on this line, from 1.
    #[error("too long at line {line}")]
    TooLong { line: u32 },
    /// There was no memory.
    #[error("no memory")]
    Memory,
}

// How many bytes one read asks for.
const PIECE: usize = 16_384;

// The line, from 1, of the byte at a place.
fn line_of(bytes: &[u8], place: u32) -> u32
    requires inside { place < length bytes.now }
    requires small { place < u32.MAX }
    ensures { result ≡ line_at bytes.now place }
{
    let before = &bytes[..place as usize];
    before.iter().filter(|byte| **byte == b'\n').count() as u32 + 1
}

/// All bytes up to the end of input, where these are at most `limit`, which is below 4,294,967,295.
/// More are refused by `TooLong`. `Failed` comes at the first read that fails, which counts as one
/// fault, and `Memory` where there is no room for what was read; after an error some of the bytes were
/// taken.
#[tactic(auto, using(crate::proofs::Texts::refused))]
pub fn read_all<S: Source>(alloc: Global, source: &mut S, limit: u32) -> Result<Vec<u8>, ReadEnd>
    requires { limit < u32.MAX }
    ensures whole { IfOk result (λ all. TakesAll (S.left source.old) (S.left source.new) all.items) }
    ensures within { IfOk result (λ all. length all.items ≤ limit) }
    ensures too_long { IfErr result (IsTooLong (S.left source.old) limit) }
    ensures text { ReadsText (S.left source.old) limit result }
    ensures faults { S.faults source.new ≡ faults_after (S.faults source.old) result }
    ensures cause { IsErrOf result ReadEnd.Failed → Rose (S.faults source.old) (S.faults source.new) }
    ensures later { S.faults source.old ≤ S.faults source.new }
{
    let mut all: Vec<u8> = Vec::new(alloc);
    let mut buffer = [0u8; PIECE];
    while all.len() <= limit as usize {
        let count = source.read(&mut buffer).map_err(|_| ReadEnd::Failed)?;
        if count == 0 {
            return Ok(all);
        }
        all.extend_from_slice(&buffer[..count])
            .map_err(|_| ReadEnd::Memory)?;
    }
    Err(ReadEnd::TooLong {
        line: line_of(&all, limit),
    })
}
