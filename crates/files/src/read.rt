//! Reading a source to its end.

ghost use Rattle.std.specs.Prelude.{
  ◌≡◌,
  ◌≤◌,
  ◌<◌,
  false,
  length,
  IfOk,
  IfSome,
  IsErrOf,
  MatchResult,
};
ghost use Rattle.std.specs.Io.KnownBytes.{IsAtEnd, Keeps};
ghost use Rattle.files.specs.steps.Reads.{
  DeviceFailsAs,
  IsBeyond,
  ReadsBehind,
  ReadsWhole,
  device_failed,
};
ghost use Rattle.files.specs.declared.read.ReadFault.TheVariants.{TooLarge};

use devices::device::Source;
use std::alloc::Global;
use thiserror::Error;

/// Why a source wasn't read to its end.
#[derive(Clone, Copy, Debug, PartialEq, Eq, Error)]
pub enum ReadFault {
    /// The device failed.
    #[error("the device failed")]
    Device,
    /// More bytes than the limit come.
    #[error("the text is too large")]
    TooLarge,
    /// Memory ran out.
    #[error("out of memory")]
    Memory,
}

const PIECE: usize = 65536;

// Appends up to `room` bytes to `bytes` and returns how many; 0 only at the end of the source.
fn read_more<S: Source>(
    source: &mut S,
    bytes: &mut Vec<u8>,
    room: usize,
) -> Result<usize, ReadFault>
    requires some { 0 < room }
    requires most { room ≤ 65536 }
    ensures read { MatchResult result
        (λ count. ReadsBehind (S.to_come source.old) (S.to_come source.new)
        bytes.old.items bytes.new.items count)
        (λ _. Keeps (S.to_come source.old) (S.to_come source.new)) }
    ensures within { IfOk result (λ count. count ≤ room) }
    ensures end { IfOk result (λ count. count ≡ 0 → IsAtEnd (S.to_come source.new)) }
    ensures failed { S.has_failed source.old ≡ false
        → S.has_failed source.new ≡ device_failed result }
    ensures told { IfSome (S.fails source.old) (DeviceFailsAs result) }
    ensures same { S.fails source.new ≡ S.fails source.old }
    ensures fault { IsErrOf result TooLarge → ⊥ }
{
    let start = bytes.len();
    if bytes.resize(start + room, 0).is_err() {
        return Err(ReadFault::Memory);
    }
    match source.take(&mut bytes[start..]) {
        Ok(count) => {
            bytes.truncate(start + count);
            Ok(count)
        }
        Err(_) => Err(ReadFault::Device),
    }
}

/// Reads `source` to its end and returns all its bytes, at most `limit`.
///
/// # Errors
/// - `Device` if the source fails.
/// - `TooLarge` if more than `limit` bytes come, as from a source without an end.
/// - `Memory` if memory runs out.
pub fn read_whole<S: Source>(
    alloc: Global,
    source: &mut S,
    limit: u64,
) -> Result<Vec<u8>, ReadFault>
    ensures all { IfOk result (λ bytes.
        ReadsWhole (S.to_come source.old) (S.to_come source.new) bytes.items) }
    ensures within { IfOk result (λ bytes. length bytes.items ≤ limit) }
    ensures too_large { IsErrOf result TooLarge → IsBeyond limit (S.to_come source.old) }
    ensures failed { S.has_failed source.old ≡ false
        → S.has_failed source.new ≡ device_failed result }
    ensures told { IfSome (S.fails source.old) (DeviceFailsAs result) }
{
    let mut bytes = Vec::new(alloc);
    while bytes.len() as u64 <= limit {
        let room = (limit - bytes.len() as u64).min(PIECE as u64 - 1) as usize + 1;
        if read_more(source, &mut bytes, room)? == 0 {
            return Ok(bytes);
        }
    }
    Err(ReadFault::TooLarge)
}
