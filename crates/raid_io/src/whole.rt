ghost use Rattle.std.specs.Prelude.{◌≡◌, ℕ, ◌≤◌, ◌<◌, length, IfOk, OnOk, OnErr};
ghost use Rattle.raid_io.specs.Ends.{Took, Gave, GavePart, IsAtEnd};
ghost use Rattle.raid_io.specs.Faults.{Rose};
ghost use Rattle.raid_io.specs.Whole.{OnFailed};

use crate::failed::Failed;
use crate::sink::Sink;
use crate::source::Source;
use raid_base::NoMemory;
use std::alloc::Global;
use thiserror::Error;

/// How many bytes one read is offered at most.
pub const OFFERED: usize = 4096;

/// Why a text could not be read.
#[derive(Clone, Copy, Debug, PartialEq, Eq, Error)]
pub enum ReadError {
    #[error("no memory")]
    NoMemory,
    #[error("a read failed")]
    Failed,
}

/// Reads bytes up to the source's end, `most` of them at most. After an error the bytes read are lost.
pub fn read_up_to<S: Source>(
    alloc: Global,
    source: &mut S,
    most: usize,
) -> Result<Vec<u8>, ReadError>
    ensures bytes { IfOk result (λ v. Took v.items (S.left source.old) (S.left source.new)) }
    ensures bound { IfOk result (λ v. length v.items ≤ most) }
    ensures end { IfOk result (λ v. length v.items < most → IsAtEnd (S.left source.new)) }
    ensures later { S.faults source.old ≤ S.faults source.new }
    ensures failed { OnFailed result (Rose (S.faults source.old) (S.faults source.new)) }
{
    let mut bytes = Vec::new(alloc);
    let mut buffer = [0u8; OFFERED];
    while bytes.len() < most {
        let room = (most - bytes.len()).min(OFFERED);
        let count = match source.read(&mut buffer[..room]) {
            Ok(count) => count,
            Err(Failed) => return Err(ReadError::Failed),
        };
        if count == 0 {
            break;
        }
        if bytes.extend_from_slice(&buffer[..count]).is_err() {
            return Err(ReadError::NoMemory);
        }
    }
    Ok(bytes)
}

/// Writes all of the bytes. After an error a front part of them was written.
pub fn write_all<K: Sink>(sink: &mut K, bytes: &[u8]) -> Result<(), Failed>
    ensures ok { OnOk result (Gave bytes.now (K.held sink.old) (K.held sink.new)) }
    ensures err { OnErr result (GavePart bytes.now (K.held sink.old) (K.held sink.new)) }
    ensures later { K.faults sink.old ≤ K.faults sink.new }
    ensures failed { OnErr result (Rose (K.faults sink.old) (K.faults sink.new)) }
{
    let mut done = 0;
    while done < bytes.len() {
        match sink.write(&bytes[done..]) {
            Ok(count) => done += count,
            Err(Failed) => return Err(Failed),
        }
    }
    Ok(())
}
