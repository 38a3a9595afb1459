//! Reads a whole input.
ghost use Rattle.std.specs.Prelude.{◌≡◌, ◌≢◌, ◌≤◌, false, [], length, IfOk, OnOk, Err, vec_len};
ghost use Rattle.std.specs.Io.KnownBytes.{Consumes, IsAtEnd};
ghost use Rattle.asset_scripts.specs.Device.{IsUnused};
ghost use Rattle.asset_scripts.specs.Transfers.{IsReadFault, input_limit};

use crate::device::Device;
use crate::faults::ScriptFault;
use std::alloc::{AllocError, Global};
use std::io::Read;

/// The most bytes that an input may have.
const MOST_BYTES: usize = 67_108_864;

/// The most requests in which an input is read.
const MOST_REQUESTS: u32 = 134_217_728;

/// How many bytes are asked for at once.
const PIECE: usize = 65_536;

/// Returns a vector of `len` zeros.
fn zeros(alloc: Global, len: usize) -> Result<Vec<u8>, AllocError>
    ensures { IfOk result (λ piece. vec_len piece ≡ len) }
{
    vec![in alloc; 0u8; len]
}

/// Appends all that the reader gives, up to its end, by pieces that are read into `piece`.
fn read_into<R: Read>(
    input: &mut Device<R>,
    piece: &mut [u8],
    bytes: &mut Vec<u8>,
) -> Result<(), ScriptFault>
    requires unused { IsUnused input.old }
    requires room { length piece.old ≡ 65536 }
    requires empty { bytes.old.items ≡ [] }
    ensures gave { OnOk result
        (Consumes (R.remaining input.old.inner) (R.remaining input.new.inner) bytes.new.items) }
    ensures end { OnOk result (IsAtEnd (R.remaining input.new.inner)) }
    ensures limit { OnOk result (vec_len bytes.new ≤ input_limit) }
    ensures sound { OnOk result (input.new.failed ≡ false) }
    ensures counted { OnOk result (input.new.moved ≡ vec_len bytes.new) }
    ensures fault { result ≡ Err ScriptFault.Read → IsReadFault R.remaining input.old input.new }
    ensures reads_only { result ≢ Err ScriptFault.Write }
{
    'requests: for _ in 0..MOST_REQUESTS {
        let Some(count) = input.read(piece) else {
            return Err(ScriptFault::Read);
        };
        if count == 0 {
            return Ok(());
        }
        if bytes.len() + count > MOST_BYTES {
            return Err(ScriptFault::Read);
        }
        bytes.extend_from_slice(&piece[..count])?;
    }
    Err(ScriptFault::Read)
}

/// Returns all that the reader gives, up to its end. Gives up a reader that gives more than 67,108,864
/// bytes, or has no end within 134,217,728 requests.
pub fn read_all<R: Read>(alloc: Global, input: &mut Device<R>) -> Result<Vec<u8>, ScriptFault>
    requires { IsUnused input.old }
    ensures gave { IfOk result (λ bytes.
        Consumes (R.remaining input.old.inner) (R.remaining input.new.inner) bytes.items) }
    ensures end { OnOk result (IsAtEnd (R.remaining input.new.inner)) }
    ensures limit { IfOk result (λ bytes. vec_len bytes ≤ input_limit) }
    ensures sound { OnOk result (input.new.failed ≡ false) }
    ensures counted { IfOk result (λ bytes. input.new.moved ≡ vec_len bytes) }
    ensures fault { result ≡ Err ScriptFault.Read → IsReadFault R.remaining input.old input.new }
    ensures reads_only { result ≢ Err ScriptFault.Write }
{
    let mut piece = zeros(alloc, PIECE)?;
    let mut bytes = Vec::new(alloc);
    match read_into(input, piece.as_mut_slice(), &mut bytes) {
        Ok(()) => Ok(bytes),
        Err(fault) => Err(fault),
    }
}
