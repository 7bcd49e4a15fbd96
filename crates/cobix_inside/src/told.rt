//! What a question is answered: 8 bytes, a little-endian number with a sign. Below 0 it is an error
//! of the system.
ghost use Rattle.std.specs.Prelude.{◌≡◌, ◌≤◌, ◌<◌, ◌<ℤ◌, pos, Some, IfOk, IfErr, OnErr};
ghost use Rattle.std.specs.IoError.{raw_os_error};
ghost use Rattle.cobix_inside.specs.Answers.{GivesNumber, error_code, IsLockOutcome};

use byteorder::{ByteOrder, LittleEndian};
use std::fs::TryLockError;
use std::io::{self, ErrorKind, Read};

/// The least number that is an error of the system.
const LEAST: i64 = -2_147_483_647;

/// The error of a number below it: input and output failed.
const UNKNOWN: i32 = 5;

/// Reads the number that is told. An error is that of the reader.
pub fn take_number<R: Read>(input: &mut R) -> io::Result<i64>
    ensures { IfOk result (λ number. GivesNumber (R.remaining input.old) (R.remaining input.new) number) }
{
    let mut bytes = [0; 8];
    input.read_exact(&mut bytes)?;
    Ok(LittleEndian::read_i64(&bytes))
}

/// The number, or the error that it stands for.
pub fn outcome(number: i64) -> io::Result<u64>
    ensures told { IfOk result (λ n. number ≡ pos n) }
    ensures failed { OnErr result (number <ℤ pos 0) }
    ensures code { IfErr result (λ error. raw_os_error error ≡ Some (error_code number)) }
{
    if number < 0 {
        Err(io::Error::from_raw_os_error(error_code(number)))
    } else {
        Ok(number as u64)
    }
}

fn error_code(number: i64) -> i32
    requires { number <ℤ pos 0 }
    ensures { result ≡ error_code number }
{
    if number < LEAST {
        UNKNOWN
    } else {
        -number as i32
    }
}

/// A lock was had where the answer is no error. It is somebody else's where the call would block.
pub fn lock_outcome(answer: io::Result<u64>) -> Result<(), TryLockError>
    ensures { IsLockOutcome answer result }
{
    match answer {
        Ok(_) => Ok(()),
        Err(error) if error.kind() == ErrorKind::WouldBlock => Err(TryLockError::WouldBlock),
        Err(error) => Err(TryLockError::Error(error)),
    }
}

/// A count of bytes, which is as many as there were at most. `InvalidData`: it is more.
pub fn within(count: u64, most: usize) -> io::Result<usize>
    ensures is { IfOk result (λ n. n ≡ count) }
    ensures bound { IfOk result (λ n. n ≤ most) }
    ensures over { OnErr result (most < count) }
{
    if count <= most as u64 {
        Ok(count as usize)
    } else {
        Err(ErrorKind::InvalidData.into())
    }
}
