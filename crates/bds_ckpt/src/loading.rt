//! Loading a state.
ghost use Rattle.std.specs.Prelude.{◌≡◌, ◌↔◌, MatchResult, IfOk, IsTrue, length};
ghost use Rattle.sha2.specs.Sha256.{sha256};
ghost use Rattle.bds_value.specs.Fields.{AreBytes};
ghost use Rattle.bds_state.specs.Parts.{Parts};
ghost use Rattle.bds_state.specs.Valid.{IsValid};
ghost use Rattle.bds_ckpt.specs.Faults.{of_field, of_unit, of_state};
ghost use Rattle.bds_ckpt.specs.Loading.{Loadable, Refuses, IsReadTo, IsSummed, AreFieldParts, IsFieldFile, IsWrong, GivesState};

use crate::fault::LoadFault;
use crate::image::{File, Image};
use crate::reading::images::read_file;
use crate::version::Version;
use bds_state::{State, StateFault, faults_are_real, valid_states_may_be_written};
use bds_value::{ByteText, FieldFault, Input, are_bytes};
use bds_verify::{VerifyFault, verify};
use sha2::{Digest, Sha256};
use std::alloc::Global;

fn field_fault(fault: FieldFault) -> LoadFault
    ensures { result ≡ of_field fault }
{
    match fault {
        FieldFault::Short(at) => LoadFault::Short(at),
        FieldFault::BadTag(at, byte) => LoadFault::BadTag(at, byte),
        FieldFault::BadNumber(at, n) => LoadFault::BadNumber(at, n),
        FieldFault::NotRising(at) => LoadFault::NotRising(at),
        FieldFault::NoMemory => LoadFault::NoMemory,
    }
}

fn unit_fault(fault: VerifyFault) -> LoadFault
    ensures { result ≡ of_unit fault }
{
    match fault {
        VerifyFault::Bad { function, at, .. } => LoadFault::Unverified { function, at },
        VerifyFault::NoMemory => LoadFault::NoMemory,
    }
}

fn state_fault(fault: StateFault) -> LoadFault
    ensures { result ≡ of_state fault }
{
    match fault {
        StateFault::BadThread(n) => LoadFault::BadThread(n),
        StateFault::BadFrame(n, i) => LoadFault::BadFrame(n, i),
        StateFault::BadTask(n) => LoadFault::BadTask(n),
        StateFault::BadRule(n) => LoadFault::BadRule(n),
        StateFault::NoMemory => LoadFault::NoMemory,
    }
}

/// Reads all bytes as what a file holds, and gives them back.
fn read_whole(alloc: Global, bytes: ByteText) -> Result<(File, ByteText), LoadFault>
    ensures read { MatchResult result (λ r. IsReadTo bytes (length bytes) r.0) (Refuses bytes) }
    ensures legal { IfOk result (λ r. IsFieldFile r.0) }
    ensures kept { IfOk result (λ r. r.1 ≡ bytes) }
{
    let mut input = Input { bytes, at: 0 };
    match read_file(alloc, &mut input) {
        Ok(file) => {
            if input.at < input.bytes.len() as u64 {
                return Err(LoadFault::Extra(input.at));
            }
            Ok((file, input.bytes))
        }
        Err(fault) => Err(field_fault(fault)),
    }
}

fn is_sum(front: &[u8], sum: &[u8]) -> bool
    ensures { IsTrue result ↔ (sha256 front.now ≡ sum.now) }
{
    let digest = Sha256::digest(front);
    digest.as_slice() == sum
}

/// Whether the trailer is that of the bytes before it.
fn check_sum(bytes: &[u8], file: &File) -> Result<(), LoadFault>
    requires small { AreBytes bytes.now }
    requires read { IsReadTo bytes.now (length bytes.now) file.now }
    ensures { MatchResult result (λ x. IsSummed bytes.now file.now) (Refuses bytes.now) }
{
    match file.version {
        Version::First => Ok(()),
        Version::Second => {
            let at = bytes.len() - 32;
            if is_sum(&bytes[..at], file.sum.as_slice()) {
                Ok(())
            } else {
                Err(LoadFault::BadSum(at as u64))
            }
        }
    }
}

/// Reads all bytes, and compares the trailer.
fn read_summed(alloc: Global, bytes: ByteText) -> Result<File, LoadFault>
    requires { AreBytes bytes }
    ensures read { IfOk result (IsReadTo bytes (length bytes)) }
    ensures summed { MatchResult result (IsSummed bytes) (Refuses bytes) }
    ensures legal { IfOk result IsFieldFile }
{
    let (file, bytes) = read_whole(alloc, bytes)?;
    check_sum(bytes.as_slice(), &file)?;
    Ok(file)
}

/// The state of parts that were read, where it is valid.
fn judge(alloc: Global, image: Image) -> Result<State, LoadFault>
    requires { AreFieldParts image }
    ensures { MatchResult result (λ s. (s ≡ image) × IsValid s) (IsWrong image) }
{
    let Image {
        unit,
        threads,
        tasks,
        rules,
        path,
    } = image;
    match verify(alloc, unit) {
        Ok(unit) => match State::of(alloc, unit, threads, tasks, rules, path) {
            Ok(state) => {
                state.is_valid();
                Ok(state)
            }
            Err(fault) => Err(state_fault(fault)),
        },
        Err(fault) => Err(unit_fault(fault)),
    }
}

fn judge_file(alloc: Global, file: File) -> Result<State, LoadFault>
    requires { AreFieldParts file.parts }
    ensures { MatchResult result (λ s. (s ≡ file.parts) × IsValid s) (IsWrong file.parts) }
{
    let File {
        version: _,
        image,
        sum: _,
    } = file;
    judge(alloc, image)
}

fn load_whole(alloc: Global, bytes: ByteText) -> Result<State, LoadFault>
    ensures { MatchResult result (Loadable bytes) (Refuses bytes) }
{
    are_bytes(bytes.as_slice());
    match read_summed(alloc, bytes) {
        Ok(file) => judge_file(alloc, file),
        Err(fault) => Err(fault),
    }
}

/// Gives the state whose bytes these are, or the first thing that is wrong with them: fields in their
/// order, then bytes behind the last one, then the trailer, then the unit, threads with their frames,
/// tasks and rules, each from the least number.
pub fn load(alloc: Global, bytes: ByteText) -> Result<State, LoadFault>
    ensures loads { MatchResult result (Loadable bytes) (Refuses bytes) }
    ensures exact { (s : Parts) → Loadable bytes s → GivesState s result }
{
    valid_states_may_be_written();
    faults_are_real();
    load_whole(alloc, bytes)
}
