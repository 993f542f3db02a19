//! Parts of platform descriptor records.
ghost use Rattle.std.{specs.Prelude.{◌≡◌, ◌≢◌, ◌<◌, ◌≤◌, ◌^◌, ◌++◌, ◌==◌, ℕ, Some, length, drop, is_some, MatchResult, ◌+◌}, specs.Option.{option_to_list}};
ghost use Rattle.pldm_message.specs.Pdrs.{check_length, IsChecked};

use crate::fields::{split_u16, split_u32};
use crate::pldm_error::PldmError;
use crate::transfer::TransferFlag;
use byteorder::{ByteOrder, LittleEndian};
use mctp_transport::Wire;

/// The bytes of a part before those of the record.
const PART_NUMBERS: usize = 11;

/// A part of a record, whose bytes are borrowed. Its own bytes are the handle of the record after this one (4 bytes),
/// the handle of the record's next part (4), the transfer flag (1), how many bytes of the record follow (2), these, and
/// one check byte only where the flag is 4; numbers have their lowest byte first (DSP0248, GetPDR).
#[derive(Clone, Copy, Debug)]
pub struct PdrPart<'a> {
    /// Four bytes: the handle of the record after this one, 0 where there is none.
    pub next_record_handle: u32,
    /// Four bytes: the handle of the record's next part, 0 where there is none.
    pub next_data_transfer_handle: u32,
    /// One byte: which part of the record this is.
    pub flag: TransferFlag,
    /// Two bytes for how many follow, and the bytes of the record, fewer than 65,536.
    pub bytes: &'a [u8],
    /// One byte, where the flag is 4 and only there: the check byte over the whole record.
    pub transfer_crc: Option<u8>,
    pub ghost record_in_range: { next_record_handle < 2 ^ 32 },
    pub ghost transfer_in_range: { next_data_transfer_handle < 2 ^ 32 },
    pub ghost short: { length bytes.now < 2 ^ 16 },
    pub ghost check_in_range: { (crc : ℕ) → transfer_crc ≡ Some crc → crc < 256 },
    pub ghost checked: { is_some transfer_crc ≡ (flag.value == 4) },
}

impl<'a> PdrPart<'a> {
    ghost use Rattle.std.specs.Prelude.{◌≤◌, drop};
    ghost use Rattle.pldm_message.{specs.Pdrs.{part_numbers}, specs.PdrValues.{part}};

    /// Writes what stands before the record's bytes.
    fn put_numbers(&self, out: &mut [u8])
        requires { 11 ≤ length out.old }
        ensures { out.new ≡ part_numbers (part self.now) ++ drop 11 out.old }
    {
        LittleEndian::write_u32(out, self.next_record_handle);
        LittleEndian::write_u32(&mut out[4..], self.next_data_transfer_handle);
        out[8] = self.flag.value;
        LittleEndian::write_u16(&mut out[9..], self.bytes.len() as u16);
    }
}

impl<'a> Wire<'a> for PdrPart<'a> {
    ghost use Rattle.std.{specs.Prelude.{◌≡◌, ◌≢◌, ◌++◌, ℕ, List, length, drop, IfOk, IsOkAnd, Some, None}, specs.Result.{result_err}};
    ghost use Rattle.mctp_transport.{specs.Wire.{Spells}, specs.First.{First}};
    ghost use Rattle.pldm_message.{specs.Pdrs.{Part, IsPart, part_bytes, part_length}, specs.PdrLaws.{one_part}, specs.PdrValues.{part}};

    type Error = PldmError;

    ghost Meaning = { Part };

    ghost meaning = { part };

    ghost IsLawful = { IsPart };

    ghost spelling = { part_bytes };

    /// The part that the bytes behind the completion code are, all of them.
    #[tactic(auto, using(crate::specs::PdrLaws::one_part, crate::specs::PdrLaws::part_is_as_long))]
    fn read(bytes: &'a [u8]) -> Result<Self, PldmError>
        ensures ok { IfOk result (λ p. Spells IsPart part_bytes (part p) bytes.now) }
        ensures all { (m : Part) → Spells IsPart part_bytes m bytes.now → IsOkAnd result (λ p. part p ≡ m) }
        ensures fault { First (length bytes.now ≢ part_length bytes.now) (result_err result ≡ Some PldmError.Length) (result_err result ≡ None) }
    {
        let (next_record_handle, data) = split_u32(bytes)?;
        let (next_data_transfer_handle, data) = split_u32(data)?;
        let [flag, data @ ..] = data else {
            return Err(PldmError::Length);
        };
        let flag = TransferFlag::new(*flag);
        let (count, data) = split_u16(data)?;
        let (bytes, transfer_crc) = split_checked(data, count, flag)?;
        Ok(PdrPart {
            next_record_handle,
            next_data_transfer_handle,
            flag,
            bytes,
            transfer_crc,
        })
    }

    fn len(&self) -> usize {
        PART_NUMBERS + self.bytes.len() + usize::from(self.transfer_crc.is_some())
    }

    fn put(&self, out: &mut [u8]) -> usize {
        self.put_numbers(out);
        PART_NUMBERS + put_checked(self.bytes, self.transfer_crc, &mut out[PART_NUMBERS..])
    }

    ghost one_value = { one_part };
}

/// Writes the bytes, and the check byte where there is one, and returns how many bytes it wrote.
fn put_checked(bytes: &[u8], check: Option<u8>, out: &mut [u8]) -> usize
    requires { length (bytes.now ++ option_to_list check) ≤ length out.old }
    ensures count { result ≡ length (bytes.now ++ option_to_list check) }
    ensures front { out.new ≡ bytes.now ++ option_to_list check ++ drop result out.old }
{
    let end = bytes.len();
    out[..end].copy_from_slice(bytes);
    match check {
        None => end,
        Some(check) => {
            out[end] = check;
            end + 1
        }
    }
}

/// So many bytes of a record, and the check byte that follows them where the flag says so.
fn split_checked(
    rest: &[u8],
    count: u16,
    flag: TransferFlag,
) -> Result<(&[u8], Option<u8>), PldmError>
    ensures { MatchResult result (λ r. IsChecked rest.now count flag.value r.0.now r.1) (λ e. (e ≡ PldmError.Length) × (length rest.now ≢ count + check_length flag.value)) }
{
    let count = usize::from(count);
    let has_check = flag == TransferFlag::END;
    if rest.len() != count + usize::from(has_check) {
        return Err(PldmError::Length);
    }
    let (bytes, tail) = rest.split_at(count);
    Ok((bytes, tail.first().copied()))
}
