//! The bytes that hexadecimal digits stand for.
ghost use Rattle.std.specs.Prelude.{◌≡◌, ◌%◌, ◌<◌, Ok, OnOk, IfErr, length};
ghost use Rattle.hex.specs.Hex.{decode_of, is_hex_digit};
ghost use Rattle.twkb_flat.specs.Taking.{IfRefused};
ghost use Rattle.twkb_hex.specs.Digits as spec;
ghost use Rattle.twkb_hex.specs.Digits.{RefusesDigits, RefusesPairs};

use crate::report::HexReason;
use hex::FromHexError;
use twkb_flat::Stop;

// What is after `\x`, if a field begins with that; else the field.
pub(crate) fn digits_in(field: &[u8]) -> &[u8]
    ensures { result.now ≡ spec.digits_in field.now }
{
    if field.starts_with(b"\\x") {
        &field[2..]
    } else {
        field
    }
}

// Decodes pairs of digits in place of the bytes held. Takes memory. An `Err` is the byte whose
// characters are no digits, or want of memory.
fn decode_pairs(pairs: &[u8], bytes: &mut Vec<u8>) -> Result<(), Stop<HexReason>>
    requires { length pairs.now % 2 ≡ 0 }
    ensures ok { OnOk result (decode_of pairs.now ≡ Ok bytes.new.items) }
    ensures err { IfErr result (IfRefused (RefusesPairs pairs.now)) }
{
    bytes.clear();
    bytes.resize(pairs.len() / 2, 0)?;
    let Err(fault) = hex::decode_to_slice(pairs, bytes.as_mut_slice()) else {
        return Ok(());
    };
    match fault {
        FromHexError::InvalidHexCharacter { index, .. } => {
            Err(Stop::Refused(HexReason::NoDigits(index / 2)))
        }
        _ => unreachable!(),
    }
}

// Why a character after pairs of digits, for the byte with this number, is refused.
fn refused_rest(byte: usize, character: u8) -> HexReason
    ensures { result ≡ spec.refused_rest byte character }
{
    if character.is_ascii_hexdigit() {
        HexReason::OddDigits(byte)
    } else {
        HexReason::NoDigits(byte)
    }
}

// Decodes digits in place of the bytes held. Takes memory. An `Err` is why they are no pairs of
// digits, at least one, or want of memory.
pub(crate) fn decode(digits: &[u8], bytes: &mut Vec<u8>) -> Result<(), Stop<HexReason>>
    ensures ok { OnOk result (decode_of digits.now ≡ Ok bytes.new.items) }
    ensures some { OnOk result (0 < length bytes.new.items) }
    ensures err { IfErr result (IfRefused (RefusesDigits digits.now)) }
{
    let count = digits.len() / 2;
    decode_pairs(&digits[..2 * count], bytes)?;
    if digits.len() % 2 == 1 {
        return Err(Stop::Refused(refused_rest(count, digits[2 * count])));
    }
    if digits.is_empty() {
        return Err(Stop::Refused(HexReason::NoDigits(0)));
    }
    Ok(())
}
