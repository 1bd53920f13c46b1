//! The bytes of a reader, one at a time or all that are held, through an array of fixed size.
ghost use Rattle.std.specs.Prelude.{Ok, None, Err, ◌≡◌, ◌≢◌, ◌≤◌, ◌<◌, ◌+◌, ◌↔◌, true, false};
ghost use Rattle.std.specs.Prelude.{is_err, length, take, drop, IfSome, IfErr, OnOk, [], ◌⊎◌};
ghost use Rattle.std.specs.Io.{StartsWith};
ghost use Rattle.std.specs.Io.KnownBytes.{Consumes, IsAtEnd, Keeps};
ghost use Rattle.std.proofs.Props.{props};
ghost use Rattle.twkb_io.specs.declared.TheConstants.{MAX_BYTES};

use crate::MAX_BYTES;
use crate::tap::Tap;
use std::io::Read;
use thiserror::Error;

const HELD: usize = 4096;

/// Why an input gave no byte.
#[derive(Clone, Copy, PartialEq, Eq, Debug, Error)]
pub enum InFault {
    /// The reader failed in this call.
    #[error("read failed")]
    Read,
    /// 2^62 bytes were given out, and the input has more.
    #[error("input too long")]
    TooLong,
    /// An earlier call returned an error.
    #[error("input was refused before")]
    Spent,
}

/// A reader's bytes in order, each given out once. It holds at most 4096 bytes, in its own array,
/// and takes no memory. The rest of an input is the unused part of that array, and then what the
/// reader still gives.
#[derive(Drop)]
pub struct Input<'a, R: Read> {
    tap: &'a mut Tap<R>,
    held: [u8; HELD],
    at: usize,
    filled: usize,
    offset: u64,
    ended: bool,
    spent: bool,
    ghost in_order: { at ≤ filled },
    ghost in_array: { filled ≤ length held },
    ghost within: { offset ≤ MAX_BYTES },
    ghost used_up: { ended ≡ true → at ≡ filled },
    ghost one_end: { ended ≡ true → spent ≡ false },
    ghost at_end: { ended ≡ true → IfSome (R.remaining tap.now.device) (λ left. left ≡ []) } by { Prim.hlevel props },
}

impl<'a, R: Read> Input<'a, R> {
    ghost use Rattle.twkb_io.specs.Taps.{calls_of, count_failure, device_of};
    ghost use Rattle.twkb_io.specs.Inputs.{GivesNext, given, given_after, has_ended, held_of};
    ghost use Rattle.twkb_io.specs.Inputs.{input_failures, input_tap, is_read_fault, is_spent};
    ghost use Rattle.twkb_io.specs.Inputs.{rest_of};

    /// Makes an input of all bytes that the tap's reader still gives. Reads nothing yet, and takes
    /// no memory.
    pub fn new(tap: &'a mut Tap<R>) -> Input<'a, R>
        ensures same_tap { (input_tap result).ghost_name ≡ tap.entry.ghost_name }
        ensures untouched { (input_tap result).now ≡ tap.old }
        ensures rest { rest_of result ≡ R.remaining (device_of tap.old) }
        ensures held { held_of result ≡ [] }
        ensures given { given result ≡ 0 }
        ensures fresh { is_spent result ≡ false }
        ensures not_ended { has_ended result ≡ false }
    {
        Input {
            tap,
            held: [0; HELD],
            at: 0,
            filled: 0,
            offset: 0,
            ended: false,
            spent: false,
        }
    }

    /// Returns the next byte, or `None` at the end and in each call after it. Reads at most once,
    /// and only if no byte is held and the end was not reached. After an `Err` each later `next` or
    /// `fill` returns `Spent`. Takes no memory itself.
    pub fn next(&mut self) -> Result<Option<u8>, InFault>
        ensures same_tap { (input_tap self.new).ghost_name ≡ (input_tap self.old).ghost_name }
        ensures gives { GivesNext (rest_of self.old) result (rest_of self.new) }
        ensures given { given self.new ≡ given_after (given self.old) result }
        ensures end { result ≡ Ok None → (has_ended self.new ≡ true)
            × IsAtEnd (R.remaining (device_of (input_tap self.new).now)) }
        ensures for_good { has_ended self.old ≡ true → (result ≡ Ok None) × (self.new ≡ self.old) }
        ensures unread { held_of self.old ≢ [] → input_tap self.new ≡ input_tap self.old }
        ensures once { calls_of (input_tap self.new).now ≤ calls_of (input_tap self.old).now + 1 }

        ensures failures { input_failures self.new ≡ count_failure (is_read_fault result) (input_failures self.old) }
        ensures too_long { result ≡ Err InFault.TooLong → (given self.old ≡ MAX_BYTES)
            × IfSome (rest_of self.old) (λ rest. rest ≢ []) }
        ensures none_held { result ≡ Err InFault.Read
            → rest_of self.new ≡ R.remaining (device_of (input_tap self.new).now) }
        ensures spent { (result ≡ Err InFault.Spent) ↔ (is_spent self.old ≡ true) }
        ensures stays { is_spent self.new ≡ is_err result }
        ensures unchanged { is_spent self.old ≡ true → self.new ≡ self.old }
    {
        self.fill()?;
        let Some(byte) = self.held().first() else {
            return Ok(None);
        };
        let byte = *byte;
        self.advance(1);
        Ok(Some(byte))
    }

    /// Reads at most once, and only if no byte is held and the end was not reached; after `Ok`,
    /// `held` is empty only at the end. Gives out no byte. After an `Err` each later `next` or
    /// `fill` returns `Spent`. Takes no memory itself.
    #[inline(always)]
    pub fn fill(&mut self) -> Result<(), InFault>
        ensures same_tap { (input_tap self.new).ghost_name ≡ (input_tap self.old).ghost_name }
        ensures keeps { Keeps (rest_of self.old) (rest_of self.new) }
        ensures given { given self.new ≡ given self.old }
        ensures end { OnOk result (held_of self.new ≡ [] → has_ended self.new ≡ true) }
        ensures ended { has_ended self.new ≡ true → (held_of self.new ≡ [])
            × IsAtEnd (rest_of self.new)
            × IsAtEnd (R.remaining (device_of (input_tap self.new).now)) }
        ensures for_good { has_ended self.old ≡ true → (result ≡ Ok tt) × (self.new ≡ self.old) }
        ensures unread { held_of self.old ≢ [] → self.new ≡ self.old }
        ensures once { calls_of (input_tap self.new).now ≤ calls_of (input_tap self.old).now + 1 }

        ensures failures { input_failures self.new ≡ count_failure (is_read_fault result) (input_failures self.old) }
        ensures too_long { result ≡ Err InFault.TooLong → (given self.old ≡ MAX_BYTES)
            × IfSome (rest_of self.old) (λ rest. rest ≢ []) }
        ensures none_held { result ≡ Err InFault.Read
            → rest_of self.new ≡ R.remaining (device_of (input_tap self.new).now) }
        ensures spent { (result ≡ Err InFault.Spent) ↔ (is_spent self.old ≡ true) }
        ensures stays { is_spent self.new ≡ is_err result }
        ensures unchanged { is_spent self.old ≡ true → self.new ≡ self.old }
    {
        if self.spent {
            return Err(InFault::Spent);
        }
        self.refill()?;
        if self.ended {
            return Ok(());
        }
        if self.offset >= MAX_BYTES {
            self.spent = true;
            return Err(InFault::TooLong);
        }
        Ok(())
    }

    /// The bytes that can be given out without a read: the unused part of the array, cut at 2^62
    /// bytes in all. Takes no memory.
    pub fn held(&self) -> &[u8]
        ensures held { result.now ≡ held_of self.now }
        ensures front { IfSome (rest_of self.now) (λ rest. StartsWith rest result.now) }
    {
        let unused = &self.held[self.at..self.filled];
        let room = MAX_BYTES - self.offset;
        let count = room.min(unused.len() as u64) as usize;
        &unused[..count]
    }

    /// Counts the first `count` bytes of `held` as given out; there must be that many. Takes no
    /// memory.
    pub fn advance(&mut self, count: usize)
        requires { count ≤ length (held_of self.old) }
        ensures same_tap { input_tap self.new ≡ input_tap self.old }
        ensures gives { Consumes (rest_of self.old) (rest_of self.new) (take count (held_of self.old)) }
        ensures held { held_of self.new ≡ drop count (held_of self.old) }
        ensures given { given self.new ≡ given self.old + count }
        ensures stays { is_spent self.new ≡ is_spent self.old }
        ensures ended { has_ended self.new ≡ has_ended self.old }
    {
        self.at += count;
        self.offset += count as u64;
    }

    /// The number of bytes given out, at most 2^62. Takes no memory.
    pub fn offset(&self) -> u64
        ensures offset { result ≡ given self.now }
        ensures within { result ≤ MAX_BYTES }
    {
        self.offset
    }

    /// The number of failed calls that the borrowed tap has counted, also before this input was
    /// made. Takes no memory.
    pub fn failures(&self) -> u64
        ensures { result ≡ input_failures self.now }
    {
        self.tap.failures()
    }

    // Reads once if no byte of the array is left and the end was not reached; a read that gives no
    // byte is the end. The input must not be spent; if the read fails, it is spent.
    fn refill(&mut self) -> Result<(), InFault>
        requires { is_spent self.old ≡ false }
        ensures same_tap { (input_tap self.new).ghost_name ≡ (input_tap self.old).ghost_name }
        ensures keeps { Keeps (rest_of self.old) (rest_of self.new) }
        ensures given { given self.new ≡ given self.old }
        ensures failures { input_failures self.new ≡ count_failure (is_err result) (input_failures self.old) }
        ensures end { OnOk result (self.new.at ≡ self.new.filled → has_ended self.new ≡ true) }
        ensures unread { (self.old.at < self.old.filled) ⊎ (has_ended self.old ≡ true)
            → (is_err result ≡ false) × (self.new ≡ self.old) }
        ensures once { calls_of (input_tap self.new).now ≤ calls_of (input_tap self.old).now + 1 }
        ensures err { IfErr result (λ fault. fault ≡ InFault.Read) }
        ensures none_held { is_err result ≡ true → rest_of self.new ≡ R.remaining (device_of (input_tap self.new).now) }
        ensures stays { is_spent self.new ≡ is_err result }
    {
        if self.at < self.filled || self.ended {
            return Ok(());
        }
        let Ok(count) = self.tap.read(&mut self.held) else {
            self.spent = true;
            return Err(InFault::Read);
        };
        self.at = 0;
        self.filled = count;
        self.ended = count == 0;
        Ok(())
    }
}
