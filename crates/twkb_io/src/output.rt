//! A sink that sends bytes to a writer, with an exact count of the bytes that the writer took.
ghost use Rattle.std.specs.Prelude.{◌≡◌, ◌≢◌, ◌+◌, ◌≤◌, ◌<◌, ◌↔◌, [], true, false, length};
ghost use Rattle.std.specs.Prelude.{take, Err, IfOk, OnOk, OnErr, IfErr};
ghost use Rattle.twkb_io.specs.declared.TheConstants.{MAX_BYTES};
ghost use Rattle.twkb_io.specs.Sinks.{TookFront};

use crate::MAX_BYTES;
use crate::sink::Sink;
use crate::tap::Tap;
use std::io::Write;
use thiserror::Error;

/// Why an output did not take a complete put, or why a flush failed.
#[derive(Clone, Copy, PartialEq, Eq, Debug, Error)]
pub enum OutFault {
    /// A write or a flush failed in this call.
    #[error("write failed")]
    Write,
    /// A write of at least one byte took none, in this call.
    #[error("the writer takes no more")]
    Stuck,
    /// More than 2^62 bytes would be sent.
    #[error("output too long")]
    TooLong,
    /// An earlier call returned an error.
    #[error("output was refused before")]
    Spent,
}

/// A sink that sends each put to a writer at once, and counts the bytes that the writer took. It
/// holds no byte back, repeats no write, and takes no memory.
#[derive(Drop)]
pub struct Output<'a, W> {
    tap: &'a mut Tap<W>,
    sent: u64,
    spent: bool,
    ghost within: { sent ≤ MAX_BYTES },
}

impl<'a, W> Output<'a, W> {
    ghost use Rattle.twkb_io.specs.Outputs.{is_spent, output_failures, output_tap, sent_of};

    /// Makes an output that has sent nothing, to the tap's writer. Takes no memory.
    pub fn new(tap: &'a mut Tap<W>) -> Output<'a, W>
        ensures same_tap { (output_tap result).ghost_name ≡ tap.entry.ghost_name }
        ensures untouched { (output_tap result).now ≡ tap.old }
        ensures sent { sent_of result ≡ 0 }
        ensures fresh { is_spent result ≡ false }
    {
        Output {
            tap,
            sent: 0,
            spent: false,
        }
    }

    /// The number of bytes that the writer took from this output, at most 2^62. Takes no memory.
    pub fn sent(&self) -> u64
        ensures sent { result ≡ sent_of self.now }
        ensures within { result ≤ MAX_BYTES }
    {
        self.sent
    }

    /// The number of failed calls that the borrowed tap has counted, also before this output was
    /// made. Takes no memory.
    pub fn failures(&self) -> u64
        ensures { result ≡ output_failures self.now }
    {
        self.tap.failures()
    }
}

impl<'a, W: Write> Output<'a, W> {
    ghost use Rattle.twkb_io.specs.Taps.{calls_of, flushes_of, has_unflushed, is_stuck, one_call};
    ghost use Rattle.twkb_io.specs.Outputs.{Refused, Took, is_device, is_of_stuck, is_spent, output_tap, sent_of};

    /// Flushes the writer, once. After an `Err` each later put or flush returns `Spent`, and calls
    /// the writer no more. Takes no memory itself.
    pub fn flush(&mut self) -> Result<(), OutFault>
        ensures ok { OnOk result (Took W.contents self.old [] self.new) }
        ensures err { IfErr result (λ fault. Refused W.contents self.old [] fault self.new) }
        ensures flushed { OnOk result (has_unflushed (output_tap self.new).now ≡ false) }
        ensures asks { is_spent self.old ≡ false → calls_of (output_tap self.new).now ≡ one_call
            (calls_of (output_tap self.old).now) }
        ensures flushes { is_spent self.old ≡ false → flushes_of (output_tap self.new).now ≡ one_call
            (flushes_of (output_tap self.old).now) }
        ensures spent { (result ≡ Err OutFault.Spent) ↔ (is_spent self.old ≡ true) }
        ensures kinds { (result ≢ Err OutFault.Stuck) × (result ≢ Err OutFault.TooLong) }
        ensures unchanged { is_spent self.old ≡ true → self.new ≡ self.old }
    {
        if self.spent {
            return Err(OutFault::Spent);
        }
        if self.tap.flush().is_err() {
            self.spent = true;
            return Err(OutFault::Write);
        }
        Ok(())
    }

    // Writes once, and returns the number of bytes that the writer took, at least one, which it
    // adds to `sent`. There must be a byte to write, all bytes must keep `sent` within 2^62, and
    // the output must not be spent; it is spent after an `Err`, and then the writer took none of
    // the bytes.
    fn send(&mut self, bytes: &[u8]) -> Result<usize, OutFault>
        requires fresh { is_spent self.old ≡ false }
        requires some { 0 < length bytes.now }
        requires room { sent_of self.old + length bytes.now ≤ MAX_BYTES }
        ensures count { IfOk result (λ n. (0 < n) × (n ≤ length bytes.now)) }
        ensures ok { IfOk result (λ n. Took W.contents self.old (take n bytes.now) self.new) }
        ensures err { IfErr result (λ fault. Refused W.contents self.old [] fault self.new × (is_device fault ≡ true)) }
        ensures told { IfErr result (λ fault. is_of_stuck fault ≡ is_stuck (output_tap self.new).now) }
        ensures flushes { flushes_of (output_tap self.new).now ≡ flushes_of (output_tap self.old).now }
    {
        match self.tap.write(bytes) {
            Ok(0) => {
                self.spent = true;
                Err(OutFault::Stuck)
            }
            Ok(taken) => {
                self.sent += taken as u64;
                Ok(taken)
            }
            Err(_) => {
                self.spent = true;
                Err(OutFault::Write)
            }
        }
    }
}

impl<'a, W: Write> Sink for Output<'a, W> {
    ghost use Rattle.twkb_io.specs.Taps.{flushes_of, is_stuck};
    ghost use Rattle.twkb_io.specs.Outputs.{Cut, Took, is_device, is_of_stuck, is_spent, output_tap, sent_of};
    ghost use Rattle.twkb_io.specs.Outputs.{cut_join, cut_within, took_join, took_nothing};

    type Fault = OutFault;

    ghost took = { Took W.contents };

    ghost refused = { Cut W.contents };

    ghost taken = { sent_of };

    ghost takes_nothing = { took_nothing W.contents };

    ghost takes_join = { took_join W.contents };

    ghost refuses_join = { cut_join W.contents };

    ghost adds_up = { λ a b xs took. took.sends.sent };

    ghost adds_no_more = { cut_within W.contents };

    /// Sends the bytes, with as many writes as the writer needs, and no flush. After an `Err` the
    /// writer took a prefix of the bytes, which `sent` counts, and each later put or flush returns
    /// `Spent`. Bytes that would take `sent` past 2^62 are refused as `TooLong`, and none is sent.
    /// Takes no memory itself.
    fn put(&mut self, bytes: &[u8]) -> Result<(), OutFault>
        ensures ok { OnOk result (Took W.contents self.old bytes.now self.new) }
        ensures err { IfErr result (λ fault. TookFront (Cut W.contents) self.old bytes.now fault self.new) }
        ensures cut { IfErr result (λ fault. Cut W.contents self.old bytes.now fault self.new) }
        ensures spent { (result ≡ Err OutFault.Spent) ↔ (is_spent self.old ≡ true) }
        ensures too_long { (result ≡ Err OutFault.TooLong)
            ↔ ((is_spent self.old ≡ false) × (MAX_BYTES < sent_of self.old + length bytes.now)) }
        ensures untouched { result ≡ Err OutFault.TooLong
            → (output_tap self.new ≡ output_tap self.old) × (sent_of self.new ≡ sent_of self.old) }
        ensures unchanged { is_spent self.old ≡ true → self.new ≡ self.old }
        ensures told { IfErr result (λ fault. is_device fault ≡ true
            → is_of_stuck fault ≡ is_stuck (output_tap self.new).now) }
        ensures flushes { flushes_of (output_tap self.new).now ≡ flushes_of (output_tap self.old).now }
        ensures short { OnErr result (0 < length bytes.now → sent_of self.new < sent_of self.old + length bytes.now) }
    {
        if self.spent {
            return Err(OutFault::Spent);
        }
        if bytes.len() as u64 > MAX_BYTES - self.sent {
            self.spent = true;
            return Err(OutFault::TooLong);
        }
        let mut rest = bytes;
        while !rest.is_empty() {
            let taken = self.send(rest)?;
            rest = &rest[taken..];
        }
        Ok(())
    }
}
