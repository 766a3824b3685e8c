//! An exchange: one object that is source and sink, so that clauses can speak of the order of its reads and writes; standard input
//! and standard output together, which tell no content.
ghost use Rattle.std.specs.Prelude.{◌≡◌, ◌<◌, ◌≤◌, length, None, IfOk, OnOk, OnErr};
ghost use Rattle.zone_outside.specs.{Exchanges.{ExchangeSeen, Receives, Sends, Wrote, WrotePart}, Outside.{Rose}};

use crate::outside::{Failed, Sink, Source, StdSink, StdSource};
use std::io::Read;
use std::marker::Model;

/// One object that gives bytes and takes bytes.
pub trait Exchange {
    /// What it did, what is still to come, and its counts of faults.
    ghost seen: { Self → ExchangeSeen };

    /// Puts the next bytes at the front of the buffer, which isn't empty, and answers how many; 0 only at the end.
    ///
    /// # Errors
    ///
    /// `Failed` where the call is refused; the count of failed reads rose, and all else is as before.
    fn read(&mut self, into: &mut [u8]) -> Result<usize, Failed>
        requires { 0 < length into.old }
        ensures bound { IfOk result (λ n. n ≤ length into.old) }
        ensures receives { Receives (seen self.old) (seen self.new) into.new result };

    /// Takes the first bytes of the piece, which isn't empty, at least one, and answers how many.
    ///
    /// # Errors
    ///
    /// `Failed` where the call is refused; the count of failed writes rose, and all else is as before.
    fn write(&mut self, piece: &[u8]) -> Result<usize, Failed>
        requires { 0 < length piece.now }
        ensures some { IfOk result (λ n. 0 < n) }
        ensures bound { IfOk result (λ n. n ≤ length piece.now) }
        ensures sends { Sends (seen self.old) (seen self.new) piece.now result };
}

/// Writes these bytes to their end, and reads nothing.
///
/// # Errors
///
/// `Failed` where a write fails; some first part of the bytes was then taken.
pub fn send_all<E: Exchange>(exchange: &mut E, bytes: &[u8]) -> Result<(), Failed>
    ensures ok { OnOk result (Wrote (E.seen exchange.old) (E.seen exchange.new) bytes.now) }
    ensures err { OnErr result (WrotePart (E.seen exchange.old) (E.seen exchange.new) bytes.now) }
    ensures later { (E.seen exchange.old).write_faults ≤ (E.seen exchange.new).write_faults }
    ensures failed { OnErr result (Rose (E.seen exchange.old).write_faults (E.seen exchange.new).write_faults) }
{
    let mut at = 0;
    'sending: while at < bytes.len() {
        at += exchange.write(&bytes[at..])?;
    }
    Ok(())
}

/// Standard input and standard output.
#[derive(Drop)]
pub struct StdExchange<S: Read + Drop, P: Print + Drop> {
    input: StdSource<S>,
    output: StdSink<P>,
}

impl<S: Read + Drop, P: Print + Drop> Model for StdExchange<S, P> {
    ghost use Rattle.zone_outside.specs.Exchanges.{ExchangeFaults};

    ghost Value = { ExchangeFaults };

    ghost view = { λ s. record { read_faults = s.input.faults; write_faults = s.output.faults } };
}

impl<S: Read + Drop, P: Print + Drop> StdExchange<S, P> {
    /// The runtime's reader, as `rt.reader()`, and its printer. Both counts of faults are 0.
    pub fn new(reader: S, printer: P) -> StdExchange<S, P>
        ensures { result ≡ record { read_faults = 0; write_faults = 0 } }
    {
        StdExchange {
            input: StdSource::new(reader),
            output: StdSink::new(printer),
        }
    }
}

impl<S: Read + Drop, P: Print + Drop> Exchange for StdExchange<S, P> {
    ghost seen = { λ s. record { done = None; left = None; read_faults = s.read_faults; write_faults = s.write_faults } };

    fn read(&mut self, into: &mut [u8]) -> Result<usize, Failed> {
        self.input.read(into)
    }

    fn write(&mut self, piece: &[u8]) -> Result<usize, Failed> {
        self.output.write(piece)
    }
}
