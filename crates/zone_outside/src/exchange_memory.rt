//! An exchange in memory, which tells everything and whose listed calls fail.
ghost use Rattle.std.specs.Prelude.{◌≡◌, ◌<◌, ◌≤◌, ◌==◌, ◌||◌, [], min, true, Some, length, IfOk, IsErr, OnOk, OnErr, is_err, ◌+◌};
ghost use Rattle.zone_outside.specs.{Exchanges.{Receives, Sends, sent}, Memory.{counted, fails_next, faulted, fresh_calls}};

use crate::exchange::Exchange;
use crate::memory::{Calls, bytes_from, copy_front};
use crate::outside::Failed;
use std::alloc::{AllocError, Global};
use std::marker::Model;

/// Bytes to be read and bytes written, and the calls that moved them.
#[derive(Drop)]
pub struct MemExchange {
    input: Vec<u8>,
    at: usize,
    output: Vec<u8>,
    marks: Vec<(bool, usize)>,
    most: usize,
    read_step: usize,
    write_step: usize,
    reads: Calls,
    writes: Calls,
}

impl Model for MemExchange {
    ghost use Rattle.std.specs.Prelude.{drop, vec_len, vec_capacity};
    ghost use Rattle.zone_outside.specs.Marks.{ExchangeState, IsKept, events_of};

    ghost Value = { ExchangeState };

    ghost view = { λ s. record {
      done = events_of s.marks.items s.input.items s.output.items;
      made = vec_len s.marks;
      most = s.most;
      left = drop s.at s.input.items;
      read_step = s.read_step;
      write_step = s.write_step;
      reads = s.reads;
      writes = s.writes;
    } };

    ghost invariant = { λ s. IsKept s.marks.items s.input.items s.output.items s.at s.most (vec_capacity s.marks) s.read_step s.write_step };
}

impl MemExchange {
    /// An exchange with these bytes to be read, at most `read_step` of them a read, which takes at most `write_step` bytes a write, and
    /// accepts at most `most` calls in all. The reads and the writes whose numbers are listed fail, each counted from 1.
    ///
    /// # Errors
    ///
    /// Want of memory for the list of calls alone.
    pub fn new(
        alloc: Global,
        input: Vec<u8>,
        read_step: usize,
        write_step: usize,
        most: usize,
        failing_reads: Vec<u64>,
        failing_writes: Vec<u64>,
    ) -> Result<MemExchange, AllocError>
        requires read_moves { 0 < read_step }
        requires write_moves { 0 < write_step }
        ensures { IfOk result (λ s. s ≡ record {
          done = [];
          made = 0;
          most = most;
          left = input.items;
          read_step = read_step;
          write_step = write_step;
          reads = fresh_calls failing_reads.items;
          writes = fresh_calls failing_writes.items;
        }) }
    {
        Ok(MemExchange {
            input,
            at: 0,
            output: Vec::new(alloc),
            marks: Vec::with_capacity(alloc, most)?,
            most,
            read_step,
            write_step,
            reads: Calls::new(failing_reads),
            writes: Calls::new(failing_writes),
        })
    }

    /// The bytes written so far.
    pub fn written(&self) -> &[u8]
        ensures { result.now ≡ sent self.now.done }
    {
        &self.output
    }
}

impl Exchange for MemExchange {
    ghost seen = { λ s. record { done = Some s.done; left = Some s.left; read_faults = s.reads.faults; write_faults = s.writes.faults } };

    fn read(&mut self, into: &mut [u8]) -> Result<usize, Failed>
        requires { 0 < length into.old }
        ensures bound { IfOk result (λ n. n ≤ length into.old) }
        ensures receives { Receives
            (record { done = Some self.old.done; left = Some self.old.left; read_faults = self.old.reads.faults; write_faults = self.old.writes.faults })
            (record { done = Some self.new.done; left = Some self.new.left; read_faults = self.new.reads.faults; write_faults = self.new.writes.faults }) into.new result }

        ensures fails { is_err result ≡ (fails_next self.old.reads || (self.old.made == self.old.most)) }
        ensures count { IfOk result (λ n. n ≡ min (min self.old.read_step (length into.old)) (length self.old.left)) }
        ensures ok { OnOk result ((self.new.made ≡ self.old.made + 1) × (self.new.reads ≡ counted self.old.reads) × (self.new.writes ≡ self.old.writes)) }
        ensures err { OnErr result (self.new ≡ record self.old { reads = faulted (counted self.old.reads) }) }
    {
        self.reads.begin()?;
        if self.marks.len() == self.most {
            return Err(self.reads.fault());
        }
        let count = copy_front(bytes_from(&self.input, self.at), self.read_step, into);
        self.at += count;
        self.marks.push((false, count)).unwrap();
        Ok(count)
    }

    fn write(&mut self, piece: &[u8]) -> Result<usize, Failed>
        requires { 0 < length piece.now }
        ensures some { IfOk result (λ n. 0 < n) }
        ensures bound { IfOk result (λ n. n ≤ length piece.now) }
        ensures sends { Sends
            (record { done = Some self.old.done; left = Some self.old.left; read_faults = self.old.reads.faults; write_faults = self.old.writes.faults })
            (record { done = Some self.new.done; left = Some self.new.left; read_faults = self.new.reads.faults; write_faults = self.new.writes.faults }) piece.now result }

        ensures fails { fails_next self.old.writes ≡ true → IsErr result }
        ensures count { IfOk result (λ n. n ≡ min self.old.write_step (length piece.now)) }
        ensures ok { OnOk result ((self.new.made ≡ self.old.made + 1) × (self.new.writes ≡ counted self.old.writes) × (self.new.reads ≡ self.old.reads)) }
        ensures err { OnErr result (self.new ≡ record self.old { writes = faulted (counted self.old.writes) }) }
    {
        self.writes.begin()?;
        let count = self.write_step.min(piece.len());
        if self.marks.len() == self.most
            || self.output.extend_from_slice(&piece[..count]).is_err()
        {
            return Err(self.writes.fault());
        }
        self.marks.push((true, count)).unwrap();
        Ok(count)
    }
}
