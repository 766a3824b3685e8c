//! What a caller in C reads by: a copy of a handle, with a part of a loan; and the value that is lent, while it is read.
ghost use Rattle.std.specs.Prelude.{◌≡◌, None, Some, is_some, IfSome, MatchOption, IsSomeAnd, Option, true};
ghost use Rattle.sefunjaro_c.specs.{declared.opened.Opened.{Opened}, Loans.{loan_owns, Loan, loan_coded, lent_coded, part_owns, part_shares}, Handles.{opened_coded}};

use crate::handle::Hidden;
use crate::opened::Opened;
use std::marker::Model;
use std::mem::replace;

/// The address of a value that is lent, with a part of the loan.
pub struct Reading {
    pub(crate) at: *const Opened,
    pub ghost opened: { Opened } by { lent_coded },
    pub ghost loan: { Loan } by { loan_coded },
}

impl Model for Reading {
    ghost also_owns = { λ reading. part_owns reading.at reading.opened reading.loan };

    ghost also_shares = { λ reading _ κ. part_shares reading.at reading.opened κ };
}

impl Reading {
    /// The value.
    pub fn get(&self) -> &Opened
        ensures { result.now ≡ self.now.opened }
    {
        unsafe { &*self.at }
    }
}

/// An address at which a value is lent, with a part of the loan, or nothing.
#[repr(C)]
pub struct Part {
    at: *const Hidden,
    pub ghost opened: { Option Opened } by { opened_coded },
    pub ghost loan: { Loan } by { loan_coded },
}

impl Model for Part {
    ghost also_owns = { λ part. loan_owns part.at part.opened part.loan };
}

impl Part {
    /// Nothing is lent.
    pub(crate) fn nothing() -> Part
        ensures { result.opened ≡ None }
    {
        Part {
            at: std::ptr::null(),
        }
    }

    /// A value that is being read is lent still.
    pub(crate) fn keep(reading: Reading) -> Part
        ensures { (result.opened ≡ Some reading.opened) × (result.loan ≡ reading.loan) }
    {
        let Reading { at } = reading;
        Part {
            at: at as *const Hidden,
        }
    }

    /// What is lent is read.
    pub(crate) fn read(self) -> Reading
        requires { is_some self.opened ≡ true }
        ensures { (self.opened ≡ Some result.opened) × (self.loan ≡ result.loan) }
    {
        let Part { at } = self;
        Reading {
            at: at as *const Opened,
        }
    }

    /// Lets go of an address at which nothing is lent.
    pub(crate) fn forget(self) {
        let Part { at: _ } = self;
    }
}

unsafe impl Send for Part {}

/// A copy of a handle, by which one call reads while the handle stays open. C sees an address and whether the handle is open, as in a
/// [`Handle`](crate::Handle), so that any number of threads may read one handle at once, each by a copy of its own.
///
/// It can't be dropped: whoever has one takes its part of the loan out.
#[repr(C)]
pub struct View {
    /// What is lent.
    pub part: Part,
    is_open: bool,
    ghost tells: { is_open ≡ is_some part.opened },
}

impl View {
    fn closed() -> View
        ensures { result.part.opened ≡ None }
    {
        View {
            part: Part::nothing(),
            is_open: false,
        }
    }

    fn open(reading: Reading) -> View
        ensures { (result.part.opened ≡ Some reading.opened) × (result.part.loan ≡ reading.loan) }
    {
        View {
            part: Part::keep(reading),
            is_open: true,
        }
    }

    fn value(self) -> Option<Reading>
        ensures reading { MatchOption self.part.opened (result ≡ None) (λ opened. IsSomeAnd result (λ reading. reading.opened ≡ opened)) }
        ensures loan { IfSome result (λ reading. reading.loan ≡ self.part.loan) }
    {
        let View { part, is_open } = self;
        if is_open {
            Some(part.read())
        } else {
            part.forget();
            None
        }
    }

    /// Begins to read, where the handle was open.
    pub fn take(&mut self) -> Option<Reading>
        ensures closed { self.new.part.opened ≡ None }
        ensures reading { MatchOption self.old.part.opened (result ≡ None) (λ opened. IsSomeAnd result (λ reading. reading.opened ≡ opened)) }
        ensures loan { IfSome result (λ reading. reading.loan ≡ self.old.part.loan) }
    {
        replace(self, View::closed()).value()
    }

    /// Ends reading: what was lent is lent still.
    pub fn put(&mut self, reading: Reading)
        requires { self.old.part.opened ≡ None }
        ensures opened { self.new.part.opened ≡ Some reading.opened }
        ensures loan { self.new.part.loan ≡ reading.loan }
    {
        let View { part, is_open: _ } = replace(self, View::open(reading));
        part.forget();
    }
}
