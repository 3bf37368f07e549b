// The findings book (document 02, N3): a counter and the entries that stand, handed to each call by value and
// handed back.
//
// It knows nothing of plates and traces: an entry is a few numbers. A refused call hands the book back as it
// came, to the last slot. An accepted one hands back a book that is settled to the last slot as well: where no
// entry stands, the slot is empty. Books can be put together by hand, so every call looks before it reads.
#![tactic(auto)]

ghost use Rattle.std.specs.Prelude.{◌≡◌, [], ◌≤◌};
ghost use Rattle.plate.specs.Refusals.{judged};
ghost use Rattle.plate.specs.Answers.{answered, number_by};
ghost use Rattle.book.specs.Entries.{others, standing, book_of};
ghost use Rattle.book.specs.Refusals.{entry_checks, enter_verdict, withdraw_verdict, handed_back};

mod entry;
mod target;

use crate::target::{Target, is_meant};
pub use entry::{Entry, Key};
use plate::{Reason, Refusal};

// The first `count` entries stand, in the order of entering; `last` is the last serial number given.
// By hand, an array with a count beside: C has it by value (include/diilvak_book.h).
#[derive(Clone, Copy)]
#[repr(C)]
pub struct Book {
    pub last: u32,
    pub count: usize,
    pub entries: [Entry; 256],
}

// What a call hands back: the number of a refusal, else 0, and the book.
// By hand in place of a Result: C has it by value (include/diilvak_book.h).
#[derive(Clone, Copy)]
#[repr(C)]
pub struct Kept {
    pub number: usize,
    pub book: Book,
}

impl Book {
    pub const MAX_ENTRIES: usize = 256;

    pub const MAX_SERIAL: u32 = 4294967295;

    // A book in which nothing stands.
    pub fn new() -> Book
        ensures { result ≡ book_of 0 [] }
    {
        Book {
            last: 0,
            count: 0,
            entries: [Entry::default(); 256],
        }
    }

    // A refusal, with the book as it came.
    fn refused(self, reason: Reason) -> Kept
        ensures { result ≡ record { number = number_by reason; book = self } }
    {
        Kept {
            number: reason.number(),
            book: self,
        }
    }

    // The book without the entries that are meant, the others in their order.
    fn without(self, target: Target) -> Book
        requires { self.count ≤ 256 }
        ensures { result ≡ book_of self.last (others target (standing self)) }
    {
        let mut book = Book::new();
        for entry in &self.entries[..self.count] {
            if !is_meant(target, *entry) {
                let at = book.count;
                book.entries[at] = *entry;
                book.count = at + 1;
            }
        }
        book.last = self.last;
        book
    }

    // Refuses an entry for a key (15, 16), or is done: then the book would take one. All that it asks is known
    // before there is a finding, so a caller can ask before it traces.
    pub fn judge(self, key: Key) -> Result<(), Refusal>
        ensures { answered result ≡ judged (entry_checks self key) tt }
    {
        Reason::Full.refuse_if(self.count > Book::MAX_ENTRIES)?;
        let rest = self.without(Target::OfKey(key));
        Reason::Full.refuse_if(rest.count == Book::MAX_ENTRIES)?;
        Reason::Spent.refuse_if(self.last == Book::MAX_SERIAL)
    }

    // Enters a finding under the next serial number, in place of every entry of its key; or refuses (15, 16).
    pub fn enter(self, key: Key, level: i16, direction: usize) -> Kept
        ensures { result ≡ handed_back (enter_verdict self key level direction) self }
    {
        if let Err(refusal) = self.judge(key) {
            return self.refused(refusal.reason);
        }
        let mut book = self.without(Target::OfKey(key));
        let at = book.count;
        let serial = self.last + 1;
        book.entries[at] = Entry {
            serial,
            plate: key.plate,
            place: key.place,
            mode: key.mode,
            level,
            direction,
        };
        book.count = at + 1;
        book.last = serial;
        Kept { number: 0, book }
    }

    // Takes out every entry of a serial number; or refuses (15, 17). The counter stays: no serial number is given
    // twice.
    pub fn withdraw(self, serial: u32) -> Kept
        ensures { result ≡ handed_back (withdraw_verdict self serial) self }
    {
        if self.count > Book::MAX_ENTRIES {
            return self.refused(Reason::Full);
        }
        let rest = self.without(Target::OfSerial(serial));
        if rest.count == self.count {
            return self.refused(Reason::NoEntry);
        }
        Kept {
            number: 0,
            book: rest,
        }
    }
}
