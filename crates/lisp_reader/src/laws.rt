//! Laws of reading, which hold of every text.
ghost use Rattle.lisp_reader.specs.Answers.{FaultStays, GivesOne, TakesNone};
ghost use Rattle.lisp_reader.specs.Printed.{ReadsBack};

/// From each place a text gives one thing next: nothing, one datum up to one place, or one fault at one place.
pub fn gives_one()
    ensures { GivesOne }
{}

/// What a datum prints as, quoted and readably, gives that datum with nothing left: for data of integers in 64 bits, of
/// names that are read as they print, of strings, and of lists of these that nest no deeper than a text may.
pub fn reads_back()
    ensures { ReadsBack }
{}

/// Where a text has nothing but gaps left, where one of them is at fault, where no datum begins after them, or where the
/// next datum is an integer, there is nothing that takes memory: so no answer of want of memory.
pub fn takes_none()
    ensures { TakesNone }
{}

/// A fault other than an end inside of a datum or a comment stays the fault of the text whatever lines follow: so no
/// further line makes a datum of it.
pub fn fault_stays()
    ensures { FaultStays }
{}
