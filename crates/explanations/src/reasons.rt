//! The reasons for which a file is not sound.

/// The table of reasons, in the form of that of statuses.
#[macro_export]
macro_rules! reasons {
    ($then:ident $($with:tt)*) => {
        $then! { [$($with)*]
Short "1" ["short: fewer bytes than a page, or than its pages need;" "it was cut, or it is no file of cobix"]
    "
Meaning
  A part of the file is missing at its end; or it is no file of cobix.

What brings it about
  A copy or a transfer that broke off; a full disk; a file of another kind
  in the folder. This is told before anything else is looked at.

What to do
  Look at its length by ls -l. A file of cobix has pages of 4,096 bytes. If
  it should be one, put the last copy of the whole folder back.

Example
  cobix check notes.txt         unsound 1: a text is no file of cobix
  cobix check files/cust.dat    unsound 1: put the copy back
"
Gate "2" ["the gate is not closed: it was not closed after a change"] "
Meaning
  A run began to change the file, and did not come to its CLOSE. The first
  byte of the file says so. OPEN of it answers 91.

What brings it about
  The run was killed, or the machine stopped; a verb of it answered 30 or 91
  part-way; or its transcript could not be written. A file that is no file
  of cobix has this reason too, if it is long enough.

What to do
  Look at the transcript of that run for the first 30 or 91, and at its
  exit status. Put the last copy of the whole folder back, and run the deck
  again. Do not change the first byte: the pages behind it do not fit
  together.

Example
  cobix check files/cust.dat    unsound 2
  mv files files.bad
  cp -Rp copy files
  cobix check files/cust.dat    sound records 3 pages 4
"
Header "3" ["the first page is not that of a file"] "
Meaning
  The first page, which says what records and keys the file has, makes no
  sense.

What brings it about
  A file of another program whose first letter is C; or the disk, or another
  program, has changed the first page.

What to do
  If it should be a file of cobix, put the last copy of the whole folder
  back, and look at the disk.

Example
  cobix check files/cust.dat    unsound 3
  mv files files.bad
  cp -Rp copy files
"
Shared "4" ["a page is reached twice"] "
Meaning
  Two parts of the file claim the same page. One of them is harmed.

What brings it about
  The disk or another program has changed a page. No run of cobix leaves this
  in a file that it closed. A copy that was made during a run can have it.

What to do
  Put the last copy of the whole folder back, and look at the disk. Copy
  only while no run is at work.

Example
  Wrong:  cp -Rp files copy     (while cobix run is at work)
  Right:  cp -Rp files copy     (after it has ended)
"
Node "5" ["a page of a tree is not what its place requires"] "
Meaning
  A page of an index has the wrong kind, key, depth or number of entries.

What brings it about
  The disk or another program has changed a page. No run of cobix leaves this
  in a file that it closed. A copy that was made during a run can have it.

What to do
  Put the last copy of the whole folder back, and look at the disk.

Example
  cobix check files/cust.dat    unsound 5
  mv files files.bad
  cp -Rp copy files
"
Order "6" ["keys of a tree are out of order"] "
Meaning
  The entries of an index are not in rising order. A READ could miss records
  that are there.

What brings it about
  The disk or another program has changed a page. No run of cobix leaves this
  in a file that it closed. A copy that was made during a run can have it.

What to do
  Put the last copy of the whole folder back, and look at the disk. Do not
  list the file to save its records: some may be missing from the list.

Example
  cobix check files/cust.dat    unsound 6
  mv files files.bad
  cp -Rp copy files
"
Heap "7" ["a slot of a record, or a chain of slots or pages, is broken"] "
Meaning
  A place where a record should be has none; or a list of free places or free
  pages leads nowhere.

What brings it about
  The disk or another program has changed a page. No run of cobix leaves this
  in a file that it closed. A copy that was made during a run can have it.

What to do
  Put the last copy of the whole folder back, and look at the disk.

Example
  cobix check files/cust.dat    unsound 7
  mv files files.bad
  cp -Rp copy files
"
Index "8" ["an index and the records do not agree"] "
Meaning
  An index has an entry for a record that has another value of this key; or a
  record without an entry; or the counts differ.

What brings it about
  The disk or another program has changed a key in a record or in an index.
  No run of cobix leaves this in a file that it closed. A copy that was made
  during a run can have it.

What to do
  Put the last copy of the whole folder back, and look at the disk.

Example
  cobix check files/cust.dat    unsound 8
  mv files files.bad
  cp -Rp copy files
"
Lost "9" ["a page is reached by nothing"] "
Meaning
  Every part of the file is as it has to be, but a page belongs to none. What
  was in that page may be missing.

What brings it about
  The disk or another program has changed the file, or has made it longer.
  No run of cobix leaves this in a file that it closed.

What to do
  Put the last copy of the whole folder back, and look at the disk.

Example
  cobix check files/cust.dat    unsound 9
  mv files files.bad
  cp -Rp copy files
"
        }
    };
}
