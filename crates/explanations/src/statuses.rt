//! The statuses of verbs.

/// The table of statuses: of each its variant, its two digits, what it means in a line (in parts,
/// where a terminal is too narrow for it), and the rest of its explanation. A call hands all rows
/// to the macro that it names, behind the tokens that follow the name.
#[macro_export]
macro_rules! statuses {
    ($then:ident $($with:tt)*) => {
        $then! { [$($with)*]
Successful "00" ["done"] "
Meaning
  The verb did what it says, and there is nothing to add.

What brings it about
  Each verb answers 00 where nothing else is to be told.

What to do
  Nothing. READ has put the record into the record area of its file.

Example
  OPEN INPUT CUST.          answers 00
  READ CUST NEXT RECORD.    answers 00, and the line shows the record
  CLOSE CUST.               answers 00
"
Duplicate "02" ["done; duplicate: another record has the same value of a key WITH DUPLICATES"] "
Meaning
  The verb did what it says. It also found that a value of an alternate key
  is there more than once. That is no error: the key is WITH DUPLICATES.

What brings it about
  READ:     the next record by the same key has the same value.
  WRITE:    another record had this value of such a key already.
  REWRITE:  the record has a new value of such a key, and another record
            had that value already.

What to do
  Nothing. To get the other records, READ by that key, and then READ NEXT
  until the key has another value. They come in the order of writing.

Example
  MOVE 'OSLO' TO CUST-CITY.
  READ CUST KEY IS CUST-CITY.    answers 02: there are more of OSLO
  READ CUST NEXT RECORD.         answers 00: this is the last of them
"
OptionalAbsent "05" ["done; the OPTIONAL file was not there"] "
Meaning
  OPEN did its work. The file was not there, and its SELECT says OPTIONAL.

What brings it about
  OPEN I-O and OPEN EXTEND have made a new file, without records.
  OPEN INPUT made none: READ NEXT answers 10, and READ by a key 23.

What to do
  Nothing, on the first run. If the file should have been there, look at the
  name in ASSIGN and at the folder of --folder. Take care: after I-O or
  EXTEND a wrong folder has a new empty file in it.

Example
  Wrong, where the file has to be there:
    SELECT OPTIONAL CUST ASSIGN TO 'cust.dat'
    OPEN I-O CUST.        answers 05, and makes an empty file
  Right:
    SELECT CUST ASSIGN TO 'cust.dat'
    OPEN I-O CUST.        answers 35, and makes nothing
"
AtEnd "10" ["READ NEXT: end of file, no next record"] "
Meaning
  There is no further record in the order of this key. No record was read,
  and the record area is as it was.

What brings it about
  The READ before it gave the last record; or the file has no records; or
  it is OPTIONAL and was not there.

What to do
  Nothing, at the end of a listing: it says that no record is missing. To go
  on elsewhere, START, or READ by a key. One more READ NEXT answers 46.

Example
  Wrong:
    READ CUST NEXT RECORD.    answers 10
    READ CUST NEXT RECORD.    answers 46
  Right:
    READ CUST NEXT RECORD.    answers 10
    MOVE LOW-VALUES TO CUST-CITY.
    START CUST KEY IS NOT LESS THAN CUST-CITY.
    READ CUST NEXT RECORD.    answers 00: the first one by city
"
OutOfSequence "21" ["key out of sequence, in sequential access"] "
Meaning
  The prime key of this record does not fit. Nothing was written.

What brings it about
  WRITE:    the prime key is not above the highest one in the file. An equal
            one answers 21 too, not 22.
  REWRITE:  the prime key in the area is not that of the record read.
  Both come in ACCESS MODE SEQUENTIAL alone, which holds where the SELECT
  entry has no ACCESS MODE.

What to do
  Sort the records by prime key before you write them. Or say ACCESS MODE IS
  DYNAMIC: then any order will do. To change a prime key, DELETE the record
  and WRITE it with its new key.

Example
  Wrong:
    MOVE 20 TO CUST-ID.    WRITE CUST-REC.    answers 00
    MOVE 10 TO CUST-ID.    WRITE CUST-REC.    answers 21
  Right:
    MOVE 10 TO CUST-ID.    WRITE CUST-REC.    answers 00
    MOVE 20 TO CUST-ID.    WRITE CUST-REC.    answers 00
"
DuplicateKey "22" ["key exists: duplicate value of a key that has none"] "
Meaning
  Another record has this value of a key that may not be there twice.
  Nothing was written.

What brings it about
  WRITE:    the prime key is there already, or an alternate key that is not
            WITH DUPLICATES.
  REWRITE:  such an alternate key has a value that another record has.

What to do
  READ by that key: it shows the record that has the value. To change that
  record, REWRITE it. Often a load was run twice: then all is well.

Example
  Wrong, where 17 is there:
    MOVE 17 TO CUST-ID.
    WRITE CUST-REC.      answers 22
  Right:
    MOVE 17 TO CUST-ID.
    READ CUST.           answers 00
    MOVE 'OSLO' TO CUST-CITY.
    REWRITE CUST-REC.    answers 00
"
RecordNotFound "23" ["record not found"] "
Meaning
  No record has the value of the key that is in the record area. Nothing was
  read or changed. After READ and START there is no position for READ NEXT.

What brings it about
  READ, START:  no record has that value, or stands in that relation to it.
  REWRITE, DELETE in random or dynamic access:  no record has that prime key.
  READ and START also answer 23 where the OPTIONAL file was not there.

What to do
  Look at the MOVE before it. Is it to the item of that key? Was the area
  changed since, by a READ of another record? A number is filled with zeros
  on the left, a text with spaces on the right.

Example
  Wrong, where the item is PIC X(4) and the records have 0017:
    MOVE '17  ' TO CUST-CODE.    READ CUST.    answers 23
  Right:
    MOVE '0017' TO CUST-CODE.    READ CUST.    answers 00
"
BoundaryViolation "24" ["boundary violation: no page or stamp is left"] "
Meaning
  The file is full. The record was not written, and the file is as it was.

What brings it about
  WRITE, REWRITE:  the file has as many pages as --pages allows, 1,048,576
  where nothing is said. A file of 4,096 bytes a page is then 4 gigabytes.
  Or the numbers that keep duplicates in order are used up.

What to do
  Run the deck again with more --pages. Or DELETE records that are not
  needed. Or list the file, and load it anew: that makes it compact.

Example
  Wrong:
    cobix run load.deck --folder files --pages 1000
  Right:
    cobix run load.deck --folder files --pages 100000
"
PermanentError "30" ["permanent error: the device failed"] "
Meaning
  The system refused to read, to write or to make something of the file. The
  verb did not do its work. The run went on after it.

What brings it about
  - another run has the file open and changes it, or reads what this one
    would change
  - no permission to read the file, or to write to it or to its folder
  - a folder or a symbolic link has the name of the file
  - two names of the deck are one file, by a hard link
  - the disk is full, or the quota is used up
  - the disk or its connection is failing
  - CLOSE: an earlier verb on this file failed part-way (see 92)

What to do
  1. Look at the first 30 of the transcript: later ones follow from it.
  2. Look at ps (another run), ls -l (permissions, links), df and quota (room)
     and the log of the system.
  3. Remove the cause. If the run changed a file, put the copy of the whole
     folder back. Then run the deck again.
  Run cobix check on each file before you go on with it.

Example
  Wrong, while another run changes cust.dat:
    OPEN I-O CUST.     answers 00
    WRITE CUST-REC.    answers 30: nothing was changed
  Right, once the other run has ended:
    OPEN I-O CUST.     answers 00
    WRITE CUST-REC.    answers 00
"
FileAbsent "35" ["OPEN: file not found"] "
Meaning
  There is no file of that name in the folder. It was not opened.

What brings it about
  OPEN INPUT, I-O or EXTEND of a file that is not there, and whose SELECT
  does not say OPTIONAL.

What to do
  Compare the name in ASSIGN with ls of the folder that --folder names.
  Capital and small letters differ. The first time, make the file by OPEN
  OUTPUT. Do not do so on other nights: OPEN OUTPUT takes all records out.

Example
  Wrong, where the folder has cust.dat:
    SELECT CUST ASSIGN TO 'CUST.DAT'
    OPEN INPUT CUST.    answers 35
  Right:
    SELECT CUST ASSIGN TO 'cust.dat'
    OPEN INPUT CUST.    answers 00
"
ClosedWithLock "38" ["OPEN: the file was closed WITH LOCK"] "
Meaning
  This run has closed the file WITH LOCK. It cannot open it again.

What brings it about
  OPEN after CLOSE .. WITH LOCK of the same file, in the same run.

What to do
  Take WITH LOCK out of the CLOSE, if the file is needed later in the run.
  The lock ends with the run: the next run can open the file.

Example
  Wrong:
    CLOSE CUST WITH LOCK.    answers 00
    OPEN INPUT CUST.         answers 38
  Right:
    CLOSE CUST.              answers 00
    OPEN INPUT CUST.         answers 00
"
AttributeConflict "39" ["OPEN: conflict of attributes: the file has other keys or record lengths"] "
Meaning
  The file is sound, but it is not the one that this deck describes. It was
  not opened, and nothing was changed.

What brings it about
  - the deck of another file, or the wrong folder
  - a picture was changed, so the record or a key is longer or shorter
  - a key was added or taken out, or WITH DUPLICATES was
  - records of one length here, and RECORD VARYING there

What to do
  Run the deck that belongs to the file. cobix deck shows the record length
  and the keys of a deck. To change a file: list it by the old deck, change
  the text, and load it by the new one.
  Never mend a 39 by OPEN OUTPUT: it takes all records out of the file.

Example
  Wrong, where the file was made with CUST-ID PIC 9(4):
    05 CUST-ID PIC 9(6).
    OPEN INPUT CUST.    answers 39
  Right:
    05 CUST-ID PIC 9(4).
    OPEN INPUT CUST.    answers 00
"
AlreadyOpen "41" ["OPEN: already open"] "
Meaning
  The file is open. It stays open as it was.

What brings it about
  A second OPEN of a file without a CLOSE between.

What to do
  CLOSE the file before it is opened in another mode; or leave the second
  OPEN out.

Example
  Wrong:
    OPEN INPUT CUST.    answers 00
    OPEN I-O CUST.      answers 41: it is still open for INPUT
  Right:
    OPEN INPUT CUST.    answers 00
    CLOSE CUST.         answers 00
    OPEN I-O CUST.      answers 00
"
NotOpen "42" ["CLOSE: not open"] "
Meaning
  There was nothing to close.

What brings it about
  CLOSE of a file that was not opened, whose OPEN failed, or that was closed
  already.

What to do
  Look further up for the OPEN of this file. If it answered 30, 35, 38, 39 or
  91, mend that: the 42 follows from it.

Example
  Wrong, where there is no file:
    OPEN INPUT CUST.    answers 35
    CLOSE CUST.         answers 42
  Right, where there is one:
    OPEN INPUT CUST.    answers 00
    CLOSE CUST.         answers 00
"
NoRecordRead "43" ["REWRITE or DELETE in sequential access: no successful READ directly before"] "
Meaning
  In sequential access these verbs are for the record that was read last.
  There is none. Nothing was changed.

What brings it about
  The last verb on this file was no READ; or it was one that failed; or it
  was another verb, even one that was refused.

What to do
  READ the record directly before. Or say ACCESS MODE IS DYNAMIC: there
  REWRITE and DELETE go by the prime key in the record area.

Example
  Wrong:
    READ CUST.           answers 00
    REWRITE CUST-REC.    answers 00
    DELETE CUST.         answers 43
  Right:
    READ CUST.           answers 00
    DELETE CUST.         answers 00
"
WrongLength "44" ["wrong record length"] "
Meaning
  The record is shorter or longer than the FD allows. Nothing was written.

What brings it about
  WRITE or REWRITE of a file with RECORD VARYING .. DEPENDING ON. The length
  is the number in the item of DEPENDING ON. At the start of a run it is 0,
  and a READ puts the length of its record there.

What to do
  MOVE the length to that item before the WRITE.

Example, with RECORD VARYING FROM 10 TO 16 DEPENDING ON CUST-LEN
  Wrong:
    MOVE 9 TO CUST-LEN.     WRITE CUST-REC.    answers 44
  Right:
    MOVE 12 TO CUST-LEN.    WRITE CUST-REC.    answers 00
"
NoNextRecord "46" ["READ NEXT: no position"] "
Meaning
  READ NEXT does not know where to go on. No record was read.

What brings it about
  - the last READ NEXT answered 10 or 46
  - the last READ or START answered 23, or failed otherwise

What to do
  Look for the first READ or START before it that failed. START, a READ by a
  key that succeeds, or CLOSE and OPEN give a position again.

Example
  Wrong:
    START CUST KEY IS EQUAL TO CUST-CITY.       answers 23
    READ CUST NEXT RECORD.                      answers 46
  Right:
    START CUST KEY IS NOT LESS THAN CUST-CITY.  answers 00
    READ CUST NEXT RECORD.                      answers 00
"
NotOpenForReading "47" ["READ or START: not open for reading"] "
Meaning
  The file is not open, or it is open in OUTPUT or EXTEND. Nothing was read.

What brings it about
  READ or START without OPEN INPUT or OPEN I-O before it, or after one that
  failed.

What to do
  Look at the OPEN of this file. If it answered 30, 35, 38, 39 or 91, mend
  that. If it was OUTPUT or EXTEND, take INPUT or I-O.

Example
  Wrong:
    OPEN OUTPUT CUST.    answers 00
    READ CUST.           answers 47
  Right:
    OPEN I-O CUST.       answers 00
    READ CUST.           answers 00
"
NotOpenForWriting "48" ["WRITE: not open for writing"] "
Meaning
  The file is not open, or not in a mode in which it takes a WRITE. Nothing
  was written.

What brings it about
  WRITE with no OPEN before it, or after one that failed; or in one of these:
  - INPUT
  - I-O, in sequential access. To add records there, take EXTEND.

What to do
  Look at the OPEN of this file. WRITE is for OUTPUT, which empties the file;
  for EXTEND, in sequential access; and for I-O, in random and dynamic access.

Example, in sequential access
  Wrong:
    OPEN I-O CUST.       answers 00
    WRITE CUST-REC.      answers 48
  Right:
    OPEN EXTEND CUST.    answers 00
    WRITE CUST-REC.      answers 00
"
NotOpenForUpdating "49" ["REWRITE or DELETE: not open for updating"] "
Meaning
  The file is not open in I-O. Nothing was changed.

What brings it about
  REWRITE or DELETE with no OPEN before it, after one that failed, or after
  OPEN INPUT, OUTPUT or EXTEND.

What to do
  OPEN I-O. If the OPEN was I-O, look at its status, and mend that.

Example
  Wrong:
    OPEN INPUT CUST.     answers 00
    READ CUST.           answers 00
    REWRITE CUST-REC.    answers 49
  Right:
    OPEN I-O CUST.       answers 00
    READ CUST.           answers 00
    REWRITE CUST-REC.    answers 00
"
OutOfMemory "90" ["memory ran out"] "
Meaning
  The system gave cobix no more memory. The OPEN left the file as it was.

What brings it about
  A machine with too little memory, a limit of the user (ulimit), or other
  programs that take it all. OPEN alone answers 90: once a file is open, it
  has all the memory of its verbs.

What to do
  Look at free and ulimit -v. End what is not needed, or take another
  machine. --frames 16 makes cobix take less for each open file. Then put the
  copy of the folder back, if a file was changed, and run the deck again.

Example
  Wrong, where memory is scarce:
    cobix run night.deck --folder files --frames 4096
  Right:
    cobix run night.deck --folder files --frames 16
"
Damaged "91" ["OPEN: the file is damaged, or was not closed after a change"] "
Meaning
  The file is not as a CLOSE leaves it. No record is read from it.

What brings it about
  - a run that changed the file did not come to its CLOSE: it was killed, or
    the machine stopped, or its transcript could not be written
  - a verb of that run answered 30 or 91 part-way
  - the file is no file of cobix, or the disk has harmed it
  READ and other verbs answer 91 too, where they meet a harmed page.

What to do
  1. cobix check tells which it is. unsound 2 is a change that was not
     finished. cobix explain unsound N has the others.
  2. Put the last copy of the whole folder back: its files belong together.
  3. Run the deck of that night again.
  OPEN OUTPUT makes the file anew, without records: only for a file that you
  can load from elsewhere.

Example
  Wrong: go on with the file.
    OPEN I-O CUST.     answers 91
    WRITE CUST-REC.    answers 48
  Right: put the copy back, and run the deck again.
    mv files files.bad
    cp -Rp copy files
"
ConnectorFailed "92" ["an earlier verb failed in its midst"] "
Meaning
  An earlier verb of this run broke off in the middle of a change of this
  file. Nothing more is done with the file until it is closed.

What brings it about
  A WRITE, REWRITE or DELETE on this file that answered 30 or 91. Each later
  READ, START, WRITE, REWRITE and DELETE of it answers 92.

What to do
  Look further up for the first 30 or 91 of this file: that is the cause.
  CLOSE answers 30, and the next OPEN 91. Put the copy of the folder back,
  remove the cause, and run the deck again.

Example
  Wrong: to search here.
    WRITE CUST-REC.           answers 30: the disk is full
    READ CUST NEXT RECORD.    answers 92
  Right: to search at the first line, the 30.
"
        }
    };
}
