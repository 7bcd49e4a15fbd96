//! The status that no verb of cobix answers: it is the handler's.

/// The row of the status that the handler for GnuCOBOL answers by itself, in the form of those of
/// `statuses`. A call hands it to the macro that it names, behind the tokens that follow the name.
#[macro_export]
macro_rules! handler_status {
    ($then:ident $($with:tt)*) => {
        $then! { [$($with)*]
OfTheHandler "95" ["not of cobix: the handler for GnuCOBOL cannot do what was asked"] "
Meaning
  No run and no session of cobix answers 95, and no transcript has it. The
  handler for GnuCOBOL answers it by itself, and asks cobix for nothing.

What brings it about
  - READ PREVIOUS; START LESS, NOT GREATER, FIRST or LAST: the COBOL of 1985
    does not have them
  - READ or START by a key that the description of the file does not have
  - any verb on a file of varying records, where the handler was not loaded
    so that it learns of DEPENDING ON
  A line on standard error says which.

What to do
  Nothing was read or changed. The handler's page, gnucobol/README.md, says
  what a program may ask for, and how the handler is loaded.

Example
  Wrong:
    READ CUST PREVIOUS RECORD.                 answers 95
  Right, where the records from a key on are wanted:
    START CUST KEY IS NOT LESS THAN CUST-ID.   answers 00
    READ CUST NEXT RECORD.                     answers 00
"
        }
    };
}
