//! Why words ask for no form of a list.

use thiserror::Error;

/// Why words ask for no form, or for no file of a deck.
#[derive(Clone, Copy, Debug, PartialEq, Eq, Error)]
pub enum FormFault {
    #[error("a form is 'text', 'csv' or 'json'")]
    Kind,
    #[error("an encoding is 'ascii' or 'utf-8'")]
    Encoding,
    #[error("text has no columns")]
    TextColumns,
    #[error("columns are those of '--cut' or those of '--deck', and not both")]
    CutAndDeck,
    #[error("'--deck' and '--file' go together")]
    HalfDeck,
    #[error("cuts are rising numbers from 1 to 65535, with commas between")]
    Cuts,
}
