//! A session over the files of a folder.

use crate::library::AskedLibrary;
use serve::Session;

/// What is kept between the requests of a session.
#[derive(Drop)]
pub struct OpenSession {
    pub session: Session<AskedLibrary>,
}
