//! How a request is answered.
use site_status::{Media, Status};
use std::alloc::{AllocError, Global};

/// How a request is answered, and by what.
#[derive(Drop)]
pub struct Answered {
    pub status: Status,
    pub media: Media,
    pub body: Vec<u8>,
}

impl Answered {
    /// A text.
    pub fn plain(alloc: Global, status: Status, text: &[u8]) -> Result<Answered, AllocError> {
        let body = Vec::from_slice(alloc, text)?;
        Ok(Answered {
            status,
            media: Media::Text,
            body,
        })
    }

    /// A part of the page for a browser.
    pub fn part(alloc: Global, media: Media, text: &str) -> Result<Answered, AllocError> {
        let body = Vec::from_slice(alloc, text.as_bytes())?;
        Ok(Answered {
            status: Status::Ok,
            media,
            body,
        })
    }

    /// What was found, as JSON on a line of its own.
    pub fn json(text: String) -> Result<Answered, AllocError> {
        let mut body = text.into_bytes();
        body.push(b'\n')?;
        Ok(Answered {
            status: Status::Ok,
            media: Media::Json,
            body,
        })
    }
}

/// What is asked for isn't there.
pub fn missing(alloc: Global) -> Result<Answered, AllocError> {
    Answered::plain(alloc, Status::NotFound, b"there is nothing of that name\n")
}
