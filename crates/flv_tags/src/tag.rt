// Tags, and what is answered of them.
use bytes::Bytes;
use thiserror::Error;

/// One tag of an FLV file (Adobe Flash Video File Format Specification 10.1, annex E.4.1).
#[derive(Drop)]
pub struct Tag {
    /// What it carries: 8 audio, 9 video, 18 script data.
    pub kind: u8,
    /// Whether the body is encrypted or otherwise filtered.
    pub filter: bool,
    /// When it is decoded, in milliseconds.
    pub stamp: i32,
    pub body: Bytes,
}

/// What is answered where nothing is wrong.
#[derive(Drop)]
pub enum TagStep {
    /// The next tag.
    Tag(Tag),
    /// The bytes fed hold no further whole tag.
    NeedMore,
    /// The text is whole and all its tags were answered.
    End,
}

/// What is wrong with a text. The text of each is its name.
#[derive(Clone, Copy, Debug, PartialEq, Eq, Error)]
pub enum TagFault {
    /// It doesn't begin as an FLV file of version 1 does.
    #[error("NotFlv")]
    NotFlv,
    /// Its head says that the tags begin inside the head.
    #[error("BadOffset")]
    BadOffset,
    /// It ends before the first size field, or inside a size field or a tag.
    #[error("CutTag")]
    CutTag,
    /// Memory was refused.
    #[error("NoMemory")]
    NoMemory,
}
