// A reader of tags.
ghost use Rattle.std.specs.Prelude.{◌≡◌, ◌++◌, ℕ, List, IfOk, ◌≤◌, ◌<◌, [], ◌++◌, true, false, Some, Err, None, ◌⊎◌, OnOk, OnErr, IfOk};
ghost use Rattle.flv_tags.specs.declared.tag.Tag.{Tag};
ghost use Rattle.flv_tags.specs.declared.tag.TagFault.{TagFault};
ghost use Rattle.flv_tags.specs.Reader.{Steps, Answers, HasRead, left_of, is_tag, HasSmallBody, reading_left};
ghost use Rattle.flv_tags.specs.Tags.{only};

use crate::front::{Ahead, look, missing, take_tag};
use crate::head::{HeadStep, read_head};
use crate::{TagFault, TagStep};
use bytes::BytesMut;
use rmx_media::NoMemory;
use std::alloc::{AllocError, Global};

// Adds a piece, in the same block where that has room and no part of it is in use. Else a new block takes what is left, with
// room for so many bytes. It is made as a `Vec`, since a buffer that reserves room fills all of it with zeros first.
fn append(text: &mut BytesMut, piece: &[u8], more: usize) -> Result<(), AllocError>
    ensures ok { OnOk result (text.new.items ≡ text.old.items ++ piece.now) }
    ensures err { OnErr result (text.new.items ≡ text.old.items) }
{
    if text.try_reclaim(piece.len()) {
        text.extend_reserved(piece);
        return Ok(());
    }
    let rest = text.as_slice();
    let room = rest.len().saturating_add(piece.len().max(more));
    let mut block = Vec::with_capacity(*text.allocator(), room)?;
    block.extend_from_slice(rest)?;
    block.extend_from_slice(piece)?;
    *text = BytesMut::from_vec(block);
    Ok(())
}

/// Reads the tags of an FLV text that comes in any pieces. It holds what no tag was made of yet, and hands bodies out
/// as parts of it, which share its memory.
#[derive(Drop)]
pub struct TagReader {
    text: BytesMut,
    past_head: bool,
    skip: usize,
    ended: bool,
    fault: Option<TagFault>,
}

impl TagReader {
    ghost use Rattle.flv_tags.specs.TagReader.{state_of};

    /// A reader that was fed nothing yet.
    pub fn new(alloc: Global) -> TagReader
        ensures ended { (state_of result).ended ≡ false }
        ensures fed { HasRead [] [] (state_of result) }
    {
        TagReader {
            text: BytesMut::new(alloc),
            past_head: false,
            skip: 0,
            ended: false,
            fault: None,
        }
    }

    /// Takes the next piece of the text. A refusal changes nothing.
    pub fn feed(&mut self, piece: &[u8]) -> Result<(), NoMemory>
        requires { (state_of self.old).ended ≡ false }
        ensures fed { OnOk result ((fed : List ℕ) (tags : List Tag) → HasRead fed tags (state_of self.old) → HasRead (fed ++ piece.now) tags (state_of self.new)) }
        ensures ended { (state_of self.new).ended ≡ false }
        ensures fault { (state_of self.new).fault ≡ (state_of self.old).fault }
        ensures err { OnErr result (state_of self.new ≡ state_of self.old) }
    {
        if self.fault.is_some() {
            return Ok(());
        }
        // A body that comes in many pieces gets its room at once.
        let missing = self.missing();
        match append(&mut self.text, piece, missing) {
            Ok(()) => Ok(()),
            Err(_) => Err(NoMemory),
        }
    }

    fn missing(&self) -> usize {
        if self.past_head && self.skip == 0 {
            missing(self.text.as_slice())
        } else {
            0
        }
    }

    /// Tells the end of the text.
    pub fn finish(&mut self)
        ensures fed { (fed : List ℕ) (tags : List Tag) → HasRead fed tags (state_of self.old) → HasRead fed tags (state_of self.new) }
        ensures ended { (state_of self.new).ended ≡ true }
        ensures fault { (state_of self.new).fault ≡ (state_of self.old).fault }
    {
        self.ended = true;
    }

    /// The next tag. After a fault every call answers it; a refusal of memory changes nothing.
    pub fn next(&mut self) -> Result<TagStep, TagFault>
        ensures answers { (fed : List ℕ) (tags : List Tag) → HasRead fed tags (state_of self.old) → Answers result fed tags (state_of self.old).ended (state_of self.new) }
        ensures ended { (state_of self.new).ended ≡ (state_of self.old).ended }
        ensures again { (fault : TagFault) → (state_of self.old).fault ≡ Some fault → (result ≡ Err fault) × (state_of self.new ≡ state_of self.old) }
        ensures stays { (fault : TagFault) → result ≡ Err fault → (fault ≡ TagFault.NoMemory) ⊎ ((state_of self.new).fault ≡ Some fault) }
        ensures small { IfOk result HasSmallBody }
        ensures left { left_of (state_of self.new) ≤ left_of (state_of self.old) }
        ensures fewer { IfOk result (λ step. is_tag step ≡ true → left_of (state_of self.new) < left_of (state_of self.old)) }
    {
        if let Some(fault) = self.fault {
            return Err(fault);
        }
        self.step()
    }

    fn step(&mut self) -> Result<TagStep, TagFault>
        requires { (state_of self.old).fault ≡ None }
        ensures { Steps result (state_of self.old) (state_of self.new) }
    {
        if self.past_head {
            return self.step_past_head();
        }
        match read_head(self.text.as_slice(), self.ended) {
            HeadStep::NeedMore => Ok(TagStep::NeedMore),
            HeadStep::NotFlv => Err(self.fails(TagFault::NotFlv)),
            HeadStep::BadOffset => Err(self.fails(TagFault::BadOffset)),
            HeadStep::Past(offset) => {
                self.past_head = true;
                self.skip = offset;
                self.step_past_head()
            }
        }
    }

    fn fails(&mut self, fault: TagFault) -> TagFault
        ensures fault { result ≡ fault }
        ensures state { state_of self.new ≡ record (state_of self.old) { fault = Some fault } }
    {
        self.fault = Some(fault);
        fault
    }

    fn step_past_head(&mut self) -> Result<TagStep, TagFault>
        requires head { (state_of self.old).past_head ≡ true }
        requires fault { (state_of self.old).fault ≡ None }
        ensures { Steps result (state_of self.old) (state_of self.new) }
    {
        let passed = self.skip.min(self.text.len());
        self.text.advance(passed);
        self.skip -= passed;
        if self.skip > 0 {
            return self.step_at_part();
        }
        self.step_at_size()
    }

    // The next tag, where a size field is next.
    fn step_at_size(&mut self) -> Result<TagStep, TagFault>
        requires head { (state_of self.old).past_head ≡ true }
        requires skip { (state_of self.old).skip ≡ 0 }
        requires fault { (state_of self.old).fault ≡ None }
        ensures { Steps result (state_of self.old) (state_of self.new) }
    {
        match look(self.text.as_slice()) {
            Ahead::Nothing => self.step_at_end(),
            Ahead::Part => self.step_at_part(),
            Ahead::Whole(head) => match take_tag(&mut self.text, head) {
                Ok(tag) => Ok(TagStep::Tag(tag)),
                Err(_) => Err(TagFault::NoMemory),
            },
        }
    }

    // The text may end here.
    fn step_at_end(&mut self) -> Result<TagStep, TagFault>
        requires { reading_left (state_of self.old) ≡ only None }
        ensures { Steps result (state_of self.old) (state_of self.new) }
    {
        if self.ended {
            Ok(TagStep::End)
        } else {
            Ok(TagStep::NeedMore)
        }
    }

    // The text may not end here.
    fn step_at_part(&mut self) -> Result<TagStep, TagFault>
        requires { reading_left (state_of self.old) ≡ only (Some TagFault.CutTag) }
        ensures { Steps result (state_of self.old) (state_of self.new) }
    {
        if self.ended {
            Err(self.fails(TagFault::CutTag))
        } else {
            Ok(TagStep::NeedMore)
        }
    }
}
