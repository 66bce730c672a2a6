// The takes of a shelf in memory.
ghost use Rattle.std.specs.Prelude.{◌≡◌, ◌<◌, ◌++◌, ◌∷◌, [], OnOk, OnErr, vec_len, length};
ghost use Rattle.rmx_edge.specs.Shelf.{change_last, with_piece, as_closed, new_take, take_at};
ghost use Rattle.rmx_edge.specs.MemTake.{takes_of};

use std::alloc::{AllocError, Global};

/// A file that was begun on a shelf in memory: its name, its bytes so far, and whether it was closed.
#[derive(Drop)]
pub struct MemTake {
    pub name: String,
    pub bytes: Vec<u8>,
    pub closed: bool,
}

/// Appends bytes to the last take. Where memory is refused nothing changes.
pub fn append_last(takes: &mut Vec<MemTake>, bytes: &[u8]) -> Result<(), AllocError>
    requires { 0 < vec_len takes.old }
    ensures ok { OnOk result (takes_of takes.new.items ≡ change_last (with_piece bytes.now) (takes_of takes.old.items)) }
    ensures err { OnErr result (takes_of takes.new.items ≡ takes_of takes.old.items) }
    ensures len { vec_len takes.new ≡ vec_len takes.old }
{
    let last = takes.len() - 1;
    match takes[last].bytes.extend_from_slice(bytes) {
        Ok(()) => Ok(()),
        Err(e) => Err(e),
    }
}

/// Closes the last take.
pub fn close_last(takes: &mut Vec<MemTake>)
    requires { 0 < vec_len takes.old }
    ensures closed { takes_of takes.new.items ≡ change_last as_closed (takes_of takes.old.items) }
    ensures len { vec_len takes.new ≡ vec_len takes.old }
{
    let last = takes.len() - 1;
    takes[last].closed = true;
}

/// Adds an empty take of this name. Where memory is refused nothing changes.
pub fn add_take(alloc: Global, takes: &mut Vec<MemTake>, name: &str) -> Result<(), AllocError>
    ensures ok { OnOk result (takes_of takes.new.items ≡ takes_of takes.old.items ++ new_take name.now ∷ []) }
    ensures some { OnOk result (0 < vec_len takes.new) }
    ensures err { OnErr result (takes_of takes.new.items ≡ takes_of takes.old.items) }
{
    let take = MemTake {
        name: String::from_str(alloc, name)?,
        bytes: Vec::new(alloc),
        closed: false,
    };
    takes.push(take)?;
    Ok(())
}

/// The bytes of the take at this place, counted from 0.
pub fn bytes_of(takes: &[MemTake], at: usize) -> &[u8]
    requires { at < length (takes_of takes.now) }
    ensures { result.now ≡ (take_at (takes_of takes.now) at).bytes }
{
    takes[at].bytes.as_slice()
}

/// The name of the take at this place, counted from 0.
pub fn name_of(takes: &[MemTake], at: usize) -> &str
    requires { at < length (takes_of takes.now) }
    ensures { result.now ≡ (take_at (takes_of takes.now) at).name }
{
    takes[at].name.as_str()
}

/// Whether the take at this place, counted from 0, was closed.
pub fn is_closed(takes: &[MemTake], at: usize) -> bool
    requires { at < length (takes_of takes.now) }
    ensures { result ≡ (take_at (takes_of takes.now) at).closed }
{
    takes[at].closed
}
