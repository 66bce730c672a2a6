// Files in memory, by name.
ghost use Rattle.std.specs.Prelude.{◌≡◌, ◌≤◌, ◌<◌, ◌++◌, ◌↔◌, [], Some, None, drop, take, length, min, IfSome, IfNone};
ghost use Rattle.rmx_edge.specs.Files.{file_of, bytes_at};

/// A file in memory: its name and its bytes.
pub type File = (String, Vec<u8>);

/// The bytes of the file at this place, or none.
pub fn bytes_of(files: &[File], place: usize) -> &[u8]
    ensures { result.now ≡ bytes_at files.now place }
{
    if place < files.len() {
        &files[place].1
    } else {
        &[]
    }
}

/// Where the first file of this name is.
pub fn place_of(files: &[File], name: &str) -> Option<usize>
    ensures some { IfSome result (λ i. file_of files.now name.now ≡ Some (bytes_at files.now i)) }
    ensures none { IfNone result (file_of files.now name.now ≡ None) }
{
    for (i, file) in files.iter().enumerate() {
        if file.0.as_str() == name {
            return Some(i);
        }
    }
    None
}

/// Copies as many of the first bytes as fit the buffer, at most `most`, and says how many.
pub fn copy_front(bytes: &[u8], buf: &mut [u8], most: u32) -> usize
    requires positive { 0 < most }
    requires room { 0 < length buf.old }
    ensures within { result ≤ length bytes.now }
    ensures bound { result ≤ length buf.new }
    ensures copied { bytes.now ≡ take result buf.new ++ drop result bytes.now }
    ensures none { (result ≡ 0) ↔ (bytes.now ≡ []) }
    ensures amount { result ≡ min (min (length bytes.now) (length buf.old)) most }
{
    let count = bytes.len().min(buf.len()).min(most as usize);
    buf[..count].copy_from_slice(&bytes[..count]);
    count
}
