// What stands in front of written tags and files.
ghost use Rattle.std.specs.Prelude.{◌≡◌, ◌<◌, ◌^◌};
ghost use Rattle.flv_tags.specs.Written.{tag_head_bytes, file_head_bytes};

/// The head of a tag: its kind, its body's size in bytes and its time stamp in milliseconds (Adobe Flash Video File
/// Format Specification 10.1, annex E.4.1). The stream's number is 0.
pub fn tag_head(kind: u8, size: u32, stamp: i32) -> [u8; 11]
    requires kind { kind < 32 }
    requires size { size < 2 ^ 24 }
    ensures { result ≡ tag_head_bytes kind size stamp }
{
    let [_, size_high, size_middle, size_low] = size.to_be_bytes();
    let [upper, high, middle, low] = stamp.to_be_bytes();
    [
        kind,
        size_high,
        size_middle,
        size_low,
        high,
        middle,
        low,
        upper,
        0,
        0,
        0,
    ]
}

/// The head of a file, and the size field of 0 behind it (annex E.2). In the flags 4 says that there is audio, and 1
/// that there is video.
pub fn file_head(flags: u8) -> [u8; 13]
    ensures { result ≡ file_head_bytes flags }
{
    [70, 76, 86, 1, flags, 0, 0, 0, 9, 0, 0, 0, 0]
}
