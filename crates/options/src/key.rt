//! The options of an output, as a table.

ghost use Rattle.std.specs.Prelude.{◌≡◌};
ghost use Rattle.std.specs.Str.{bytes_eq};
ghost use Rattle.options.specs.Key.{name_of, key_named};

/// An option of an output.
#[derive(Clone, Copy, Debug, PartialEq, Eq)]
pub enum Key {
    Format,
    Select,
    OnFail,
    UseFifo,
    FifoOptions,
    Filters,
    VideoFilters,
    AudioFilters,
    FirstFilters,
    SecondFilters,
    SegmentFormat,
    SegmentTime,
    SegmentList,
    SegmentListType,
    SegmentStart,
    ResetTimestamps,
    BreakNonKeyframes,
}

/// A line of a table of options: the option's name, the values that it takes, and what holds where it isn't given.
#[derive(Clone, Copy)]
pub struct Row {
    pub name: &'static str,
    pub values: &'static str,
    pub default: &'static str,
}

const fn line(name: &'static str, values: &'static str, default: &'static str) -> Row
    ensures { result.name.now ≡ name.now }
{
    Row {
        name,
        values,
        default,
    }
}

const FILTERS: &str = "filters, with commas between them";

impl Key {
    /// The options, in the order in which the help shows them.
    pub const ALL: [Key; 17] = [
        Key::Format,
        Key::Select,
        Key::OnFail,
        Key::UseFifo,
        Key::FifoOptions,
        Key::Filters,
        Key::VideoFilters,
        Key::AudioFilters,
        Key::FirstFilters,
        Key::SecondFilters,
        Key::SegmentFormat,
        Key::SegmentTime,
        Key::SegmentList,
        Key::SegmentListType,
        Key::SegmentStart,
        Key::ResetTimestamps,
        Key::BreakNonKeyframes,
    ];

    /// The option's line in the table.
    pub fn row(self) -> Row
        ensures { result.name.now ≡ name_of self }
    {
        match self {
            Key::Format => line("f", "flv, adts, mpegts, segment", ""),
            Key::Select => line(
                "select",
                "v, a, 0, 1, v:0, a:0, with commas between them",
                "",
            ),
            Key::OnFail => line("onfail", "abort, ignore", "abort"),
            Key::UseFifo => line("use_fifo", "0, 1, false, true", "0"),
            Key::FifoOptions => line("fifo_options", "key=value, with colons between them", ""),
            Key::Filters => line("bsfs", FILTERS, ""),
            Key::VideoFilters => line("bsfs/v", FILTERS, ""),
            Key::AudioFilters => line("bsfs/a", FILTERS, ""),
            Key::FirstFilters => line("bsfs/0", FILTERS, ""),
            Key::SecondFilters => line("bsfs/1", FILTERS, ""),
            Key::SegmentFormat => line("segment_format", "flv, adts, mpegts", "mpegts"),
            Key::SegmentTime => line("segment_time", "seconds, 0.000001 to 1000000", "2"),
            Key::SegmentList => line("segment_list", "a file name", ""),
            Key::SegmentListType => line("segment_list_type", "flat, csv, m3u8", ""),
            Key::SegmentStart => line("segment_start_number", "0 to 4294967295", "0"),
            Key::ResetTimestamps => line("reset_timestamps", "0, 1, false, true", "0"),
            Key::BreakNonKeyframes => line("break_non_keyframes", "0, 1, false, true", "0"),
        }
    }
}

fn is_named(text: &str, key: Key) -> bool
    ensures { result ≡ bytes_eq text.now (name_of key) }
{
    text == key.row().name
}

/// The option of that name.
#[tactic(auto, unfolding(crate::specs::Key::key_named))]
pub fn key_of(text: &str) -> Option<Key>
    ensures { result ≡ key_named text.now }
{
    Key::ALL.iter().copied().find(|key| is_named(text, *key))
}
