// The grammar of words, case by case.
use super::tests::{FINE, fault, read, tee};
use super::*;
use WordKind::*;
use fifo_core::FifoOptions;
use playlist::ListKind;
use std::process::Abort;
use std::test::Fail;

// Words, and their fault and its place; Fine for words without one.
#[test]
fn more_words(rt: HostRuntime) -> Result<(), Fail> {
    let cases: [(&[&str], Option<(WordKind, u32)>); 82] = [
        (&["-"], Some((UnknownWord, 0))),
        (&["-I", "a"], Some((UnknownWord, 0))),
        (&["-i", "a", "-x", "b"], Some((UnknownWord, 2))),
        (&["-h"], Some((UnknownWord, 0))),
        (&["--", "-i"], Some((UnknownWord, 0))),
        (&["-f"], Some((MissingValue, 0))),
        (&["-max_input_bytes"], Some((MissingValue, 0))),
        (&["-max_interleave_delta"], Some((MissingValue, 0))),
        (&["-i", "a", "-f"], Some((MissingValue, 2))),
        (&["-i", "a", "-f", "flv"], Some((NoOutput, 4))),
        (&["-f", "flv"], Some((NoInput, 2))),
        (&["-max_input_bytes", "9"], Some((NoInput, 2))),
        (&["-i", "a"], Some((NoOutput, 2))),
        (&["-f", "flv", "o"], Some((NoInput, 3))),
        (&["-f", "flv", "o", "p"], Some((UnknownWord, 3))),
        (&["-f", "flv", "o", "-i", "a"], Some((UnknownWord, 3))),
        (&["-i", "a", "-f", "flv", "o", "-f"], Some((UnknownWord, 5))),
        (&["o"], Some((UnknownFormat, 0))),
        (&["o", "p"], Some((UnknownFormat, 0))),
        (&["-i", "a", "-f", "FLV", "o"], Some((UnknownFormat, 3))),
        (&["-i", "a", "-f", "", "o"], Some((UnknownFormat, 3))),
        (&["-i", "a", "-f", "flv ", "o"], Some((UnknownFormat, 3))),
        (&["-i", "a", "-f", "-i", "o"], Some((UnknownFormat, 3))),
        (
            &["-i", "a", "-f", "flv", "-f", "adts", "o"],
            Some((BadValue, 4)),
        ),
        (&["-i", "a", "-f", "flv", "-f"], Some((MissingValue, 4))),
        (
            &["-i", "a", "-f", "flv", "-f", "ogg", "o"],
            Some((BadValue, 4)),
        ),
        (
            &["-i", "a", "-i", "b", "-f", "flv", "o"],
            Some((BadValue, 2)),
        ),
        (
            &["-max_input_bytes", "9", "-max_input_bytes", "9"],
            Some((BadValue, 2)),
        ),
        (
            &["-max_input_bytes", "9", "-max_input_bytes", "8"],
            Some((BadValue, 2)),
        ),
        (
            &["-max_interleave_delta", "0", "-max_interleave_delta"],
            Some((MissingValue, 2)),
        ),
        (
            &[
                "-max_interleave_delta",
                "0",
                "-max_interleave_delta",
                "x",
                "-i",
            ],
            Some((BadValue, 2)),
        ),
        (&["-max_interleave_delta", "x", "-i"], Some((BadValue, 1))),
        (&["-max_interleave_delta", "-i", "-x"], Some((BadValue, 1))),
        (&["-i", "a\t", "-f", "ogg"], Some((BadValue, 1))),
        (&["-i", "\u{1f}"], Some((BadValue, 1))),
        (&["-i", "a", "-f", "ogg", "o\t"], Some((UnknownFormat, 3))),
        (&["-i", "a", "-f", "flv", "o\t"], Some((BadValue, 4))),
        (&["-i", "a", "-f", "flv", "", "p"], Some((BadValue, 4))),
        (&["-i", "a\u{7f}", "-f", "flv", "o\u{7f}"], Some(FINE)),
        (&["-i", " ", "-f", "flv", " "], Some(FINE)),
        (
            &[
                "-f",
                "flv",
                "-max_input_bytes",
                "9",
                "-max_interleave_delta",
                "0",
                "-i",
                "a",
                "o",
            ],
            Some(FINE),
        ),
        (&["-i", "a", "-f", "mpegts", "o"], Some(FINE)),
        (&["-i", "a", "-f", "flv", "o"], Some(FINE)),
        (&["-i", "a", "-f", "flv", "a"], Some(FINE)),
        (&["-i", "generate", "-f", "flv", "generate"], Some(FINE)),
        (&["-i", "-x", "-f", "flv", "o"], Some(FINE)),
        (&["-i", "a", "-f", "flv", "[f=adts]o|p\\"], Some(FINE)),
        (&["-i", "a", "-f", "adts", "o%d"], Some(FINE)),
        (&["generate", "1"], Some(FINE)),
        (&["generate", "001"], Some(FINE)),
        (&["generate", "0000000000000000001"], Some(FINE)),
        (&["generate", "00000000000000000001"], Some((BadValue, 1))),
        (&["generate", "-1"], Some((BadValue, 1))),
        (&["generate", ""], Some((BadValue, 1))),
        (&["generate", "1", "-i"], Some((UnknownWord, 2))),
        (&["generate", "x", "y"], Some((BadValue, 1))),
        (&["generate", "-i", "a"], Some((BadValue, 1))),
        (&["generate", "20001"], Some((BadValue, 1))),
        (&["Generate", "1"], Some((UnknownFormat, 0))),
        (&["-i", "a", "-f", "segment", "%d"], Some(FINE)),
        (&["-i", "a", "-f", "segment", "o%%%d"], Some(FINE)),
        (&["-i", "a", "-f", "segment", "%020d"], Some(FINE)),
        (&["-i", "a", "-f", "segment", "%01d"], Some(FINE)),
        (
            &["-i", "a", "-f", "segment", "%021d"],
            Some((BadTemplate, 4)),
        ),
        (
            &["-i", "a", "-f", "segment", "%00d"],
            Some((BadTemplate, 4)),
        ),
        (
            &["-i", "a", "-f", "segment", "%001d"],
            Some((BadTemplate, 4)),
        ),
        (&["-i", "a", "-f", "segment", "%0d"], Some((BadTemplate, 4))),
        (&["-i", "a", "-f", "segment", "%5d"], Some((BadTemplate, 4))),
        (&["-i", "a", "-f", "segment", "%d%"], Some((BadTemplate, 4))),
        (
            &["-i", "a", "-f", "segment", "%s%d"],
            Some((BadTemplate, 4)),
        ),
        (&["-i", "a", "-f", "segment", "%D"], Some((BadTemplate, 4))),
        (&["-i", "a", "-f", "segment", "%%"], Some((BadTemplate, 4))),
        (
            &["-i", "a", "-f", "segment", "%03d%d"],
            Some((BadTemplate, 4)),
        ),
        (
            &["-i", "a", "-f", "segment", "o", "p"],
            Some((BadTemplate, 4)),
        ),
        (&["-i", "a", "-f", "segment", ""], Some((BadValue, 4))),
        (&["-i", "a", "-f", "segment", "o\t%d"], Some((BadValue, 4))),
        (&["-f", "segment", "%d"], Some((NoInput, 3))),
        (&["-i", "a", "-f", "tee", "o"], Some((UnknownFormat, 4))),
        (
            &["-i", "a", "-f", "tee", "[f=flv]o", "x"],
            Some((UnknownWord, 5)),
        ),
        (
            &["-i", "a", "-f", "tee", "[f=flv]", "x"],
            Some((BadValue, 4)),
        ),
        (&["-f", "tee", "[f=flv]o"], Some((NoInput, 3))),
        (&["-f", "tee", "[f=zz]o"], Some((UnknownFormat, 2))),
    ];
    for (words, answer) in cases {
        assert_eq!(rt; fault(&rt, words), answer, "{words:?}");
    }
    Ok(())
}

// Marks at both levels, blanks, the order of the checks, and each option at its limits.
#[test]
fn more_right_tees(rt: HostRuntime) -> Result<(), Fail> {
    for text in [
        "[f=flv]'o'",
        "[f=flv]o''",
        "[f=flv]'a|b'",
        "[f=flv]a\\'b",
        "[f=flv]a\\\\b",
        "\\[f=flv]o",
        "'[f=flv]'o",
        "'[f=flv]o'",
        "[f=flv]\\o",
        "[f=fl'v]o'",
        "[f\\=flv]o",
        "[\\f=flv]o",
        "[f=flv\\]o",
        "[f=\\'flv\\']o",
        "[f=flv]o\\'",
        "[f=flv]\\\\",
        "[f=flv]' '",
        "[f=flv]\\|",
        "[f=flv]o|[f=flv]O",
        "[f=flv]o|[f=flv]./o",
        "[f=flv]o:p",
        "[f=flv] [f=adts]o",
        "[f=flv][f=adts]o",
        "[f=flv][]",
        "[f=flv]=",
        "[f=flv:select=\\'v:0\\']o",
        "[f=flv:select=v\\\\:0,a\\\\:0]o",
        "[f=flv:select=v,v]o",
        "[f=flv:select=1,0]o",
        "[f=adts:select=v]o",
        "[f=flv:onfail=ignore]o",
        "[select=v:onfail=abort:f=flv]o",
        "[f=flv:fifo_options=queue_size=001]o",
        "[f=flv:fifo_options=queue_bytes=0]o",
        "[f=flv:fifo_options=recovery_wait_time=0\\\\:max_recovery_attempts=0]o",
        "[f=flv:fifo_options=attempt_recovery=false\\\\:drop_pkts_on_overflow=false\\\\:restart_with_keyframe=0]o",
        "[f=flv:fifo_options=\\'queue_size=1:attempt_recovery=1\\']o",
        "[f=flv:fifo_options=queue_size=\\\\\\'1\\\\\\']o",
        "[f=segment:segment_time=999999.999999]s%d",
        "[f=segment:segment_time=0.1]s%d",
        "[f=segment:segment_time=2:segment_start_number=0]s%d",
        "[f=segment:segment_start_number=007]s%d",
        "[f=segment:segment_list_type=flat]s%d",
        "[f=segment:segment_list_type=csv:segment_list=a\\\\:b]s%d",
        "[segment_time=1:f=segment]s%d",
        "[f=segment:reset_timestamps=false:break_non_keyframes=0]s%d",
        "[f=segment:segment_format=flv:bsfs=null]s%d",
        "[f=segment:segment_format=adts:bsfs=dump_extra]s%d",
        "[f=adts:bsfs=dump_extra]o",
        "[f=flv]s0|[f=segment]s%d",
        "[f=flv]o|[f=flv]o~1",
        "[f=segment]s%d|[f=segment]s%01d",
        "[f=mpegts:bsfs=filter_units=pass_types=1-5]o",
        "[f=mpegts:bsfs=filter_units=remove_types=0-31]o",
        "[f=mpegts:bsfs=filter_units=remove_types=6\\|7]o",
        "[f=mpegts:bsfs=filter_units=remove_types=5-5]o",
        "[f=mpegts:bsfs=filter_units=remove_types=007]o",
        "[f=mpegts:bsfs=dump_extra]o",
        "[f=mpegts:bsfs=dump_extra=freq=k]o",
        "[f=mpegts:bsfs=dump_extra=freq=keyframe]o",
        "[f=mpegts:bsfs=dump_extra=freq=e]o",
        "[f=mpegts:bsfs=aac_adts,h264_mp4toannexb]o",
    ] {
        assert_eq!(rt; tee(&rt, text), Some(FINE), "{text}");
    }
    Ok(())
}

// Each line is the text of a tee, and has a fault of that kind.
fn wrong(rt: &(impl AllocGlobal + Abort), kind: WordKind, texts: &str) -> Result<(), Fail> {
    for text in texts.lines() {
        assert_eq!(*rt; tee(rt, text), Some((kind, 4)), "{text}");
    }
    Ok(())
}

const DANGLING_ESCAPE: &str = "\
'\n\
\\\n\
[f=flv]'\n\
[f=\\'flv]o\n\
[f=flv]a\\\\'b\n\
[f=flv:fifo_options=queue_size=1\\\\\\\\:x=1]o\n\
[f=flv:fifo_options=queue_size=\\\\\\'1]o";

const UNKNOWN_FORMAT: &str = "\
''\n\
|\n\
[f=flv\\\\]]o\n\
[f=segment:segment_format=]s%d\n\
[segment_format=x:f=flv]o\n\
[segment_time=1]\n\
[]\n\
[f=x:zz=1]o\n\
[f= flv]o\n\
[f=flv ]o\n\
[f=Flv]o";

const BAD_VALUE: &str = "\
[f=flv]''\n\
[f=flv:select=v\\\\:1]o\n\
[f=flv:select=V]o\n\
[f=flv:select=v a]o\n\
[f=flv:select=,v]o\n\
[f=flv:select=00]o\n\
[f=flv:select=all]o\n\
[f=flv:select=v:select=v]o\n\
[f=flv:onfail=]o\n\
[f=flv:onfail=Abort]o\n\
[f=flv:onfail=abort:onfail=ignore]o\n\
[f=flv:use_fifo=]o\n\
[f=flv:use_fifo=True]o\n\
[f=flv:use_fifo=00]o\n\
[f=flv:use_fifo=0:use_fifo=0]o\n\
[f=flv:fifo_options=queue_size=-1]o\n\
[f=flv:fifo_options=queue_bytes=]o\n\
[f=flv:fifo_options=drop_pkts_on_overflow=2]o\n\
[f=flv:fifo_options=attempt_recovery=]o\n\
[f=flv:fifo_options=restart_with_keyframe=yes]o\n\
[f=flv:fifo_options=:fifo_options=]o\n\
[f=flv:fifo_options=queue_size=0\\\\:zz=1]o\n\
[f=segment:segment_time=0.0000010]s%d\n\
[f=segment:segment_time=-1]s%d\n\
[f=segment:segment_time=1e3]s%d\n\
[f=segment:segment_time= 1]s%d\n\
[f=segment:segment_time=1,5]s%d\n\
[f=segment:segment_start_number=]s%d\n\
[f=segment:segment_start_number=-1]s%d\n\
[f=segment:segment_list_type=M3U8]s%d\n\
[f=segment:segment_list=l\t]s%d\n\
[f=segment:reset_timestamps=2]s%d\n\
[f=segment:break_non_keyframes=]s%d\n\
[f=segment:segment_format=adts:segment_format=adts]s%d\n\
[f=segment]\n\
[f=segment]o\t\n\
[f=flv:bsfs=dump_extra]\n\
[onfail=x:f=flv]o";

const UNCLOSED_BLOCK: &str = "\
[f=flv\\\\]o\n\
[f=flv:f=flv\n\
[zz=1\n\
[onfail=x\n\
[f=mpegts:bsfs=filter_units=remove_types=6|7]o";

const SAME_TARGET: &str = "\
[f=flv]o|[f=flv]'o'\n\
[f=flv]o|[f=flv]\\o\n\
[f=flv]a|[f=flv]b|[f=flv]a";

const UNKNOWN_OPTION: &str = "\
[f=flv:select=v\\:0]o\n\
[f=flv:select='v:0']o\n\
[f=flv:fifo_options=recover_any_error=1]o\n\
[f=flv:fifo_options=use_fifo=1]o\n\
[f=flv:fifo_options=\\\\:queue_size=1]o\n\
[f=flv:fifo_options=queue_size=1:attempt_recovery=1]o\n\
[f=flv:queue_size=1]o\n\
[f=flv:fifo_options=zz=1\\\\:queue_size=0]o\n\
[f=flv:segment_format=flv]o\n\
[f=flv:segment_list=l]o\n\
[f=flv:segment_list_type=csv]o\n\
[f=flv:segment_start_number=0]o\n\
[f=flv:break_non_keyframes=0]o\n\
[f=flv:segment_time=1]\n\
[zz=1]o\n\
[zz=1:f=flv]o\n\
[ f=flv]o\n\
[f =flv]o\n\
[F=flv]o\n\
[f2=flv]o\n\
[f-=flv]o\n\
[f]o\n\
[f:]o\n\
[=]o\n\
[f=flv:bsfs/=null]o\n\
[f=mpegts:bsfs/v/a=null]o\n\
[f=mpegts:bsfs/10=null]o";

const BAD_TEMPLATE: &str = "\
[f=segment:segment_format=flv:bsfs=dump_extra]o\n\
[f=flv]o|[f=segment]o";

const BAD_FILTER: &str = "\
[f=flv]o|[f=flv:bsfs=dump_extra]o\n\
[f=mpegts:bsfs=filter_units=remove_types=32]o\n\
[f=mpegts:bsfs=filter_units=remove_types=5-4]o\n\
[f=mpegts:bsfs=filter_units=remove_types=]o\n\
[f=mpegts:bsfs=filter_units=remove_types=1-]o\n\
[f=mpegts:bsfs=filter_units=remove_types=-1]o\n\
[f=mpegts:bsfs=filter_units=remove_types=6\\|]o\n\
[f=mpegts:bsfs=filter_units=remove_types=a]o\n\
[f=mpegts:bsfs=filter_units=remove_types=00000000000000000006]o\n\
[f=mpegts:bsfs=filter_units=types=6]o\n\
[f=mpegts:bsfs=filter_units=remove_types=6\\\\:pass_types=7]o\n\
[f=mpegts:bsfs=dump_extra=freq=x]o\n\
[f=mpegts:bsfs=dump_extra=freq=]o\n\
[f=mpegts:bsfs=dump_extra=all]o\n\
[f=mpegts:bsfs=null=x]o\n\
[f=mpegts:bsfs=null=]o\n\
[f=mpegts:bsfs=h264_mp4toannexb=1]o\n\
[f=mpegts:bsfs=,null]o\n\
[f=mpegts:bsfs=null,,null]o\n\
[f=mpegts:bsfs=NULL]o\n\
[f=mpegts:bsfs= null]o\n\
[f=flv:bsfs/a=h264_mp4toannexb]o\n\
[f=flv:bsfs/1=dump_extra]o\n\
[f=mpegts:bsfs=foo:zz=1]o";

#[test]
fn more_wrong_tees(rt: HostRuntime) -> Result<(), Fail> {
    assert_eq!(rt; tee(&rt, " [f=flv]o"), Some((UnknownFormat, 4)));
    wrong(&rt, DanglingEscape, DANGLING_ESCAPE)?;
    wrong(&rt, UnknownFormat, UNKNOWN_FORMAT)?;
    wrong(&rt, BadValue, BAD_VALUE)?;
    wrong(&rt, UnclosedBlock, UNCLOSED_BLOCK)?;
    wrong(&rt, SameTarget, SAME_TARGET)?;
    wrong(&rt, UnknownOption, UNKNOWN_OPTION)?;
    wrong(&rt, BadTemplate, BAD_TEMPLATE)?;
    wrong(&rt, BadFilter, BAD_FILTER)?;
    Ok(())
}

// The first output of a tee.
fn first_of(rt: &impl AllocGlobal, text: &str) -> Result<SlavePlan, Fail> {
    let read = read(rt, &["-i", "a", "-f", "tee", text]);
    let plan = read.ok_or("there is memory")?.ok().ok_or("it is right")?;
    let slaves = plan.slaves.into_vec();
    Ok(slaves.into_iter().next().ok_or("there is one")?)
}

#[test]
fn names(rt: HostRuntime) -> Result<(), Fail> {
    for (text, name) in [
        ("[f=flv]a\\'b", "a'b"),
        ("[f=flv]a\\\\b", "a\\b"),
        ("[f=flv]'a|b'c", "a|bc"),
        ("\\[f=flv]o", "o"),
        ("[f=flv][f=adts]o", "[f=adts]o"),
        ("[f=flv] o ", " o "),
        ("[f=flv]a]b", "a]b"),
        ("[f=fl'v]o'", "o"),
        ("[f=flv]\\\\", "\\"),
        ("[f=flv]\\\\\\|", "\\|"),
        ("[f=flv]a'b\\'c", "ab\\c"),
    ] {
        let slave = first_of(&rt, text)?;
        assert_eq!(rt; slave.name.as_str(), name, "{text}");
    }
    for (options, list, kind) in [
        ("segment_list=l", "l", ListKind::Flat),
        ("segment_list=l.csv", "l.csv", ListKind::Csv),
        ("segment_list=l.CSV", "l.CSV", ListKind::Flat),
        ("segment_list=.m3u8", ".m3u8", ListKind::M3u8),
        ("segment_list=l.m3u8.csv", "l.m3u8.csv", ListKind::Csv),
        (
            "segment_list=l.csv:segment_list_type=flat",
            "l.csv",
            ListKind::Flat,
        ),
        (
            "segment_list_type=m3u8:segment_list=l.csv",
            "l.csv",
            ListKind::M3u8,
        ),
        ("segment_list=a\\\\:b\\\\]", "a:b]", ListKind::Flat),
    ] {
        let text = format!(in rt.alloc(); "[f=segment:{options}]s%d")?;
        let slave = first_of(&rt, &text)?;
        let seg = slave.seg.as_ref().ok_or("it has segments")?;
        let named = seg.list.as_ref().ok_or("it has a list")?;
        assert_eq!(rt; named.as_str(), list, "{text}");
        assert_eq!(rt; seg.list_kind, kind, "{text}");
    }
    Ok(())
}

// What an output is to do where no option says it.
const PLAIN: FifoOptions = FifoOptions {
    use_fifo: false,
    queue_size: 60,
    queue_bytes: 0,
    dropping: false,
    attempt_recovery: false,
    max_attempts: 0,
    wait_ms: 0,
    restart: false,
};

#[test]
fn values(rt: HostRuntime) -> Result<(), Fail> {
    let all =
        "queue_size=256\\\\:queue_bytes=1099511627776\\\\:drop_pkts_on_overflow=1\\\\:attempt_recovery=true\\\\:max_recovery_attempts=4294967295\\\\:recovery_wait_time=1000000000\\\\:restart_with_keyframe=1";
    let full = FifoOptions {
        use_fifo: false,
        queue_size: 256,
        queue_bytes: 1 << 40,
        dropping: true,
        attempt_recovery: true,
        max_attempts: 4_294_967_295,
        wait_ms: 1_000_000_000,
        restart: true,
    };
    let short = FifoOptions {
        queue_size: 1,
        attempt_recovery: true,
        ..PLAIN
    };
    for (options, fifo) in [
        ("", PLAIN),
        ("queue_size=1\\\\:attempt_recovery=1", short),
        (all, full),
    ] {
        let text = format!(in rt.alloc(); "[f=flv:fifo_options={options}]o")?;
        assert_eq!(rt; first_of(&rt, &text)?.fifo, fifo, "{text}");
    }
    for (options, time_us, start, reset, any_packet) in [
        ("", 2_000_000, 0, false, false),
        (
            ":segment_time=0.000001:segment_start_number=4294967295",
            1,
            4_294_967_295,
            false,
            false,
        ),
        (
            ":segment_time=1000000:reset_timestamps=1",
            1_000_000_000_000,
            0,
            true,
            false,
        ),
        (
            ":segment_time=0.5:break_non_keyframes=true",
            500_000,
            0,
            false,
            true,
        ),
        (":segment_time=12.000345", 12_000_345, 0, false, false),
    ] {
        let text = format!(in rt.alloc(); "[f=segment{options}]s%d")?;
        let slave = first_of(&rt, &text)?;
        let seg = slave.seg.as_ref().ok_or("it has segments")?;
        assert_eq!(rt; seg.time_us, time_us, "{text}");
        assert_eq!(rt; seg.start, start, "{text}");
        assert_eq!(rt; seg.reset, reset, "{text}");
        assert_eq!(rt; seg.any_packet, any_packet, "{text}");
    }
    let select: [(&str, &[Spec]); 4] = [
        ("", &[Spec::All]),
        (":select=v", &[Spec::Video]),
        (":select=a\\\\:0,v\\\\:0", &[Spec::Audio, Spec::Video]),
        (
            ":select=1,0,a",
            &[Spec::Index(1), Spec::Index(0), Spec::Audio],
        ),
    ];
    for (options, specs) in select {
        let text = format!(in rt.alloc(); "[f=flv{options}]o")?;
        assert_eq!(rt; first_of(&rt, &text)?.select.as_slice(), specs, "{text}");
    }
    Ok(())
}
