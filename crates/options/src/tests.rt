// Words read into a plan, or refused, by worked examples.
use super::*;
use WordKind::*;
use playlist::ListKind;
use rmx_media::Format;
use std::test::Fail;

pub(super) fn read(rt: &impl AllocGlobal, words: &[&str]) -> Option<Result<Plan, WordFault>> {
    let mut list = Vec::new(rt.alloc());
    for word in words {
        list.push(String::from_str(rt.alloc(), word).ok()?).ok()?;
    }
    Some(read_words(rt.alloc(), &list))
}

// The fault of words and its place, or UnknownWord at 99 for words without a fault.
pub(super) fn fault(rt: &impl AllocGlobal, words: &[&str]) -> Option<(WordKind, u32)> {
    match read(rt, words)? {
        Ok(_) => Some((UnknownWord, 99)),
        Err(fault) => Some((fault.kind, fault.word)),
    }
}

pub(super) const FINE: (WordKind, u32) = (UnknownWord, 99);

#[test]
fn words(rt: HostRuntime) -> Result<(), Fail> {
    assert_eq!(rt; fault(&rt, &[]), Some((NoInput, 0)));
    assert_eq!(rt; fault(&rt, &["-x"]), Some((UnknownWord, 0)));
    assert_eq!(rt; fault(&rt, &["-i"]), Some((MissingValue, 0)));
    assert_eq!(rt; fault(&rt, &["-f", "adts", "o.aac"]), Some((NoInput, 3)));
    assert_eq!(rt; fault(&rt, &["-i", "a", "-f", "adts"]), Some((NoOutput, 4)));
    assert_eq!(rt;
        fault(&rt, &["-i", "a", "-f", "ogg", "o"]),
        Some((UnknownFormat, 3))
    );
    assert_eq!(rt; fault(&rt, &["-i", "a", "-f", "adts", "o"]), Some(FINE));
    assert_eq!(rt;
        fault(&rt, &["-i", "a", "-f", "adts", "o", "p"]),
        Some((UnknownWord, 5))
    );
    assert_eq!(rt;
        fault(&rt, &["-i", "a", "-f", "adts", ""]),
        Some((BadValue, 4))
    );
    assert_eq!(rt;
        fault(&rt, &["-i", "a", "-f", "tee", ""]),
        Some((BadValue, 4))
    );
    assert_eq!(rt;
        fault(&rt, &["-i", "", "-f", "adts", "o"]),
        Some((BadValue, 1))
    );
    assert_eq!(rt;
        fault(&rt, &["-i", "a\n", "-f", "adts", "o"]),
        Some((BadValue, 1))
    );
    assert_eq!(rt; fault(&rt, &["-i", "-i", "-f", "adts", "o"]), Some(FINE));
    assert_eq!(rt; fault(&rt, &["-i", "a", "-i"]), Some((MissingValue, 2)));
    assert_eq!(rt; fault(&rt, &["-i", "a", "-i", ""]), Some((BadValue, 2)));
    assert_eq!(rt; fault(&rt, &["-i", "a", "o"]), Some((UnknownFormat, 2)));
    assert_eq!(rt;
        fault(&rt, &["-i", "a", "-f", "segment", "o.ts"]),
        Some((BadTemplate, 4))
    );
    assert_eq!(rt;
        fault(&rt, &["-i", "a", "-f", "segment", "o%d.ts"]),
        Some(FINE)
    );
    assert_eq!(rt; fault(&rt, &["generate"]), Some((MissingValue, 0)));
    assert_eq!(rt; fault(&rt, &["generate", "0"]), Some((BadValue, 1)));
    assert_eq!(rt;
        fault(&rt, &["generate", "20001", "x"]),
        Some((BadValue, 1))
    );
    assert_eq!(rt;
        fault(&rt, &["generate", "20000", "x"]),
        Some((UnknownWord, 2))
    );
    assert_eq!(rt; fault(&rt, &["generate", "20000"]), Some(FINE));
    assert_eq!(rt;
        fault(&rt, &["-f", "adts", "generate", "1"]),
        Some((UnknownWord, 3))
    );
    assert_eq!(rt; fault(&rt, &["--help"]), Some((UnknownWord, 0)));
    Ok(())
}

fn number_fault(rt: &impl AllocGlobal, option: &str, value: &str) -> Option<(WordKind, u32)> {
    fault(rt, &["-i", "a", option, value, "-f", "flv", "o"])
}

#[test]
fn numbers(rt: HostRuntime) -> Result<(), Fail> {
    let bad = Some((BadValue, 3));
    for (value, answer) in [
        ("0", Some(FINE)),
        ("007", Some(FINE)),
        ("1000000000000000", Some(FINE)),
        ("0000000000000000001", Some(FINE)),
        ("1000000000000001", bad),
        ("00000000000000000001", bad),
        ("", bad),
        ("-1", bad),
        ("+1", bad),
        (" 1", bad),
        ("1.0", bad),
        ("٣", bad),
    ] {
        assert_eq!(rt;
            number_fault(&rt, "-max_interleave_delta", value),
            answer,
            "{value}"
        );
    }
    assert_eq!(rt; number_fault(&rt, "-max_input_bytes", "8"), bad);
    assert_eq!(rt; number_fault(&rt, "-max_input_bytes", "9"), Some(FINE));
    assert_eq!(rt;
        number_fault(&rt, "-max_input_bytes", "1099511627776"),
        Some(FINE)
    );
    assert_eq!(rt; number_fault(&rt, "-max_input_bytes", "1099511627777"), bad);
    Ok(())
}

pub(super) fn tee(rt: &impl AllocGlobal, text: &str) -> Option<(WordKind, u32)> {
    fault(rt, &["-i", "a", "-f", "tee", text])
}

#[test]
fn right_tees(rt: HostRuntime) -> Result<(), Fail> {
    for text in [
        "[f=flv]o",
        "[f=flv:select=v:onfail=ignore]a\\|b.flv|[f=adts]c.aac",
        "[f=f\\lv]o",
        "[f='flv']o",
        "[f=flv:use_fifo=0]o",
        "[f=flv:use_fifo=false]o",
        "[f=flv:onfail=abort]o",
        "[f=flv:select=v,a,0,1]o",
        "[f=flv:select=v\\\\:0]o",
        "[f=flv:fifo_options=]o",
        "[f=flv:fifo_options=queue_size=1]o",
        "[f=flv:fifo_options=queue_size=256\\\\:queue_bytes=1099511627776]o",
        "[f=flv:fifo_options=recovery_wait_time=1000000000\\\\:max_recovery_attempts=4294967295]o",
        "[f=flv:fifo_options=attempt_recovery=1\\\\:restart_with_keyframe=true\\\\:drop_pkts_on_overflow=1]o",
        "[f=segment]s%03d.ts",
        "[f=segment:segment_format=adts:segment_time=0.000001:segment_list=l.csv]s%d.aac",
        "[f=segment:segment_time=1000000.000000:segment_list_type=m3u8]s%d",
        "[f=segment:segment_time=00000000000000000000000001.5]s%d",
        "[f=segment:segment_start_number=4294967295:reset_timestamps=1:break_non_keyframes=true]s%d",
        "[f=flv:bsfs=null,filter_units=remove_types=6]o",
        "[f=mpegts:bsfs/v=h264_mp4toannexb:bsfs/a=aac_adts:bsfs/0=dump_extra=freq=all:bsfs/1=null]o",
        "[f=segment:bsfs=h264_mp4toannexb]s%d",
        "[f=mpegts:bsfs=null,null,null,null,null,null,null,null,null,null,null,null,null,null,null,null]o",
        "[f=mpegts:bsfs=null,null,null,null,null,null,null,null,null,null,null,null,null,null:bsfs/v=null:bsfs/a=null:bsfs/0=null:bsfs/1=null]o",
        "[f=flv:use_fifo=1]o",
        "[f=flv:use_fifo=true]o",
        "[f=flv]a[b]:c",
        "[f=flv]~",
        "[f=flv]é",
    ] {
        assert_eq!(rt; tee(&rt, text), Some(FINE), "{text}");
    }
    Ok(())
}

#[test]
fn wrong_tees(rt: HostRuntime) -> Result<(), Fail> {
    for (text, kind) in [
        ("[f=flv:zz=1]o", UnknownOption),
        ("[f=flv:use_fifo=2]o", BadValue),
        ("[f=flv]o\\", DanglingEscape),
        ("[f=flv]o'", DanglingEscape),
        ("[f=flv", UnclosedBlock),
        ("[f=flv\\\\", DanglingEscape),
        ("[f=flv\\'", DanglingEscape),
        ("[", UnclosedBlock),
        ("[f", UnclosedBlock),
        ("[f=", UnclosedBlock),
        ("[f=flv:", UnclosedBlock),
        ("[f=flv:]o", UnknownOption),
        ("[=flv]o", UnknownOption),
        ("['f'lv=x]|[f=flv]o", UnknownOption),
        ("[é=flv]o", UnknownOption),
        ("[]o", UnknownFormat),
        ("o", UnknownFormat),
        ("[f=tee]o", UnknownFormat),
        ("[f=]o", UnknownFormat),
        ("[f=flv:f=flv]o", BadValue),
        ("[f=flv:f=x]o", BadValue),
        ("[f=flv:f=x", UnclosedBlock),
        ("[f=flv]", BadValue),
        ("[f=flv]|[f=adts]o\\", BadValue),
        ("[f=flv]o\u{1f}", BadValue),
        ("[f=flv]o|[f=adts]o", SameTarget),
        ("[f=segment:segment_list=s%d]s%d", SameTarget),
        ("[f=segment:segment_list=l]s%d|[f=flv]l", SameTarget),
        ("[f=flv]l|[f=segment:segment_list=l]s%d", SameTarget),
        (
            "[f=segment:segment_list=l]s%d|[f=segment:segment_list=l]t%d",
            SameTarget,
        ),
        ("[f=segment]o.ts", BadTemplate),
        ("[f=segment]o%%d", BadTemplate),
        ("[f=segment]%d%d", BadTemplate),
        ("[f=flv:segment_time=1]o", UnknownOption),
        ("[f=flv:reset_timestamps=0]o", UnknownOption),
        ("[segment_time=1]o", UnknownFormat),
        ("[f=segment:segment_format=segment]s%d", UnknownFormat),
        ("[f=segment:segment_format=x]s%d", UnknownFormat),
        ("[f=segment:segment_time=0]s%d", BadValue),
        ("[f=segment:segment_time=0.0000001]s%d", BadValue),
        ("[f=segment:segment_time=0.000000]s%d", BadValue),
        ("[f=segment:segment_time=1000000.000001]s%d", BadValue),
        ("[f=segment:segment_time=1000001]s%d", BadValue),
        (
            "[f=segment:segment_time=99999999999999999999999999]s%d",
            BadValue,
        ),
        ("[f=segment:segment_time=1.]s%d", BadValue),
        ("[f=segment:segment_time=.5]s%d", BadValue),
        ("[f=segment:segment_time=1.5.5]s%d", BadValue),
        ("[f=segment:segment_time=]s%d", BadValue),
        ("[f=segment:segment_list=]s%d", BadValue),
        ("[f=segment:segment_list_type=ffconcat]s%d", BadValue),
        ("[f=segment:segment_start_number=4294967296]s%d", BadValue),
        ("[f=segment:reset_timestamps=yes]s%d", BadValue),
        ("[f=flv:select=]o", BadValue),
        ("[f=flv:select=v,]o", BadValue),
        ("[f=flv:select=2]o", BadValue),
        ("[f=flv:select=v:0]o", UnknownOption),
        ("[f=flv:onfail=stop]o", BadValue),
        ("[f=flv:fifo_options=queue_size]o", UnknownOption),
        ("[f=flv:fifo_options=queue_size=]o", BadValue),
        ("[f=flv:fifo_options=queue_size=0]o", BadValue),
        ("[f=flv:fifo_options=queue_size=257]o", BadValue),
        ("[f=flv:fifo_options=queue_bytes=1099511627777]o", BadValue),
        (
            "[f=flv:fifo_options=recovery_wait_time=1000000001]o",
            BadValue,
        ),
        (
            "[f=flv:fifo_options=max_recovery_attempts=4294967296]o",
            BadValue,
        ),
        ("[f=flv:fifo_options=timeshift=1]o", UnknownOption),
        ("[f=flv:fifo_options=queue_size=1\\\\:]o", UnknownOption),
        (
            "[f=flv:fifo_options=queue_size=1\\\\:queue_size=1]o",
            BadValue,
        ),
        (
            "[f=flv:fifo_options=\\\\[queue_size=1\\\\]]o",
            UnknownOption,
        ),
        ("[f=flv:bsfs=h264_mp4toannexb]o", BadFilter),
        ("[f=flv:bsfs/a=aac_adts]o", BadFilter),
        ("[f=flv:bsfs/v=dump_extra]o", BadFilter),
        (
            "[f=segment:segment_format=flv:bsfs/1=h264_mp4toannexb]s%d",
            BadFilter,
        ),
        ("[f=mpegts:bsfs=]o", BadFilter),
        ("[f=mpegts:bsfs=foo]o", BadFilter),
        ("[f=mpegts:bsfs=null,]o", BadFilter),
        ("[f=mpegts:bsfs=filter_units]o", BadFilter),
        ("[f=mpegts:bsfs=null:bsfs=null]o", BadValue),
        ("[f=mpegts:bsfs/v=null:bsfs/v=null]o", BadValue),
        ("[f=mpegts:bsfs/2=null]o", UnknownOption),
        ("[f=mpegts:bsfs/V=null]o", UnknownOption),
        (
            "[f=mpegts:bsfs=null,null,null,null,null,null,null,null,null,null,null,null,null,null,null,null,null]o",
            BadFilter,
        ),
        (
            "[f=mpegts:bsfs=null,null,null,null,null,null,null,null,null,null,null,null,null,null,null:bsfs/v=null:bsfs/1=null]o",
            BadFilter,
        ),
        ("[f=flv:bsfs=h264_mp4toannexb]o\u{1f}", BadValue),
        ("[f=flv]o|", UnknownFormat),
        ("|[f=flv]o", UnknownFormat),
        ("[f=flv:zz=1]o|[f=flv]p\\", UnknownOption),
        ("[f=flv]o|[f=flv]p\\", DanglingEscape),
    ] {
        assert_eq!(rt; tee(&rt, text), Some((kind, 4)), "{text}");
    }
    Ok(())
}

#[test]
fn many_outputs(rt: HostRuntime) -> Result<(), Fail> {
    let sixteen =
        "[f=flv]a|[f=flv]b|[f=flv]c|[f=flv]d|[f=flv]e|[f=flv]f|[f=flv]g|[f=flv]h|[f=flv]i|[f=flv]j|[f=flv]k|[f=flv]l|[f=flv]m|[f=flv]n|[f=flv]o|[f=flv]p";
    assert_eq!(rt; tee(&rt, sixteen), Some(FINE));
    let more = format!(in rt.alloc(); "{sixteen}|x\\")?;
    assert_eq!(rt; tee(&rt, &more), Some((TooManySlaves, 4)));
    let name =
        "nnnnnnnnnnnnnnnnnnnnnnnnnnnnnnnnnnnnnnnnnnnnnnnnnnnnnnnnnnnnnnnnnnnnnnnnnnnnnnnnnnnnnnnnnnnnnnnnnnnn";
    let longest = format!(in rt.alloc(); "[f=flv]{name}{name}")?;
    assert_eq!(rt; tee(&rt, &longest), Some(FINE));
    let longer = format!(in rt.alloc(); "[f=flv]{name}{name}n")?;
    assert_eq!(rt; tee(&rt, &longer), Some((NameTooLong, 4)));
    let wrong = format!(in rt.alloc(); "[f=zz]z|{sixteen}")?;
    assert_eq!(rt; tee(&rt, &wrong), Some((UnknownFormat, 4)));
    let wrong = format!(in rt.alloc(); "{sixteen}|[f=flv]a")?;
    assert_eq!(rt; tee(&rt, &wrong), Some((TooManySlaves, 4)));
    let two = format!(in rt.alloc(); "{name}{name}")?;
    let three = format!(in rt.alloc(); "{name}{name}n")?;
    let wide = format!(in rt.alloc(); "{name}éééééééééééééééééééééééééééééééééééééééééééééééééé")?;
    assert_eq!(rt; fault(&rt, &["-i", &two, "-f", "adts", "o"]), Some(FINE));
    assert_eq!(rt;
        fault(&rt, &["-i", &three, "-f", "adts", "o"]),
        Some((NameTooLong, 1))
    );
    assert_eq!(rt; fault(&rt, &["-i", "a", "-f", "adts", &two]), Some(FINE));
    assert_eq!(rt;
        fault(&rt, &["-i", "a", "-f", "adts", &three]),
        Some((NameTooLong, 4))
    );
    assert_eq!(rt;
        fault(&rt, &["-i", &three, "-f", "ogg", "o"]),
        Some((NameTooLong, 1))
    );
    assert_eq!(rt;
        fault(&rt, &["-i", "a", "-f", "segment", &three]),
        Some((NameTooLong, 4))
    );
    assert_eq!(rt; fault(&rt, &["-i", &wide, "-f", "adts", "o"]), Some(FINE));
    let wider = format!(in rt.alloc(); "{wide}x")?;
    assert_eq!(rt;
        fault(&rt, &["-i", &wider, "-f", "adts", "o"]),
        Some((NameTooLong, 1))
    );
    for (text, kind) in [
        (format!(in rt.alloc(); "[f=flv]{three}\t")?, BadValue),
        (
            format!(in rt.alloc(); "[f=segment:segment_list={three}]s%d")?,
            NameTooLong,
        ),
        (format!(in rt.alloc(); "[f=segment]{three}")?, NameTooLong),
        (
            format!(in rt.alloc(); "[f=flv:bsfs=dump_extra]{three}")?,
            NameTooLong,
        ),
        (
            format!(in rt.alloc(); "[f=flv:segment_time=1]{three}")?,
            UnknownOption,
        ),
    ] {
        assert_eq!(rt; tee(&rt, &text), Some((kind, 4)), "{text}");
    }
    Ok(())
}

#[test]
fn plans(rt: HostRuntime) -> Result<(), Fail> {
    let read = read(
        &rt,
        &[
            "-i",
            "in",
            "-f",
            "tee",
            "[f=flv:select=v:onfail=ignore]a\\|b.flv|[f=segment:segment_list=l.csv]s%d",
        ],
    );
    let plan = read.ok_or("there is memory")?.ok().ok_or("they are right")?;
    assert_eq!(rt; plan.delta_us, 10_000_000);
    assert_eq!(rt; plan.max_bytes, 1 << 40);
    assert_eq!(rt; plan.slaves.as_slice().len(), 2);
    let first = &plan.slaves.as_slice()[0];
    assert_eq!(rt; first.name.as_str(), "a|b.flv");
    assert_eq!(rt; first.format, Format::Flv);
    assert_eq!(rt; first.abort, false);
    assert_eq!(rt; first.select.as_slice(), [Spec::Video].as_slice());
    let second = &plan.slaves.as_slice()[1];
    assert_eq!(rt; second.abort, true);
    assert_eq!(rt; second.fifo.queue_size, 60);
    let seg = second.seg.as_ref().ok_or("it has segments")?;
    assert_eq!(rt; seg.inner, Format::Mpegts);
    assert_eq!(rt; seg.time_us, 2_000_000);
    assert_eq!(rt; seg.list_kind, ListKind::Csv);
    Ok(())
}
