// Names and lists by worked examples.
ghost use Rattle.std.specs.Prelude.{◌<◌, ◌^◌, pos, neg_ℤ, ◌≤ℤ◌, length, All};
ghost use Rattle.playlist.specs.List.{IsInRange};

use super::*;
use arrayvec::ArrayString;
use rmx_edge::MemShelf;
use rmx_media::{Format, Text};
use std::test::Fail;

fn name_with(text: &str, number: u64) -> Option<ArrayString<256>> {
    let template = Template::parse(text)?.copy();
    let mut out = ArrayString::new();
    template.name(number, &mut out);
    Some(out)
}

#[test]
fn templates(rt: HostRuntime) -> Result<(), Fail> {
    let rows = [
        ("s%03d.ts", 7, "s007.ts"),
        ("s%03d.ts", 1234, "s1234.ts"),
        ("%d", 0, "0"),
        ("a%%b%d%%", 12, "a%b12%"),
        ("%020d", 4294967295, "00000000004294967295"),
        ("%01d", 18446744073709551615, "18446744073709551615"),
        ("é%02d", 3, "é03"),
    ];
    for (text, number, name) in rows {
        let made = name_with(text, number).ok_or("it is a template")?;
        assert_eq!(rt; made.as_str(), name);
    }
    for text in [
        "", "o.ts", "%", "%%", "%%d", "%x", "%5d", "%0d", "%00d", "%021d", "%030d", "%0100d",
        "%d%d", "%d%", "%-3d", "%0 3d", "% d", "%03", "%D",
    ] {
        assert!(rt; Template::parse(text).is_none(), "{text}");
    }
    Ok(())
}

const LATEST_MS: i64 = 1 << 40;

fn within(ms: i64) -> i64
    ensures above { neg_ℤ (pos (2 ^ 40)) ≤ℤ result }
    ensures below { result ≤ℤ pos (2 ^ 40) }
{
    ms.clamp(-LATEST_MS, LATEST_MS)
}

fn entry(number: u64, start_ms: i64, end_ms: i64) -> ListEntry
    ensures { IsInRange result }
{
    ListEntry {
        number,
        start_ms: within(start_ms),
        end_ms: within(end_ms),
    }
}

fn written(
    rt: &impl AllocGlobal,
    kind: ListKind,
    text: &str,
    entries: &[ListEntry],
) -> Option<MemShelf>
    requires some { 0 < length entries.now }
    requires times { All IsInRange entries.now }
{
    let template = Template::parse(text)?;
    let mut shelf = MemShelf::new(rt.alloc());
    write_list(kind, "l", &template, entries, &mut shelf).ok()?;
    Some(shelf)
}

fn has_text(shelf: &MemShelf, text: &str) -> bool {
    shelf.take_count() == 1
        && shelf.take_name(0) == "l"
        && shelf.take_closed(0)
        && shelf.take_bytes(0) == text.as_bytes()
}

#[test]
fn lists(rt: HostRuntime) -> Result<(), Fail> {
    let entries = [
        entry(0, 0, 5000),
        entry(1, 5000, 6000),
        entry(2, 6000, 7000),
        entry(3, 7000, 8000),
    ];
    let rows = [
        (
            ListKind::Flat,
            "s%03d.ts",
            "s000.ts\ns001.ts\ns002.ts\ns003.ts\n",
        ),
        (
            ListKind::Csv,
            "s%03d.ts",
            "s000.ts,0.000000,5.000000\ns001.ts,5.000000,6.000000\ns002.ts,6.000000,7.000000\ns003.ts,7.000000,8.000000\n",
        ),
        (
            ListKind::Csv,
            "a,\"b\"%d",
            "\"a,\"\"b\"\"0\",0.000000,5.000000\n\"a,\"\"b\"\"1\",5.000000,6.000000\n\"a,\"\"b\"\"2\",6.000000,7.000000\n\"a,\"\"b\"\"3\",7.000000,8.000000\n",
        ),
        (
            ListKind::M3u8,
            "s%03d.ts",
            "#EXTM3U\n#EXT-X-VERSION:3\n#EXT-X-MEDIA-SEQUENCE:0\n#EXT-X-TARGETDURATION:5\n#EXTINF:5.000000,\ns000.ts\n#EXTINF:1.000000,\ns001.ts\n#EXTINF:1.000000,\ns002.ts\n#EXTINF:1.000000,\ns003.ts\n#EXT-X-ENDLIST\n",
        ),
    ];
    for (kind, template, text) in rows {
        let shelf = written(&rt, kind, template, &entries).ok_or("it is written")?;
        assert!(rt; has_text(&shelf, text), "{text}");
    }
    Ok(())
}

#[test]
fn lists_of_odd_times(rt: HostRuntime) -> Result<(), Fail> {
    let empty = [entry(4294967295, 0, 0)];
    let shelf = written(&rt, ListKind::M3u8, "%d", &empty).ok_or("it is written")?;
    let text =
        "#EXTM3U\n#EXT-X-VERSION:3\n#EXT-X-MEDIA-SEQUENCE:4294967295\n#EXT-X-TARGETDURATION:1\n#EXTINF:0.000000,\n4294967295\n#EXT-X-ENDLIST\n";
    assert!(rt; has_text(&shelf, text));
    let back = [entry(0, 40, -1500), entry(1, -1500, 3501)];
    let shelf = written(&rt, ListKind::Csv, "%d", &back).ok_or("it is written")?;
    assert!(rt; has_text(&shelf, "0,0.040000,-1.500000\n1,-1.500000,3.501000\n"));
    let shelf = written(&rt, ListKind::M3u8, "%d", &back).ok_or("it is written")?;
    let text =
        "#EXTM3U\n#EXT-X-VERSION:3\n#EXT-X-MEDIA-SEQUENCE:0\n#EXT-X-TARGETDURATION:6\n#EXTINF:0.000000,\n0\n#EXTINF:5.001000,\n1\n#EXT-X-ENDLIST\n";
    assert!(rt; has_text(&shelf, text));
    Ok(())
}

#[test]
fn options_are_copied(rt: HostRuntime) -> Result<(), Fail> {
    let list = Text::of(rt.alloc(), "l.csv").ok().ok_or("there is memory")?;
    let options = SegOptions {
        inner: Format::Adts,
        time_us: 1,
        list: Some(list),
        list_kind: ListKind::Csv,
        start: 7,
        reset: true,
        any_packet: false,
    };
    let copy = options.copy(rt.alloc()).ok().ok_or("there is memory")?;
    assert_eq!(rt; copy.list.as_ref().map(|name| name.as_str()), Some("l.csv"));
    assert_eq!(rt; copy.start, 7);
    Ok(())
}
