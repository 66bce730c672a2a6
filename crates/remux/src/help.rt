// What the program says of itself, and of words that it doesn't take.
use options::WordKind;

/// What the program answers where it is asked for its version.
pub const VERSION: &str = "remux 0.2.0\n";

/// What the program answers where it is asked for help.
pub const HELP: &str = "\
usage: remux -i INPUT [-max_interleave_delta N] [-max_input_bytes N] -f FORMAT OUTPUT
       remux -i INPUT [-max_interleave_delta N] [-max_input_bytes N] -f tee OUTPUTS
       remux generate N
       remux --help | --version

Copies the AVC video and AAC audio of an FLV file into other files. Nothing is decoded. An existing file is overwritten,
but for the input and the files of other outputs. The man page remux(1) says more.

  -i INPUT                  the file that is read, as talk.flv or /dev/stdin
  -f FORMAT                 adts, flv, mpegts or segment: one output, named by the last word
  -f tee                    up to 16 outputs, described by the last word (below)
  -max_interleave_delta N   for how long, in microseconds of stream time, one stream may hold up the other;
                            0 to 10^15, 0 is no bound, default 10000000
  -max_input_bytes N        how many bytes of the input are read at most, 9 to 2^40, default 2^40

OUTPUTS are separated by |. Each is [OPTION=VALUE:OPTION=VALUE..]NAME. A backslash takes the next character as it is,
and quotes ' take all up to the next quote. For 0|1 false|true will do.

  f=FORMAT                  adts, flv, mpegts or segment; needed
  select=STREAMS            v, a, 0 or 1, separated by commas: which streams are taken; default all
  onfail=abort|ignore       whether the run ends where this output fails; default abort
  bsfs=CHAIN                bitstream filters for all streams; bsfs/v, bsfs/a, bsfs/0, bsfs/1 for one:
                            h264_mp4toannexb, filter_units=remove_types=T, filter_units=pass_types=T,
                            dump_extra, dump_extra=freq=all, null, aac_adts, separated by commas
  use_fifo=0|1              whether the output has a thread of its own, and a queue before it; default 0
  fifo_options=OPTIONS      key=value, separated by colons (an escaped colon in a block is \\\\:):
    queue_size=N            how many packets may wait in the queue, 1 to 256; default 60
    queue_bytes=N           how many bytes may wait, 0 to 2^40; 0 is no bound, default 0
    drop_pkts_on_overflow=0|1  whether packets are dropped where the queue is full, in place of waiting; default 0
    attempt_recovery=0|1    whether the output begins again in a new file after a failure; default 0
    max_recovery_attempts=N how often in a row, 0 to 4294967295; 0 is no limit, default 0
    recovery_wait_time=MS   for how long, in milliseconds of stream time, it waits before that; 0 to 10^9, default 0
    restart_with_keyframe=0|1  whether it begins again at a key packet; default 0

An output that begins again writes NAME~1, then NAME~2. Without a wait each packet is an attempt with a file of its own.

Segments are numbered files, cut at key packets: their name has one %d, as in part%03d.ts (%% is a percent sign).

  segment_format=FORMAT     adts, flv or mpegts; default mpegts
  segment_time=SECONDS      how long a file lasts at least, 0.000001 to 1000000; default 2
  segment_list=NAME         a list of the files, written at the end; default none
  segment_list_type=KIND    flat, csv or m3u8; default by the name
  segment_start_number=N    the first number, 0 to 4294967295; default 0
  reset_timestamps=0|1      whether the times of each file begin at 0; default 0
  break_non_keyframes=0|1   whether a file may begin with any packet; default 0

`generate N` makes an input of N pictures, 1 to 20000, and writes g.flv, g.ts and segments g%d.ts.

Standard output has the report: what was read, what became of each output's packets, and a last line that begins with
`status` and the number that the program ends with:
  0  all went well                      4  the input ended early; what was there is written
  1  the words have a fault             5  an output failed
  2  the input failed                   6  there wasn't enough memory
  3  the input can't be written so      7  the report could not be written

examples:
  remux -i talk.flv -f mpegts talk.ts
  remux -i talk.flv -f tee '[f=flv]copy.flv|[f=mpegts]talk.ts|[f=adts]talk.aac'
  remux -i talk.flv -f tee '[f=segment:segment_time=6:segment_list=talk.m3u8]talk%03d.ts'
  remux -i talk.flv -f tee '[f=flv:onfail=ignore]/mnt/share/talk.flv|[f=mpegts:select=v]video.ts'
";

/// What is wrong with a word, and what would be right.
pub fn wrong_word(kind: WordKind) -> &'static str {
    match kind {
        WordKind::UnknownWord => "no word of a command; the output's name is the last word",
        WordKind::MissingValue => "its value is missing",
        WordKind::NoInput => "there is no input; name one by -i",
        WordKind::NoOutput => "there is no output; name one as the last word",
        WordKind::UnknownFormat =>
            "no format that is known; adts, flv, mpegts, segment and tee are",
        WordKind::UnknownOption =>
            "an output has an option that isn't known, or that its format doesn't take",
        WordKind::BadValue => "a value that isn't allowed, or an option that comes twice",
        WordKind::DanglingEscape => "it ends behind a backslash or inside quotes",
        WordKind::UnclosedBlock => "a block of options isn't closed by ]",
        WordKind::TooManySlaves => "more than 16 outputs",
        WordKind::SameTarget => "two outputs have the same name",
        WordKind::BadTemplate => "the name of segments needs exactly one %d, as in part%03d.ts",
        WordKind::BadFilter =>
            "a filter that isn't known, too many filters, or one that FLV doesn't take",
        WordKind::NameTooLong => "a name of more than 200 bytes",
        WordKind::NoMemory => "there wasn't enough memory",
    }
}
