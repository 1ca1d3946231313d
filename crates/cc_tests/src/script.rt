//! A test of the script reader: lines of the grammar and lines outside it. What the words of a line mean is shown by `cases`.
//!
//! The rows follow the grammar as docs/SCRIPTS.md states it.

use cc_script::{Mode, Script, ScriptFault, read_script};
use std::alloc::Global;

/// The line that is wrong, 0 where none is; none at all where memory ran out.
fn wrong_line(answer: Result<Script, ScriptFault>) -> Option<u32> {
    match answer {
        Ok(_) => Some(0),
        Err(ScriptFault::Syntax { line }) => Some(line),
        Err(ScriptFault::NoMemory) => None,
    }
}

/// Scripts, each with its first wrong line.
const SCRIPTS: [(&str, u32); 121] = [
    ("", 0),
    ("# a comment\n\n  \n\r\n  stream   a  8192 8192  \r", 0),
    (" # no comment", 1),
    ("#\u{7f}", 1),
    ("stream a 8192\r 8192", 1),
    ("stream a 8192\t8192", 1),
    (
        "stream abcdefghijklmn16 18446744073709551615 18446744073709551615",
        0,
    ),
    ("stream a 8192 9000", 0),
    ("stream abcdefghijklmno17 1 1", 1),
    ("stream 1a 1 1", 1),
    ("stream a 18446744073709551616 0", 1),
    ("stream a 1 18446744073709551616", 1),
    (
        "stream a 1 1 quota 8\nstream b 1 1 temporary\nstream c 1 1 quota 64 temporary",
        0,
    ),
    ("stream a 1 1 quota", 1),
    ("stream a 1 1 quota 7", 1),
    ("stream a 1 1 quota 65", 1),
    ("stream a 1 1 quota 8 quota 8", 1),
    ("stream a 1 1 temporary quota 8", 1),
    ("stream a 1 1 temporary temporary", 1),
    (
        "stream a 1 1 log 0\nstream b 1 1 quota 8 temporary log 3\nstream log 1 1 temporary log 1\nstream d 1 1 log 00",
        4,
    ),
    ("stream a 1 1 log 4", 1),
    ("stream a 1 1 log", 1),
    ("stream a 1 1 log -", 1),
    ("stream a 1 1 log 0 temporary", 1),
    ("stream a 1 1 log 0 quota 8", 1),
    ("stream a 1 1 temporary log 0 quota 8", 1),
    ("stream a 1 1 log 0 log 1", 1),
    ("stream a 01 0", 1),
    ("stream a 1", 1),
    ("stream a 1 1 1", 1),
    ("stream a 1 1\nstream a 1 1", 2),
    ("stream a 1 1\nstate a\nstream b 1 1", 3),
    (
        "journal 64\nstream a 1 1\nt16 state a\nt1 sizes a 18446744073709551615 18446744073709551615",
        0,
    ),
    ("journal 63", 1),
    ("journal 1048577", 1),
    ("journal 64\njournal 64", 2),
    ("threshold 1\nstream a 1 1\njournal 64\nstream b 1 1", 0),
    ("threshold 16384\nthreshold 16384", 2),
    ("threshold 0", 1),
    ("threshold 16385", 1),
    ("t1 threshold 1", 1),
    (
        "stream a 1 1\nworkers 1000 1000\nphase\nstate a\nworkers 0 0",
        5,
    ),
    ("workers 0 0\njournal 64\nworkers 0 0", 3),
    ("workers 1001 0", 1),
    ("workers 0 1001", 1),
    ("ahead 1", 1),
    ("stream a 1 1\nask a 0", 2),
    ("stream a 1 1\nask a 0 1 nowait", 2),
    ("stream a 1 1\nask b 0 1", 2),
    ("stream a 1 1\nask a 0 33554432\nask a 0 1", 3),
    ("workers 1", 1),
    ("workers 1 0 0", 1),
    ("t1 workers 1 0", 1),
    ("stream a 1 1\nt1 phase", 2),
    ("stream a 1 1\nt17 state a", 2),
    ("stream a 1 1\nt1 t2 state a", 2),
    (
        "stream a 1 1\ncread a 0 1 nowait\ncread a 0 1 nowait nowait",
        3,
    ),
    ("stream a 1 1\ncread a 0", 2),
    ("stream a 1 1\ncread b 0 1", 2),
    (
        "stream a 1 1\ncread a:0 0 1\ncread a:15 0 1\ncread a:01 0 1",
        4,
    ),
    ("stream a:0 1 1", 1),
    ("stream a 1 1\ncread a 0 2097152\ncread a 0 2097153", 3),
    (
        "stream a 1 1\ncwrite a 0 AB\ncwrite a 0 ABCD,00x2\ncwrite a 0 -\ncwrite a 0 AB,",
        5,
    ),
    (
        "stream a 1 1\ncwrite a 0 ABx2097152\ncwrite a 0 ABx2097152,00",
        3,
    ),
    ("stream a 1 1\ncwrite a 0 ABx0", 2),
    ("stream a 1 1\ncwrite a 0 ab", 2),
    ("stream a 1 1\ncwrite a 0 ABCDx2", 2),
    ("stream a 1 1\nzero a 5 5\nzero a 6 5", 3),
    ("stream a 1 1\nflush a\nflush a 0 1\nisdirty\nflush a 1", 5),
    (
        "journal 64\nthreshold 1\nstream a 8192 8193 quota 8 temporary\nstream b 4194305 0",
        0,
    ),
    (
        "stream a 1 1\ncread a 0 1 nowait\nzero a 0 1\nphase\nt2 sizes a 1 1\nt2 cwrite a 0 AB",
        0,
    ),
    ("isdirty 0", 1),
    (
        "stream a 1 1\ninit a 1 2 3\nuninit a:1\npurge a\npurge a 1 1\ninit a 1 2",
        6,
    ),
    ("stream a 1 1\ninit a 1 1 1 temporary quota 8", 2),
    ("stream a 1 1\nncread a 0 2097152\nncread a 0 2097153", 3),
    ("stream a 1 1\nsetlog a 0\nt2 setlog a 3\nsetlog a 4", 4),
    ("stream a 1 1\nsetlog a", 2),
    ("stream a 1 1\nsetlog b 0", 2),
    ("stream a 1 1\nsetlog a 0 1", 2),
    ("stream a 1 1 log 0\nsetlog a -", 2),
    (
        "append 0 AB\nt16 append 3 ABCD,00x2\nappend 1 -\nappend 4 AB",
        4,
    ),
    ("append 0", 1),
    ("append 0 ab", 1),
    ("append 0 AB CD", 1),
    ("append AB 0", 1),
    ("append 0 ABx2097152\nappend 0 ABx2097153", 2),
    (
        "logflush 0 1\nt2 logflush 3 4611686018427387904\nlogflush 4 1",
        3,
    ),
    ("logflush 0 0", 1),
    ("logflush 0 4611686018427387905", 1),
    ("logflush 0", 1),
    ("logflush 0 1 1", 1),
    ("logflush 01 1", 1),
    (
        "stream a 1 1\ngranularity a:1 18446744073709551615\nt2 attributes a 1 0\nfthreshold a 0\nfthreshold a 4294967296",
        5,
    ),
    ("stream a 1 1\nfill a 0", 2),
    ("stream a 1 1\nncread a 0", 2),
    (
        "stream a 1 1\ncanwrite a 18446744073709551615\nt2 defer a:15 0\ndefer a 1 retry\nt16 post\ncanwrite a",
        6,
    ),
    ("stream a 1 1\ndefer a 1 again", 2),
    ("post 1", 1),
    ("tick\nt16 tick\ntick 1", 3),
    (
        "stream a 1 1\ndiscard a\nt2 discard a:1 5 5\ndiscard a 6 5",
        4,
    ),
    ("scan", 1),
    ("fail isdirty", 1),
    (
        "stream a 1 1\nread a cached 0 1\nt2 read a:15 mapped 18446744073709551615 2097152\n\
         read a pinned 0 0\nread a descriptor 1 1\nread a noncached 0 2097153",
        6,
    ),
    ("stream a 1 1\nread a 0 1", 2),
    ("stream a 1 1\nread a Cached 0 1", 2),
    ("stream a 1 1\nread a cached 0", 2),
    ("stream a 1 1\nread a cached 0 1 nowait", 2),
    (
        "stream a 1 1\nwrite a 0 AB\nt16 update a:1 5 ABCD,00x2\nwrite a 0 -\nupdate a 0",
        5,
    ),
    ("stream a 1 1\nwrite a 0 AB CD", 2),
    ("stream a 1 1\nupdate a 0 ABx2097153", 2),
    ("stream a 1 1\nlevels a:15\nt3 levels a\nlevels a 0", 4),
    ("stream a 1 1\nlevels b", 2),
    ("stream a 1 1\nsettle a:15\nt3 settle a\nsettle a 0", 4),
    ("stream a 1 1\nsettle b", 2),
    (
        "stream a 1 1 stored\nstream b 1 1 quota 8 temporary log 0 stored\nstream c 1 1 stored stored",
        3,
    ),
    ("stream a 1 1 stored log 0", 1),
    ("stream a 1 1 stored temporary", 1),
    ("stream a 1 stored 1", 1),
    (
        "stream a 1 1\nlock a:15 0 18446744073709551615 excl\nt3 lock a 5 5\nunlock a 1\nunlock a:2 18446744073709551615\nlock a 0 1 exclusive",
        6,
    ),
    ("stream a 1 1\nlock a 0", 2),
    ("stream a 1 1\nunlock a", 2),
];

/// Scripts of steps, each with its first wrong line.
const STEPS: [(&str, u32); 41] = [
    (
        "stream a 8192 8192\nfill a 0\nt16 fill a 2251799813685247\nout a 0\nt2 begin a 1\nend a 1\nt3 sync a\nt2 scan\nscan",
        0,
    ),
    ("stream a 1 1\nfill a 2251799813685248", 2),
    ("stream a 1 1\nfill a:0 0", 2),
    ("stream a 1 1\nfill b 0", 2),
    ("stream a 1 1\nsync a 0", 2),
    ("stream a 1 1\nt1 out a 0", 2),
    ("stream a 1 1\nt1 end a 0", 2),
    (
        "stream a 1 1\nncread a:1 0\nncstore a 0 ABx4096\nncwrite a 0\nncstore a 0 ABx4095",
        5,
    ),
    ("stream a 1 1\nncread a 0 1", 2),
    ("stream a 1 1\nncwrite a 0 AB", 2),
    (
        "stream a 1 1\ncanwrite a 18446744073709551615\ndefer a 0\nt2 defer a 0 retry\npost\ndefer a 0 again",
        6,
    ),
    (
        "stream a 1 1\ngranularity a 4096\nattributes a 0 1\nfthreshold a 4294967295\nfthreshold a 4294967296",
        5,
    ),
    ("stream a 1 1\nattributes a 0 2", 2),
    (
        "stream a 1 1\nt2 fail cread a 0 1\nfail pin a 0 1 h\nhread h 0 1\nfail unpin h\nunpin h",
        6,
    ),
    ("fail dirty 0\nfail canwrite a 0", 2),
    ("fail append 0 01", 1),
    ("fail logflush 0 1", 1),
    ("stream a 1 1\nfail fill a 0", 2),
    ("stream a 1 1\nfail defer a 0", 2),
    ("fail scan", 1),
    ("fail post", 1),
    (
        "stream a 1 1\ndiscard a 0 1\nfail discard a\nt3 fail discard a 1 1\nfail discard a 1",
        5,
    ),
    ("fail tick", 1),
    ("fail fail isdirty", 1),
    ("fail t1 isdirty", 1),
    ("fail", 1),
    ("journal 64\nthreshold 1\nfail isdirty\njournal 64", 4),
    ("workers 0 0", 1),
    ("tick", 1),
    ("ahead", 1),
    ("stream a 1 1\nask a 0 1", 2),
    ("stream a 1 1\npin a 0 1 h\nrepin h k\nunrepin k through", 4),
    ("stream a 1 1\nread a cached 0 1", 2),
    ("stream a 1 1\nwrite a 0 AB", 2),
    ("stream a 1 1\nupdate a 0 AB", 2),
    ("stream a 1 1\nlevels a", 2),
    ("stream a 1 1\nsettle a", 2),
    ("stream a 1 1 stored", 1),
    ("stream a 1 1\nlock a 0 1", 2),
    ("stream a 1 1\nunlock a 1", 2),
    ("stream a 1 1\nfail read a cached 0 1", 2),
];

/// Whether a script is read up to this line.
fn reads(alloc: Global, mode: Mode, text: &str, line: u32) -> bool {
    wrong_line(read_script(alloc, text.as_bytes(), mode)) == Some(line)
}

/// The first of these scripts that has another wrong line.
fn mistaken<'a>(alloc: Global, mode: Mode, rows: &[(&'a str, u32)]) -> Option<&'a str> {
    for &(text, line) in rows {
        if !reads(alloc, mode, text, line) {
            return Some(text);
        }
    }
    None
}

#[test]
fn takes_the_lines_of_the_grammar(rt: HostRuntime) {
    assert_eq!(rt; mistaken(rt.alloc(), Mode::Run, &SCRIPTS), None);
    assert_eq!(rt; mistaken(rt.alloc(), Mode::Steps, &STEPS), None);
    let phases = "stream a 1 1\nphase\nstate a";
    assert!(rt; reads(rt.alloc(), Mode::Run, phases, 0));
    assert!(rt; reads(rt.alloc(), Mode::Steps, phases, 2));
    let actions =
        "stream a 1 1 log 0\nsetlog a 1\nappend 1 AB\nlogflush 1 1\nstate a\nflush a\nisdirty";
    assert!(rt; reads(rt.alloc(), Mode::Steps, actions, 0));
}
