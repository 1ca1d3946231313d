//! The words that lines are made of: names, files, pages, numbers that may be absent, bytes.

ghost use Rattle.std.specs.Prelude.{◌≡◌, ◌≤◌, ◌+◌, ◌*◌, ◌++◌, OnOk, IsAscii, codes, decimal, string_bytes, length, map, take};
ghost use Rattle.cc_entry.specs.Runs.{byte_alone};
ghost use Rattle.cc_print.specs.Words.{name_at, file_text, of_file, of_file_number, page_text, word_if, number_if, number_or_dash, span_if, request_text, hex_pair, run_text, more_runs, bytes_text};

use cc_entry::{Bytes, FileId, Lsn, PageId, Request, Run, Runs, Span, StreamId};
use cc_script::StreamLine;
use std::alloc::AllocError;
use std::str::from_utf8_unchecked;

/// The name of a stream, empty where the script has no such stream.
pub(crate) fn name_of(streams: &[StreamLine], stream: StreamId) -> &str
    ensures { result.now ≡ name_at streams.now stream }
{
    match streams.get(usize::from(stream.number())) {
        Some(line) => line.name.as_str(),
        None => "",
    }
}

/// A file object as its stream's name and its number.
pub(crate) fn push_file(
    text: &mut String,
    streams: &[StreamLine],
    file: FileId,
) -> Result<(), AllocError>
    ensures { OnOk result
        (string_bytes text.new ≡ string_bytes text.old ++ file_text streams.now file) }
{
    let name = name_of(streams, file.stream());
    let object = file.object();
    write!(text, "{name}:{object}")
}

/// A verb and a file object.
pub(crate) fn push_verb(
    text: &mut String,
    verb: &str,
    streams: &[StreamLine],
    file: FileId,
) -> Result<(), AllocError>
    ensures { OnOk result
        (string_bytes text.new ≡ string_bytes text.old ++ (verb.now ++ (codes " " ++ file_text streams.now file))) }
{
    text.push_str(verb)?;
    text.push_str(" ")?;
    push_file(text, streams, file)
}

/// A verb and a file object, with what stands behind them.
pub(crate) fn push_of_file(
    text: &mut String,
    verb: &str,
    streams: &[StreamLine],
    file: FileId,
    behind: &str,
) -> Result<(), AllocError>
    ensures { OnOk result
        (string_bytes text.new ≡ string_bytes text.old ++ of_file verb.now streams.now file behind.now) }
{
    push_verb(text, verb, streams, file)?;
    text.push_str(behind)
}

/// A verb, a file object and a number.
pub(crate) fn push_of_file_number(
    text: &mut String,
    verb: &str,
    streams: &[StreamLine],
    file: FileId,
    number: u64,
) -> Result<(), AllocError>
    ensures { OnOk result
        (string_bytes text.new ≡ string_bytes text.old ++ of_file_number verb.now streams.now file number) }
{
    push_verb(text, verb, streams, file)?;
    write!(text, " {number}")
}

/// A page as its stream's name and its number.
pub(crate) fn push_page(
    text: &mut String,
    streams: &[StreamLine],
    page: PageId,
) -> Result<(), AllocError>
    ensures { OnOk result
        (string_bytes text.new ≡ string_bytes text.old ++ page_text streams.now page) }
{
    let name = name_of(streams, page.stream());
    let page = page.page();
    write!(text, "{name} {page}")
}

/// A word that stands only where a flag is set.
pub(crate) fn word_if(is_set: bool, word: &str) -> &str
    ensures { result.now ≡ word_if is_set word.now }
{
    if is_set { word } else { "" }
}

/// A number behind a space, or nothing.
pub(crate) fn push_number_if(text: &mut String, number: Option<u64>) -> Result<(), AllocError>
    ensures { OnOk result (string_bytes text.new ≡ string_bytes text.old ++ number_if number) }
{
    match number {
        Some(n) => write!(text, " {n}"),
        None => Ok(()),
    }
}

/// A number, as that of a log or an LSN; `-` where there is none.
pub(crate) fn push_number_or_dash(text: &mut String, number: Option<u64>) -> Result<(), AllocError>
    ensures { OnOk result (string_bytes text.new ≡ string_bytes text.old ++ number_or_dash number) }
{
    match number {
        Some(n) => write!(text, "{n}"),
        None => text.push_str("-"),
    }
}

/// The number of an LSN, where there is one.
pub(crate) fn lsn_number(lsn: Option<Lsn>) -> Option<u64>
    ensures { result ≡ lsn }
{
    match lsn {
        Some(lsn) => Some(lsn.number()),
        None => None,
    }
}

/// The ends of a span, each behind a space, or nothing.
pub(crate) fn push_span_if(text: &mut String, span: Option<Span>) -> Result<(), AllocError>
    ensures { OnOk result (string_bytes text.new ≡ string_bytes text.old ++ span_if span) }
{
    match span {
        Some(span) => {
            let from = span.from();
            let to = span.to();
            write!(text, " {from} {to}")
        }
        None => Ok(()),
    }
}

/// A read-ahead request: its file, place and length.
pub(crate) fn push_request(
    text: &mut String,
    streams: &[StreamLine],
    request: Request,
) -> Result<(), AllocError>
    ensures { OnOk result
        (string_bytes text.new ≡ string_bytes text.old ++ request_text streams.now request) }
{
    let at = request.at;
    let len = request.len;
    text.push_str("ahead ")?;
    push_file(text, streams, request.file)?;
    write!(text, " {at} {len}")
}

/// How many bytes that stand alone are printed at once.
const FEW: usize = 128;

/// The digits of each byte.
static PAIRS: [[u8; 2]; 256] = [
    *b"00", *b"01", *b"02", *b"03", *b"04", *b"05", *b"06", *b"07", *b"08", *b"09", *b"0A", *b"0B",
    *b"0C", *b"0D", *b"0E", *b"0F", *b"10", *b"11", *b"12", *b"13", *b"14", *b"15", *b"16", *b"17",
    *b"18", *b"19", *b"1A", *b"1B", *b"1C", *b"1D", *b"1E", *b"1F", *b"20", *b"21", *b"22", *b"23",
    *b"24", *b"25", *b"26", *b"27", *b"28", *b"29", *b"2A", *b"2B", *b"2C", *b"2D", *b"2E", *b"2F",
    *b"30", *b"31", *b"32", *b"33", *b"34", *b"35", *b"36", *b"37", *b"38", *b"39", *b"3A", *b"3B",
    *b"3C", *b"3D", *b"3E", *b"3F", *b"40", *b"41", *b"42", *b"43", *b"44", *b"45", *b"46", *b"47",
    *b"48", *b"49", *b"4A", *b"4B", *b"4C", *b"4D", *b"4E", *b"4F", *b"50", *b"51", *b"52", *b"53",
    *b"54", *b"55", *b"56", *b"57", *b"58", *b"59", *b"5A", *b"5B", *b"5C", *b"5D", *b"5E", *b"5F",
    *b"60", *b"61", *b"62", *b"63", *b"64", *b"65", *b"66", *b"67", *b"68", *b"69", *b"6A", *b"6B",
    *b"6C", *b"6D", *b"6E", *b"6F", *b"70", *b"71", *b"72", *b"73", *b"74", *b"75", *b"76", *b"77",
    *b"78", *b"79", *b"7A", *b"7B", *b"7C", *b"7D", *b"7E", *b"7F", *b"80", *b"81", *b"82", *b"83",
    *b"84", *b"85", *b"86", *b"87", *b"88", *b"89", *b"8A", *b"8B", *b"8C", *b"8D", *b"8E", *b"8F",
    *b"90", *b"91", *b"92", *b"93", *b"94", *b"95", *b"96", *b"97", *b"98", *b"99", *b"9A", *b"9B",
    *b"9C", *b"9D", *b"9E", *b"9F", *b"A0", *b"A1", *b"A2", *b"A3", *b"A4", *b"A5", *b"A6", *b"A7",
    *b"A8", *b"A9", *b"AA", *b"AB", *b"AC", *b"AD", *b"AE", *b"AF", *b"B0", *b"B1", *b"B2", *b"B3",
    *b"B4", *b"B5", *b"B6", *b"B7", *b"B8", *b"B9", *b"BA", *b"BB", *b"BC", *b"BD", *b"BE", *b"BF",
    *b"C0", *b"C1", *b"C2", *b"C3", *b"C4", *b"C5", *b"C6", *b"C7", *b"C8", *b"C9", *b"CA", *b"CB",
    *b"CC", *b"CD", *b"CE", *b"CF", *b"D0", *b"D1", *b"D2", *b"D3", *b"D4", *b"D5", *b"D6", *b"D7",
    *b"D8", *b"D9", *b"DA", *b"DB", *b"DC", *b"DD", *b"DE", *b"DF", *b"E0", *b"E1", *b"E2", *b"E3",
    *b"E4", *b"E5", *b"E6", *b"E7", *b"E8", *b"E9", *b"EA", *b"EB", *b"EC", *b"ED", *b"EE", *b"EF",
    *b"F0", *b"F1", *b"F2", *b"F3", *b"F4", *b"F5", *b"F6", *b"F7", *b"F8", *b"F9", *b"FA", *b"FB",
    *b"FC", *b"FD", *b"FE", *b"FF",
];

/// The two digits of a byte.
fn pair_of(byte: u8) -> [u8; 2]
    ensures digits { result ≡ hex_pair byte }
    ensures ascii { IsAscii result }
{
    PAIRS[usize::from(byte)]
}

fn push_pair(text: &mut String, byte: u8) -> Result<(), AllocError>
    ensures { OnOk result (string_bytes text.new ≡ string_bytes text.old ++ hex_pair byte) }
{
    let pair = pair_of(byte);
    text.push_str(unsafe { from_utf8_unchecked(&pair) })
}

// Apart from `push_run`, which most bytes go through without it.
#[inline(never)]
fn push_count(text: &mut String, count: u64) -> Result<(), AllocError>
    ensures { OnOk result (string_bytes text.new ≡ string_bytes text.old ++ (codes "x" ++ decimal count)) }
{
    write!(text, "x{count}")
}

fn push_run(text: &mut String, run: Run) -> Result<(), AllocError>
    ensures { OnOk result (string_bytes text.new ≡ string_bytes text.old ++ run_text run) }
{
    push_pair(text, run.byte)?;
    if run.count != 1 {
        push_count(text, run.count)?;
    }
    Ok(())
}

// Writes a comma and the digits of a byte at a place.
fn put_digits(out: &mut [u8], at: usize, byte: u8)
    requires { at + 3 ≤ length out.old }
    ensures front { take (at + 3) out.new ≡ take at out.old ++ (codes "," ++ hex_pair byte) }
    ensures len { length out.new ≡ length out.old }
{
    let pair = pair_of(byte);
    out[at] = b',';
    out[at + 1..at + 3].copy_from_slice(&pair);
}

// Writes the digits of bytes into the front of a slice, each byte behind a comma. Says where they end.
fn put_each(out: &mut [u8], bytes: &[u8]) -> usize
    requires { 3 * length bytes.now ≤ length out.old }
    ensures end { result ≡ 3 * length bytes.now }
    ensures len { length out.new ≡ length out.old }
    ensures front { take result out.new ≡ more_runs (map byte_alone bytes.now) }
{
    let mut end = 0;
    for &byte in bytes {
        put_digits(out, end, byte);
        end += 3;
    }
    end
}

// A few bytes, each behind a comma.
fn push_few(text: &mut String, bytes: &[u8]) -> Result<(), AllocError>
    requires { length bytes.now ≤ 128 }
    ensures { OnOk result
        (string_bytes text.new ≡ string_bytes text.old ++ more_runs (map byte_alone bytes.now)) }
{
    let mut digits = [0; 3 * FEW];
    let end = put_each(&mut digits, bytes);
    text.push_str(unsafe { from_utf8_unchecked(&digits[..end]) })
}

// Bytes, each behind a comma.
fn push_each(text: &mut String, bytes: &[u8]) -> Result<(), AllocError>
    ensures { OnOk result
        (string_bytes text.new ≡ string_bytes text.old ++ more_runs (map byte_alone bytes.now)) }
{
    let mut left = bytes;
    while !left.is_empty() {
        let (few, behind) = left.split_at(left.len().min(FEW));
        push_few(text, few)?;
        left = behind;
    }
    Ok(())
}

fn push_more(text: &mut String, mut runs: Runs) -> Result<(), AllocError>
    ensures { OnOk result (string_bytes text.new ≡ string_bytes text.old ++ more_runs runs.entry) }
{
    loop {
        push_each(text, runs.skip_alone())?;
        match runs.next() {
            Some(run) => {
                text.push(',')?;
                push_run(text, run)?;
            }
            None => return Ok(()),
        }
    }
}

/// Bytes as their longest runs, parted by commas.
pub(crate) fn push_bytes(text: &mut String, bytes: &Bytes) -> Result<(), AllocError>
    ensures { OnOk result (string_bytes text.new ≡ string_bytes text.old ++ bytes_text bytes.now) }
{
    let mut runs = bytes.runs();
    match runs.next() {
        Some(first) => {
            push_run(text, first)?;
            push_more(text, runs)
        }
        None => text.push_str("-"),
    }
}
