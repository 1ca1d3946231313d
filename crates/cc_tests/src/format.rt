//! Tests of the record page of a stream.

use cc_format::{StreamRecord, read_record, write_record};
use std::test::Fail;

// What the record pages of size 8192 begin with: of the first version, and of the second with a valid data length of 5001.
const FIRST: [u8; 24] = *b"NTCS\x01\0\0\0\0\x20\0\0\0\0\0\0\0\0\0\0\0\0\0\0";

const SECOND: [u8; 24] = *b"NTCS\x02\0\0\0\0\x20\0\0\0\0\0\0\x89\x13\0\0\0\0\0\0";

// The page that begins so.
fn page_of(head: &[u8; 24]) -> [u8; 4096] {
    let mut page = [0; 4096];
    page[..24].copy_from_slice(head);
    page
}

// The number that the bytes are, the least first.
fn number_of(bytes: &[u8]) -> u64 {
    let mut number = 0u64;
    for byte in bytes.iter().rev() {
        number = number.wrapping_mul(256).wrapping_add(u64::from(*byte));
    }
    number
}

// What a page says that begins so, by the table of the format.
fn expected(head: &[u8; 24]) -> Option<StreamRecord> {
    let size = number_of(&head[8..16]);
    let valid = number_of(&head[16..24]);
    if head[..4] != b"NTCS"[..] || number_of(&head[5..8]) != 0 || size >= 1 << 63 {
        return None;
    }
    match head[4] {
        1 if valid == 0 => Some(StreamRecord::V1 { size }),
        2 if valid <= size => Some(StreamRecord::V2 { size, valid }),
        _ => None,
    }
}

#[test]
fn a_record_is_spelled_and_read(rt: HostRuntime) -> Result<(), Fail> {
    let mut page = [0xFF; 4096];
    write_record(StreamRecord::V1 { size: 8192 }, &mut page);
    assert!(rt; page == page_of(&FIRST));
    assert_eq!(rt; read_record(&page), Some(StreamRecord::V1 { size: 8192 }));
    let second = StreamRecord::V2 {
        size: 8192,
        valid: 5001,
    };
    write_record(second, &mut page);
    assert!(rt; page == page_of(&SECOND));
    assert_eq!(rt; read_record(&page), Some(second));
    Ok(())
}

#[test]
fn each_byte_of_a_record_counts(rt: HostRuntime) -> Result<(), Fail> {
    for head in [FIRST, SECOND] {
        for place in 0..24 {
            for value in 0..=255 {
                let mut other = head;
                other[place] = value;
                assert_eq!(rt; read_record(&page_of(&other)), expected(&other));
            }
        }
        let mut page = page_of(&head);
        for place in 24..4096 {
            page[place] = 1;
            assert_eq!(rt; read_record(&page), None);
            page[place] = 0;
        }
    }
    Ok(())
}

#[test]
fn numbers_out_of_range_are_no_record(rt: HostRuntime) -> Result<(), Fail> {
    let size = *b"NTCS\x02\0\0\0\0\0\0\0\0\0\0\x80\0\0\0\0\0\0\0\0";
    let past = *b"NTCS\x02\0\0\0\0\x20\0\0\0\0\0\0\x01\x20\0\0\0\0\0\0";
    let first = *b"NTCS\x01\0\0\0\0\x20\0\0\0\0\0\0\x01\0\0\0\0\0\0\0";
    let zeroth = *b"NTCS\0\0\0\0\0\x20\0\0\0\0\0\0\0\0\0\0\0\0\0\0";
    let third = *b"NTCS\x03\0\0\0\0\x20\0\0\0\0\0\0\0\0\0\0\0\0\0\0";
    let none = [0; 24];
    for head in [size, past, first, zeroth, third, none] {
        assert_eq!(rt; read_record(&page_of(&head)), None);
    }
    let most = StreamRecord::V2 {
        size: (1 << 63) - 1,
        valid: (1 << 63) - 1,
    };
    let mut page = [0; 4096];
    write_record(most, &mut page);
    assert_eq!(rt; read_record(&page), Some(most));
    Ok(())
}
