// The examples of RFC 3629, section 7, what its table leaves out, and the table's edges.
use crate::character::length_at;
use crate::first_byte::length;
use crate::text::{count, count_basic, locate};

#[test]
fn examples_are_counted(rt: HostRuntime) {
    assert_eq!(rt; count(&[0x41, 0xE2, 0x89, 0xA2, 0xCE, 0x91, 0x2E]), Ok(4));
    assert_eq!(rt;
        count(&[0xED, 0x95, 0x9C, 0xEA, 0xB5, 0xAD, 0xEC, 0x96, 0xB4]),
        Ok(3)
    );
    assert_eq!(rt;
        count(&[0xE6, 0x97, 0xA5, 0xE6, 0x9C, 0xAC, 0xE8, 0xAA, 0x9E]),
        Ok(3)
    );
    assert_eq!(rt; count(&[0xEF, 0xBB, 0xBF, 0xF0, 0xA3, 0x8E, 0xB4]), Ok(2));
    assert_eq!(rt; count(&[]), Ok(0));
}

#[test]
fn wrong_bytes_are_told(rt: HostRuntime) {
    assert_eq!(rt; count(&[0x41, 0xC0, 0x80]), Err(1), "U+0000 in two bytes");
    assert_eq!(rt; count(&[0xED, 0xA0, 0x80]), Err(1), "a surrogate");
    assert_eq!(rt; count(&[0xF4, 0x90, 0x80, 0x80]), Err(1), "past U+10FFFF");
    assert_eq!(rt; count(&[0x41, 0x42, 0xF5]), Err(2));
    assert_eq!(rt; count(&[0x80]), Err(0));
    assert_eq!(rt; count(&[0x41, 0xE2, 0x89]), Err(3), "cut short");
}

#[test]
fn basic_texts_have_no_fourth_byte(rt: HostRuntime) {
    assert_eq!(rt;
        count_basic(&[0x41, 0xE2, 0x89, 0xA2, 0xCE, 0x91, 0x2E]),
        Ok(4)
    );
    assert_eq!(rt;
        count_basic(&[0xEF, 0xBB, 0xBF, 0xF0, 0xA3, 0x8E, 0xB4]),
        Err(3)
    );
    assert_eq!(rt; count_basic(&[0xEF, 0xBF]), Err(2));
}

#[test]
fn characters_are_measured_and_located(rt: HostRuntime) {
    let text = [0x41, 0xE2, 0x89, 0xA2, 0xCE, 0x91, 0x2E];
    assert_eq!(rt; length_at(&text, 1), Ok(3));
    assert_eq!(rt; length_at(&text, 2), Err(2));
    assert_eq!(rt; length_at(&text, 9), Err(7));
    assert_eq!(rt; locate(&text, 2), Some((4, 2)));
    assert_eq!(rt; locate(&text, 3), Some((6, 1)));
    assert_eq!(rt; locate(&text, 4), None);
    assert_eq!(rt; locate(&[0x41, 0x42, 0xFF], 1), Some((1, 1)));
}

#[test]
fn first_bytes_at_the_edges(rt: HostRuntime) {
    for (first, expected) in [
        (0x00, Some(1)),
        (0x7F, Some(1)),
        (0x80, None),
        (0xC1, None),
        (0xC2, Some(2)),
        (0xDF, Some(2)),
        (0xE0, Some(3)),
        (0xE1, Some(3)),
        (0xEC, Some(3)),
        (0xED, Some(3)),
        (0xEE, Some(3)),
        (0xEF, Some(3)),
        (0xF0, Some(4)),
        (0xF1, Some(4)),
        (0xF3, Some(4)),
        (0xF4, Some(4)),
        (0xF5, None),
        (0xFF, None),
    ] {
        assert_eq!(rt; length(first), expected);
    }
}
