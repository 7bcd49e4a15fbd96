//! Pictures, and faulty ones.

use crate::checks::assert_equal_for;
use record_layout::{LayoutFault, Picture, one_picture};

// A picture, whether it is numeric, and the length of its items.
const PICTURES: [(&str, bool, u16); 7] = [
    ("X(2)xX", false, 4),
    ("X", false, 1),
    ("X(4000)", false, 4000),
    ("x(004)", false, 4),
    ("999", true, 3),
    ("9(18)", true, 18),
    ("9(9)9(9)", true, 18),
];

const FAULTY: [(&str, LayoutFault); 13] = [
    ("9(19)", LayoutFault::BadPicture),
    ("9(9)9(9)9", LayoutFault::BadPicture),
    ("X(4001)", LayoutFault::TooLong),
    ("X(99999999999999999999)", LayoutFault::TooLong),
    ("", LayoutFault::BadPicture),
    ("X9", LayoutFault::BadPicture),
    ("9X", LayoutFault::BadPicture),
    ("X(0)", LayoutFault::BadPicture),
    ("X(2", LayoutFault::BadPicture),
    ("X()", LayoutFault::BadPicture),
    ("X(2)(3)", LayoutFault::BadPicture),
    ("(3)", LayoutFault::BadPicture),
    ("A(3)", LayoutFault::BadPicture),
];

// PICTURE clause: the symbols X and 9; 1 to 18 digits.
#[test]
fn a_picture_is_of_x_or_of_9(rt: HostRuntime) {
    one_picture();
    for &(picture, numeric, length) in &PICTURES {
        let expected = Ok(Picture { numeric, length });
        assert_equal_for(&rt, picture, Picture::parse(picture.as_bytes()), expected);
    }
    for &(picture, fault) in &FAULTY {
        assert_equal_for(&rt, picture, Picture::parse(picture.as_bytes()), Err(fault));
    }
}
