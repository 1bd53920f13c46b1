//! Numbers: the units of both alphabets, zigzag forms, four numbers at once, a piece that gathers
//! bytes, the ends of the numbers in a block, and numbers on both sides of each length's threshold.
//! Other vectors of numbers are those of the program `vector_runner`.
ghost use Rattle.std.specs.Prelude.{◌<◌, ◌^◌};

use twkb_num::{
    Five, Four, Groups, Leb128, Piece, VarintLens, character_ends, four_at, varint_ends, zigzag,
};

// Whether this is the unit of a group that says that more follow, both ways, and the alphabet has
// groups of this many bits and spellings of at most this many units.
fn is_unit<G: Groups>(group: u8, unit: u8, bits: u32, units: usize) -> bool
    requires { group < 2 ^ G.BITS }
{
    let is_spelled = G::to_unit(group, true) == unit;
    let is_read = G::from_unit(unit) == Some((group, true));
    is_spelled & is_read & (G::BITS == bits) & (G::MAX_LEN == units)
}

#[test]
fn units_and_sizes_of_both_alphabets(rt: HostRuntime) {
    assert!(rt; is_unit::<Leb128>(44, 0xac, 7, 10) & is_unit::<Five>(31, b'~', 5, 13));
}

/// The differences from point to point of Google's worked example, longitude before latitude, as
/// varints of zigzag forms.
pub const STEPS: &[u8] =
    b"\xBF\xA4\xBB\x0B\xA0\xFC\xD5\x03\xEF\x93\x09\xC0\xED\x1A\xB7\x96\x43\xC0\x93\x1F";

// The numbers 1, 1, 4 and 4 as characters, four times.
const TEXT: &[u8] = b"AAGGAAGGAAGGAAGG";

// Whether these numbers were found, in `used` bytes.
fn are_in_front(found: Option<Four>, numbers: [i64; 4], used: usize) -> bool {
    let [first, second, third, fourth] = numbers;
    let four = Four {
        first,
        second,
        third,
        fourth,
        used,
    };
    found == Some(four)
}

#[test]
fn four_numbers_stand_in_front(rt: HostRuntime) {
    let are_steps = are_in_front(
        four_at::<Leb128>(STEPS, 0),
        [-12020000, 3850000, -75000, 220000],
        14,
    );
    let are_first = are_in_front(four_at::<Five>(TEXT, 0), [1, 1, 4, 4], 4);
    let are_later = are_in_front(four_at::<Five>(TEXT, 8), [1, 1, 4, 4], 4);
    let are_few = four_at::<Leb128>(b"\x02\x02\x08\x08", 0).is_none();
    assert!(rt; are_steps & are_first & are_later & are_few);
}

// The table of the Protocol Buffers documentation, to which the TWKB specification refers for zigzag.
#[test]
fn numbers_have_their_zigzag_forms(rt: HostRuntime) {
    let are_near = (zigzag(0) == 0) & (zigzag(-1) == 1) & (zigzag(1) == 2) & (zigzag(-2) == 3);
    let are_far = (zigzag(2147483647) == 4294967294) & (zigzag(-2147483648) == 4294967295);
    assert!(rt; are_near & are_far);
}

// A word of two bytes, two bytes of three, and other bytes after a first one.
#[test]
fn a_piece_gathers_bytes(rt: HostRuntime) {
    let mut piece = Piece::<128>::new();
    piece.push(b'1');
    piece.push_low(0x3332, 2);
    piece.push_prefix(b"45 ", 2);
    piece.push_all(b"678");
    let wanted: &[u8] = b"12345678";
    let is_gathered = piece.as_slice() == wanted;
    let has_room = piece.has_room(120) & !piece.has_room(121);
    piece.clear();
    assert!(rt; is_gathered & has_room & piece.as_slice().is_empty());
}

// The ends of 63 numbers of a unit each.
const ALL_ENDS: u64 = (1 << 63) - 1;

// The ends of twenty.
const TWENTY: u64 = (1 << 20) - 1;

// Whether a block of ones has all ends, and one byte fewer none; and one with a padded number after
// twenty has those twenty.
fn bytes_have_ends() -> bool {
    let mut padded = [1; 64];
    padded[20] = 0x81;
    padded[21] = 0;
    let are_all = (varint_ends(&[1; 64]) == ALL_ENDS) & (varint_ends(&[1; 63]) == 0);
    are_all & (varint_ends(&padded) == TWENTY)
}

// The same of characters, and of one outside the alphabet.
fn characters_have_ends() -> bool {
    let mut padded = [b'A'; 64];
    padded[20] = b'_';
    padded[21] = b'?';
    let mut outside = [b'A'; 64];
    outside[20] = b' ';
    let are_all = (character_ends(&[b'A'; 64]) == ALL_ENDS) & (character_ends(&[b'A'; 63]) == 0);
    are_all & (character_ends(&padded) == TWENTY) & (character_ends(&outside) == TWENTY)
}

#[test]
fn a_block_has_the_ends_of_its_numbers(rt: HostRuntime) {
    assert!(rt; bytes_have_ends() & characters_have_ends());
}

// ---- numbers on both sides of each length's threshold, written four at a time. The bytes and
// characters were worked out by hand, from LEB128 and the Encoded Polyline Algorithm Format.

// Whether four numbers are these varints, and have this total length.
fn are_varints(numbers: [u64; 4], bytes: &[u8]) -> bool {
    let [first, second, third, fourth] = numbers;
    let mut piece = Piece::<64>::new();
    piece.push_four_varints(first, second, third, fourth);
    let mut lens = VarintLens::from(5);
    lens.add_four(first, second, third, fourth);
    (piece.as_slice() == bytes) & (lens.total() as usize == bytes.len() + 5)
}

#[test]
fn four_varints_are_written_and_measured(rt: HostRuntime) {
    let one_and_two = are_varints([0, 127, 128, 16383], b"\x00\x7F\x80\x01\xFF\x7F");
    let two_and_one = are_varints([16383, 128, 127, 0], b"\xFF\x7F\x80\x01\x7F\x00");
    let three = are_varints(
        [16384, 2097151, 1, 16384],
        b"\x80\x80\x01\xFF\xFF\x7F\x01\x80\x80\x01",
    );
    let four = are_varints(
        [2097152, 268435455, 268435455, 2097152],
        b"\x80\x80\x80\x01\xFF\xFF\xFF\x7F\xFF\xFF\xFF\x7F\x80\x80\x80\x01",
    );
    assert!(rt; one_and_two & two_and_one & three & four);
}

// 2^28 has five bytes, and 2^64 - 1 ten.
#[test]
fn longer_varints_are_written_one_by_one(rt: HostRuntime) {
    let five = are_varints([268435456, 1, 127, 0], b"\x80\x80\x80\x80\x01\x01\x7F\x00");
    let ten = are_varints(
        [1, 0, 128, u64::MAX],
        b"\x01\x00\x80\x01\xFF\xFF\xFF\xFF\xFF\xFF\xFF\xFF\xFF\x01",
    );
    assert!(rt; five & ten);
}

// Whether four numbers, of at most four characters each, are these characters.
fn are_characters(first: u32, second: u32, third: u32, fourth: u32, text: &[u8]) -> bool
    requires first_small { first < 2 ^ 20 }
    requires second_small { second < 2 ^ 20 }
    requires third_small { third < 2 ^ 20 }
    requires fourth_small { fourth < 2 ^ 20 }
{
    let mut piece = Piece::<16>::new();
    piece.push_four_characters(first, second, third, fourth);
    piece.as_slice() == text
}

#[test]
fn four_numbers_are_written_as_characters(rt: HostRuntime) {
    let one_and_two = are_characters(0, 31, 32, 1023, b"?^_@~^");
    let two_and_one = are_characters(1023, 32, 31, 0, b"~^_@^?");
    let three = are_characters(1024, 32767, 0, 1024, b"__@~~^?__@");
    let four = are_characters(32768, 1048575, 1048575, 32768, b"___@~~~^~~~^___@");
    assert!(rt; one_and_two & two_and_one & three & four);
}
