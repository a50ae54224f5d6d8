//! Fields written and read.
ghost use Rattle.bit_streams.specs.Header.{IsPlain};

use super::{check, ok};
use bit_addressing::{Lsb0, Msb0};
use bit_containers::BitVec;
use bit_slice::{BitList, BitSlice};
use bit_streams::{
    BitReader, BitWriter, Fields, Header, HeaderFault, ItemsError, ListFault, Number, Signed,
    TaggedFault, read_items, write_items,
};
use std::process::Abort;

#[test]
fn fields_there_and_back(rt: HostRuntime) {
    let record = (
        Number::<3> { value: 5 },
        (
            Signed::<9> { value: -200 },
            (true, Some(Number::<40> { value: 1 << 39 })),
        ),
    );
    let mut writer = BitWriter::<u8, Msb0>::new(rt.alloc());
    ok(&rt, record.write(&mut writer));
    check(&rt, writer.len() == 54);
    let bits = ok(&rt, writer.finish());
    let mut reader = BitReader::new(bits.as_bitslice());
    let back = <(Number<3>, (Signed<9>, (bool, Option<Number<40>>)))>::read(&mut reader);
    check(&rt, back == Some(record));
    check(&rt, reader.remaining() == 0);
}

#[test]
fn nothing_is_read_of_half_a_record(rt: HostRuntime) {
    let mut writer = BitWriter::<u32, Lsb0>::new(rt.alloc());
    ok(&rt, writer.write(11, 99));
    let bits = ok(&rt, writer.finish());
    let mut reader = BitReader::new(bits.as_bitslice());
    check(&rt, <(Number<8>, Number<8>)>::read(&mut reader).is_none());
    check(&rt, reader.position() == 0);
    check(&rt, <Option<Number<40>>>::read(&mut reader) == Some(None));
}

// The header of a packet of 1500 bytes.
fn header() -> Header
    ensures { IsPlain result }
{
    Header {
        version: 4,
        header_words: 5,
        service: 46,
        congestion: 1,
        total_length: 1500,
        identification: 0xbeef,
        flags: 2,
        fragment_offset: 0,
        time_to_live: 64,
        protocol: 6,
        checksum: 0x1234,
        source: 0xc0a8_0001,
        destination: 0x0808_0808,
    }
}

#[test]
fn a_header_there_and_back(rt: HostRuntime) {
    let mut writer = BitWriter::<u8, Msb0>::new(rt.alloc());
    ok(&rt, header().write(&mut writer));
    let bits = ok(&rt, writer.finish());
    check(&rt, bits.len() == 160);
    let mut reader = BitReader::new(bits.as_bitslice());
    check(&rt, Header::read_checked(&mut reader) == Ok(header()));
    let bytes = bits.into_vec();
    let expected = [
        0x45, 0xb9, 0x05, 0xdc, 0xbe, 0xef, 0x40, 0x00, 0x40, 0x06, 0x12, 0x34, 0xc0, 0xa8, 0x00,
        0x01, 0x08, 0x08, 0x08, 0x08,
    ];
    check(&rt, bytes.as_slice() == expected.as_slice());
}

#[test]
fn reserved_values_have_names(rt: HostRuntime) {
    let bytes = [0x65u8; 20];
    let mut reader = BitReader::new(BitSlice::<u8, Msb0>::from_slice(&bytes));
    check(
        &rt,
        Header::read_checked(&mut reader) == Err(HeaderFault::Version),
    );
    let bytes = [0x46u8; 20];
    let mut reader = BitReader::new(BitSlice::<u8, Msb0>::from_slice(&bytes));
    check(
        &rt,
        Header::read_checked(&mut reader) == Err(HeaderFault::Options),
    );
    let mut bytes = [0x45u8; 20];
    bytes[6] = 0x80;
    let mut reader = BitReader::new(BitSlice::<u8, Msb0>::from_slice(&bytes));
    check(
        &rt,
        Header::read_checked(&mut reader) == Err(HeaderFault::ReservedFlag),
    );
    check(&rt, Header::read(&mut reader).is_none());
    let mut reader = BitReader::new(BitSlice::<u8, Msb0>::from_slice(&bytes[..19]));
    check(
        &rt,
        Header::read_checked(&mut reader) == Err(HeaderFault::Ended),
    );
    check(&rt, reader.position() == 0);
}

// The text "hi!" with the tag 7, and the tag 0, which is reserved.
fn greeting(rt: &(impl Abort + AllocGlobal)) -> BitVec<u8, Msb0> {
    let text = [0x68u8, 0x69, 0x21];
    let mut writer = BitWriter::<u8, Msb0>::new(rt.alloc());
    ok(
        rt,
        writer.write_tagged(7, BitSlice::<u8, Msb0>::from_slice(&text)),
    );
    ok(rt, writer.write(8, 0));
    ok(rt, writer.finish())
}

#[test]
fn tagged_values_are_views(rt: HostRuntime) {
    let text = [0x68_u8, 0x69, 0x21];
    let value = BitSlice::<u8, Msb0>::from_slice(&text);
    let bits = greeting(&rt);
    check(&rt, bits.len() == 56);
    let mut reader = BitReader::new(bits.as_bitslice());
    match reader.read_tagged() {
        Ok(it) => {
            check(&rt, it.tag == 7);
            check(&rt, it.value.len() == 24);
            check(&rt, it.value.starts_with(value));
        }
        Err(_) => check(&rt, false),
    }
    check(&rt, reader.position() == 48);
}

#[test]
fn a_reserved_tag_is_refused(rt: HostRuntime) {
    let mut reader = BitReader::new(BitSlice::<u8, Msb0>::from_slice(&[0]));
    match reader.read_tagged() {
        Ok(_) => check(&rt, false),
        Err(why) => check(&rt, why == TaggedFault::ReservedTag),
    }
    check(&rt, reader.position() == 0);
}

#[test]
fn tagged_values_cut_off(rt: HostRuntime) {
    let bits = greeting(&rt);
    for cut in 8..bits.len().min(48) {
        let mut reader = BitReader::new(bits.as_bitslice().get_range(..cut));
        match reader.read_tagged() {
            Ok(_) => check(&rt, false),
            Err(why) => check(&rt, why == TaggedFault::Ended),
        }
        check(&rt, reader.position() == 0);
    }
}

#[test]
fn lists_with_their_length(rt: HostRuntime) {
    let words = [0xff00_ff01u32, 9];
    let list = BitSlice::<u32, Lsb0>::from_slice(&words).get_range(3..40);
    let mut writer = BitWriter::<u8, Msb0>::new(rt.alloc());
    ok(&rt, writer.write_list(list));
    let bits = ok(&rt, writer.finish());
    check(&rt, bits.len() == 64 + 40);
    let mut reader = BitReader::new(bits.as_bitslice());
    match reader.read_list() {
        Ok(read) => check(&rt, read.len() == 37 && read.starts_with(list)),
        Err(_) => check(&rt, false),
    }
    check(&rt, reader.remaining() == 0);
}

// A list of five bits whose byte is filled up with ones.
#[test]
fn a_list_filled_up_with_ones_is_refused(rt: HostRuntime) {
    let mut writer = BitWriter::<u8, Msb0>::new(rt.alloc());
    ok(&rt, writer.write(64, 5));
    ok(&rt, writer.write(8, 0b01101_001));
    let bits = ok(&rt, writer.finish());
    let mut reader = BitReader::new(bits.as_bitslice());
    match reader.read_list() {
        Ok(_) => check(&rt, false),
        Err(why) => check(&rt, why == ListFault::FilledWithOnes),
    }
    check(&rt, reader.position() == 0);
}

#[test]
fn values_one_after_another(rt: HostRuntime) {
    let mut writer = BitWriter::<u64, Lsb0>::new(rt.alloc());
    let items = [true, false, true, true, false];
    ok(&rt, write_items(&items, &mut writer));
    let bits = ok(&rt, writer.finish());
    let mut reader = BitReader::new(bits.as_bitslice());
    match read_items::<bool, u64, Lsb0>(rt.alloc(), &mut reader, 6) {
        Ok(_) => check(&rt, false),
        Err(why) => check(&rt, why == ItemsError::Ended),
    }
    match read_items::<bool, u64, Lsb0>(rt.alloc(), &mut reader, 5) {
        Ok(read) => check(&rt, read.as_slice() == items.as_slice()),
        Err(_) => check(&rt, false),
    }
    check(&rt, reader.remaining() == 0);
}

// Three pairs of a number of three digits and a bit.
const PAIRS: [(Number<3>, bool); 3] = [
    (Number { value: 5 }, true),
    (Number { value: 0 }, false),
    (Number { value: 7 }, true),
];

#[test]
fn arrays_of_fields(rt: HostRuntime) {
    let mut writer = BitWriter::<u8, Msb0>::new(rt.alloc());
    ok(&rt, PAIRS.write(&mut writer));
    check(&rt, writer.len() == 12);
    let bits = ok(&rt, writer.finish());
    let mut reader = BitReader::new(bits.as_bitslice());
    check(&rt, reader.peek(12) == Some(0b1011_0000_1111));
    check(
        &rt,
        <[(Number<3>, bool); 3]>::read(&mut reader) == Some(PAIRS),
    );
    check(&rt, reader.position() == 12);
}

#[test]
fn nothing_is_read_of_half_an_array(rt: HostRuntime) {
    let bytes = BitSlice::<u8, Msb0>::from_slice(&[0b1010_0001, 0b1110_0000]);
    let mut reader = BitReader::new(bytes.get_range(..11));
    check(&rt, <[(Number<3>, bool); 3]>::read(&mut reader).is_none());
    check(&rt, reader.position() == 0);
    check(&rt, <[bool; 0]>::read(&mut reader).is_none());
}
