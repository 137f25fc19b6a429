// Straight reading and writing.
use crate::print;
use engine_base::refusal::Refusal;
use metroid_format::command::Kind;
use metroid_format::words;
use metroid_format::words::{ReadError, Reading, Writing};

fn print_words(words: &[u16]) {
    for word in words {
        print::hex(u64::from(*word), 4);
    }
}

fn print_number(text: &[u8], number: u64) {
    io::write_all(1, text);
    io::print_decimal(1, number);
}

fn print_refusal(refusal: Refusal) {
    print_number(b"refused ", u64::from(refusal.number()));
}

// Casts stay here: they narrow what is known to fit, have no `From`, or `From` would want its equation cited in each proof.
fn print_reading(reading: Reading) {
    match reading {
        Ok(count) => print_number(b"read ", count as u64),
        Err(ReadError::Byte(refusal, at)) => {
            print_refusal(refusal);
            print_number(b" at ", at as u64);
        }
        Err(ReadError::NoRoom) => print_refusal(Refusal::NoRoom),
    }
}

fn print_writing(writing: Writing) {
    match writing {
        Ok(count) => print_number(b"wrote ", count as u64),
        Err(refusal) => print_refusal(refusal),
    }
}

// The answer and the words.
fn show(bytes: &[u8]) {
    let mut list = [0; 256];
    let reading = words::read_words(Kind::Melodic, bytes, &mut list);
    print_reading(reading);
    if let Ok(count) = reading {
        print_words(list.get(..count).unwrap_or(&list));
    }
    io::write_all(1, b"\n");
}

// The answer alone.
fn show_count(bytes: &[u8]) {
    let mut list = [0; 256];
    print_reading(words::read_words(Kind::Melodic, bytes, &mut list));
    io::write_all(1, b"\n");
}

fn show_list(list: &[u16]) {
    let mut bytes = [0; 300];
    print_writing(words::write_words(Kind::Melodic, list, &mut bytes));
    io::write_all(1, b"\n");
}

// The triangle examples of document 001, each with an end, and the first without.
pub(crate) fn published() {
    show(b"\xca\xb0\x2a\x2a\x2a\x02\x02\xff\xb2\x34\x34\x00");
    show(b"\xca\xb0\x2a\x2a\x2a\x02\x02\xff\xb2\x34\x34");
    show(b"\xb0\x38\x3a\x00");
}

// Data as long as the limit, and longer.
pub(crate) fn limits() {
    let mut ends = [0xff; 300];
    show_count(&ends);
    ends[256] = 0;
    show_count(&ends);
    ends[255] = 0;
    show_count(&ends);
    ends[255] = 0xb0;
    show_count(&ends);
    ends[254] = 0xb0;
    ends[255] = 0x00;
    show_count(&ends);
}

// Lists as long as the limit, and longer.
pub(crate) fn lists() {
    let mut rests = [0x0002; 258];
    rests[255] = 0;
    show_list(&rests[..256]);
    rests[255] = 2;
    rests[256] = 0;
    show_list(&rests[..257]);
    let mut long = [0x2ab0; 129];
    long[128] = 0;
    show_list(&long);
    show_list(&long[1..]);
    long[127] = 0;
    show_list(&long[..128]);
}
