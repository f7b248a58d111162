//! Written files, against bytes written out by hand.

use crate::{Image, StackSize, write_elf};
use loader::load;
use std::alloc::Global;
use std::test::Fail;

/// `addi a0, x0, 42`, `addi a7, x0, 93` and `ecall`.
const TEXT: [u8; 12] = [
    0x13, 0x05, 0xA0, 0x02, 0x93, 0x08, 0xD0, 0x05, 0x73, 0, 0, 0,
];

/// The ELF header of each file.
const ELF_HEADER: [u8; 52] = [
    0x7F, 0x45, 0x4C, 0x46, 1, 1, 1, 0, 0, 0, 0, 0, 0, 0, 0, 0, //
    2, 0, 0xF3, 0, 1, 0, 0, 0, 0, 0x10, 1, 0, 0x34, 0, 0, 0, //
    0, 0, 0, 0, 0, 0, 0, 0, 0x34, 0, 0x20, 0, 3, 0, 0, 0, 0, 0, 0, 0,
];

/// The program headers of 12 bytes of text and 21 of data.
const PROGRAM_HEADERS: [u8; 96] = [
    1, 0, 0, 0, 0, 0x10, 0, 0, 0, 0x10, 1, 0, 0, 0x10, 1, 0, // text
    12, 0, 0, 0, 12, 0, 0, 0, 1, 0, 0, 0, 0, 0x10, 0, 0, //
    1, 0, 0, 0, 0, 0x20, 0, 0, 0, 0x20, 1, 0, 0, 0x20, 1, 0, // data
    21, 0, 0, 0, 21, 0, 0, 0, 6, 0, 0, 0, 0, 0x10, 0, 0, //
    1, 0, 0, 0, 0, 0, 0, 0, 0, 0, 0xF0, 0x7F, 0, 0, 0xF0, 0x7F, // stack
    0, 0, 0, 0, 0, 0, 0x10, 0, 6, 0, 0, 0, 0, 0x10, 0, 0,
];

/// The file of a text, and of data that is these bytes after 16 zero bytes.
fn written(alloc: Global, text: &[u8], objects: &[u8]) -> Result<Vec<u8>, Fail> {
    let text = Vec::from_slice(alloc, text)?;
    let mut statics = Vec::from_slice(alloc, &[0; 16])?;
    statics.extend_from_slice(objects)?;
    let image = Image::new(text, statics, StackSize::usual()).ok_or("too large")?;
    Ok(write_elf(alloc, &image)?)
}

#[test]
fn each_byte_of_a_file(rt: HostRuntime) -> Result<(), Fail> {
    let alloc = rt.alloc();
    let file = written(alloc, &TEXT, b"hello")?;
    let mut want = Vec::from_slice(alloc, &ELF_HEADER)?;
    want.extend_from_slice(&PROGRAM_HEADERS)?;
    want.resize(0x1000, 0)?;
    want.extend_from_slice(&TEXT)?;
    want.resize(0x2010, 0)?;
    want.extend_from_slice(b"hello")?;
    assert_eq!(rt; file.as_slice(), want.as_slice());
    Ok(())
}

#[test]
fn a_written_file_loads(rt: HostRuntime) -> Result<(), Fail> {
    let alloc = rt.alloc();
    let file = written(alloc, &TEXT, b"hello")?;
    let loaded = load(alloc, file.as_slice())?;
    assert_eq!(rt; loaded.entry(), 0x1_1000);
    let memory = loaded.into_memory();
    assert_eq!(rt; memory.fetch(0x1_1008), Some(0x73));
    assert_eq!(rt; memory.load_byte(0x1_1000), None);
    assert_eq!(rt; memory.load_byte(0x1_200F), Some(0));
    assert_eq!(rt; memory.load_byte(0x1_2014), Some(b'o'));
    assert_eq!(rt; memory.can_write(0x1_2014), true);
    assert_eq!(rt; memory.load_byte(0x1_2015), None);
    assert_eq!(rt; memory.load_byte(0x7FF0_0000), Some(0));
    assert_eq!(rt; memory.can_write(0x7FFF_FFFF), true);
    Ok(())
}

#[test]
fn an_empty_text_and_a_full_page(rt: HostRuntime) -> Result<(), Fail> {
    let alloc = rt.alloc();
    let empty = written(alloc, &[], b"")?;
    assert_eq!(rt; empty.len(), 0x1010, "the data takes the text's place");
    let loaded = load(alloc, empty.as_slice())?;
    let memory = loaded.into_memory();
    assert_eq!(rt; memory.fetch(0x1_1000), None);
    assert_eq!(rt; memory.load_byte(0x1_100F), Some(0));
    let mut page = Vec::new(alloc);
    page.resize(4096, 0x13)?;
    let full = written(alloc, page.as_slice(), b"")?;
    assert_eq!(rt; full.len(), 0x2010, "the data begins where the text ends");
    page.push(0x13)?;
    let over = written(alloc, page.as_slice(), b"")?;
    assert_eq!(rt; over.len(), 0x3010);
    Ok(())
}

#[test]
fn an_image_shows_its_parts(rt: HostRuntime) -> Result<(), Fail> {
    let alloc = rt.alloc();
    let text = Vec::from_slice(alloc, &TEXT)?;
    let statics = Vec::from_slice(alloc, b"abc")?;
    let image = Image::new(text, statics, StackSize::usual()).ok_or("too large")?;
    assert_eq!(rt; image.text(), TEXT.as_slice());
    assert_eq!(rt; image.statics(), b"abc".as_slice());
    assert_eq!(rt; image.stack().get(), 1_048_576);
    Ok(())
}

#[test]
fn sizes_of_stacks(rt: HostRuntime) -> Result<(), Fail> {
    for bytes in [4096, 5 * 4096, 16_777_216] {
        let size = StackSize::new(bytes).ok_or("a size")?;
        assert_eq!(rt; size.get(), bytes);
    }
    for bytes in [0, 4095, 5000, 16_777_217, 16_781_312] {
        assert_eq!(rt; StackSize::new(bytes), None);
    }
    Ok(())
}

#[test]
fn the_least_stack(rt: HostRuntime) -> Result<(), Fail> {
    let alloc = rt.alloc();
    let text = Vec::from_slice(alloc, &TEXT)?;
    let size = StackSize::new(4096).ok_or("a size")?;
    let image = Image::new(text, Vec::new(alloc), size).ok_or("too large")?;
    let file = write_elf(alloc, &image)?;
    let memory = load(alloc, file.as_slice())?.into_memory();
    assert_eq!(rt; memory.can_write(0x7FFF_F000), true);
    assert_eq!(rt; memory.can_write(0x7FFF_EFFF), false);
    Ok(())
}
