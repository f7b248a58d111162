//! The file of a program.
//!
//! System V gABI, chapter 4, "ELF Header", and chapter 5, "Program Header"; RISC-V ELF psABI, "ELF Object Files".

ghost use Rattle.std.specs.Prelude.{◌≡◌, ◌≢◌, ◌≤◌, ◌+◌, ◌++◌, length, vec_len, Ok, Err, IfOk, IfErr, OnOk};
ghost use Rattle.srcset.specs.Fault.{IsMemoryFault};
ghost use Rattle.loader.specs.declared.fault.LoadFault.{LoadFault};
ghost use Rattle.loader.specs.File.{file_image};
ghost use Rattle.memory_map.specs.MemoryMap.{max_image};
ghost use Rattle.elf_out.specs.Written as written;
ghost use Rattle.elf_out.specs.Written.{file_of, headers_of};
ghost use Rattle.elf_out.specs.Program.{program_image};

use crate::image::Image;
use byteorder::{ByteOrder, LittleEndian};
use memory_map::{OFFSET_TO_ADDRESS, PAGE, STACK_END, TEXT_OFFSET, TEXT_START, data_start};
use srcset::Fault;
use std::alloc::{AllocError, Global};

/// `ELFCLASS32`, `ELFDATA2LSB` and `EV_CURRENT`, after the four bytes that mark an ELF file.
const IDENTIFICATION: [u8; 16] = [0x7F, 0x45, 0x4C, 0x46, 1, 1, 1, 0, 0, 0, 0, 0, 0, 0, 0, 0];

/// `ET_EXEC`
const EXECUTABLE: u16 = 2;

/// `EM_RISCV`
const RISC_V: u16 = 243;

/// `PT_LOAD`
const LOAD: u32 = 1;

/// `PF_X`
const EXECUTE: u32 = 1;

/// `PF_R` and `PF_W`
const READ_AND_WRITE: u32 = 6;

const ELF_HEADER_SIZE: u16 = 52;

const PROGRAM_HEADER_SIZE: u16 = 32;

/// How many program headers there are.
const SEGMENTS: u16 = 3;

/// The fields of a program header of type `PT_LOAD`.
#[derive(Clone, Copy)]
struct Segment {
    offset: u32,
    address: u32,
    file_size: u32,
    memory_size: u32,
    flags: u32,
}

/// The ELF32 executable of an image.
///
/// It has three segments: the text from 0x00011000 on, where the program begins, which may only be
/// executed; the data, from the first multiple of 4096 not below the text's end on, which may be read and
/// written; and the stack, of as many bytes as the image says, which ends below 0x80000000, may be read and written, and of which the
/// file holds nothing. The file ends with the last byte of the data. It fails only when out of memory, with code 801.
pub fn write_elf(alloc: Global, image: &Image) -> Result<Vec<u8>, Fault>
    ensures bytes { IfOk result (λ file. file.items ≡ file_of image.now) }
    ensures image { IfOk result (λ file. file_image file.items ≡ Ok (program_image image.now)) }
    ensures loads { IfOk result (λ file. (fault : LoadFault) → file_image file.items ≢ Err fault) }
    ensures memory { IfErr result IsMemoryFault }
{
    let stack = image.stack().get();
    match file_bytes(alloc, image.text(), image.statics(), stack) {
        Ok(file) => Ok(file),
        Err(_) => Err(Fault::memory(alloc)),
    }
}

fn file_bytes(alloc: Global, text: &[u8], statics: &[u8], stack: u32) -> Result<Vec<u8>, AllocError>
    requires fits { length text.now + length statics.now ≤ max_image }
    requires small { stack ≤ 16777216 }
    ensures { IfOk result (λ file. file.items ≡ file_of (record { text = text.now; statics = statics.now; stack = stack })) }
{
    let data_offset = (data_start(text.len() as u32) - OFFSET_TO_ADDRESS) as usize;
    let size = data_offset + statics.len();
    let mut file = Vec::with_capacity(alloc, size)?;
    push_headers(&mut file, text.len() as u32, statics.len() as u32, stack)?;
    file.resize(TEXT_OFFSET as usize, 0)?;
    file.extend_from_slice(text)?;
    file.resize(data_offset, 0)?;
    file.extend_from_slice(statics)?;
    Ok(file)
}

/// The ELF header and the three program headers.
#[tactic(auto, unfolding(crate::specs::Written::headers_of))]
fn push_headers(
    file: &mut Vec<u8>,
    text_size: u32,
    statics_size: u32,
    stack: u32,
) -> Result<(), AllocError>
    requires fits { text_size + statics_size ≤ max_image }
    requires small { stack ≤ 16777216 }
    ensures { OnOk result (file.new.items ≡ file.old.items ++ headers_of text_size statics_size stack) }
{
    let data_address = data_start(text_size);
    push_elf_header(file)?;
    push_segment(
        file,
        &Segment {
            offset: TEXT_OFFSET,
            address: TEXT_START,
            file_size: text_size,
            memory_size: text_size,
            flags: EXECUTE,
        },
    )?;
    push_segment(
        file,
        &Segment {
            offset: data_address - OFFSET_TO_ADDRESS,
            address: data_address,
            file_size: statics_size,
            memory_size: statics_size,
            flags: READ_AND_WRITE,
        },
    )?;
    push_segment(
        file,
        &Segment {
            offset: 0,
            address: STACK_END - stack,
            file_size: 0,
            memory_size: stack,
            flags: READ_AND_WRITE,
        },
    )?;
    Ok(())
}

fn push_elf_header(file: &mut Vec<u8>) -> Result<(), AllocError>
    ensures { OnOk result (file.new.items ≡ file.old.items ++ written.elf_header) }
{
    file.extend_from_slice(&IDENTIFICATION)?;
    push_halves(file, &[EXECUTABLE, RISC_V])?;
    push_words(file, &[1, TEXT_START, ELF_HEADER_SIZE as u32, 0, 0])?;
    push_halves(
        file,
        &[ELF_HEADER_SIZE, PROGRAM_HEADER_SIZE, SEGMENTS, 0, 0, 0],
    )
}

fn push_segment(file: &mut Vec<u8>, segment: &Segment) -> Result<(), AllocError>
    ensures { OnOk result (file.new.items ≡ file.old.items ++ written.program_header segment.now.offset segment.now.address segment.now.file_size segment.now.memory_size segment.now.flags) }
{
    push_words(
        file,
        &[
            LOAD,
            segment.offset,
            segment.address,
            segment.address,
            segment.file_size,
            segment.memory_size,
            segment.flags,
            PAGE,
        ],
    )
}

/// Each number in two bytes, the lowest first.
fn push_halves(file: &mut Vec<u8>, halves: &[u16]) -> Result<(), AllocError>
    ensures { OnOk result (file.new.items ≡ file.old.items ++ written.halves halves.now) }
{
    for half in halves {
        let mut bytes = [0; 2];
        LittleEndian::write_u16(&mut bytes, *half);
        file.extend_from_slice(&bytes)?;
    }
    Ok(())
}

/// Each number in four bytes, the lowest first.
fn push_words(file: &mut Vec<u8>, words: &[u32]) -> Result<(), AllocError>
    ensures { OnOk result (file.new.items ≡ file.old.items ++ written.words words.now) }
{
    for word in words {
        let mut bytes = [0; 4];
        LittleEndian::write_u32(&mut bytes, *word);
        file.extend_from_slice(&bytes)?;
    }
    Ok(())
}
